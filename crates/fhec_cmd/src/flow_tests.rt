//! From programs to values over a store in memory, other seeds, changed files, and calls that fail.

use crate::tests::{CIRCUIT, LOOK_UP, SEED, TABLE, TABLE_DIGEST, does, flows};
use crate::worked::{WORKED, Worked};
use crate::{
    CertFile, FieldName, FileFault, FileKind, LimitFault, LimitName, ListName, Status, TableFault,
};
use port_store::{MemSink, MemStore};
use std::alloc::{AllocError, Global};
use std::test::Fail;

/// Two more seeds.
const SEEDS: [&str; 2] = [
    "0123456789abcdef0123456789abcdef0123456789abcdef0123456789abcdef",
    "ffffffffffffffffffffffffffffffffffffffffffffffffffffffffffffffff",
];

/// Two look-ups on one argument, and one on their sum.
const NESTED: &str =
    "func.func @main(%x: !FHE.eint<2>) -> (!FHE.eint<3>, !FHE.eint<2>, !FHE.eint<3>) {
  %s = arith.constant dense<[1, 3, 0, 2]> : tensor<4xi64>
  %t = arith.constant dense<[0, 1, 2, 3]> : tensor<4xi64>
  %u = arith.constant dense<[3, 1, 4, 1, 5, 2, 6, 0]> : tensor<8xi64>
  %0 = \"FHE.apply_lookup_table\"(%x, %s) : (!FHE.eint<2>, tensor<4xi64>) -> !FHE.eint<3>
  %1 = \"FHE.apply_lookup_table\"(%x, %t) : (!FHE.eint<2>, tensor<4xi64>) -> !FHE.eint<3>
  %2 = \"FHE.add_eint\"(%0, %1) : (!FHE.eint<3>, !FHE.eint<3>) -> !FHE.eint<3>
  %3 = \"FHE.apply_lookup_table\"(%2, %u) : (!FHE.eint<3>, tensor<8xi64>) -> !FHE.eint<3>
  return %3, %x, %2 : !FHE.eint<3>, !FHE.eint<2>, !FHE.eint<3>
}
";

/// A store with a program and a table.
fn store_of(alloc: Global, program: &str, table: &str) -> Result<MemStore, AllocError> {
    let mut store = MemStore::new(alloc);
    store.set("program", program.as_bytes())?;
    store.set("table", table.as_bytes())?;
    Ok(store)
}

/// What a command line answers over the store.
fn answer(alloc: Global, store: &mut MemStore, line: &str) -> Result<Status, AllocError> {
    let mut sink = MemSink::new(alloc);
    does(alloc, store, &mut sink, line)
}

const COMPILE: &str = "compile program table circuit cert";

#[test]
fn computes_programs(rt: HostRuntime) -> Result<(), Fail> {
    let alloc = rt.alloc();
    let [Worked { table, .. }, ..] = WORKED;
    let mut store = store_of(alloc, NESTED, table)?;
    assert_eq!(rt; answer(alloc, &mut store, COMPILE)?, Status::Ok);
    for (value, shown) in [
        ("0", b"1\n0\n1\n"),
        ("1", b"5\n1\n4\n"),
        ("2", b"4\n2\n2\n"),
        ("3", b"2\n3\n5\n"),
    ] {
        let put = flows(alloc, &mut store, SEED, "eval", value)?.ok_or("a program")?;
        assert_eq!(rt; put.bytes(), shown.as_slice(), "{value}");
        let mut clear = MemSink::new(alloc);
        let status = does(alloc, &mut store, &mut clear, "clear program values")?;
        assert_eq!(rt; status, Status::Ok);
        assert_eq!(rt; clear.bytes(), shown.as_slice(), "{value}");
    }
    Ok(())
}

/// The circuit that looks each of sixteen inputs up in one table, without its last entries.
fn sixteen_look_ups(alloc: Global, entries: &str) -> Result<String, AllocError> {
    let head = "width 4\nglwe 1 8 4 1024\nlwe 8 2 1048576\nboot 8 4\nswitch 4 6\n";
    let mut text = format!(in alloc; "fhec circuit 1\n{head}")?;
    for at in 0_u32..16 {
        let line = format!(in alloc; "%{at} = input 0 15\n")?;
        text.push_str(line.as_str())?;
    }
    for at in 0_u32..16 {
        let switch = at.wrapping_mul(2).wrapping_add(16);
        let boot = switch.wrapping_add(1);
        let lines = format!(in alloc;
            "%{switch} = switch %{at}\n%{boot} = boot %{switch}{entries}\n"
        )?;
        text.push_str(lines.as_str())?;
    }
    for at in 0_u32..16 {
        let boot = at.wrapping_mul(2).wrapping_add(17);
        let line = format!(in alloc; "out %{boot} 0 15\n")?;
        text.push_str(line.as_str())?;
    }
    text.push_str("end\n")?;
    Ok(text)
}

#[test]
fn looks_up_sixteen_values_under_one_key(rt: HostRuntime) -> Result<(), Fail> {
    let alloc = rt.alloc();
    let circuit = sixteen_look_ups(alloc, " 7 0 15 3 9 1 12 4 14 2 8 11 6 5 13 10")?;
    let mut store = MemStore::new(alloc);
    store.set("circuit", circuit.as_bytes())?;
    let values = "0\n1\n2\n3\n4\n5\n6\n7\n8\n9\n10\n11\n12\n13\n14\n15\n";
    let put = flows(alloc, &mut store, SEED, "eval", values)?.ok_or("sixteen look-ups")?;
    let shown = b"7\n0\n15\n3\n9\n1\n12\n4\n14\n2\n8\n11\n6\n5\n13\n10\n";
    assert_eq!(rt; put.bytes(), shown.as_slice());
    Ok(())
}

#[test]
fn takes_any_seed(rt: HostRuntime) -> Result<(), Fail> {
    let alloc = rt.alloc();
    let mut store = MemStore::new(alloc);
    for seed in SEEDS {
        store.set("circuit", CIRCUIT.as_bytes())?;
        let put = flows(alloc, &mut store, seed, "-", "1\n2\n")?.ok_or("the sum")?;
        assert_eq!(rt; put.bytes(), b"3\n".as_slice());
        store.set("circuit", LOOK_UP.as_bytes())?;
        for (value, shown) in [("0", b"1\n"), ("1", b"0\n")] {
            let put = flows(alloc, &mut store, seed, "eval", value)?.ok_or("a look-up of a bit")?;
            assert_eq!(rt; put.bytes(), shown.as_slice(), "{value}");
        }
    }
    store.set("circuit", TABLE.as_bytes())?;
    for (value, shown) in [("0", b"1\n"), ("1", b"3\n"), ("2", b"0\n"), ("3", b"2\n")] {
        let put = flows(alloc, &mut store, SEEDS[0], "eval", value)?.ok_or("a look-up")?;
        assert_eq!(rt; put.bytes(), shown.as_slice(), "{value}");
    }
    Ok(())
}

/// The inputs that a seed gives, as `encrypt` writes them under the keys in the store.
fn inputs_of(alloc: Global, store: &mut MemStore, seed: &str) -> Result<Vec<u8>, Fail> {
    let line = format!(in alloc; "encrypt circuit keys {seed} values again")?;
    if answer(alloc, store, line.as_str())? != Status::Ok {
        return Err(Fail::from("no inputs"));
    }
    Ok(store.bytes("again").unwrap_or(b"").to_vec(alloc)?)
}

#[test]
fn encrypts_alike_with_one_seed(rt: HostRuntime) -> Result<(), Fail> {
    let alloc = rt.alloc();
    let mut store = MemStore::new(alloc);
    store.set("circuit", TABLE.as_bytes())?;
    flows(alloc, &mut store, SEED, "eval", "2")?.ok_or("a look-up")?;
    let first = inputs_of(alloc, &mut store, SEED)?;
    assert_eq!(rt; store.bytes("inputs"), Some(first.as_slice()));
    for seed in SEEDS {
        assert!(rt; inputs_of(alloc, &mut store, seed)? != first);
    }
    Ok(())
}

#[test]
fn a_constant_needs_no_keys(rt: HostRuntime) -> Result<(), Fail> {
    let alloc = rt.alloc();
    let [_, _, _, _, _, _, constant, ..] = WORKED;
    let mut store = store_of(alloc, constant.program, constant.table)?;
    assert_eq!(rt; answer(alloc, &mut store, COMPILE)?, Status::Ok);
    let put = flows(alloc, &mut store, SEED, "-", "3\n")?.ok_or("the constant")?;
    assert_eq!(rt; put.bytes(), b"5\n".as_slice());
    let keygen = format!(in alloc; "keygen circuit {SEED} keys eval")?;
    assert_eq!(rt; answer(alloc, &mut store, keygen.as_str())?, Status::Usage);
    let run = answer(alloc, &mut store, "run circuit eval inputs other")?;
    assert_eq!(rt; run, Status::Usage);
    Ok(())
}

/// A table with each of its entries given twelve times.
fn twelvefold(alloc: Global, table: &str) -> Result<String, AllocError> {
    let mut text = String::new(alloc);
    for part in table.split("\n\n") {
        let times = if part.starts_with("[cost]") { 1 } else { 12 };
        for _ in 0..times {
            text.push_str(part)?;
            text.push_str("\n\n")?;
        }
    }
    Ok(text)
}

#[test]
fn searches_all_choices(rt: HostRuntime) -> Result<(), Fail> {
    let alloc = rt.alloc();
    let [_, _, look_up, _, _, _, _, _, _, _, large_error, ..] = WORKED;
    let table = twelvefold(alloc, look_up.table)?;
    let mut store = store_of(alloc, look_up.program, table.as_str())?;
    assert_eq!(rt; answer(alloc, &mut store, COMPILE)?, Status::Ok);
    assert!(rt; store.bytes("cert") == Some(look_up.cert.as_bytes()));
    assert!(rt; store.bytes("circuit") == look_up.circuit.map(str::as_bytes));
    let table = twelvefold(alloc, large_error.table)?;
    let mut store = store_of(alloc, large_error.program, table.as_str())?;
    assert_eq!(rt; answer(alloc, &mut store, COMPILE)?, Status::NoChoice);
    assert_eq!(rt; store.bytes("circuit"), None);
    let cert = std::str::from_utf8(store.bytes("cert").unwrap_or(b"")).unwrap_or("");
    let wanted = |line: &str| {
        format!(in alloc;
            "refused {line} cost 275968 boot 0 18446744073709551616 1152921504606846976"
        )
    };
    assert_eq!(rt; cert.lines().nth(4), Some(wanted("0 0 0 0")?.as_str()));
    assert_eq!(rt; cert.lines().nth(5), Some(wanted("0 0 0 1")?.as_str()));
    assert_eq!(rt;
        cert.lines().nth(20_739),
        Some(wanted("11 11 11 11")?.as_str())
    );
    assert_eq!(rt; cert.lines().nth(20_740), Some("none"));
    Ok(())
}

#[test]
fn refuses_tables(rt: HostRuntime) -> Result<(), Fail> {
    let alloc = rt.alloc();
    let [_, _, Worked { program, table, .. }, ..] = WORKED;
    let (cost, level) = ("[cost]\nswitch = 1\nboot = 1\nlin = 1\n", "level = 4");
    for (old, new, list, field) in [
        (level, "level = 8", ListName::Boot, FieldName::Level),
        (cost, "", ListName::Cost, FieldName::List),
        ("ones = 4", "ones = 257", ListName::Glwe, FieldName::Ones),
        ("ones = 2", "ones = 2.0", ListName::Lwe, FieldName::Ones),
        (
            "[[switch]]\nbase = 4",
            "[[switch]]",
            ListName::Switch,
            FieldName::Base,
        ),
    ] {
        let changed = table.replace(alloc, old, new)?;
        let mut store = store_of(alloc, program, changed.as_str())?;
        let fault = TableFault::Field {
            list,
            entry: 0,
            field,
        };
        assert_eq!(rt; answer(alloc, &mut store, COMPILE)?, Status::Table(fault));
        assert_eq!(rt; store.bytes("cert"), None);
    }
    let mut store = store_of(alloc, program, "[cost")?;
    let fault = Status::Table(TableFault::Toml);
    assert_eq!(rt; answer(alloc, &mut store, COMPILE)?, fault);
    Ok(())
}

#[test]
fn finds_lines_that_are_exchanged(rt: HostRuntime) -> Result<(), Fail> {
    let alloc = rt.alloc();
    let [_, _, _, _, dearer, ..] = WORKED;
    let mut text = String::new(alloc);
    for at in [0, 1, 2, 3, 5, 4, 6, 7, 8, 9, 10, 11, 12] {
        text.push_str(dearer.cert.lines().nth(at).unwrap_or("none"))?;
        text.push('\n')?;
    }
    let mut store = store_of(alloc, dearer.program, dearer.table)?;
    store.set("cert", text.as_bytes())?;
    store.set("circuit", dearer.circuit.unwrap_or("").as_bytes())?;
    let file = CertFile::Cert;
    let status = answer(alloc, &mut store, "check program table circuit cert")?;
    assert_eq!(rt; status, Status::Certificate { file, line: 5 });
    Ok(())
}

#[test]
fn refuses_long_files(rt: HostRuntime) -> Result<(), Fail> {
    let alloc = rt.alloc();
    let [_, _, look_up, ..] = WORKED;
    for (name, count, line) in [
        ("program", 1_048_577, COMPILE),
        ("table", 65_537, COMPILE),
        ("values", 65_537, "clear program values"),
    ] {
        let mut store = store_of(alloc, look_up.program, look_up.table)?;
        let long = vec![in alloc; b' '; count]?;
        store.set(name, long.as_slice())?;
        let fault = LimitFault {
            what: LimitName::Bytes,
            count: count as u128,
            most: (count - 1) as u128,
        };
        assert_eq!(rt; answer(alloc, &mut store, line)?, Status::Limit(fault));
        assert_eq!(rt; store.bytes("cert"), None);
    }
    Ok(())
}

/// All files of a worked look-up on a value.
fn files_of(alloc: Global, row: &Worked, value: &str) -> Result<MemStore, Fail> {
    let mut store = store_of(alloc, row.program, row.table)?;
    store.set("circuit", row.circuit.unwrap_or("").as_bytes())?;
    store.set("cert", row.cert.as_bytes())?;
    flows(alloc, &mut store, SEED, "eval", value)?.ok_or("a look-up")?;
    Ok(store)
}

/// A store with the same files, but for some that hold what was there before a command.
fn copied(alloc: Global, files: &MemStore, old: &[&str]) -> Result<MemStore, AllocError> {
    let mut store = MemStore::new(alloc);
    for name in [
        "program", "table", "circuit", "cert", "keys", "eval", "values", "inputs", "output",
    ] {
        let held = if old.contains(&name) {
            b"old"
        } else {
            files.bytes(name).unwrap_or(b"")
        };
        store.set(name, held)?;
    }
    Ok(store)
}

/// Whether files were written in this order: one that is not whole is as it was or holds the beginning of its bytes, and
/// those after it are as they were.
fn are_begun(store: &MemStore, files: &MemStore, names: &[&str]) -> bool {
    let mut whole = true;
    for name in names {
        let left = store.bytes(name).unwrap_or(b"");
        let wanted = files.bytes(name).unwrap_or(b"");
        if left != b"old".as_slice() && !(whole && wanted.starts_with(left)) {
            return false;
        }
        whole = left == wanted;
    }
    true
}

#[test]
fn tells_which_call_failed(rt: HostRuntime) -> Result<(), Fail> {
    let alloc = rt.alloc();
    let [.., bit] = WORKED;
    let files = files_of(alloc, &bit, "1")?;
    let keygen = format!(in alloc; "keygen circuit {SEED} keys eval")?;
    let encrypt = format!(in alloc; "encrypt circuit keys {SEED} values inputs")?;
    let none: [&str; 0] = [];
    // Reading takes two calls a file, and writing one to make the file and one to fill it.
    for (line, reads, calls, written) in [
        (COMPILE, 4, 8, ["cert", "circuit"].as_slice()),
        ("check program table circuit cert", 8, 8, none.as_slice()),
        ("clear program values", 4, 4, none.as_slice()),
        (keygen.as_str(), 2, 6, ["keys", "eval"].as_slice()),
        (encrypt.as_str(), 6, 8, ["inputs"].as_slice()),
        (
            "run circuit eval inputs output",
            6,
            8,
            ["output"].as_slice(),
        ),
        ("decrypt keys output", 4, 4, none.as_slice()),
    ] {
        for call in 0_u64..=calls {
            for kept in [0, 100] {
                let mut store = copied(alloc, &files, written)?;
                store.fail(call, kept)?;
                let mut sink = MemSink::new(alloc);
                let status = does(alloc, &mut store, &mut sink, line)?;
                let wanted = if call < reads {
                    Status::Read
                } else if call < calls {
                    Status::Write
                } else {
                    Status::Ok
                };
                assert_eq!(rt; status, wanted, "{line}, call {call}");
                assert!(rt; are_begun(&store, &files, written), "{line}, call {call}");
                assert!(rt; call == calls || sink.bytes().is_empty());
            }
        }
    }
    Ok(())
}

#[test]
fn tells_when_nothing_can_be_put(rt: HostRuntime) -> Result<(), Fail> {
    let alloc = rt.alloc();
    let [.., bit] = WORKED;
    let mut store = files_of(alloc, &bit, "1")?;
    for line in ["clear program values", "decrypt keys output"] {
        let mut sink = MemSink::new(alloc);
        sink.fail(0, 1)?;
        let status = does(alloc, &mut store, &mut sink, line)?;
        assert_eq!(rt; status, Status::Write, "{line}");
        assert_eq!(rt; sink.bytes(), b"0".as_slice());
    }
    Ok(())
}

/// A file with so many bytes, and with one of them changed where a place is given.
fn changed(
    alloc: Global,
    file: &[u8],
    size: usize,
    place: Option<usize>,
) -> Result<Vec<u8>, AllocError> {
    let mut bytes = file.to_vec(alloc)?;
    bytes.resize(size, 0)?;
    if let Some(place) = place {
        for byte in bytes.iter_mut().skip(place).take(1) {
            *byte ^= 1;
        }
    }
    Ok(bytes)
}

#[test]
fn refuses_changed_files(rt: HostRuntime) -> Result<(), Fail> {
    let alloc = rt.alloc();
    let [_, _, look_up, ..] = WORKED;
    let mut store = files_of(alloc, &look_up, "2")?;
    let run = "run circuit eval inputs other";
    for (name, line, kind, head, size) in [
        ("keys", "decrypt keys output", FileKind::Secret, 88, 2_200),
        ("eval", run, FileKind::Eval, 112, 372_848),
        ("inputs", run, FileKind::Cipher, 96, 2_168),
    ] {
        let file = store.bytes(name).unwrap_or(b"").to_vec(alloc)?;
        assert_eq!(rt; file.len(), size);
        let length = |want: usize, have: usize| FileFault::Length {
            want: want as u64,
            have: have as u64,
        };
        for (len, place, fault) in [
            (0, None, length(head, 0)),
            (head - 1, None, length(head, head - 1)),
            (size - 1, None, length(size, size - 1)),
            (size + 1, None, length(size, size + 1)),
            (size, Some(0), FileFault::Magic),
            (size, Some(size - 1), FileFault::Digest),
            (size, Some(size / 2), FileFault::Digest),
        ] {
            let bytes = changed(alloc, file.as_slice(), len, place)?;
            store.set(name, bytes.as_slice())?;
            let status = answer(alloc, &mut store, line)?;
            assert_eq!(rt; status, Status::File(kind, fault), "{name} of {len}");
            assert_eq!(rt; store.bytes("other"), None);
        }
        store.set(name, file.as_slice())?;
    }
    Ok(())
}

/// The SHA-256 of the parameter lines of the smaller ring, by Python's `hashlib`.
#[rattlefmt::skip]
const SMALL_RING_DIGEST: [u8; 32] = [
    217, 22, 27, 161, 12, 82, 145, 235, 11, 180, 156, 184, 138, 241, 230, 37,
    214, 1, 77, 13, 186, 181, 76, 114, 157, 62, 249, 67, 119, 184, 243, 41,
];

#[test]
fn refuses_keys_of_another_circuit(rt: HostRuntime) -> Result<(), Fail> {
    let alloc = rt.alloc();
    let [_, _, look_up, cheaper, ..] = WORKED;
    let mut store = files_of(alloc, &look_up, "2")?;
    store.set("small", cheaper.circuit.unwrap_or("").as_bytes())?;
    let keygen = format!(in alloc; "keygen small {SEED} small_keys small_eval")?;
    assert_eq!(rt; answer(alloc, &mut store, keygen.as_str())?, Status::Ok);
    let encrypt = format!(in alloc; "encrypt circuit small_keys {SEED} values other")?;
    let (left, right) = (TABLE_DIGEST, SMALL_RING_DIGEST);
    let other_keys = FileFault::Mismatch { left, right };
    let other_circuit = FileFault::Mismatch {
        left: right,
        right: left,
    };
    for (line, kind, fault) in [
        (
            "run circuit small_eval inputs other",
            FileKind::Eval,
            other_keys,
        ),
        (encrypt.as_str(), FileKind::Secret, other_keys),
        (
            "run small small_eval inputs other",
            FileKind::Cipher,
            other_circuit,
        ),
        ("decrypt small_keys output", FileKind::Cipher, other_circuit),
    ] {
        let status = answer(alloc, &mut store, line)?;
        assert_eq!(rt; status, Status::File(kind, fault), "{line}");
        assert_eq!(rt; store.bytes("other"), None);
    }
    Ok(())
}
