//! Commands over a store and a sink in memory.

ghost use Rattle.std.specs.Prelude.{None};

use crate::{
    CircuitFault, CircuitKind, FileFault, FileKind, LimitFault, LimitName, Status, ValueKind, fhec,
};
use port_store::{MemSink, MemStore, PortFault, Store};
use sha2::{Digest, Sha256};
use std::alloc::{AllocError, Global};
use std::test::Fail;

/// The circuit that adds an input from 0 to 1 and one from 0 to 2.
pub(crate) const CIRCUIT: &str = "fhec circuit 1
width 2
glwe 1 1 1 3
lwe 1 0 0
boot 1 1
switch 1 1
%0 = input 0 1
%1 = input 0 2
%2 = lin 0 1 %0 1 %1
out %2 0 3
end
";

/// The file of (5, 7; 2305843009213693960) and (18446744073709551615, 0; 4611686018427387901), made for the
/// circuit. Its digests are those of Python's `hashlib`.
#[rattlefmt::skip]
const INPUTS: [u8; 176] = [
    70, 72, 69, 67, 67, 73, 80, 49, 236, 183, 102, 5, 160, 59, 252, 117,
    12, 211, 94, 106, 146, 58, 189, 229, 63, 116, 218, 113, 27, 182, 99, 194,
    186, 32, 93, 237, 156, 140, 107, 255, 2, 0, 0, 0, 0, 0, 0, 0,
    2, 0, 0, 0, 0, 0, 0, 0, 2, 0, 0, 0, 0, 0, 0, 0,
    0, 0, 0, 0, 0, 0, 0, 0, 1, 0, 0, 0, 0, 0, 0, 0,
    0, 0, 0, 0, 0, 0, 0, 0, 2, 0, 0, 0, 0, 0, 0, 0,
    5, 0, 0, 0, 0, 0, 0, 0, 7, 0, 0, 0, 0, 0, 0, 0,
    8, 0, 0, 0, 0, 0, 0, 32, 255, 255, 255, 255, 255, 255, 255, 255,
    0, 0, 0, 0, 0, 0, 0, 0, 253, 255, 255, 255, 255, 255, 255, 63,
    18, 205, 6, 133, 184, 196, 18, 104, 175, 149, 162, 74, 180, 159, 201, 236,
    211, 94, 231, 187, 85, 165, 160, 27, 193, 114, 21, 210, 103, 6, 90, 149,
];

/// The file of (4, 7; 6917529027641081861), their sum word by word.
#[rattlefmt::skip]
const OUTPUT: [u8; 136] = [
    70, 72, 69, 67, 67, 73, 80, 49, 236, 183, 102, 5, 160, 59, 252, 117,
    12, 211, 94, 106, 146, 58, 189, 229, 63, 116, 218, 113, 27, 182, 99, 194,
    186, 32, 93, 237, 156, 140, 107, 255, 2, 0, 0, 0, 0, 0, 0, 0,
    2, 0, 0, 0, 0, 0, 0, 0, 1, 0, 0, 0, 0, 0, 0, 0,
    0, 0, 0, 0, 0, 0, 0, 0, 3, 0, 0, 0, 0, 0, 0, 0,
    4, 0, 0, 0, 0, 0, 0, 0, 7, 0, 0, 0, 0, 0, 0, 0,
    5, 0, 0, 0, 0, 0, 0, 96, 178, 218, 97, 8, 96, 231, 189, 151,
    219, 239, 37, 60, 117, 68, 5, 251, 74, 179, 160, 46, 114, 41, 181, 225,
    240, 72, 132, 52, 6, 237, 60, 8,
];

/// The words of a command line.
fn words_of(alloc: Global, line: &str) -> Result<Vec<String>, AllocError> {
    let mut words = Vec::new(alloc);
    for word in line.split_whitespace() {
        words.push(String::from_str(alloc, word)?)?;
    }
    Ok(words)
}

/// A store with a circuit, a ciphertext file and an old output.
fn store_of(alloc: Global, circuit: &[u8], inputs: &[u8]) -> Result<MemStore, AllocError> {
    let mut store = MemStore::new(alloc);
    store.set("circuit", circuit)?;
    store.set("inputs", inputs)?;
    store.set("output", b"old")?;
    Ok(store)
}

/// What `run circuit - inputs output` answers over the store, with no sink but an empty one.
fn run_over(alloc: Global, store: &mut MemStore) -> Result<Status, AllocError> {
    let words = words_of(alloc, "run circuit - inputs output")?;
    let mut sink = MemSink::new(alloc);
    Ok(fhec(alloc, &words, store, &mut sink))
}

#[test]
fn sums_two_inputs(rt: HostRuntime) -> Result<(), Fail> {
    let alloc = rt.alloc();
    let mut long = String::new(alloc);
    for _ in 0..300 {
        long.push('n')?;
    }
    assert!(rt; sums(alloc, "circuit", "inputs", "output")?);
    assert!(rt; sums(alloc, "a", "b", "c")?);
    assert!(rt; sums(alloc, "-", "b", &long)?);
    Ok(())
}

/// Whether `run` over a store with these names is done, writes the sum, and leaves all else.
fn sums(alloc: Global, circuit: &str, inputs: &str, output: &str) -> Result<bool, AllocError> {
    let mut store = MemStore::new(alloc);
    store.set(circuit, CIRCUIT.as_bytes())?;
    store.set(inputs, &INPUTS)?;
    let mut sink = MemSink::new(alloc);
    let line = format!(in alloc; "run {circuit} - {inputs} {output}")?;
    let words = words_of(alloc, &line)?;
    let answer = fhec(alloc, &words, &mut store, &mut sink);
    Ok(
        answer == Status::Ok
            && store.bytes(output) == Some(OUTPUT.as_slice())
            && store.bytes(circuit) == Some(CIRCUIT.as_bytes())
            && store.bytes(inputs) == Some(INPUTS.as_slice())
            && sink.bytes().is_empty(),
    )
}

/// The fault of an empty circuit text.
const NO_CIRCUIT: Status = Status::Circuit(CircuitFault {
    line: 1,
    kind: CircuitKind::Spelling,
});

#[test]
fn refuses_words(rt: HostRuntime) -> Result<(), Fail> {
    let alloc = rt.alloc();
    let seed = "0123456789abcdef0123456789abcdef0123456789abcdef0123456789abcdef";
    let upper = "0123456789ABCDEF0123456789ABCDEF0123456789ABCDEF0123456789ABCDEF";
    for (before, given, after) in [
        ("", "", ""),
        ("", "load", "0"),
        ("run", "", ""),
        ("run circuit - inputs", "", ""),
        ("run circuit - inputs output more", "", ""),
        ("run circuit - circuit output", "", ""),
        ("run circuit - inputs inputs", "", ""),
        ("run circuit output inputs output", "", ""),
        ("Run circuit - inputs output", "", ""),
        ("--help", "", ""),
        ("keygen circuit", upper, "keys -"),
        ("keygen circuit", &seed[..63], "keys -"),
        ("keygen circuit", seed, "keys"),
        ("keygen circuit", seed, "circuit -"),
        ("keygen circuit", seed, "keys keys"),
        ("encrypt circuit keys", "seed", "values inputs"),
        ("encrypt circuit keys", seed, "values keys"),
        ("decrypt keys", "", ""),
        ("decrypt keys keys", "", ""),
    ] {
        let mut store = store_of(alloc, CIRCUIT.as_bytes(), &INPUTS)?;
        // A call of the store would fail and be answered with Read.
        store.fail(0, 0)?;
        let mut sink = MemSink::new(alloc);
        let line = format!(in alloc; "{before} {given} {after}")?;
        let words = words_of(alloc, &line)?;
        assert_eq!(rt;
            fhec(alloc, &words, &mut store, &mut sink),
            Status::Usage,
            "{line}"
        );
        assert_eq!(rt; store.bytes("output"), Some(b"old".as_slice()));
    }
    // Evaluation keys for a circuit without a bootstrap, which is seen once the circuit is read, and before the inputs.
    let words = words_of(alloc, "run circuit keys inputs output")?;
    for (circuit, inputs, answer) in [
        (CIRCUIT.as_bytes(), INPUTS.as_slice(), Status::Usage),
        (CIRCUIT.as_bytes(), b"".as_slice(), Status::Usage),
        (b"".as_slice(), INPUTS.as_slice(), NO_CIRCUIT),
    ] {
        let mut store = store_of(alloc, circuit, inputs)?;
        let mut sink = MemSink::new(alloc);
        assert_eq!(rt; fhec(alloc, &words, &mut store, &mut sink), answer);
        assert_eq!(rt; store.bytes("output"), Some(b"old".as_slice()));
    }
    Ok(())
}

/// The head of a circuit of this width, with the parameters of `CIRCUIT`, and these lines.
fn circuit_of(alloc: Global, width: u32, lines: &str) -> Result<String, AllocError> {
    let head = "glwe 1 1 1 3\nlwe 1 0 0\nboot 1 1\nswitch 1 1";
    format!(in alloc; "fhec circuit 1\nwidth {width}\n{head}\n{lines}end\n")
}

/// A ciphertext file of dimension 2 for the parameters of `CIRCUIT`, made from its fields.
fn file_of(
    alloc: Global,
    width: u64,
    ranges: &[(i64, i64)],
    rows: &[[u64; 3]],
) -> Result<Vec<u8>, AllocError> {
    let mut file = Vec::new(alloc);
    file.extend_from_slice(&INPUTS[..40])?;
    for field in [2, width, ranges.len() as u64] {
        file.extend_from_slice(&field.to_le_bytes())?;
    }
    for range in ranges {
        file.extend_from_slice(&range.0.to_le_bytes())?;
        file.extend_from_slice(&range.1.to_le_bytes())?;
    }
    for row in rows {
        for word in row {
            file.extend_from_slice(&word.to_le_bytes())?;
        }
    }
    let seal = Sha256::digest(file.as_slice());
    file.extend_from_slice(&seal)?;
    Ok(file)
}

#[test]
fn evaluates_circuits(rt: HostRuntime) -> Result<(), Fail> {
    let alloc = rt.alloc();
    let rows = [[5, 7, 100], [1, 2, 3], [u64::MAX, u64::MAX - 1, 1 << 63]];
    let one = [(0, 15)];
    let three = [(0, 1), (0, 2), (-1, 0)];
    for (width, ranges, lines, out_ranges, outs) in [
        // An output of an input copies its words.
        (
            4,
            one.as_slice(),
            "%0 = input 0 15\nout %0 0 15\n",
            [(0, 15)].as_slice(),
            [[5, 7, 100]].as_slice(),
        ),
        // A sum without terms is its constant: 5 times 2^62.
        (
            1,
            one.as_slice(),
            "%0 = input 0 15\n%1 = lin 5\nout %1 5 5\n",
            [(5, 5)].as_slice(),
            [[0, 0, 1 << 62]].as_slice(),
        ),
        // Negative weights and a negative constant, two outputs of one node, and one of an input.
        (
            3,
            three.as_slice(),
            "%0 = input 0 1\n%1 = input 0 2\n%2 = input -1 0\n%3 = lin -3 -2 %0 1 %1\nout %3 -5 -1\nout %1 0 2\nout %3 -5 -1\n",
            [(-5, -1), (0, 2), (-5, -1)].as_slice(),
            [
                [
                    18_446_744_073_709_551_607,
                    18_446_744_073_709_551_604,
                    14_987_979_559_889_010_491,
                ],
                [1, 2, 3],
                [
                    18_446_744_073_709_551_607,
                    18_446_744_073_709_551_604,
                    14_987_979_559_889_010_491,
                ],
            ]
            .as_slice(),
        ),
        // Three terms and a constant.
        (
            4,
            three.as_slice(),
            "%0 = input 0 1\n%1 = input 0 2\n%2 = input -1 0\n%3 = lin 2 7 %0 1 %1 -1 %2\nout %3 2 12\n",
            [(2, 12)].as_slice(),
            [[37, 53, 10_376_293_541_461_623_487]].as_slice(),
        ),
    ] {
        let circuit = circuit_of(alloc, width, lines)?;
        let inputs = file_of(alloc, u64::from(width), ranges, &rows[..ranges.len()])?;
        let mut store = store_of(alloc, circuit.as_bytes(), &inputs)?;
        assert_eq!(rt; run_over(alloc, &mut store)?, Status::Ok, "{lines}");
        let wanted = file_of(alloc, u64::from(width), out_ranges, outs)?;
        assert_eq!(rt; store.bytes("output"), Some(wanted.as_slice()), "{lines}");
    }
    Ok(())
}

#[test]
fn tells_missing_and_long_files(rt: HostRuntime) -> Result<(), Fail> {
    let alloc = rt.alloc();
    let mut store = MemStore::new(alloc);
    store.set("output", b"old")?;
    assert_eq!(rt; run_over(alloc, &mut store)?, Status::Read);
    store.set("circuit", CIRCUIT.as_bytes())?;
    assert_eq!(rt; run_over(alloc, &mut store)?, Status::Read);
    assert_eq!(rt; store.bytes("output"), Some(b"old".as_slice()));
    for (circuit, count, most) in [
        (134_217_729, 134_217_729, 134_217_728),
        (CIRCUIT.len() as u64, 536_870_913, 536_870_912),
    ] {
        let words = words_of(alloc, "run circuit - inputs output")?;
        let mut sink = MemSink::new(alloc);
        let answer = fhec(alloc, &words, &mut LongFiles { circuit }, &mut sink);
        let what = LimitName::Bytes;
        assert_eq!(rt; answer, Status::Limit(LimitFault { what, count, most }));
    }
    Ok(())
}

/// A store whose file `circuit` has the given size and holds the circuit, and whose other files have 2^29 + 1 bytes.
#[derive(Drop)]
struct LongFiles {
    circuit: u64,
}

impl Store for LongFiles {
    ghost files = { λ _. None };

    ghost shown = { λ _. None };

    ghost read_faults = { λ _. 0 };

    ghost write_faults = { λ _. 0 };

    fn size(&mut self, name: &str) -> Result<u64, PortFault> {
        Ok(if name == "circuit" {
            self.circuit
        } else {
            536_870_913
        })
    }

    fn read_at(&mut self, _name: &str, at: u64, buffer: &mut [u8]) -> Result<usize, PortFault> {
        let text = CIRCUIT.as_bytes();
        let start = text.len().min(at as usize);
        let count = buffer.len().min(text.len() - start);
        buffer[..count].copy_from_slice(&text[start..start + count]);
        Ok(count)
    }

    fn create(&mut self, _name: &str) -> Result<(), PortFault> {
        Ok(())
    }

    fn append(&mut self, _name: &str, _bytes: &[u8]) -> Result<(), PortFault> {
        Ok(())
    }
}

#[test]
fn tells_failing_calls(rt: HostRuntime) -> Result<(), Fail> {
    let alloc = rt.alloc();
    // Both files take a call for the size and one for the bytes, and the output one to make it and one to fill it.
    for (call, kept, answer, left) in [
        (0, 0, Status::Read, b"old".as_slice()),
        (1, 0, Status::Read, b"old".as_slice()),
        (2, 0, Status::Read, b"old".as_slice()),
        (3, 100, Status::Read, b"old".as_slice()),
        (4, 0, Status::Write, b"old".as_slice()),
        (5, 0, Status::Write, [].as_slice()),
        (5, 100, Status::Write, &OUTPUT[..100]),
        (60, 0, Status::Ok, OUTPUT.as_slice()),
    ] {
        let mut store = store_of(alloc, CIRCUIT.as_bytes(), &INPUTS)?;
        store.fail(call, kept)?;
        assert_eq!(rt; run_over(alloc, &mut store)?, answer, "call {call}");
        assert_eq!(rt; store.bytes("output"), Some(left), "call {call}");
        // A later command without a fault is done.
        assert_eq!(rt; run_over(alloc, &mut store)?, Status::Ok);
        assert_eq!(rt; store.bytes("output"), Some(OUTPUT.as_slice()));
    }
    Ok(())
}

/// The circuit of a look-up of one bit.
pub(crate) const LOOK_UP: &str = "fhec circuit 1
width 1
glwe 1 3 1 3
lwe 2 1 3
boot 8 2
switch 8 2
%0 = input 0 1
%1 = switch %0
%2 = boot %1 1 0
out %2 0 1
end
";

/// The seal of the evaluation keys that the seed of 32 zero bytes gives for it.
#[rattlefmt::skip]
const EVAL_SEAL: [u8; 32] = [
    123, 211, 199, 192, 148, 48, 254, 236, 132, 222, 155, 55, 59, 165, 29, 238,
    236, 206, 149, 177, 229, 117, 45, 77, 120, 83, 142, 110, 35, 198, 148, 156,
];

/// The seals of its files of inputs and of outputs, for the value 0 and for the value 1.
#[rattlefmt::skip]
const SEALS: [[[u8; 32]; 2]; 2] = [
    [
        [
            55, 253, 181, 170, 233, 39, 219, 59, 76, 74, 249, 65, 232, 57, 251, 181,
            17, 143, 94, 224, 144, 24, 43, 19, 36, 29, 185, 45, 19, 148, 253, 155,
        ],
        [
            23, 175, 47, 213, 184, 36, 74, 52, 187, 74, 230, 14, 129, 247, 147, 139,
            65, 203, 238, 203, 246, 144, 150, 100, 216, 14, 100, 83, 169, 84, 116, 163,
        ],
    ],
    [
        [
            254, 40, 235, 28, 231, 137, 238, 122, 168, 91, 173, 227, 119, 47, 158, 130,
            201, 182, 147, 96, 43, 7, 181, 164, 52, 220, 232, 96, 42, 92, 83, 186,
        ],
        [
            56, 99, 196, 75, 34, 221, 245, 51, 192, 40, 119, 135, 249, 121, 232, 138,
            15, 50, 144, 121, 91, 129, 141, 228, 135, 165, 81, 121, 251, 39, 220, 62,
        ],
    ],
];

/// Sixty-four digits 0.
pub(crate) const SEED: &str = "0000000000000000000000000000000000000000000000000000000000000000";

/// What a command line answers over the store.
pub(crate) fn does(
    alloc: Global,
    store: &mut MemStore,
    sink: &mut MemSink,
    line: &str,
) -> Result<Status, AllocError> {
    let words = words_of(alloc, line)?;
    Ok(fhec(alloc, &words, store, sink))
}

/// Makes keys, encrypts values, runs a circuit and decrypts, and gives what was put, where all of it was done.
pub(crate) fn flows(
    alloc: Global,
    store: &mut MemStore,
    seed: &str,
    eval: &str,
    values: &str,
) -> Result<Option<MemSink>, AllocError> {
    store.set("values", values.as_bytes())?;
    let keygen = format!(in alloc; "keygen circuit {seed} keys {eval}")?;
    let encrypt = format!(in alloc; "encrypt circuit keys {seed} values inputs")?;
    let run = format!(in alloc; "run circuit {eval} inputs output")?;
    let mut sink = MemSink::new(alloc);
    let done = does(alloc, store, &mut sink, &keygen)? == Status::Ok
        && does(alloc, store, &mut sink, &encrypt)? == Status::Ok
        && does(alloc, store, &mut sink, &run)? == Status::Ok
        && does(alloc, store, &mut sink, "decrypt keys output")? == Status::Ok;
    Ok(if done { Some(sink) } else { None })
}

/// Whether a file ends with this seal.
fn is_sealed(store: &MemStore, name: &str, seal: &[u8; 32]) -> bool {
    match store.bytes(name) {
        Some(bytes) => bytes.ends_with(seal),
        None => false,
    }
}

#[test]
fn goes_from_keys_to_values(rt: HostRuntime) -> Result<(), Fail> {
    let alloc = rt.alloc();
    let mut store = MemStore::new(alloc);
    store.set("circuit", CIRCUIT.as_bytes())?;
    let sink = flows(alloc, &mut store, SEED, "-", "1\n2\n")?.ok_or("the sum")?;
    assert_eq!(rt; sink.bytes(), b"3\n".as_slice());
    store.set("circuit", LOOK_UP.as_bytes())?;
    for (value, shown, seals) in [("0", b"1\n", &SEALS[0]), ("1", b"0\n", &SEALS[1])] {
        let sink = flows(alloc, &mut store, SEED, "eval", value)?.ok_or("the look-up")?;
        assert_eq!(rt; sink.bytes(), shown.as_slice());
        assert!(rt; is_sealed(&store, "eval", &EVAL_SEAL));
        assert!(rt; is_sealed(&store, "inputs", &seals[0]));
        assert!(rt; is_sealed(&store, "output", &seals[1]));
    }
    Ok(())
}

/// A look-up of two bits, with the parameters of the example table.
pub(crate) const TABLE: &str = "fhec circuit 1
width 2
glwe 1 8 4 1024
lwe 8 2 1048576
boot 8 4
switch 4 6
%0 = input 0 3
%1 = switch %0
%2 = boot %1 1 3 0 2
out %2 0 3
end
";

/// How long a file is.
pub(crate) fn size_of(store: &MemStore, name: &str) -> Option<usize> {
    store.bytes(name).map(|bytes| bytes.len())
}

#[test]
fn looks_up_each_value(rt: HostRuntime) -> Result<(), Fail> {
    let alloc = rt.alloc();
    let mut store = MemStore::new(alloc);
    store.set("circuit", TABLE.as_bytes())?;
    for (value, shown) in [("0", b"1\n"), ("1", b"3\n"), ("2", b"0\n"), ("3", b"2\n")] {
        let sink = flows(alloc, &mut store, SEED, "eval", value)?.ok_or("a look-up")?;
        assert_eq!(rt; sink.bytes(), shown.as_slice(), "{value}");
    }
    assert_eq!(rt; size_of(&store, "keys"), Some(2_200));
    assert_eq!(rt; size_of(&store, "eval"), Some(372_848));
    assert_eq!(rt; size_of(&store, "inputs"), Some(2_168));
    assert_eq!(rt; size_of(&store, "output"), Some(2_168));
    Ok(())
}

/// The SHA-256 of the parameter lines of the sum, by Python's `hashlib`.
#[rattlefmt::skip]
const SUM_DIGEST: [u8; 32] = [
    236, 183, 102, 5, 160, 59, 252, 117, 12, 211, 94, 106, 146, 58, 189, 229,
    63, 116, 218, 113, 27, 182, 99, 194, 186, 32, 93, 237, 156, 140, 107, 255,
];

/// That of those of the look-up of two bits.
#[rattlefmt::skip]
pub(crate) const TABLE_DIGEST: [u8; 32] = [
    92, 207, 68, 122, 60, 176, 205, 187, 114, 74, 12, 167, 86, 107, 199, 86,
    131, 167, 120, 236, 214, 145, 158, 149, 234, 210, 76, 244, 243, 32, 237, 21,
];

#[test]
fn refuses_files(rt: HostRuntime) -> Result<(), Fail> {
    let alloc = rt.alloc();
    let mut store = MemStore::new(alloc);
    store.set("circuit", TABLE.as_bytes())?;
    flows(alloc, &mut store, SEED, "eval", "3")?.ok_or("a look-up")?;
    let mut short = store.bytes("eval").ok_or("keys")?.to_vec(alloc)?;
    short.truncate(372_847);
    store.set("short", &short)?;
    store.set("sum", CIRCUIT.as_bytes())?;
    store.set("values", b"4")?;
    let encrypt = format!(in alloc; "encrypt circuit keys {SEED} values other")?;
    let length = FileFault::Length {
        want: 372_848,
        have: 372_847,
    };
    let other = FileFault::Mismatch {
        left: SUM_DIGEST,
        right: TABLE_DIGEST,
    };
    let outside = Status::Value {
        line: 1,
        kind: ValueKind::Range,
    };
    for (line, answer) in [
        (
            "run circuit short inputs other",
            Status::File(FileKind::Eval, length),
        ),
        (
            "run sum - inputs other",
            Status::File(FileKind::Cipher, other),
        ),
        (
            "run sum - keys other",
            Status::File(FileKind::Cipher, FileFault::Magic),
        ),
        ("run circuit - inputs other", Status::Usage),
        (encrypt.as_str(), outside),
        (
            "decrypt eval output",
            Status::File(FileKind::Secret, FileFault::Magic),
        ),
    ] {
        let mut sink = MemSink::new(alloc);
        assert_eq!(rt; does(alloc, &mut store, &mut sink, line)?, answer, "{line}");
        assert_eq!(rt; store.bytes("other"), None);
        assert!(rt; sink.bytes().is_empty());
    }
    Ok(())
}

#[test]
fn leaves_what_was_written(rt: HostRuntime) -> Result<(), Fail> {
    let alloc = rt.alloc();
    let mut store = MemStore::new(alloc);
    store.set("circuit", TABLE.as_bytes())?;
    // the circuit takes two calls, the secret keys two, and EVAL one to make it and one for each 65,536 bytes
    store.fail(6, 100)?;
    let mut sink = MemSink::new(alloc);
    let line = format!(in alloc; "keygen circuit {SEED} keys eval")?;
    assert_eq!(rt; does(alloc, &mut store, &mut sink, &line)?, Status::Write);
    assert_eq!(rt; size_of(&store, "keys"), Some(2_200));
    assert_eq!(rt; size_of(&store, "eval"), Some(65_636));
    assert_eq!(rt; does(alloc, &mut store, &mut sink, &line)?, Status::Ok);
    assert_eq!(rt; size_of(&store, "eval"), Some(372_848));
    Ok(())
}
