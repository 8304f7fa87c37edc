//! Commands on programs, over a store and a sink in memory.

use crate::worked::{WORKED, Worked};
use crate::{
    CertFile, FieldName, LimitFault, LimitName, ListName, Status, TableFault, TextKind, TypeKind,
    ValueKind, fhec,
};
use port_store::{MemSink, MemStore, PortFault, Store};
use std::alloc::{AllocError, Global};
use std::test::Fail;

/// What a command line answers over a store, and what it puts.
fn done(alloc: Global, line: &str, store: &mut MemStore) -> Result<(Status, Vec<u8>), AllocError> {
    let mut words = Vec::new(alloc);
    for word in line.split_whitespace() {
        words.push(String::from_str(alloc, word)?)?;
    }
    let mut sink = MemSink::new(alloc);
    let answer = fhec(alloc, &words, store, &mut sink);
    Ok((answer, sink.bytes().to_vec(alloc)?))
}

/// A store with a program and a table.
fn store_of(alloc: Global, program: &str, table: &str) -> Result<MemStore, AllocError> {
    let mut store = MemStore::new(alloc);
    store.set("program", program.as_bytes())?;
    store.set("table", table.as_bytes())?;
    Ok(store)
}

const COMPILE: &str = "compile program table circuit cert";

const CHECK: &str = "check program table circuit cert";

#[test]
fn compiles_programs(rt: HostRuntime) -> Result<(), Fail> {
    let alloc = rt.alloc();
    for row in WORKED {
        let mut store = store_of(alloc, row.program, row.table)?;
        let expected = match row.circuit {
            Some(_) => Status::Ok,
            None => Status::NoChoice,
        };
        assert_eq!(rt; done(alloc, COMPILE, &mut store)?.0, expected);
        assert!(rt; store.bytes("cert") == Some(row.cert.as_bytes()));
        assert!(rt; store.bytes("circuit") == row.circuit.map(str::as_bytes));
        assert_eq!(rt; done(alloc, CHECK, &mut store)?.0, expected);
    }
    Ok(())
}

/// How many lines a text has.
fn line_count(text: &str) -> u32 {
    u32::try_from(text.lines().count()).unwrap_or(u32::MAX)
}

/// A text with one byte of a line, counted from 1, put in place of another.
fn changed(alloc: Global, text: &str, line: u32) -> Result<Vec<u8>, AllocError> {
    let mut bytes = text.as_bytes().to_vec(alloc)?;
    let mut at: u32 = 1;
    for byte in &mut bytes {
        if at == line {
            *byte = b'x';
            return Ok(bytes);
        }
        if *byte == b'\n' {
            at = at.wrapping_add(1);
        }
    }
    Ok(bytes)
}

/// What `check` answers where these are the circuit and the certificate.
fn checked(alloc: Global, row: &Worked, circuit: &[u8], cert: &[u8]) -> Result<Status, AllocError> {
    let mut store = store_of(alloc, row.program, row.table)?;
    store.set("circuit", circuit)?;
    store.set("cert", cert)?;
    Ok(done(alloc, CHECK, &mut store)?.0)
}

#[test]
fn finds_the_line_that_differs(rt: HostRuntime) -> Result<(), Fail> {
    let alloc = rt.alloc();
    for row in WORKED {
        let Some(circuit) = row.circuit else {
            continue;
        };
        let cert = row.cert.as_bytes();
        let lines = line_count(row.cert);
        for line in 1..=lines {
            let other = changed(alloc, row.cert, line)?;
            let answer = checked(alloc, &row, circuit.as_bytes(), &other)?;
            let file = CertFile::Cert;
            assert_eq!(rt; answer, Status::Certificate { file, line });
        }
        for line in 1..=line_count(circuit) {
            let other = changed(alloc, circuit, line)?;
            let answer = checked(alloc, &row, &other, cert)?;
            let file = CertFile::Circuit;
            assert_eq!(rt; answer, Status::Certificate { file, line });
        }
        // cut before the last line feed
        let cut = &cert[..cert.len().saturating_sub(1)];
        let answer = checked(alloc, &row, circuit.as_bytes(), cut)?;
        let file = CertFile::Cert;
        assert_eq!(rt; answer, Status::Certificate { file, line: lines });
    }
    Ok(())
}

/// A function on one argument, with these statements and this return.
fn of_one(alloc: Global, argument: &str, returned: &str, body: &str) -> Result<String, AllocError> {
    format!(in alloc; "func.func @main(%x: {argument}) -> {returned} {{\n{body}}}\n")
}

#[test]
fn refuses_programs(rt: HostRuntime) -> Result<(), Fail> {
    let alloc = rt.alloc();
    let two = "!FHE.eint<2>";
    let four = "!FHE.eint<4>";
    for (argument, returned, body, answer) in [
        (
            two,
            two,
            "  %s = \"FHE.add_eint\"(%x, %x) : (!FHE.eint<2>, !FHE.eint<2>) -> !FHE.eint<2>\n  return %s : !FHE.eint<2>\n",
            Status::Range {
                op: 0,
                lo: 0,
                hi: 6,
            },
        ),
        (
            four,
            four,
            "  %t = arith.constant dense<0> : tensor<15xi64>\n  %y = \"FHE.apply_lookup_table\"(%x, %t) : (!FHE.eint<4>, tensor<15xi64>) -> !FHE.eint<4>\n  return %y : !FHE.eint<4>\n",
            Status::Typing {
                place: 1,
                kind: TypeKind::Table,
            },
        ),
        (
            four,
            four,
            "  %c = arith.constant 16 : i5\n  return %x : !FHE.eint<4>\n",
            Status::Text {
                line: 2,
                column: 28,
                kind: TextKind::Constant,
            },
        ),
        (
            "!FHE.eint<17>",
            "!FHE.eint<17>",
            "  return %x : !FHE.eint<17>\n",
            Status::Limit(LimitFault {
                what: LimitName::Width,
                count: 17,
                most: 16,
            }),
        ),
        (
            "!FHE.eint<2> {fhec.range = [0, 0]}",
            two,
            "  %c = arith.constant 1048576 : i64\n  %0 = \"FHE.mul_eint_int\"(%x, %c) : (!FHE.eint<2>, i64) -> !FHE.eint<2>\n  %1 = \"FHE.mul_eint_int\"(%0, %c) : (!FHE.eint<2>, i64) -> !FHE.eint<2>\n  %2 = \"FHE.mul_eint_int\"(%1, %c) : (!FHE.eint<2>, i64) -> !FHE.eint<2>\n  return %2 : !FHE.eint<2>\n",
            Status::Limit(LimitFault {
                what: LimitName::Weight,
                count: 1_152_921_504_606_846_976,
                most: 1_099_511_627_776,
            }),
        ),
    ] {
        let program = of_one(alloc, argument, returned, body)?;
        let mut store = store_of(alloc, program.as_str(), "")?;
        assert_eq!(rt; done(alloc, COMPILE, &mut store)?.0, answer);
        assert_eq!(rt; done(alloc, CHECK, &mut store)?.0, answer);
        assert_eq!(rt; done(alloc, "clear program values", &mut store)?.0, answer);
        assert!(rt; store.bytes("cert").is_none() && store.bytes("circuit").is_none());
    }
    Ok(())
}

#[test]
fn tells_what_is_missing(rt: HostRuntime) -> Result<(), Fail> {
    let alloc = rt.alloc();
    let [_, row, ..] = WORKED;
    let mut store = MemStore::new(alloc);
    assert_eq!(rt; done(alloc, COMPILE, &mut store)?.0, Status::Read);
    store.set("program", b"")?;
    let end = Status::Text {
        line: 1,
        column: 1,
        kind: TextKind::End,
    };
    assert_eq!(rt; done(alloc, COMPILE, &mut store)?.0, end);
    store.set("program", row.program.as_bytes())?;
    assert_eq!(rt; done(alloc, COMPILE, &mut store)?.0, Status::Read);
    store.set("table", b"[cost]\nswitch = 1\nboot = 1\nlin = 1\n")?;
    let no_list = Status::Table(TableFault::Field {
        list: ListName::Glwe,
        entry: 0,
        field: FieldName::List,
    });
    assert_eq!(rt; done(alloc, COMPILE, &mut store)?.0, no_list);
    store.set("table", row.table.as_bytes())?;
    assert_eq!(rt; done(alloc, CHECK, &mut store)?.0, Status::Read);
    store.set("cert", row.cert.as_bytes())?;
    assert_eq!(rt; done(alloc, CHECK, &mut store)?.0, Status::Read);
    assert_eq!(rt;
        done(alloc, "compile program table x x", &mut store)?.0,
        Status::Usage
    );
    assert_eq!(rt;
        done(alloc, "check program table table cert", &mut store)?.0,
        Status::Usage
    );
    assert_eq!(rt; done(alloc, "clear program", &mut store)?.0, Status::Usage);
    Ok(())
}

#[test]
fn reads_no_circuit_without_a_choice(rt: HostRuntime) -> Result<(), Fail> {
    let alloc = rt.alloc();
    for row in WORKED {
        if row.circuit.is_none() {
            let mut store = store_of(alloc, row.program, row.table)?;
            store.set("cert", row.cert.as_bytes())?;
            assert_eq!(rt; done(alloc, CHECK, &mut store)?.0, Status::NoChoice);
        }
    }
    Ok(())
}

#[test]
fn leaves_a_whole_certificate(rt: HostRuntime) -> Result<(), Fail> {
    let alloc = rt.alloc();
    let [_, row, ..] = WORKED;
    let mut failing = store_of(alloc, row.program, row.table)?;
    // two calls read each of both files, then come `create` and an append of the certificate, and `create` of the circuit
    failing.fail(7, 5)?;
    assert_eq!(rt; done(alloc, COMPILE, &mut failing)?.0, Status::Write);
    assert!(rt; failing.bytes("cert") == Some(row.cert.as_bytes()));
    assert!(rt; failing.bytes("circuit").is_some_and(|held| held.len() == 5));
    Ok(())
}

/// What `clear` answers and puts for these values.
fn cleared(alloc: Global, program: &str, values: &str) -> Result<(Status, Vec<u8>), AllocError> {
    let mut store = store_of(alloc, program, "")?;
    store.set("values", values.as_bytes())?;
    done(alloc, "clear program values", &mut store)
}

#[test]
fn clears_programs(rt: HostRuntime) -> Result<(), Fail> {
    let alloc = rt.alloc();
    let [
        returned,
        squares,
        look_up,
        _,
        _,
        _,
        constant,
        three,
        ranged,
        ..
    ] = WORKED;
    for (program, values, lines) in [
        (returned.program, "15\n", "15\n"),
        (squares.program, "3\n2\n1\n", "4\n"),
        (squares.program, "3\r\n3\r\n2", "1\n"),
        (look_up.program, "1", "3\n"),
        (constant.program, "3\n", "5\n"),
        (three.program, "2\n", "0\n2\n0\n"),
        (ranged.program, "4\n", "7\n"),
    ] {
        let (answer, put) = cleared(alloc, program, values)?;
        assert_eq!(rt; answer, Status::Ok);
        assert!(rt; put.as_slice() == lines.as_bytes());
    }
    for (program, values, line, kind) in [
        (squares.program, "3\n2\n", 3, ValueKind::Few),
        (squares.program, "3\n2\n1\n0\n", 4, ValueKind::Many),
        (squares.program, "3\n2\n3\n", 3, ValueKind::Range),
        (ranged.program, "1\n", 1, ValueKind::Range),
        (look_up.program, "one\n", 1, ValueKind::Number),
    ] {
        let (answer, put) = cleared(alloc, program, values)?;
        assert_eq!(rt; answer, Status::Value { line, kind });
        assert!(rt; put.is_empty());
    }
    Ok(())
}
