//! How statuses are shown, and steps over a store and a sink in memory.

use crate::{
    CertFile, CircuitFault, CircuitKind, Fault, FieldName, FileFault, FileKind, LimitFault,
    LimitName, ListName, Status, StepRefusal, TableFault, TextKind, TypeKind, ValueKind,
    are_distinct, is_no_eval, put_all, read_file, write_both, write_file,
};
use port_store::{MemSink, MemStore};
use std::test::Fail;

#[test]
fn statuses_have_codes_and_lines(rt: HostRuntime) -> Result<(), Fail> {
    let alloc = rt.alloc();
    let mut left = [0u8; 32];
    left[0] = 8;
    left[31] = 0xaf;
    let text = Status::Text {
        line: 3,
        column: 14,
        kind: TextKind::Syntax,
    };
    let typing = Status::Typing {
        place: 2,
        kind: TypeKind::Rule,
    };
    let range = Status::Range {
        op: 1,
        lo: -3,
        hi: 21,
    };
    let field = Status::Table(TableFault::Field {
        list: ListName::Glwe,
        entry: 1,
        field: FieldName::LogN,
    });
    let circuit = Status::Circuit(CircuitFault {
        line: 9,
        kind: CircuitKind::Node,
    });
    let constraint = Status::Circuit(CircuitFault {
        line: 12,
        kind: CircuitKind::Constraint {
            bound: 300,
            limit: 256,
        },
    });
    let length = Status::File(
        FileKind::Secret,
        FileFault::Length {
            want: 2200,
            have: 2199,
        },
    );
    let mismatch = Status::File(
        FileKind::Cipher,
        FileFault::Mismatch {
            left,
            right: [0; 32],
        },
    );
    let value = Status::Value {
        line: 4,
        kind: ValueKind::Decoded,
    };
    let limit = Status::Limit(LimitFault {
        what: LimitName::Lookups,
        count: 1025,
        most: 1024,
    });
    let certificate = Status::Certificate {
        file: CertFile::Cert,
        line: 5,
    };
    let cases = [
        (Status::Ok, 0, ""),
        (Status::Usage, 2, "fhec: usage"),
        (text, 3, "fhec: text 3:14 syntax"),
        (typing, 4, "fhec: type 2 rule"),
        (range, 5, "fhec: range 1 -3 21"),
        (Status::NoChoice, 6, "fhec: no choice"),
        (Status::Table(TableFault::Toml), 7, "fhec: table toml"),
        (field, 7, "fhec: table glwe 1 log_n"),
        (circuit, 8, "fhec: circuit 9 node"),
        (constraint, 8, "fhec: circuit 12 constraint 300 256"),
        (
            Status::File(FileKind::Eval, FileFault::Magic),
            9,
            "fhec: file eval magic",
        ),
        (length, 9, "fhec: file secret length 2200 2199"),
        (
            mismatch,
            9,
            "fhec: file cipher mismatch \
            08000000000000000000000000000000000000000000000000000000000000af \
            0000000000000000000000000000000000000000000000000000000000000000",
        ),
        (value, 10, "fhec: value 4 decoded"),
        (limit, 11, "fhec: limit lookups 1025 1024"),
        (Status::Read, 12, "fhec: read fault"),
        (Status::Write, 13, "fhec: write fault"),
        (Status::Memory, 14, "fhec: memory"),
        (certificate, 15, "fhec: certificate cert 5"),
    ];
    for (status, code, line) in cases {
        assert_eq!(rt; status.code(), code);
        let shown = status.line(alloc)?;
        assert_eq!(rt; shown.as_str(), line);
    }
    Ok(())
}

#[test]
fn files_are_read_and_written(rt: HostRuntime) -> Result<(), Fail> {
    let alloc = rt.alloc();
    let mut store = MemStore::new(alloc);
    assert_eq!(rt; write_file(&mut store, "a", b"one"), Status::Ok);
    assert_eq!(rt; write_both(&mut store, "b", b"two", "c", b""), Status::Ok);
    assert_eq!(rt; store.bytes("a"), Some(b"one".as_slice()));
    assert_eq!(rt; store.bytes("b"), Some(b"two".as_slice()));
    assert_eq!(rt; store.bytes("c"), Some(b"".as_slice()));
    match read_file(alloc, &mut store, "a", 3) {
        Ok(bytes) => assert_eq!(rt; bytes.as_slice(), b"one".as_slice()),
        Err(_) => panic!(rt; "a file"),
    }
    let long = StepRefusal::Fault(Fault::Limit(LimitFault {
        what: LimitName::Bytes,
        count: 3,
        most: 2,
    }));
    assert!(rt; matches!(read_file(alloc, &mut store, "a", 2), Err(refusal) if refusal == long));
    assert!(rt;
        matches!(
            read_file(alloc, &mut store, "d", 2),
            Err(StepRefusal::Failure)
        )
    );
    Ok(())
}

#[test]
fn bytes_are_put(rt: HostRuntime) -> Result<(), Fail> {
    let mut sink = MemSink::new(rt.alloc());
    assert_eq!(rt; put_all(&mut sink, b"4\n"), Status::Ok);
    assert_eq!(rt; sink.bytes(), b"4\n".as_slice());
    Ok(())
}

#[test]
fn names_are_compared(rt: HostRuntime) {
    assert!(rt; are_distinct(&["a", "b", "-"]));
    assert!(rt; !are_distinct(&["a", "b", "a"]));
    assert!(rt; is_no_eval("-"));
    assert!(rt; !is_no_eval("--"));
}
