//! Value files, and the faults of their lines.

use crate::{ValueFault, ValueKind, print_values, read_values};
use refusals::Refusal;
use std::test::Fail;

#[test]
fn values_are_read(rt: HostRuntime) -> Result<(), Fail> {
    let alloc = rt.alloc();
    let ranges = [(-8, 7), (0, 200), (0, 0)];
    for text in [
        "-3\n0012\n0\n",
        "-3\r\n0012\r\n-0",
        "-000000000000000003\n12\r\n0\r",
    ] {
        let Ok(values) = read_values(alloc, text.as_bytes(), &ranges) else {
            panic!(rt; "values");
        };
        assert_eq!(rt; values.as_slice(), [-3, 12, 0].as_slice());
    }
    let Ok(values) = read_values(alloc, b"", &[]) else {
        panic!(rt; "no values");
    };
    assert!(rt; values.is_empty());
    Ok(())
}

#[test]
fn faults_are_told(rt: HostRuntime) -> Result<(), Fail> {
    let alloc = rt.alloc();
    let ranges = [(-8, 7), (0, 200)];
    let cases = [
        ("", 1, ValueKind::Few),
        ("1\n", 2, ValueKind::Few),
        ("1\n2\n3\n", 3, ValueKind::Many),
        ("1\n2\nx", 3, ValueKind::Many),
        ("1\n2\n\n", 3, ValueKind::Many),
        ("\n1\n2", 1, ValueKind::Number),
        ("1\n\r", 2, ValueKind::Number),
        ("1\n2\r\r\n", 2, ValueKind::Number),
        ("+1\n2\n", 1, ValueKind::Number),
        (" 1\n2\n", 1, ValueKind::Number),
        ("--1\n2\n", 1, ValueKind::Number),
        ("-\n2\n", 1, ValueKind::Number),
        ("1-\n2\n", 1, ValueKind::Number),
        ("0000000000000000001\n2\n", 1, ValueKind::Number),
        ("8\n2\n", 1, ValueKind::Range),
        ("-9\nx\n", 1, ValueKind::Range),
        ("999999999999999999\n2\n", 1, ValueKind::Range),
        ("1\n201", 2, ValueKind::Range),
    ];
    for (text, line, kind) in cases {
        match read_values(alloc, text.as_bytes(), &ranges) {
            Err(Refusal::Fault(fault)) => assert_eq!(rt; fault, ValueFault { line, kind }),
            _ => panic!(rt; "a fault"),
        }
    }
    Ok(())
}

#[test]
fn values_are_printed(rt: HostRuntime) -> Result<(), Fail> {
    let alloc = rt.alloc();
    let text = print_values(alloc, &[-12, 0, 7])?;
    assert_eq!(rt; text.as_slice(), b"-12\n0\n7\n".as_slice());
    assert!(rt; print_values(alloc, &[])?.is_empty());
    Ok(())
}
