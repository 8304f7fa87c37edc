use super::*;
use std::alloc::Global;
use std::test::Fail;

#[derive(Clone, Copy, Debug, PartialEq, Eq)]
enum Fault {
    Empty,
    Long,
}

/// The bytes in memory of their own, where there are one to three.
fn few(alloc: Global, bytes: &[u8]) -> Result<Vec<u8>, Refusal<Fault>> {
    unless(!bytes.is_empty(), Fault::Empty)?;
    unless(bytes.len() <= 3, Fault::Long)?;
    let mut copy = Vec::with_capacity(alloc, bytes.len())?;
    for byte in bytes {
        copy.push(*byte)?;
    }
    Ok(copy)
}

#[test]
fn the_first_fault(rt: HostRuntime) -> Result<(), Fail> {
    let table = [
        ([].as_slice(), Some(Fault::Empty)),
        (&[1, 2, 3], None),
        (&[1, 2, 3, 4], Some(Fault::Long)),
    ];
    for (bytes, fault) in table {
        match few(rt.alloc(), bytes) {
            Ok(copy) => {
                assert_eq!(rt; fault, None);
                assert_eq!(rt; copy.as_slice(), bytes);
            }
            Err(Refusal::Fault(found)) => assert_eq!(rt; fault, Some(found)),
            Err(Refusal::Memory) => assert!(rt; false, "memory"),
        }
    }
    Ok(())
}
