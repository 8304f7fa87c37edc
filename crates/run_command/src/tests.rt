//! `run` over a store in memory. The output is the one that `docs/worked_files.py` prints.

use crate::{RunNames, run};
use command_forms::Status;
use port_store::{MemSink, MemStore};
use std::alloc::{AllocError, Global};
use std::test::Fail;

/// The circuit that adds an input from 0 to 1 and one from 0 to 2.
const CIRCUIT: &str = "fhec circuit 1
width 2
glwe 1 1 1 3
lwe 1 0 0
boot 1 1
switch 1 1
%0 = input 0 1
%1 = input 0 2
%2 = lin 0 1 %0 1 %1
out %2 0 3
end
";

/// The file of (5, 7; 2305843009213693960) and (18446744073709551615, 0; 4611686018427387901), made for the
/// circuit. Its digests are those of Python's `hashlib`.
#[rattlefmt::skip]
const INPUTS: [u8; 176] = [
    70, 72, 69, 67, 67, 73, 80, 49, 236, 183, 102, 5, 160, 59, 252, 117,
    12, 211, 94, 106, 146, 58, 189, 229, 63, 116, 218, 113, 27, 182, 99, 194,
    186, 32, 93, 237, 156, 140, 107, 255, 2, 0, 0, 0, 0, 0, 0, 0,
    2, 0, 0, 0, 0, 0, 0, 0, 2, 0, 0, 0, 0, 0, 0, 0,
    0, 0, 0, 0, 0, 0, 0, 0, 1, 0, 0, 0, 0, 0, 0, 0,
    0, 0, 0, 0, 0, 0, 0, 0, 2, 0, 0, 0, 0, 0, 0, 0,
    5, 0, 0, 0, 0, 0, 0, 0, 7, 0, 0, 0, 0, 0, 0, 0,
    8, 0, 0, 0, 0, 0, 0, 32, 255, 255, 255, 255, 255, 255, 255, 255,
    0, 0, 0, 0, 0, 0, 0, 0, 253, 255, 255, 255, 255, 255, 255, 63,
    18, 205, 6, 133, 184, 196, 18, 104, 175, 149, 162, 74, 180, 159, 201, 236,
    211, 94, 231, 187, 85, 165, 160, 27, 193, 114, 21, 210, 103, 6, 90, 149,
];

/// The file of (4, 7; 6917529027641081861), their sum word by word.
#[rattlefmt::skip]
const OUTPUT: [u8; 136] = [
    70, 72, 69, 67, 67, 73, 80, 49, 236, 183, 102, 5, 160, 59, 252, 117,
    12, 211, 94, 106, 146, 58, 189, 229, 63, 116, 218, 113, 27, 182, 99, 194,
    186, 32, 93, 237, 156, 140, 107, 255, 2, 0, 0, 0, 0, 0, 0, 0,
    2, 0, 0, 0, 0, 0, 0, 0, 1, 0, 0, 0, 0, 0, 0, 0,
    0, 0, 0, 0, 0, 0, 0, 0, 3, 0, 0, 0, 0, 0, 0, 0,
    4, 0, 0, 0, 0, 0, 0, 0, 7, 0, 0, 0, 0, 0, 0, 0,
    5, 0, 0, 0, 0, 0, 0, 96, 178, 218, 97, 8, 96, 231, 189, 151,
    219, 239, 37, 60, 117, 68, 5, 251, 74, 179, 160, 46, 114, 41, 181, 225,
    240, 72, 132, 52, 6, 237, 60, 8,
];

/// What `run circuit - inputs output` answers over the store.
fn ran(alloc: Global, store: &mut MemStore) -> Result<Status, AllocError> {
    store.set("circuit", CIRCUIT.as_bytes())?;
    store.set("inputs", &INPUTS)?;
    let mut sink = MemSink::new(alloc);
    let names = RunNames {
        circuit: "circuit",
        eval: "-",
        cipher: "inputs",
        output: "output",
    };
    Ok(run(alloc, store, &mut sink, &names))
}

#[test]
fn sums_two_inputs(rt: HostRuntime) -> Result<(), Fail> {
    let alloc = rt.alloc();
    let mut store = MemStore::new(alloc);
    assert_eq!(rt; ran(alloc, &mut store)?, Status::Ok);
    assert_eq!(rt; store.bytes("output"), Some(OUTPUT.as_slice()));
    assert_eq!(rt; store.bytes("inputs"), Some(INPUTS.as_slice()));
    Ok(())
}
