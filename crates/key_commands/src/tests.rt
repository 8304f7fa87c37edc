//! The commands over a store and a sink in memory. The files are those that `docs/worked_files.py` prints.

use crate::decrypt::{DecryptNames, decrypt};
use crate::encrypt::{EncryptNames, encrypt};
use crate::keygen::{KeygenNames, keygen};
use command_forms::{FileFault, FileKind, Status, ValueKind};
use port_store::{MemSink, MemStore};
use std::alloc::{AllocError, Global};
use std::test::Fail;

/// The circuit that adds an input from 0 to 1 and one from 0 to 2.
const CIRCUIT: &str = "fhec circuit 1
width 2
glwe 1 1 1 3
lwe 1 0 0
boot 1 1
switch 1 1
%0 = input 0 1
%1 = input 0 2
%2 = lin 0 1 %0 1 %1
out %2 0 3
end
";

/// Its secret keys: the big one 1, 0 and the small one 0.
#[rattlefmt::skip]
const SECRET: [u8; 112] = [
    70, 72, 69, 67, 83, 69, 67, 49, 236, 183, 102, 5, 160, 59, 252, 117,
    12, 211, 94, 106, 146, 58, 189, 229, 63, 116, 218, 113, 27, 182, 99, 194,
    186, 32, 93, 237, 156, 140, 107, 255, 1, 0, 0, 0, 0, 0, 0, 0,
    2, 0, 0, 0, 0, 0, 0, 0, 0, 0, 0, 0, 0, 0, 0, 0,
    1, 0, 0, 0, 0, 0, 0, 0, 0, 0, 0, 0, 0, 0, 0, 0,
    51, 170, 244, 112, 48, 172, 226, 127, 54, 84, 7, 250, 24, 215, 47, 147,
    122, 10, 132, 38, 166, 96, 200, 101, 10, 155, 75, 56, 85, 112, 213, 249,
];

/// Its inputs for the values 1 and 2, of the seed of 32 zero bytes.
#[rattlefmt::skip]
const INPUTS: [u8; 176] = [
    70, 72, 69, 67, 67, 73, 80, 49, 236, 183, 102, 5, 160, 59, 252, 117,
    12, 211, 94, 106, 146, 58, 189, 229, 63, 116, 218, 113, 27, 182, 99, 194,
    186, 32, 93, 237, 156, 140, 107, 255, 2, 0, 0, 0, 0, 0, 0, 0,
    2, 0, 0, 0, 0, 0, 0, 0, 2, 0, 0, 0, 0, 0, 0, 0,
    0, 0, 0, 0, 0, 0, 0, 0, 1, 0, 0, 0, 0, 0, 0, 0,
    0, 0, 0, 0, 0, 0, 0, 0, 2, 0, 0, 0, 0, 0, 0, 0,
    178, 120, 213, 47, 194, 197, 98, 201, 141, 159, 165, 61, 243, 245, 142, 209,
    175, 120, 213, 47, 194, 197, 98, 233, 5, 62, 174, 210, 104, 240, 121, 236,
    177, 48, 116, 91, 123, 212, 195, 174, 3, 62, 174, 210, 104, 240, 121, 44,
    36, 59, 102, 142, 117, 85, 117, 114, 89, 147, 167, 225, 143, 30, 75, 7,
    75, 239, 112, 33, 148, 7, 0, 27, 58, 204, 242, 122, 148, 22, 75, 153,
];

/// An output that stands for 3, between 0 and 3.
#[rattlefmt::skip]
const OUTPUT: [u8; 136] = [
    70, 72, 69, 67, 67, 73, 80, 49, 236, 183, 102, 5, 160, 59, 252, 117,
    12, 211, 94, 106, 146, 58, 189, 229, 63, 116, 218, 113, 27, 182, 99, 194,
    186, 32, 93, 237, 156, 140, 107, 255, 2, 0, 0, 0, 0, 0, 0, 0,
    2, 0, 0, 0, 0, 0, 0, 0, 1, 0, 0, 0, 0, 0, 0, 0,
    0, 0, 0, 0, 0, 0, 0, 0, 3, 0, 0, 0, 0, 0, 0, 0,
    4, 0, 0, 0, 0, 0, 0, 0, 7, 0, 0, 0, 0, 0, 0, 0,
    5, 0, 0, 0, 0, 0, 0, 96, 178, 218, 97, 8, 96, 231, 189, 151,
    219, 239, 37, 60, 117, 68, 5, 251, 74, 179, 160, 46, 114, 41, 181, 225,
    240, 72, 132, 52, 6, 237, 60, 8,
];

/// The same one, between 0 and 2.
#[rattlefmt::skip]
const NARROW: [u8; 136] = [
    70, 72, 69, 67, 67, 73, 80, 49, 236, 183, 102, 5, 160, 59, 252, 117,
    12, 211, 94, 106, 146, 58, 189, 229, 63, 116, 218, 113, 27, 182, 99, 194,
    186, 32, 93, 237, 156, 140, 107, 255, 2, 0, 0, 0, 0, 0, 0, 0,
    2, 0, 0, 0, 0, 0, 0, 0, 1, 0, 0, 0, 0, 0, 0, 0,
    0, 0, 0, 0, 0, 0, 0, 0, 2, 0, 0, 0, 0, 0, 0, 0,
    4, 0, 0, 0, 0, 0, 0, 0, 7, 0, 0, 0, 0, 0, 0, 0,
    5, 0, 0, 0, 0, 0, 0, 96, 67, 211, 135, 90, 100, 196, 190, 173,
    219, 125, 21, 125, 128, 0, 124, 189, 41, 29, 208, 53, 3, 221, 4, 162,
    3, 118, 109, 149, 165, 72, 61, 131,
];

/// What `decrypt` answers over these two files, and what it puts.
fn decrypted(alloc: Global, secret: &[u8], output: &[u8]) -> Result<(Status, MemSink), AllocError> {
    let mut store = MemStore::new(alloc);
    store.set("keys", secret)?;
    store.set("output", output)?;
    let mut sink = MemSink::new(alloc);
    let names = DecryptNames {
        secret: "keys",
        output: "output",
    };
    let status = decrypt(alloc, &mut store, &mut sink, &names);
    Ok((status, sink))
}

#[test]
fn decrypts(rt: HostRuntime) -> Result<(), Fail> {
    let alloc = rt.alloc();
    let (status, sink) = decrypted(alloc, &SECRET, &OUTPUT)?;
    assert_eq!(rt; status, Status::Ok);
    assert_eq!(rt; sink.bytes(), b"3\n".as_slice());
    let (status, sink) = decrypted(alloc, &SECRET, &INPUTS)?;
    assert_eq!(rt; status, Status::Ok);
    assert_eq!(rt; sink.bytes(), b"1\n2\n".as_slice());
    Ok(())
}

#[test]
fn refuses_to_decrypt(rt: HostRuntime) -> Result<(), Fail> {
    let alloc = rt.alloc();
    let decoded = Status::Value {
        line: 1,
        kind: ValueKind::Decoded,
    };
    let cut = Status::File(
        FileKind::Cipher,
        FileFault::Length {
            want: 136,
            have: 135,
        },
    );
    let cases = [
        (SECRET.as_slice(), NARROW.as_slice(), decoded),
        (SECRET.as_slice(), &OUTPUT[..135], cut),
        (
            OUTPUT.as_slice(),
            SECRET.as_slice(),
            Status::File(FileKind::Secret, FileFault::Magic),
        ),
    ];
    for (secret, output, wanted) in cases {
        let (status, sink) = decrypted(alloc, secret, output)?;
        assert_eq!(rt; status, wanted);
        assert!(rt; sink.bytes().is_empty());
    }
    Ok(())
}

/// What `encrypt` answers over these values, with the seed of 32 zero bytes.
fn encrypted(alloc: Global, store: &mut MemStore, values: &str) -> Result<Status, AllocError> {
    store.set("circuit", CIRCUIT.as_bytes())?;
    store.set("keys", &SECRET)?;
    store.set("values", values.as_bytes())?;
    let mut sink = MemSink::new(alloc);
    let names = EncryptNames {
        circuit: "circuit",
        secret: "keys",
        seed: [0; 32],
        values: "values",
        cipher: "inputs",
    };
    Ok(encrypt(alloc, store, &mut sink, &names))
}

#[test]
fn encrypts(rt: HostRuntime) -> Result<(), Fail> {
    let alloc = rt.alloc();
    let mut store = MemStore::new(alloc);
    assert_eq!(rt; encrypted(alloc, &mut store, "1\n2\n")?, Status::Ok);
    assert_eq!(rt; store.bytes("inputs"), Some(INPUTS.as_slice()));
    let mut other = MemStore::new(alloc);
    let outside = Status::Value {
        line: 2,
        kind: ValueKind::Range,
    };
    assert_eq!(rt; encrypted(alloc, &mut other, "1\n3\n")?, outside);
    assert_eq!(rt; other.bytes("inputs"), None);
    Ok(())
}

/// The circuit of a look-up of one bit.
const LOOK_UP: &str = "fhec circuit 1
width 1
glwe 1 3 1 3
lwe 2 1 3
boot 8 2
switch 8 2
%0 = input 0 1
%1 = switch %0
%2 = boot %1 1 0
out %2 0 1
end
";

/// The seal of the secret keys that the seed of 32 zero bytes gives for the sum.
#[rattlefmt::skip]
const SUM_SEAL: [u8; 32] = [
    117, 120, 19, 253, 225, 224, 48, 118, 169, 28, 130, 165, 38, 210, 107, 156,
    245, 84, 242, 26, 0, 56, 129, 170, 58, 200, 170, 63, 109, 41, 161, 200,
];

/// The seal of those that it gives for the look-up.
#[rattlefmt::skip]
const LOOK_UP_SEAL: [u8; 32] = [
    60, 177, 138, 208, 76, 87, 95, 135, 188, 194, 163, 56, 187, 70, 76, 167,
    204, 7, 194, 222, 226, 125, 45, 17, 176, 0, 52, 221, 111, 43, 46, 239,
];

/// The seal of the evaluation keys of the look-up.
#[rattlefmt::skip]
const EVAL_SEAL: [u8; 32] = [
    123, 211, 199, 192, 148, 48, 254, 236, 132, 222, 155, 55, 59, 165, 29, 238,
    236, 206, 149, 177, 229, 117, 45, 77, 120, 83, 142, 110, 35, 198, 148, 156,
];

/// What `keygen` answers over a circuit, with the seed of 32 zero bytes and a name for EVAL.
fn with_eval(alloc: Global, store: &mut MemStore, circuit: &str) -> Result<Status, AllocError> {
    store.set("circuit", circuit.as_bytes())?;
    let mut sink = MemSink::new(alloc);
    let names = KeygenNames {
        circuit: "circuit",
        seed: [0; 32],
        secret: "keys",
        eval: "eval",
    };
    Ok(keygen(alloc, store, &mut sink, &names))
}

/// What `keygen` answers over a circuit, with the seed of 32 zero bytes and `-` for EVAL.
fn without_eval(alloc: Global, store: &mut MemStore, circuit: &str) -> Result<Status, AllocError> {
    store.set("circuit", circuit.as_bytes())?;
    let mut sink = MemSink::new(alloc);
    let names = KeygenNames {
        circuit: "circuit",
        seed: [0; 32],
        secret: "keys",
        eval: "-",
    };
    Ok(keygen(alloc, store, &mut sink, &names))
}

/// Whether the store has a file of so many bytes with this seal.
fn holds(store: &MemStore, name: &str, size: usize, seal: &[u8]) -> bool {
    match store.bytes(name) {
        Some(bytes) => bytes.len() == size && bytes.ends_with(seal),
        None => false,
    }
}

#[test]
fn makes_keys(rt: HostRuntime) -> Result<(), Fail> {
    let alloc = rt.alloc();
    let mut store = MemStore::new(alloc);
    assert_eq!(rt; without_eval(alloc, &mut store, CIRCUIT)?, Status::Ok);
    assert!(rt; holds(&store, "keys", 112, &SUM_SEAL));
    assert_eq!(rt; store.bytes("-"), None);
    assert_eq!(rt; with_eval(alloc, &mut store, LOOK_UP)?, Status::Ok);
    assert!(rt; holds(&store, "keys", 168, &LOOK_UP_SEAL));
    assert!(rt; holds(&store, "eval", 1520, &EVAL_SEAL));
    let mut other = MemStore::new(alloc);
    assert_eq!(rt; without_eval(alloc, &mut other, LOOK_UP)?, Status::Usage);
    assert_eq!(rt; with_eval(alloc, &mut other, CIRCUIT)?, Status::Usage);
    assert_eq!(rt; other.bytes("keys"), None);
    Ok(())
}
