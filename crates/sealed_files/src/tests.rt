use super::*;
use refusals::Refusal;
use std::alloc::{AllocError, Global};
use std::test::Fail;

// The words of a small file of each kind, with the digest 7, 7, .., and its seal by another program.
const SECRET: [u64; 5] = [1, 2, 1, 1, 0];

const SECRET_SEAL: [u8; 32] = [
    0xf8, 0x99, 0x6e, 0x08, 0xcf, 0x4d, 0xde, 0xb1, 0xa1, 0x65, 0x7d, 0x9c, 0x38, 0xd6, 0x61, 0x45,
    0xd3, 0x5d, 0x36, 0x0b, 0x8e, 0x1f, 0xbd, 0xf1, 0xd1, 0x4a, 0x55, 0x4a, 0x50, 0xaf, 0x63, 0xae,
];

const EVAL: [u64; 17] = [
    1, 1, 1, 1, 1, 10, 11, 12, 13, 20, 21, 22, 23, 24, 25, 26, 27,
];

const EVAL_SEAL: [u8; 32] = [
    0x1e, 0xc5, 0xfe, 0x77, 0xd8, 0x19, 0x09, 0x86, 0x95, 0xfa, 0x89, 0x16, 0x75, 0xad, 0x90, 0x11,
    0xbe, 0xf0, 0xa4, 0xda, 0x1a, 0xfc, 0xba, 0xf9, 0x3f, 0x13, 0x2a, 0x3a, 0x4c, 0x08, 0x39, 0x20,
];

const CIPHER: [u64; 7] = [1, 2, 1, 0, 3, 5, 9];

const CIPHER_SEAL: [u8; 32] = [
    0xdf, 0x79, 0xa2, 0xf7, 0xb6, 0x7e, 0xfb, 0x9c, 0xa2, 0xce, 0xc6, 0xde, 0x9b, 0x29, 0xf3, 0xf5,
    0x40, 0x4e, 0x3d, 0x0e, 0x2d, 0x97, 0x64, 0x08, 0x16, 0x04, 0x7b, 0x0e, 0xc3, 0xb5, 0x27, 0x4c,
];

/// The file of these words.
fn made(alloc: Global, kind: FileKind, words: &[u64]) -> Result<Vec<u8>, AllocError> {
    let mut bytes = begin(alloc, kind, &[7; 32], 0)?;
    put_words(&mut bytes, words)?;
    seal(&mut bytes)?;
    Ok(bytes)
}

#[test]
fn a_file_of_each_kind(rt: HostRuntime) -> Result<(), Fail> {
    for (kind, words, seal) in [
        (FileKind::Secret, SECRET.as_slice(), SECRET_SEAL),
        (FileKind::Eval, &EVAL, EVAL_SEAL),
        (FileKind::Cipher, &CIPHER, CIPHER_SEAL),
    ] {
        let bytes = made(rt.alloc(), kind, words)?;
        assert_eq!(rt; bytes.len(), 72 + 8 * words.len());
        assert_eq!(rt; &bytes[bytes.len() - 32..], seal.as_slice());
        check_file(kind, &bytes)?;
        assert_eq!(rt; digest_in(&bytes), [7; 32]);
        for (place, word) in words.iter().enumerate() {
            assert_eq!(rt; word_at(&bytes, place), *word);
        }
    }
    Ok(())
}

/// A file with another byte at a place, sealed anew or not, and then with so many bytes.
#[derive(Clone, Copy)]
struct Change {
    kind: FileKind,
    place: usize,
    byte: u8,
    sealed: bool,
    len: usize,
}

/// The file that a change makes.
fn changed(alloc: Global, change: Change) -> Result<Vec<u8>, AllocError> {
    let words = match change.kind {
        FileKind::Secret => SECRET.as_slice(),
        FileKind::Eval => &EVAL,
        FileKind::Cipher => &CIPHER,
    };
    let mut bytes = made(alloc, change.kind, words)?;
    for byte in bytes.iter_mut().skip(change.place).take(1) {
        *byte = change.byte;
    }
    if change.sealed {
        bytes.truncate(40 + 8 * words.len());
        seal(&mut bytes)?;
    }
    bytes.resize(change.len, 0)?;
    Ok(bytes)
}

#[test]
fn the_first_check_that_fails(rt: HostRuntime) -> Result<(), Fail> {
    use FileFault::{Digest, Field, Length, Magic};
    use FileKind::{Cipher, Eval, Secret};
    for (kind, place, byte, sealed, len, fault) in [
        (Secret, 0, 0, true, 0, Length { want: 88, have: 0 }),
        (Secret, 0, 0, true, 87, Length { want: 88, have: 87 }),
        (
            Eval,
            0,
            0,
            true,
            111,
            Length {
                want: 112,
                have: 111,
            },
        ),
        (Cipher, 0, 0, true, 95, Length { want: 96, have: 95 }),
        (Secret, 7, b'2', true, 112, Magic),
        (Eval, 5, b'C', false, 112, Magic),
        (Cipher, 0, b'f', false, 128, Magic),
        (Secret, 40, 0, true, 111, Field { place: 0 }),
        (Secret, 41, 4, true, 112, Field { place: 0 }),
        (Secret, 48, 0, true, 112, Field { place: 1 }),
        (Secret, 55, 1, true, 112, Field { place: 1 }),
        (Eval, 40, 4, true, 208, Field { place: 0 }),
        (Eval, 48, 14, true, 208, Field { place: 1 }),
        (Eval, 57, 4, true, 208, Field { place: 2 }),
        (Eval, 64, 64, true, 208, Field { place: 3 }),
        (Eval, 72, 0, true, 208, Field { place: 4 }),
        (Cipher, 41, 0x60, true, 128, Field { place: 0 }),
        (Cipher, 48, 17, true, 128, Field { place: 1 }),
        (Cipher, 56, 65, true, 128, Field { place: 2 }),
        (
            Secret,
            8,
            0,
            false,
            111,
            Length {
                want: 112,
                have: 111,
            },
        ),
        (
            Secret,
            8,
            7,
            true,
            113,
            Length {
                want: 112,
                have: 113,
            },
        ),
        (
            Eval,
            40,
            2,
            true,
            208,
            Length {
                want: 320,
                have: 208,
            },
        ),
        (
            Cipher,
            56,
            2,
            true,
            128,
            Length {
                want: 160,
                have: 128,
            },
        ),
        (Secret, 8, 0, false, 112, Digest),
        (Eval, 100, 1, false, 208, Digest),
        (Cipher, 96, 0, false, 128, Digest),
    ] {
        let change = Change {
            kind,
            place,
            byte,
            sealed,
            len,
        };
        let bytes = changed(rt.alloc(), change)?;
        assert!(rt;
            matches!(check_file(kind, &bytes), Err(Refusal::Fault(found)) if found == fault),
            "byte {place} of {len}"
        );
    }
    Ok(())
}

#[test]
fn mismatches(rt: HostRuntime) -> Result<(), Fail> {
    laws::laws();
    let mut three = [0; 32];
    three[0] = 3;
    let mut far = [0; 32];
    far[7] = 128;
    for (left, right, found) in [
        (3, 3, None),
        (
            3,
            1 << 63,
            Some(FileFault::Mismatch {
                left: three,
                right: far,
            }),
        ),
    ] {
        match same_word(left, right) {
            Ok(()) => assert!(rt; found.is_none()),
            Err(Refusal::Fault(fault)) => assert_eq!(rt; found, Some(fault)),
            Err(Refusal::Memory) => assert!(rt; false, "memory"),
        }
    }
    same_digest(&three, &three)?;
    assert!(rt;
        matches!(
            same_digest(&three, &far),
            Err(Refusal::Fault(FileFault::Mismatch { left, right })) if left == three && right == far
        )
    );
    Ok(())
}
