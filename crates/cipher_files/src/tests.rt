ghost use Rattle.std.specs.Prelude.{◌≡◌, ◌≤◌, ◌<◌, ◌^◌};

use super::*;
use blind_rotate::BootKey;
use fhe_params::{Gadget, GlweChoice, LweChoice, Params, is_glwe, is_params};
use key_switch::SwitchKey;
use lists::List;
use lwe_core::{Big, Lwe, LweKey, Secret};
use refusals::Refusal;
use sealed_files::{begin, padded, put_words, seal};
use std::alloc::{AllocError, Global};
use std::test::Fail;

// The parameters of the worked sum, and of the worked look-up of width 2.
const SMALL: Params = Params {
    glwe: GlweChoice {
        k: 1,
        log_n: 1,
        ones: 1,
        error: 3,
    },
    lwe: LweChoice {
        n: 1,
        ones: 0,
        error: 0,
    },
    boot: Gadget { base: 1, level: 1 },
    switch: Gadget { base: 1, level: 1 },
};

const TABLE: Params = Params {
    glwe: GlweChoice {
        k: 1,
        log_n: 8,
        ones: 4,
        error: 1024,
    },
    lwe: LweChoice {
        n: 8,
        ones: 2,
        error: 1048576,
    },
    boot: Gadget { base: 8, level: 4 },
    switch: Gadget { base: 4, level: 6 },
};

// The SHA-256 of their lines, and the seals of files, by another program.
const SMALL_DIGEST: [u8; 32] = [
    0xec, 0xb7, 0x66, 0x05, 0xa0, 0x3b, 0xfc, 0x75, 0x0c, 0xd3, 0x5e, 0x6a, 0x92, 0x3a, 0xbd, 0xe5,
    0x3f, 0x74, 0xda, 0x71, 0x1b, 0xb6, 0x63, 0xc2, 0xba, 0x20, 0x5d, 0xed, 0x9c, 0x8c, 0x6b, 0xff,
];

const TABLE_DIGEST: [u8; 32] = [
    0x5c, 0xcf, 0x44, 0x7a, 0x3c, 0xb0, 0xcd, 0xbb, 0x72, 0x4a, 0x0c, 0xa7, 0x56, 0x6b, 0xc7, 0x56,
    0x83, 0xa7, 0x78, 0xec, 0xd6, 0x91, 0x9e, 0x95, 0xea, 0xd2, 0x4c, 0xf4, 0xf3, 0x20, 0xed, 0x15,
];

const SECRET_SEAL: [u8; 32] = [
    0x33, 0xaa, 0xf4, 0x70, 0x30, 0xac, 0xe2, 0x7f, 0x36, 0x54, 0x07, 0xfa, 0x18, 0xd7, 0x2f, 0x93,
    0x7a, 0x0a, 0x84, 0x26, 0xa6, 0x60, 0xc8, 0x65, 0x0a, 0x9b, 0x4b, 0x38, 0x55, 0x70, 0xd5, 0xf9,
];

const TABLE_SECRET_SEAL: [u8; 32] = [
    0x15, 0xad, 0x6d, 0x85, 0xd9, 0xa0, 0xe5, 0x51, 0xd8, 0x80, 0xe3, 0xcc, 0xd0, 0xe5, 0x40, 0xca,
    0xf8, 0xf7, 0x83, 0xed, 0x4d, 0x00, 0xb2, 0x7f, 0x2e, 0x24, 0x28, 0x8b, 0x80, 0xe9, 0x11, 0xb6,
];

const CIPHER_SEAL: [u8; 32] = [
    0x97, 0x87, 0x7e, 0x16, 0xbf, 0x97, 0x4a, 0x7d, 0x5f, 0x62, 0xb9, 0x30, 0x87, 0xe4, 0x82, 0x5b,
    0xfc, 0xc3, 0x79, 0x0c, 0x76, 0x5e, 0xfe, 0xbb, 0xdd, 0x42, 0x3a, 0xb3, 0x6b, 0x36, 0x42, 0x6c,
];

const TABLE_CIPHER_SEAL: [u8; 32] = [
    0x92, 0xad, 0xbe, 0xec, 0x3a, 0x52, 0x81, 0x8a, 0xcb, 0xb8, 0xae, 0x57, 0xf9, 0x3b, 0x3b, 0x7e,
    0x47, 0x3b, 0xf1, 0x3d, 0xaf, 0x2b, 0xa9, 0xb2, 0x74, 0x11, 0x55, 0x5e, 0x10, 0xf0, 0x2f, 0x24,
];

#[test]
fn secret_files(rt: HostRuntime) -> Result<(), Fail> {
    laws::laws();
    let secret = Secret {
        big: LweKey::from_bits(vec![in rt.alloc(); true, false]?),
        small: LweKey::from_bits(vec![in rt.alloc(); false]?),
    };
    let bytes = print_secret(rt.alloc(), &SMALL_DIGEST, &secret)?;
    assert_eq!(rt; bytes.len(), 112);
    assert_eq!(rt; &bytes[80..], SECRET_SEAL.as_slice());
    let (digest, read) = read_secret(rt.alloc(), &bytes)?;
    assert_eq!(rt; digest, SMALL_DIGEST);
    assert_eq!(rt; read.small.len(), 1);
    assert_eq!(rt; read.big.len(), 2);
    assert!(rt; !read.small.bit(0) && read.big.bit(0) && !read.big.bit(1));
    secret_fits(&SMALL_DIGEST, &SMALL, &digest, &read)?;
    Ok(())
}

#[test]
fn a_secret_file_of_the_table(rt: HostRuntime) -> Result<(), Fail> {
    let secret = Secret {
        big: LweKey::from_bits(vec![in rt.alloc(); false; 256]?),
        small: LweKey::from_bits(vec![in rt.alloc(); false; 8]?),
    };
    let bytes = print_secret(rt.alloc(), &TABLE_DIGEST, &secret)?;
    assert_eq!(rt; bytes.len(), 2200);
    assert_eq!(rt; &bytes[2168..], TABLE_SECRET_SEAL.as_slice());
    Ok(())
}

/// The file of these words.
fn made(
    alloc: Global,
    kind: FileKind,
    digest: &[u8; 32],
    words: &[u64],
) -> Result<Vec<u8>, AllocError> {
    let mut bytes = begin(alloc, kind, digest, 0)?;
    put_words(&mut bytes, words)?;
    seal(&mut bytes)?;
    Ok(bytes)
}

#[test]
fn bits_that_are_none(rt: HostRuntime) -> Result<(), Fail> {
    for (words, place) in [
        ([1, 2, 2, 1, 0], 2),
        ([1, 2, 0, 2, 2], 3),
        ([1, 2, 0, 1, 1 << 63], 4),
    ] {
        let mut bytes = made(rt.alloc(), FileKind::Secret, &SMALL_DIGEST, &words)?;
        assert!(rt;
            matches!(
                read_secret(rt.alloc(), &bytes),
                Err(Refusal::Fault(FileFault::Field { place: found })) if found == place
            ),
            "at {place}"
        );
        // Cut by a byte, the length is the fault.
        assert_eq!(rt; bytes.len(), 112);
        bytes.truncate(111);
        assert!(rt;
            matches!(
                read_secret(rt.alloc(), &bytes),
                Err(Refusal::Fault(FileFault::Length {
                    want: 112,
                    have: 111
                }))
            )
        );
    }
    Ok(())
}

const CIPHER: [u64; 13] = [
    2,
    2,
    2,
    0,
    1,
    0,
    2,
    5,
    7,
    2_305_843_009_213_693_960,
    18_446_744_073_709_551_615,
    0,
    4_611_686_018_427_387_901,
];

#[test]
fn cipher_files(rt: HostRuntime) -> Result<(), Fail> {
    laws::laws();
    let bytes = made(rt.alloc(), FileKind::Cipher, &[7; 32], &CIPHER)?;
    assert_eq!(rt; bytes.len(), 176);
    assert_eq!(rt; &bytes[144..], CIPHER_SEAL.as_slice());
    let (head, list) = read_cipher(rt.alloc(), &bytes)?;
    assert_eq!(rt; head.digest, [7; 32]);
    assert_eq!(rt; (head.dim, head.width), (2, 2));
    assert_eq!(rt; head.ranges.as_slice(), [(0, 1), (0, 2)].as_slice());
    assert_eq!(rt; list.len(), 2);
    for (ciphertext, words) in list.iter().zip([&CIPHER[7..10], &CIPHER[10..]]) {
        assert_eq!(rt; ciphertext.words(), words);
    }
    let printed = print_cipher(rt.alloc(), &head, &list)?;
    assert_eq!(rt; printed.as_slice(), bytes.as_slice());
    Ok(())
}

#[test]
fn a_cipher_file_of_the_table(rt: HostRuntime) -> Result<(), Fail> {
    let mut words = vec![in rt.alloc(); 256, 2, 1, 0, 3]?;
    let zeros = vec![in rt.alloc(); 0u64; 257]?;
    words.extend_from_slice(&zeros)?;
    let bytes = made(rt.alloc(), FileKind::Cipher, &TABLE_DIGEST, &words)?;
    assert_eq!(rt; bytes.len(), 2168);
    assert_eq!(rt; &bytes[2136..], TABLE_CIPHER_SEAL.as_slice());
    let (_, list) = read_cipher(rt.alloc(), &bytes)?;
    assert_eq!(rt; list.len(), 1);
    Ok(())
}

#[test]
fn ranges_of_cipher_files(rt: HostRuntime) -> Result<(), Fail> {
    // -2^15 and the number before it, modulo 2^64
    const LEAST: u64 = 18_446_744_073_709_518_848;
    const BELOW: u64 = 18_446_744_073_709_518_847;
    for (lo, hi, place) in [
        (LEAST, 65_535, None),
        (3, 3, None),
        (4, 3, Some(3)),
        (BELOW, 0, Some(3)),
        (0, 65_536, Some(3)),
    ] {
        let words = [1, 16, 1, lo, hi, 5, 9];
        let bytes = made(rt.alloc(), FileKind::Cipher, &[7; 32], &words)?;
        match read_cipher(rt.alloc(), &bytes) {
            Ok(_) => assert!(rt; place.is_none()),
            Err(Refusal::Fault(fault)) => {
                let found = place.map(|place| FileFault::Field { place });
                assert_eq!(rt; Some(fault), found);
            }
            Err(Refusal::Memory) => assert!(rt; false, "memory"),
        }
    }
    Ok(())
}

/// A head of one range.
fn head_of(
    alloc: Global,
    digest: u8,
    dim: u32,
    width: u32,
    range: (i64, i64),
) -> Result<CipherHead, AllocError> {
    Ok(CipherHead {
        digest: [digest; 32],
        dim,
        width,
        ranges: List::from_vec(vec![in alloc; range]?),
    })
}

#[test]
fn mismatches_of_heads(rt: HostRuntime) -> Result<(), Fail> {
    let wanted = head_of(rt.alloc(), 7, 2, 3, (-1, 4))?;
    for (digest, dim, width, range, sides) in [
        (8, 1, 1, (0, 0), ([7; 32], [8; 32])),
        (7, 1, 1, (0, 0), (padded(2), padded(1))),
        (7, 2, 1, (0, 0), (padded(3), padded(1))),
        (7, 2, 3, (0, 0), (padded(u64::MAX), padded(0))),
        (7, 2, 3, (-1, 0), (padded(4), padded(0))),
    ] {
        let head = head_of(rt.alloc(), digest, dim, width, range)?;
        let (left, right) = sides;
        match head_fits(&wanted, &head) {
            Err(Refusal::Fault(fault)) => {
                assert_eq!(rt; fault, FileFault::Mismatch { left, right });
            }
            _ => assert!(rt; false, "no mismatch"),
        }
    }
    head_fits(&wanted, &wanted)?;
    let mut none = head_of(rt.alloc(), 7, 2, 3, (-1, 4))?;
    none.ranges = List::from_vec(Vec::new(rt.alloc()));
    assert!(rt;
        matches!(
            head_fits(&wanted, &none),
            Err(Refusal::Fault(FileFault::Mismatch { left, right }))
                if left == padded(1) && right == padded(0)
        )
    );
    Ok(())
}

#[test]
fn mismatches_of_keys(rt: HostRuntime) -> Result<(), Fail> {
    let secret = Secret {
        big: LweKey::from_bits(vec![in rt.alloc(); true, false]?),
        small: LweKey::from_bits(vec![in rt.alloc(); false]?),
    };
    let larger = Params {
        glwe: TABLE.glwe,
        ..SMALL
    };
    for (params, digest, sides) in [
        (SMALL, TABLE_DIGEST, (SMALL_DIGEST, TABLE_DIGEST)),
        (TABLE, SMALL_DIGEST, (padded(8), padded(1))),
        (larger, SMALL_DIGEST, (padded(256), padded(2))),
    ] {
        let (left, right) = sides;
        fhe_params::laws::laws();
        let fits = is_glwe(&params.glwe);
        assert!(rt; fits);
        match secret_fits(&SMALL_DIGEST, &params, &digest, &secret) {
            Err(Refusal::Fault(fault)) => {
                assert_eq!(rt; fault, FileFault::Mismatch { left, right });
            }
            _ => assert!(rt; false, "no mismatch"),
        }
    }
    for (digest, dim, sides) in [(8, 2, ([7; 32], [8; 32])), (7, 3, (padded(2), padded(3)))] {
        let head = head_of(rt.alloc(), digest, dim, 1, (0, 1))?;
        let (left, right) = sides;
        match key_fits(&[7; 32], &secret.big, &head) {
            Err(Refusal::Fault(fault)) => {
                assert_eq!(rt; fault, FileFault::Mismatch { left, right });
            }
            _ => assert!(rt; false, "no mismatch"),
        }
    }
    Ok(())
}

// The header, two rows of a switch key, and two rows of a boot key.
const EVAL: [u64; 17] = [
    1, 1, 1, 1, 1, 10, 11, 12, 13, 20, 21, 22, 23, 24, 25, 26, 27,
];

const EVAL_SEAL: [u8; 32] = [
    0x98, 0xb0, 0x79, 0x75, 0x9a, 0x68, 0xbf, 0x05, 0x05, 0xe2, 0x3e, 0x3e, 0x10, 0x75, 0x8c, 0x12,
    0x38, 0x29, 0x9a, 0x86, 0x36, 0x4a, 0x0d, 0x89, 0xcd, 0xf1, 0x28, 0x50, 0x91, 0x81, 0x5e, 0xfb,
];

const TABLE_EVAL_SEAL: [u8; 32] = [
    0x50, 0x3a, 0x48, 0x47, 0x16, 0x5d, 0x88, 0x91, 0x6c, 0x23, 0x73, 0xca, 0x8c, 0x4d, 0x14, 0x91,
    0x23, 0xf9, 0xb8, 0x14, 0xbd, 0x03, 0xc2, 0x91, 0x1e, 0xfa, 0xd2, 0xfc, 0x4b, 0xc0, 0x69, 0x65,
];

#[test]
fn eval_files(rt: HostRuntime) -> Result<(), Fail> {
    laws::laws();
    let bytes = made(rt.alloc(), FileKind::Eval, &SMALL_DIGEST, &EVAL)?;
    assert_eq!(rt; bytes.len(), 208);
    assert_eq!(rt; &bytes[176..], EVAL_SEAL.as_slice());
    let (switch, boot) = read_eval(rt.alloc(), &bytes, &SMALL_DIGEST, &SMALL)?;
    let printed = print_eval(rt.alloc(), &SMALL_DIGEST, &SMALL, &switch, &boot)?;
    assert_eq!(rt; printed.as_slice(), bytes.as_slice());
    Ok(())
}

#[test]
fn an_eval_file_of_the_table(rt: HostRuntime) -> Result<(), Fail> {
    let switch = SwitchKey::new(rt.alloc(), 256, 8, 4, 6)?;
    let boot = BootKey::new(rt.alloc(), 1, 8, 8, 8, 4)?;
    switch.known();
    boot.known();
    let mut bytes = print_eval(rt.alloc(), &TABLE_DIGEST, &TABLE, &switch, &boot)?;
    assert_eq!(rt; bytes.len(), 372_848);
    assert_eq!(rt; &bytes[372_816..], TABLE_EVAL_SEAL.as_slice());
    bytes.truncate(372_847);
    assert!(rt;
        matches!(
            read_eval(rt.alloc(), &bytes, &TABLE_DIGEST, &TABLE),
            Err(Refusal::Fault(FileFault::Length {
                want: 372_848,
                have: 372_847
            }))
        )
    );
    Ok(())
}

#[test]
fn mismatches_of_eval_files(rt: HostRuntime) -> Result<(), Fail> {
    let bytes = made(rt.alloc(), FileKind::Eval, &SMALL_DIGEST, &EVAL)?;
    for (digest, k, log_n, n, boot, switch, sides) in [
        (TABLE_DIGEST, 2, 2, 2, 2, 2, (TABLE_DIGEST, SMALL_DIGEST)),
        (SMALL_DIGEST, 2, 2, 2, 2, 2, (padded(2), padded(1))),
        (SMALL_DIGEST, 1, 3, 2, 2, 2, (padded(3), padded(1))),
        (SMALL_DIGEST, 1, 1, 4, 2, 2, (padded(4), padded(1))),
        (SMALL_DIGEST, 1, 1, 1, 5, 2, (padded(5), padded(1))),
        (SMALL_DIGEST, 1, 1, 1, 1, 6, (padded(6), padded(1))),
    ] {
        let params = Params {
            glwe: GlweChoice {
                k,
                log_n,
                ones: 0,
                error: 0,
            },
            lwe: LweChoice {
                n,
                ones: 0,
                error: 0,
            },
            boot: Gadget {
                base: 1,
                level: boot,
            },
            switch: Gadget {
                base: 1,
                level: switch,
            },
        };
        let (left, right) = sides;
        fhe_params::laws::laws();
        let fits = is_params(&params);
        assert!(rt; fits);
        match read_eval(rt.alloc(), &bytes, &digest, &params) {
            Err(Refusal::Fault(fault)) => {
                assert_eq!(rt; fault, FileFault::Mismatch { left, right });
            }
            _ => assert!(rt; false, "no mismatch"),
        }
    }
    Ok(())
}
