use crate::stream::error_from;
use crate::{Stream, laws};
use rand_chacha::ChaCha20Rng;
use rand_core::SeedableRng;
use rand_core::utils::NextWord;
use sha2::{Digest, Sha256};
use std::test::Fail;

const ZERO: [u8; 32] = [0; 32];

// The first bytes of the key stream of ChaCha20 for the all-zero key are 76 b8 e0 ad a0 f1 3d 90
// (RFC 8439, A.1), and the digest of `abc` begins ba 78 16 bf 8f 01 cf ea (FIPS 180-4).
#[test]
fn outside_vectors(rt: HostRuntime) {
    let mut words = ChaCha20Rng::from_seed(ZERO);
    assert_eq!(rt;
        words.next_word(),
        u32::from_le_bytes([0x76, 0xb8, 0xe0, 0xad])
    );
    assert_eq!(rt;
        words.next_word(),
        u32::from_le_bytes([0xa0, 0xf1, 0x3d, 0x90])
    );
    let digest = Sha256::digest(b"abc".as_slice());
    assert_eq!(rt;
        &digest[..8],
        [0xba, 0x78, 0x16, 0xbf, 0x8f, 0x01, 0xcf, 0xea].as_slice()
    );
}

// Printed by docs/streams.py, which has a ChaCha20 of its own. Draws 31 and 32 lie on both sides of
// the end of the cipher's first four blocks.
#[test]
fn draws_of_the_zero_seed(rt: HostRuntime) {
    for (label, expected) in [
        (
            "fhec big",
            [
                (0, 11844410372164898955),
                (1, 18433750119907298318),
                (2, 3656764281514022066),
                (3, 12165876983997143948),
                (31, 4689874301491355917),
                (32, 4913285060440999180),
                (33, 8709276234555923537),
            ],
        ),
        (
            "fhec switch",
            [
                (0, 6942279524679579051),
                (1, 2682383432650656530),
                (2, 11172636410553068680),
                (3, 1598080869163771984),
                (31, 15585162985482086422),
                (32, 14672342879814252647),
                (33, 16915798421069754695),
            ],
        ),
    ] {
        let mut stream = Stream::of(&ZERO, label);
        let mut drawn = 0;
        for (place, word) in expected {
            for _ in drawn..place {
                stream.next_u64();
            }
            assert_eq!(rt; stream.next_u64(), word, "draw {place} of {label}");
            drawn = place + 1;
        }
    }
}

// Draws 0 to 3 of `fhec big` again, as errors within 3 and as numbers below 1,024.
#[test]
fn errors_and_places(rt: HostRuntime) {
    let mut errors = Stream::of(&ZERO, "fhec big");
    let mut places = Stream::of(&ZERO, "fhec big");
    for (error, place) in [(-3, 139), (-1, 14), (0, 178), (-1, 908)] {
        assert_eq!(rt; errors.next_error(3), error);
        assert_eq!(rt; places.next_below(1024), place);
    }
    assert_eq!(rt; errors.next_error(0), 0);
    assert_eq!(rt; places.next_below(1), 0);
}

#[test]
fn error_of_each_remainder(rt: HostRuntime) {
    // the draw, the bound, the error
    for (draw, bound, error) in [
        (10, 3, 0),
        (0, 3, -3),
        (6, 3, 3),
        (7, 3, -3),
        (u64::MAX, 0, 0),
        (u64::MAX, (1 << 62) - 1, -4611686018427387902),
    ] {
        assert_eq!(rt; error_from(draw, bound), error, "{draw} within {bound}");
    }
}

#[test]
fn streams_differ_by_label_and_seed(rt: HostRuntime) -> Result<(), Fail> {
    laws::laws();
    let mut one = Stream::of(&ZERO, "fhec big");
    one.known();
    let shown = format!(in rt.alloc(); "{one:?}")?;
    assert_eq!(rt; shown.as_str(), "Stream { words: ChaChaXRng { .. } }");
    let first = one.next_u64();
    assert_ne!(rt; Stream::of(&ZERO, "fhec small").next_u64(), first);
    assert_ne!(rt; Stream::of(&[1; 32], "fhec big").next_u64(), first);
    Ok(())
}
