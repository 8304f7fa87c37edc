ghost use Rattle.std.specs.Prelude.{◌≡◌, IfOk, length};

use crate::{Big, Lin, Lwe, LweKey, Secret, Small, decode, encode, laws, phase, seal};
use std::alloc::{AllocError, Global};
use std::test::Fail;
use word_ring::combine;

/// The word of -1.
const MINUS_ONE: u64 = 18446744073709551615;

/// A ciphertext with a mask of two words.
fn ciphertext(alloc: Global, first: u64, second: u64, body: u64) -> Result<Lwe<Big>, AllocError>
    ensures { IfOk result (λ c. length c ≡ 3) }
{
    Ok(Lwe::from_words(vec![in alloc; first, second, body]?))
}

#[test]
fn operations_go_word_by_word(rt: HostRuntime) -> Result<(), Fail> {
    let mut total = ciphertext(rt.alloc(), 5, 7, 2305843009213693960)?;
    let term = ciphertext(rt.alloc(), MINUS_ONE, 0, 4611686018427387901)?;
    assert!(rt; total.fits(&term));
    total.known();

    total.add_assign(&term);
    assert_eq!(rt; total.words(), [4, 7, 6917529027641081861].as_slice());
    total.sub_assign(&term);
    assert_eq!(rt; total.words(), [5, 7, 2305843009213693960].as_slice());
    total.sub_assign(&term);
    assert_eq!(rt; total.words(), [6, 7, 16140901064495857675].as_slice());
    total.scale_assign(MINUS_ONE);
    assert_eq!(rt;
        total.words(),
        [
            18446744073709551610,
            18446744073709551609,
            2305843009213693941
        ]
        .as_slice()
    );
    total.add_scaled(&term, 2);
    assert_eq!(rt;
        total.words(),
        [
            18446744073709551608,
            18446744073709551609,
            11529215046068469743
        ]
        .as_slice()
    );
    total.zero_assign();
    assert_eq!(rt; total.words(), [0, 0, 0].as_slice());
    Ok(())
}

#[test]
fn combines(rt: HostRuntime) -> Result<(), Fail> {
    let mut into = Lwe::<Big>::new(rt.alloc(), 2)?;
    assert_eq!(rt; into.words(), [0, 0, 0].as_slice());
    let values = [
        ciphertext(rt.alloc(), 5, 7, 2305843009213693960)?,
        ciphertext(rt.alloc(), MINUS_ONE, 0, 4611686018427387901)?,
    ];
    combine(&mut into, &[1, 1], &[0, 1], &values);
    assert_eq!(rt; into.words(), [4, 7, 6917529027641081861].as_slice());
    Ok(())
}

#[test]
fn words_are_set_one_by_one(rt: HostRuntime) -> Result<(), Fail> {
    let mut small = Lwe::<Small>::new(rt.alloc(), 1)?;
    assert_eq!(rt; small.dim(), 1);
    small.set(1, 9);
    assert_eq!(rt; small.words(), [0, 9].as_slice());
    small.set(0, 3);
    assert_eq!(rt; (small.word(0), small.word(1)), (3, 9));
    let other = Lwe::<Small>::new(rt.alloc(), 2)?;
    assert!(rt; !small.fits(&other));
    Ok(())
}

#[test]
fn keys_have_bits(rt: HostRuntime) -> Result<(), Fail> {
    let secret = Secret {
        big: LweKey::from_bits(vec![in rt.alloc(); true, false]?),
        small: LweKey::from_bits(vec![in rt.alloc(); true]?),
    };
    let key = &secret.big;
    assert_eq!(rt; (key.len(), key.ones()), (2, 1));
    assert!(rt; key.bit(0) && !key.bit(1));
    assert_eq!(rt; (secret.small.len(), secret.small.ones()), (1, 1));
    Ok(())
}

#[test]
fn sealed_ciphertexts_keep_their_mask(rt: HostRuntime) -> Result<(), Fail> {
    // the bits of a key, and a message, an error and the body that is set: message + error + the masked words
    for (first, second, message, error, body) in [
        (true, false, 6917529027641081856, 1, 6917529027641081862),
        (false, true, 0, -3, 4),
        (true, true, MINUS_ONE, 2, 13),
        (false, false, 0, -1, MINUS_ONE),
    ] {
        let key = LweKey::<Big>::from_bits(vec![in rt.alloc(); first, second]?);
        let mut c = ciphertext(rt.alloc(), 5, 7, 9)?;
        seal(&key, &mut c, message, error);
        assert_eq!(rt; c.words(), [5, 7, body].as_slice());
    }
    Ok(())
}

#[test]
fn phases_are_linear(rt: HostRuntime) -> Result<(), Fail> {
    let key = LweKey::<Big>::from_bits(vec![in rt.alloc(); true, false]?);
    // two ciphertexts, their phases, and those of their sum, their difference and three times the first
    for (a, b, phases) in [
        (
            [5, 7, 2305843009213693960],
            [MINUS_ONE, 0, 4611686018427387901],
            [
                2305843009213693955,
                4611686018427387902,
                6917529027641081857,
                16140901064495857669,
                6917529027641081865,
            ],
        ),
        (
            [1, 2, 3],
            [9223372036854775808, 9, 9223372036854775808],
            [2, 0, 2, 2, 6],
        ),
        (
            [0, MINUS_ONE, 0],
            [1, 1, 0],
            [0, MINUS_ONE, MINUS_ONE, 1, 0],
        ),
    ] {
        let mut total = ciphertext(rt.alloc(), a[0], a[1], a[2])?;
        let term = ciphertext(rt.alloc(), b[0], b[1], b[2])?;
        assert_eq!(rt;
            (phase(&key, &total), phase(&key, &term)),
            (phases[0], phases[1])
        );
        total.add_assign(&term);
        assert_eq!(rt; phase(&key, &total), phases[2]);
        total.sub_assign(&term);
        total.sub_assign(&term);
        assert_eq!(rt; phase(&key, &total), phases[3]);
        total.add_assign(&term);
        total.scale_assign(3);
        assert_eq!(rt; phase(&key, &total), phases[4]);
    }
    Ok(())
}

#[test]
fn decodes_to_the_nearest(rt: HostRuntime) {
    for (phase, width, lo, offset) in [
        // 3 with the error 1
        (6917529027641081857, 2, 0, 3),
        // half a step below 1, and above it
        (1152921504606846975, 2, 0, 0),
        (1152921504606846976, 2, 0, 1),
        (3458764513820540927, 2, 0, 1),
        (3458764513820540928, 2, 0, 2),
        // the greatest offset, and half a step above it
        (16140901064495857664, 2, 0, 7),
        (17293822569102704639, 2, 0, 7),
        (17293822569102704640, 2, 0, 0),
        // over a least value below 0, and above it
        (0, 2, -1, 1),
        (16140901064495857664, 2, -1, 0),
        (985162418487296, 16, 5, 2),
        // the least width and the greatest
        (2305843009213693951, 1, 0, 0),
        (2305843009213693952, 1, 0, 1),
        (13835058055282163712, 1, 0, 3),
        (492581209243647, 16, 0, 3),
        (492581209243648, 16, 0, 4),
        (18446603336221196288, 16, 0, 131071),
    ] {
        assert!(rt; 1 <= width && width <= 16);
        assert_eq!(rt;
            decode(phase, width, lo),
            offset,
            "{phase} at width {width} over {lo}"
        );
    }
}

#[test]
fn values_have_places(rt: HostRuntime) {
    for (value, width, place) in [
        (3, 2, 6917529027641081856),
        (-1, 2, 16140901064495857664),
        (0, 16, 0),
        (-3, 1, 4611686018427387904),
        (131071, 16, 18446603336221196288),
    ] {
        assert_eq!(rt; encode(value, width), place, "{value} at width {width}");
    }
}

#[test]
fn laws_are_free() {
    laws::laws();
}
