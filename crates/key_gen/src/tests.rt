//! Keys of the seed of 32 zero bytes under the parameters of the example table, as docs/keys.py prints them.

ghost use Rattle.std.specs.Prelude.{◌≡◌};

use crate::{encrypt_into, laws, make_boot_key, make_secret, make_switch_key};
use blind_rotate::BootKey;
use fhe_params::{Gadget, GlweChoice, LweChoice, Params};
use lwe_core::{Kind, Lwe, LweKey, decode, encode, phase};
use seed_stream::Stream;
use std::test::Fail;

const ZERO: [u8; 32] = [0; 32];

const PARAMS: Params = Params {
    glwe: GlweChoice {
        k: 1,
        log_n: 8,
        ones: 4,
        error: 1024,
    },
    lwe: LweChoice {
        n: 8,
        ones: 2,
        error: 1048576,
    },
    boot: Gadget { base: 8, level: 4 },
    switch: Gadget { base: 4, level: 6 },
};

/// Whether the bits that are 1 are those at these places.
fn has_ones_at<K: Kind>(key: &LweKey<K>, places: &[usize]) -> bool {
    (0..key.len()).all(|at| key.bit(at) == places.contains(&at))
}

#[test]
fn secret_keys_of_the_zero_seed(rt: HostRuntime) -> Result<(), Fail> {
    let secret = make_secret(rt.alloc(), &PARAMS, &ZERO)?;
    assert_eq!(rt; secret.big.len(), 256);
    assert_eq!(rt; secret.small.len(), 8);
    assert!(rt; has_ones_at(&secret.big, &[14, 139, 140, 178]));
    assert!(rt; has_ones_at(&secret.small, &[0, 3]));
    Ok(())
}

#[test]
fn switch_key_of_the_zero_seed(rt: HostRuntime) -> Result<(), Fail> {
    let secret = make_secret(rt.alloc(), &PARAMS, &ZERO)?;
    let key = make_switch_key(rt.alloc(), &PARAMS, &secret, &ZERO)?;
    let mut sum = 0u64;
    for i in 0..256 {
        for t in 1..7 {
            for word in key.row(i, t).words() {
                sum = sum.wrapping_add(*word);
            }
        }
    }
    assert_eq!(rt; sum, 3266323893495384542);
    // Rows 0, 86 and 1535; the middle one stands for a bit that is 1.
    for (i, t, first, body) in [
        (0, 1, 6942279524679579051, 8540360393842860005),
        (14, 3, 1132782507156218346, 14592497896960927134),
        (255, 6, 6599285994431695610, 9393445699992761028),
    ] {
        let row = key.row(i, t);
        assert_eq!(rt; (row.word(0), row.word(8)), (first, body));
    }
    Ok(())
}

#[test]
fn ciphertexts_of_the_zero_seed(rt: HostRuntime) -> Result<(), Fail> {
    let secret = make_secret(rt.alloc(), &PARAMS, &ZERO)?;
    let mut stream = Stream::of(&ZERO, "fhec input");
    for (value, first, last, body) in [
        (
            3,
            14511378387158005938,
            5590987361577200719,
            17345389241525169247,
        ),
        (
            -1,
            3485975861807610898,
            14690156067888903910,
            4809859675405798451,
        ),
    ] {
        let mut c = Lwe::new(rt.alloc(), 256)?;
        encrypt_into(&mut c, &secret.big, &mut stream, encode(value, 2), 1024);
        let words = c.words();
        assert_eq!(rt; words.get(0).copied(), Some(first));
        assert_eq!(rt; words.get(255).copied(), Some(last));
        assert_eq!(rt; words.get(256).copied(), Some(body));
        assert_eq!(rt; i64::from(decode(phase(&secret.big, &c), 2, -1)) - 1, value);
    }
    Ok(())
}

/// The word at a place of a part of row (j, t) of bit i, or 0 where the key has none.
fn word(key: &BootKey, (i, j, t): (u32, u32, u32), part: u32, place: usize) -> u64 {
    key.known();
    let there = (i as usize) < key.small_dim() && j <= key.k() && 1 <= t;
    if !there || t > key.level() {
        return 0;
    }
    let row = key.ggsw(i).row(j, t);
    if part > row.k() {
        return 0;
    }
    let words = row.part(part).coeffs();
    words.get(place).copied().unwrap_or(0)
}

#[test]
fn boot_key_of_the_zero_seed(rt: HostRuntime) -> Result<(), Fail> {
    let secret = make_secret(rt.alloc(), &PARAMS, &ZERO)?;
    let key = make_boot_key(rt.alloc(), &PARAMS, &secret, &ZERO)?;
    // Rows 25, 30 and 63; the first two stand for a bit that is 1.
    for (row, mask, body) in [
        (
            (3, 0, 2),
            [15017391016002169667, 16757489830319816796],
            [16454464886959736964, 2388923625967074631],
        ),
        (
            (3, 1, 3),
            [16586818257878090694, 4197502285087607456],
            [17763059146183731183, 6693910976994617608],
        ),
        (
            (7, 1, 4),
            [7911456543850825124, 14632939106410704993],
            [1328536680058373407, 8536044299090729842],
        ),
    ] {
        assert_eq!(rt; [word(&key, row, 0, 0), word(&key, row, 0, 255)], mask);
        assert_eq!(rt; [word(&key, row, 1, 0), word(&key, row, 1, 255)], body);
    }
    Ok(())
}

#[test]
fn boot_key_of_two_mask_polynomials(rt: HostRuntime) -> Result<(), Fail> {
    let params = Params {
        glwe: GlweChoice {
            k: 2,
            log_n: 3,
            ones: 5,
            error: 1024,
        },
        lwe: LweChoice {
            n: 3,
            ones: 2,
            error: 0,
        },
        boot: Gadget { base: 8, level: 2 },
        switch: Gadget { base: 1, level: 1 },
    };
    let secret = make_secret(rt.alloc(), &params, &ZERO)?;
    assert!(rt; has_ones_at(&secret.big, &[2, 10, 11, 12, 14]));
    assert!(rt; has_ones_at(&secret.small, &[0, 1]));
    let key = make_boot_key(rt.alloc(), &params, &secret, &ZERO)?;
    let row = (1, 1, 2);
    let last = [
        word(&key, row, 0, 7),
        word(&key, row, 1, 7),
        word(&key, row, 2, 7),
    ];
    assert_eq!(rt;
        last,
        [
            6524004248594501260,
            3827156209356005177,
            15318157751448915326
        ]
    );
    let mut sum = 0u64;
    for row in 0..18 {
        for at in 0..24 {
            let of_row = word(
                &key,
                (row / 6, row / 2 % 3, row % 2 + 1),
                at / 8,
                at as usize % 8,
            );
            sum = sum.wrapping_add(of_row);
        }
    }
    assert_eq!(rt; sum, 15419522747641431592);
    Ok(())
}

#[test]
fn laws_are_free() {
    laws::laws();
}
