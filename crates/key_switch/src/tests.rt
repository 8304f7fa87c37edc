use crate::laws::laws;
use crate::{SwitchKey, switch_into};
use lwe_core::{Big, Lwe, LweKey, Small, phase, seal};
use std::test::Fail;

/// The word of -1.
const MINUS_ONE: u64 = 0xffff_ffff_ffff_ffff;

/// A word that hangs on two numbers.
fn mixed(row: usize, at: usize) -> u64 {
    let seed = (row as u64)
        .wrapping_mul(1000003)
        .wrapping_add(at as u64)
        .wrapping_add(1);
    seed.wrapping_mul(0x9e37_79b9_7f4a_7c15) ^ seed.wrapping_mul(0xbf58_476d_1ce4_e5b9) >> 29
}

#[test]
fn one_row(rt: HostRuntime) -> Result<(), Fail> {
    let mut key = SwitchKey::new(rt.alloc(), 1, 1, 4, 1)?;
    let mut row = Lwe::new(rt.alloc(), 1)?;
    row.set(0, 7);
    row.set(1, 1152921504606846976);
    key.swap_row(0, 1, &mut row);
    assert_eq!(rt; row.words(), [0, 0].as_slice());
    assert_eq!(rt; key.row(0, 1).words(), [7, 1152921504606846976].as_slice());
    let c = Lwe::<Big>::from_words([2305843009213693952, 5].to_vec(rt.alloc())?);
    let mut out = Lwe::new(rt.alloc(), 1)?;
    out.set(0, 3);
    out.set(1, 9);
    switch_into(&mut out, &key, &c);
    assert_eq!(rt;
        out.words(),
        [18446744073709551602, 16140901064495857669].as_slice()
    );
    // the digit is 2, and the phase 5 - 2^61 before and after
    let big = LweKey::<Big>::from_bits([true].to_vec(rt.alloc())?);
    let small = LweKey::<Small>::from_bits([false].to_vec(rt.alloc())?);
    assert_eq!(rt; phase(&big, &c), 16140901064495857669);
    assert_eq!(rt; phase(&small, &out), 16140901064495857669);
    Ok(())
}

#[test]
fn a_new_key(rt: HostRuntime) -> Result<(), Fail> {
    let key = SwitchKey::new(rt.alloc(), 3, 2, 7, 9)?;
    key.known();
    laws();
    assert_eq!(rt; key.big_dim(), 3);
    assert_eq!(rt; key.small_dim(), 2);
    assert_eq!(rt; key.base(), 7);
    assert_eq!(rt; key.level(), 9);
    for i in 0..3 {
        for t in 1..10 {
            assert_eq!(rt; key.row(i, t).words(), [0, 0, 0].as_slice(), "row {i} {t}");
        }
    }
    Ok(())
}

#[test]
fn sums_of_rows(rt: HostRuntime) -> Result<(), Fail> {
    // base, level, two mask words, and the digits of the first and then of the second
    for (base, level, mask, digits) in [
        (
            4,
            1,
            [2305843009213693952, 9223372036854775808],
            [2i64, -8].as_slice(),
        ),
        (4, 1, [8646911284551352320, MINUS_ONE], &[-8, 0]),
        (4, 2, [1729382256910270464, MINUS_ONE], &[2, -8, 0, 0]),
        (
            31,
            2,
            [4294967292, 4294967296],
            &[0, 1073741823, 1, -1073741824],
        ),
        (63, 1, [1, 9223372036854775807], &[1, -4611686018427387904]),
        (
            1,
            6,
            [1311768467463790320, 9223372036854775808],
            &[-1, -1, -1, 0, -1, -1, -1, 0, 0, 0, 0, 0],
        ),
        (
            3,
            6,
            [1311768467463790320, 9223372036854775807],
            &[1, -3, -4, 3, 2, 1, -4, 0, 0, 0, 0, 0],
        ),
        (
            10,
            6,
            [18364758544493064720, 81985529216486895],
            &[-5, 460, -346, 118, 337, -223, 5, -460, 346, -118, -337, 223],
        ),
    ] {
        assert!(rt; 1 <= base && base <= 63 && 1 <= level && level <= 63);
        assert!(rt; base * level <= 63);
        let mut key = SwitchKey::new(rt.alloc(), 2, 3, base, level)?;
        for place in 0..digits.len() {
            let mut row = Lwe::new(rt.alloc(), 3)?;
            for at in 0..4 {
                assert!(rt; at <= row.dim());
                row.set(at, mixed(place, at));
            }
            let (i, t) = (place / level as usize, (place % level as usize) as u32 + 1);
            assert!(rt; i < key.big_dim() && t <= key.level());
            assert!(rt; row.dim() == key.small_dim());
            key.swap_row(i, t, &mut row);
        }
        let c = Lwe::<Big>::from_words([mask[0], mask[1], 77].to_vec(rt.alloc())?);
        let mut out = Lwe::new(rt.alloc(), 3)?;
        assert!(rt; key.big_dim() == c.dim() && key.small_dim() == out.dim());
        switch_into(&mut out, &key, &c);
        for at in 0..4 {
            let mut word: u64 = if at == 3 { 77 } else { 0 };
            for (place, digit) in digits.iter().enumerate() {
                word = word.wrapping_sub(digit.cast_unsigned().wrapping_mul(mixed(place, at)));
            }
            assert_eq!(rt;
                out.words().get(at).copied(),
                Some(word),
                "{base} {level} {at}"
            );
        }
    }
    Ok(())
}

#[test]
fn as_many_digits_as_can_be(rt: HostRuntime) -> Result<(), Fail> {
    let mut key = SwitchKey::new(rt.alloc(), 1, 1, 1, 63)?;
    for t in 1..64u32 {
        let mut row = Lwe::new(rt.alloc(), 1)?;
        row.set(0, u64::from(t));
        row.set(1, u64::from(t) * u64::from(t));
        assert!(rt; 0 < key.big_dim() && t <= key.level() && key.small_dim() == 1);
        key.swap_row(0, t, &mut row);
    }
    // the digits of 5 are -1 at the places 1 to 61, then 0 and -1
    let c = Lwe::<Big>::from_words([5, 0].to_vec(rt.alloc())?);
    let mut out = Lwe::new(rt.alloc(), 1)?;
    assert!(rt; key.big_dim() == c.dim() && key.small_dim() == out.dim());
    switch_into(&mut out, &key, &c);
    // 1 + .. + 61 + 63, and the same of squares
    assert_eq!(rt; out.words(), [1954, 81500].as_slice());
    Ok(())
}

#[test]
fn phases_stay_near(rt: HostRuntime) -> Result<(), Fail> {
    // a big key of four ones, rows within 1000 of their messages
    let big = LweKey::<Big>::from_bits([true; 4].to_vec(rt.alloc())?);
    let small = LweKey::<Small>::from_bits([true, false, true].to_vec(rt.alloc())?);
    let mut key = SwitchKey::new(rt.alloc(), 4, 3, 4, 3)?;
    for i in 0..4 {
        for t in 1..4u32 {
            let mut row = Lwe::new(rt.alloc(), 3)?;
            for at in 0..3 {
                assert!(rt; at < row.dim());
                row.set(at, mixed(i, at) ^ u64::from(t));
            }
            assert!(rt; row.dim() == small.len());
            seal(
                &small,
                &mut row,
                1 << (64 - 4 * t),
                if t == 2 { -1000 } else { 1000 },
            );
            assert!(rt; i < key.big_dim() && t <= key.level() && row.dim() == key.small_dim());
            key.swap_row(i, t, &mut row);
        }
    }
    let c = Lwe::<Big>::from_words([mixed(4, 0), mixed(5, 0), mixed(6, 0), MINUS_ONE, 77].to_vec(
        rt.alloc(),
    )?);
    let mut out = Lwe::new(rt.alloc(), 3)?;
    assert!(rt; key.big_dim() == c.dim() && key.small_dim() == out.dim());
    switch_into(&mut out, &key, &c);
    assert!(rt; c.dim() == big.len() && out.dim() == small.len());
    let moved = phase(&small, &out).wrapping_sub(phase(&big, &c));
    // 4 words of 3 digits of at most 8, and 4 times half of the last place
    let bound: u64 = 4 * 3 * 8 * 1000 + 4 * (1 << 51);
    assert!(rt; moved.min(0u64.wrapping_sub(moved)) <= bound, "{moved}");
    assert!(rt; moved != 0);
    Ok(())
}
