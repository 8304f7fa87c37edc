ghost use Rattle.std.specs.Prelude.{◌≡◌, ◌≤◌, ◌<◌, ◌+◌, ◌*◌, ◌^◌, IfOk, length, replicate};
ghost use Rattle.glwe_core.specs.Glwe.{lengths_of};
ghost use Rattle.blind_rotate.specs.BootKey.{glwe_shape};

use super::*;
use glwe_core::Glwe;
use lut_encode::test_poly_into;
use lwe_core::{Big, Lwe, LweKey, Small, decode, phase, seal};
use negacyclic::Poly;
use std::alloc::{AllocError, Global};
use std::process::Abort;
use std::test::Fail;

/// The next of a list of words that look like no other list.
fn next(word: u64) -> u64 {
    word.wrapping_mul(6364136223846793005)
        .wrapping_add(1442695040888963407)
}

/// Sets the coefficients of a part to these words.
fn set_part(c: &mut Glwe, at: u32, words: &[u64])
    ensures { lengths_of c.new ≡ lengths_of c.old }
{
    for (place, word) in words.iter().enumerate() {
        if at <= c.k() && place < c.part(0).coeffs().len() {
            c.set(at, place, *word);
        }
    }
}

/// So many words, from one on.
fn drawn_words(alloc: Global, number: usize, start: u64) -> Result<Vec<u64>, AllocError> {
    let mut words = Vec::new(alloc);
    let mut word = start;
    for _ in 0..number {
        word = next(word);
        words.push(word)?;
    }
    Ok(words)
}

/// A ciphertext of one mask polynomial and a body of 2^log_n words, drawn from one on.
fn drawn_row(alloc: Global, log_n: u32, start: u64) -> Result<Glwe, AllocError>
    requires one_or_more { 1 ≤ log_n }
    requires thirteen_or_less { log_n ≤ 13 }
    ensures { IfOk result (λ c. lengths_of c ≡ replicate 2 (2 ^ log_n)) }
{
    let mut c = Glwe::new(alloc, 1, log_n)?;
    for at in 0..2u32 {
        let words = drawn_words(alloc, 1 << log_n, start.wrapping_add(u64::from(at)))?;
        set_part(&mut c, at, words.as_slice());
    }
    Ok(c)
}

/// A boot key for eight bits, with 256 coefficients and four digits of eight bits, whose rows are drawn.
fn drawn_key(alloc: Global) -> Result<BootKey, AllocError>
    ensures shape { IfOk result (λ key. key.shape ≡ glwe_shape 1 8) }
    ensures number { IfOk result (λ key. length key.ggsws ≡ 8) }
{
    let mut key = BootKey::new(alloc, 1, 8, 8, 8, 4)?;
    for place in 0..64u32 {
        let mut row = drawn_row(alloc, 8, u64::from(place))?;
        key.swap_row(place / 8, place / 4 % 2, place % 4 + 1, &mut row);
    }
    Ok(key)
}

/// Asserts what a bootstrap with the table 1, 3, 0, 2 of two bits makes of ciphertexts without a mask.
fn expect_bodies(
    rt: &impl Abort,
    alloc: Global,
    key: &BootKey,
    bodies: &[(u64, u64)],
) -> Result<(), AllocError>
    requires shape { key.now.shape ≡ glwe_shape 1 8 }
    requires number { length key.now.ggsws ≡ 8 }
{
    let mut room = Room::new(alloc, 1, 8)?;
    let mut test = Poly::new(alloc, 8)?;
    test_poly_into(&mut test, &[1, 3, 0, 2], 2);
    let mut c = Lwe::<Small>::new(alloc, 8)?;
    let mut out = Lwe::<Big>::new(alloc, 256)?;
    for (body, expected) in bodies {
        c.set(8, *body);
        bootstrap_into(&mut out, &mut room, key, &test, &c);
        for at in 0..256 {
            assert_eq!(rt; out.word(at), 0);
        }
        assert_eq!(rt; out.word(256), *expected);
    }
    Ok(())
}

#[test]
fn ends_of_boxes(rt: HostRuntime) -> Result<(), Fail> {
    // With 256 coefficients and two bits a box has 64 places, 2^55 apart, and a value's place is a multiple of 2^61.
    let bodies = [
        // 0 with the error -3*2^54: place 511, in the last half box
        (18392700878181105664, 2305843009213693952),
        // 3 with the error 2^60 - 2^55: place 223, the last of its box
        (8034421735228964864, 4611686018427387904),
        // 3 with the error 2^60 - 2^54 - 1, the greatest that leaves room for switching
        (8052436133738446847, 4611686018427387904),
        // one more is too much: place 224, where entry 0 stands with the other sign
        (8052436133738446848, 16140901064495857664),
        // 3 with the error 2^60
        (8070450532247928832, 16140901064495857664),
    ];
    let zeros = BootKey::new(rt.alloc(), 1, 8, 8, 8, 4)?;
    expect_bodies(&rt, rt.alloc(), &zeros, bodies.as_slice())?;
    let drawn = drawn_key(rt.alloc())?;
    expect_bodies(&rt, rt.alloc(), &drawn, bodies.as_slice())?;
    Ok(())
}

/// The big key of one polynomial of 16 bits, four of them 1, and the small key of eight bits, two of them 1.
const BIG: [bool; 16] = [
    false, true, false, false, false, false, true, false, false, true, false, false, false, false,
    false, true,
];

const SMALL: [bool; 8] = [false, true, false, false, false, true, false, false];

/// Coefficient c of a mask polynomial times the big key's polynomial, by the rotations of the mask.
fn masked(mask: &[u64], c: usize) -> u64
    requires { c < 16 }
{
    let mut sum: u64 = 0;
    for a in 0..16usize {
        if BIG[a] && a <= c {
            sum = sum.wrapping_add(mask.get(c - a).copied().unwrap_or(0));
        } else if BIG[a] {
            sum = sum.wrapping_sub(mask.get(16 + c - a).copied().unwrap_or(0));
        }
    }
    sum
}

/// Coefficient c of the message of row (j, t) of the GGSW ciphertext of a bit, with digits of eight bits.
fn message(bit: bool, j: u32, t: u32, c: usize) -> u64
    requires first { 1 ≤ t }
    requires last { t ≤ 4 }
    requires inside { c < 16 }
{
    let weight: u64 = 1 << (64 - 8 * t);
    if bit && j == 0 && BIG[c] {
        weight.wrapping_neg()
    } else if bit && j == 1 && c == 0 {
        weight
    } else {
        0
    }
}

/// Row (j, t) of the GGSW ciphertext of a bit, whose errors are 1024 and -1024 in turn.
fn row_of_bit(alloc: Global, bit: bool, j: u32, t: u32, start: u64) -> Result<Glwe, AllocError>
    requires first { 1 ≤ t }
    requires last { t ≤ 4 }
    ensures { IfOk result (λ c. lengths_of c ≡ replicate 2 16) }
{
    let mut row = drawn_row(alloc, 4, start)?;
    let mut body = Vec::new(alloc);
    for c in 0..16usize {
        let mask = row.part(0).coeffs();
        let word = message(bit, j, t, c).wrapping_add(masked(mask, c));
        if c % 2 == 0 {
            body.push(word.wrapping_add(1024))?;
        } else {
            body.push(word.wrapping_sub(1024))?;
        }
    }
    set_part(&mut row, 1, body.as_slice());
    Ok(row)
}

/// The boot key of the two keys, with 16 coefficients and four digits of eight bits.
fn boot_key(alloc: Global) -> Result<BootKey, AllocError>
    ensures shape { IfOk result (λ key. key.shape ≡ glwe_shape 1 4) }
    ensures number { IfOk result (λ key. length key.ggsws ≡ 8) }
{
    let mut key = BootKey::new(alloc, 1, 4, 8, 8, 4)?;
    for place in 0..64u32 {
        let (i, j, t) = (place / 8, place / 4 % 2, place % 4 + 1);
        let mut row = row_of_bit(alloc, SMALL[i as usize], j, t, u64::from(place))?;
        key.swap_row(i, j, t, &mut row);
    }
    Ok(key)
}

/// The ciphertext under the small key of the value v of two bits, with this error.
fn encrypted(alloc: Global, v: u64, error: i64) -> Result<Lwe<Small>, AllocError>
    requires { v < 4 }
    ensures { IfOk result (λ c. length c ≡ 9) }
{
    let small = LweKey::<Small>::from_bits(SMALL.as_slice().to_vec(alloc)?);
    let mut c = Lwe::<Small>::new(alloc, 8)?;
    let words = drawn_words(alloc, 8, v)?;
    for at in 0..8usize {
        c.set(at, words.get(at).copied().unwrap_or(0));
    }
    seal(&small, &mut c, v << 61, error);
    Ok(c)
}

#[test]
fn every_value_with_the_greatest_errors(rt: HostRuntime) -> Result<(), Fail> {
    let key = boot_key(rt.alloc())?;
    let big = LweKey::<Big>::from_bits(BIG.as_slice().to_vec(rt.alloc())?);
    let mut test = Poly::new(rt.alloc(), 4)?;
    test_poly_into(&mut test, &[1, 3, 0, 2], 2);
    let entries = [1u64, 3, 0, 2];
    let mut room = Room::new(rt.alloc(), 1, 4)?;
    let mut out = Lwe::<Big>::new(rt.alloc(), 16)?;
    // with two ones and 16 coefficients switching takes 3 * 2^58 of the 2^60 that two bits leave
    for v in 0..4u64 {
        for error in [288230376151711743, -288230376151711743] {
            let c = encrypted(rt.alloc(), v, error)?;
            bootstrap_into(&mut out, &mut room, &key, &test, &c);
            let read = phase(&big, &out);
            let entry = entries[v as usize];
            assert_eq!(rt; u64::from(decode(read, 2, 0)), entry);
            // the bound of these keys: 8 * 2*4*16*128*1024 for the rows, and 2 * 5*2^31 for rounding
            let off = read
                .wrapping_sub(entry.wrapping_mul(1 << 61))
                .wrapping_add(21609054208);
            assert!(rt; off <= 43218108416, "error of {v}");
        }
    }
    Ok(())
}

#[test]
fn rows_are_exchanged(rt: HostRuntime) -> Result<(), Fail> {
    let mut key = BootKey::new(rt.alloc(), 1, 1, 3, 20, 3)?;
    assert_eq!(rt; key.k(), 1);
    assert_eq!(rt; key.log_n(), 1);
    assert_eq!(rt; key.small_dim(), 3);
    assert_eq!(rt; key.base(), 20);
    assert_eq!(rt; key.level(), 3);
    assert_eq!(rt; key.ggsw(2).level(), 3);
    key.known();
    let mut row = drawn_row(rt.alloc(), 1, 7)?;
    key.swap_row(1, 1, 2, &mut row);
    assert!(rt; 1 <= row.k());
    assert_eq!(rt; row.part(1).coeffs(), [0, 0].as_slice());
    let drawn = [next(8), next(next(8))];
    for place in 0..18u32 {
        let (i, j, t) = (place / 6, place / 3 % 2, place % 3 + 1);
        let mut row = Glwe::new(rt.alloc(), 1, 1)?;
        key.swap_row(i, j, t, &mut row);
        let words = if place == 10 { drawn } else { [0, 0] };
        assert!(rt; 1 <= row.k());
        assert_eq!(rt;
            row.part(1).coeffs(),
            words.as_slice(),
            "row {j} {t} of {i}"
        );
    }
    Ok(())
}

#[test]
fn laws_are_free() {
    laws::laws();
}
