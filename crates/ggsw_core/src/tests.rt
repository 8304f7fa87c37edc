ghost use Rattle.std.specs.Prelude.{◌≡◌, ◌+◌, ◌*◌, ◌^◌, ◌<◌, ◌≤◌, IfOk, length, replicate};
ghost use Rattle.glwe_core.specs.Glwe.{lengths_of, degree_of};
ghost use Rattle.ggsw_core.specs.Ggsw.{row_lengths};

use super::*;
use glwe_core::{Glwe, Lin};
use std::alloc::{AllocError, Global};
use std::process::Abort;
use std::test::Fail;

/// 2^60, the weight of the only place of base 4 and level 1.
const UNIT: u64 = 1152921504606846976;

/// Sets the coefficients of a part to these words.
#[tactic(auto, using(crate::proofs::Rows::set_lengths))]
fn set_part(c: &mut Glwe, at: u32, words: &[u64])
    ensures { lengths_of c.new ≡ lengths_of c.old }
{
    for (place, word) in words.iter().enumerate() {
        if at <= c.k() && place < c.part(0).coeffs().len() {
            c.set(at, place, *word);
        }
    }
}

/// Asserts that a part has these coefficients.
fn expect_part(rt: &impl Abort, c: &Glwe, at: u32, words: &[u64]) {
    assert!(rt; at <= c.k());
    assert_eq!(rt; c.part(at).coeffs(), words, "part {at}");
}

/// The GGSW ciphertext of the bit 1 without errors, for one mask polynomial of two words and digits of four bits.
fn one_of_two(alloc: Global) -> Result<Ggsw, AllocError>
    ensures { IfOk result (λ g. row_lengths g ≡ replicate 2 2) }
{
    laws::laws();
    let mut g = Ggsw::new(alloc, 1, 1, 4, 1)?;
    for j in 0..2 {
        let mut row = Glwe::new(alloc, 1, 1)?;
        set_part(&mut row, j, &[UNIT, 0]);
        g.known();
        g.swap_row(j, 1, &mut row);
    }
    Ok(g)
}

#[test]
fn a_product_with_one_gives_the_words_back(rt: HostRuntime) -> Result<(), Fail> {
    let g = one_of_two(rt.alloc())?;
    let mut room = ExtRoom::new(rt.alloc(), 1, 1)?;
    for (mask, body) in [
        (
            [2305843009213693952, 0],
            [1152921504606846976, 4611686018427387904],
        ),
        // the least and the greatest digit, -8 and 7
        (
            [9223372036854775808, 8070450532247928832],
            [0, 9223372036854775808],
        ),
    ] {
        let mut c = Glwe::new(rt.alloc(), 1, 1)?;
        set_part(&mut c, 0, &mask);
        set_part(&mut c, 1, &body);
        let mut out = Glwe::new(rt.alloc(), 1, 1)?;
        external_into(&mut out, &g, &c, &mut room);
        expect_part(&rt, &out, 0, &mask);
        expect_part(&rt, &out, 1, &body);
    }
    Ok(())
}

#[test]
fn cmux_selects(rt: HostRuntime) -> Result<(), Fail> {
    let one = one_of_two(rt.alloc())?;
    let zero = Ggsw::new(rt.alloc(), 1, 1, 4, 1)?;
    let mut room = ExtRoom::new(rt.alloc(), 1, 1)?;
    let mut acc = Glwe::new(rt.alloc(), 1, 1)?;
    set_part(&mut acc, 0, &[5, 6]);
    set_part(&mut acc, 1, &[7, 8]);
    // 0, 1, 7 and 3 units more
    let mut other = Glwe::new(rt.alloc(), 1, 1)?;
    set_part(&mut other, 0, &[5, 1152921504606846982]);
    set_part(&mut other, 1, &[8070450532247928839, 3458764513820540936]);
    cmux_into(&mut acc, &zero, &other, &mut room);
    expect_part(&rt, &acc, 0, &[5, 6]);
    expect_part(&rt, &acc, 1, &[7, 8]);
    cmux_into(&mut acc, &one, &other, &mut room);
    expect_part(&rt, &acc, 0, &[5, 1152921504606846982]);
    expect_part(&rt, &acc, 1, &[8070450532247928839, 3458764513820540936]);
    Ok(())
}

#[test]
fn rows_are_exchanged(rt: HostRuntime) -> Result<(), Fail> {
    let mut g = Ggsw::new(rt.alloc(), 1, 1, 20, 3)?;
    assert_eq!(rt; g.base(), 20);
    assert_eq!(rt; g.level(), 3);
    g.known();
    let mut row = Glwe::new(rt.alloc(), 1, 1)?;
    set_part(&mut row, 1, &[3, 4]);
    g.swap_row(1, 2, &mut row);
    expect_part(&rt, &row, 1, &[0, 0]);
    expect_part(&rt, g.row(1, 2), 1, &[3, 4]);
    expect_part(&rt, g.row(1, 1), 1, &[0, 0]);
    expect_part(&rt, g.row(1, 3), 1, &[0, 0]);
    expect_part(&rt, g.row(0, 2), 1, &[0, 0]);
    Ok(())
}

/// Some word for a place of part `at` of row (j, t).
fn row_word(j: u32, t: u32, at: u32, place: usize) -> u64 {
    let mixed = u64::from(j)
        .wrapping_mul(17)
        .wrapping_add(u64::from(t).wrapping_mul(1009))
        .wrapping_add(u64::from(at).wrapping_mul(31))
        .wrapping_add((place as u64).wrapping_mul(100003))
        .wrapping_add(1);
    mixed.wrapping_mul(11400714819323198485)
}

/// Some word for a place of part j of a ciphertext, of the first one or the second.
fn part_word(second: bool, j: u32, place: usize) -> u64 {
    let which: u64 = if second { 7 } else { 3 };
    which
        .wrapping_add(u64::from(j).wrapping_mul(257))
        .wrapping_add((place as u64).wrapping_mul(65537))
        .wrapping_mul(14029467366897019727)
}

/// Digit t of a word, by carrying from the last place to the first, modulo 2^64.
fn plain_digit(word: u64, base: u32, level: u32, t: u32) -> u64
    requires some_bits { 1 ≤ base }
    requires some_digits { 1 ≤ level }
    requires fits { base * level ≤ 63 }
{
    let range: u64 = 1 << base;
    let half: u64 = 1 << (base - 1);
    let rounding: u64 = 1 << (63 - base * level);
    let mut rest = word.wrapping_add(rounding) >> (64 - base * level);
    let mut digit = 0;
    for _place in t..level + 1 {
        digit = rest & (range - 1);
        rest >>= base;
        if digit >= half {
            digit = digit.wrapping_sub(range);
            rest = rest.wrapping_add(1);
        }
    }
    digit
}

/// A coefficient of a part of the external product with the second ciphertext, or with what it has more than the
/// first, by the plain sum over parts, places and coefficients.
fn plain_word(
    difference: bool,
    k: u32,
    n: usize,
    base: u32,
    level: u32,
    at: u32,
    place: usize,
) -> u64
    requires few_masks { k ≤ 3 }
    requires some_bits { 1 ≤ base }
    requires some_digits { 1 ≤ level }
    requires fits { base * level ≤ 63 }
    requires inside { place < n }
{
    let mut sum: u64 = 0;
    for j in 0..k + 1 {
        for t in 1..level + 1 {
            for a in 0..n {
                let first = if difference {
                    part_word(false, j, a)
                } else {
                    0
                };
                let word = part_word(true, j, a).wrapping_sub(first);
                let digit = plain_digit(word, base, level, t);
                if a <= place {
                    sum = sum.wrapping_add(digit.wrapping_mul(row_word(j, t, at, place - a)));
                } else {
                    sum = sum.wrapping_sub(digit.wrapping_mul(row_word(j, t, at, n - (a - place))));
                }
            }
        }
    }
    sum
}

/// The words of a part of the external product with the second ciphertext, or of CMux from the first to the second.
fn plain_part(
    alloc: Global,
    selects: bool,
    k: u32,
    n: usize,
    base: u32,
    level: u32,
    at: u32,
) -> Result<Vec<u64>, AllocError>
    requires few_masks { k ≤ 3 }
    requires some_bits { 1 ≤ base }
    requires some_digits { 1 ≤ level }
    requires fits { base * level ≤ 63 }
{
    let mut words = Vec::new(alloc);
    for place in 0..n {
        let start = if selects {
            part_word(false, at, place)
        } else {
            0
        };
        words.push(start.wrapping_add(plain_word(selects, k, n, base, level, at, place)))?;
    }
    Ok(words)
}

/// The ciphertext of these words, the first or the second.
fn drawn(alloc: Global, second: bool, k: u32, log_n: u32) -> Result<Glwe, AllocError>
    requires some_masks { 1 ≤ k }
    requires few_masks { k ≤ 3 }
    requires one_or_more { 1 ≤ log_n }
    requires thirteen_or_less { log_n ≤ 13 }
    ensures { IfOk result (λ c. lengths_of c ≡ replicate (k + 1) (2 ^ log_n)) }
{
    let mut c = Glwe::new(alloc, k, log_n)?;
    for at in 0..k + 1 {
        let words = (0..1usize << log_n)
            .map(|place| part_word(second, at, place))
            .collect::<Vec<u64>>(alloc)?;
        set_part(&mut c, at, words.as_slice());
    }
    Ok(c)
}

/// Row (j, t) of some GGSW ciphertext.
fn drawn_row(alloc: Global, j: u32, t: u32, k: u32, log_n: u32) -> Result<Glwe, AllocError>
    requires some_masks { 1 ≤ k }
    requires few_masks { k ≤ 3 }
    requires one_or_more { 1 ≤ log_n }
    requires thirteen_or_less { log_n ≤ 13 }
    ensures { IfOk result (λ c. lengths_of c ≡ replicate (k + 1) (2 ^ log_n)) }
{
    let mut c = Glwe::new(alloc, k, log_n)?;
    for at in 0..k + 1 {
        let words = (0..1usize << log_n)
            .map(|place| row_word(j, t, at, place))
            .collect::<Vec<u64>>(alloc)?;
        set_part(&mut c, at, words.as_slice());
    }
    Ok(c)
}

/// A GGSW ciphertext of such rows.
fn drawn_ggsw(alloc: Global, k: u32, log_n: u32, base: u32, level: u32) -> Result<Ggsw, AllocError>
    requires some_masks { 1 ≤ k }
    requires few_masks { k ≤ 3 }
    requires one_or_more { 1 ≤ log_n }
    requires thirteen_or_less { log_n ≤ 13 }
    requires some_bits { 1 ≤ base }
    requires some_digits { 1 ≤ level }
    requires fits { base * level ≤ 63 }
    ensures { IfOk result (λ g. row_lengths g ≡ replicate (k + 1) (2 ^ log_n)) }
{
    laws::laws();
    let mut g = Ggsw::new(alloc, k, log_n, base, level)?;
    for i in 0..(k + 1) * level {
        let (j, t) = (i / level, i % level + 1);
        let mut row = drawn_row(alloc, j, t, k, log_n)?;
        g.known();
        g.swap_row(j, t, &mut row);
    }
    Ok(g)
}

/// Compares the words of an external product and of a CMux with the plain sums.
fn compare<R: Abort>(
    rt: &R,
    alloc: Global,
    k: u32,
    log_n: u32,
    base: u32,
    level: u32,
) -> Result<(), AllocError>
    requires some_masks { 1 ≤ k }
    requires few_masks { k ≤ 3 }
    requires one_or_more { 1 ≤ log_n }
    requires thirteen_or_less { log_n ≤ 13 }
    requires some_bits { 1 ≤ base }
    requires some_digits { 1 ≤ level }
    requires fits { base * level ≤ 63 }
{
    let g = drawn_ggsw(alloc, k, log_n, base, level)?;
    let mut acc = drawn(alloc, false, k, log_n)?;
    let c = drawn(alloc, true, k, log_n)?;
    let mut out = drawn(alloc, false, k, log_n)?;
    let mut room = ExtRoom::new(alloc, k, log_n)?;
    external_into(&mut out, &g, &c, &mut room);
    cmux_into(&mut acc, &g, &c, &mut room);
    let n = 1usize << log_n;
    for at in 0..k + 1 {
        let product = plain_part(alloc, false, k, n, base, level, at)?;
        expect_part(rt, &out, at, product.as_slice());
        let selected = plain_part(alloc, true, k, n, base, level, at)?;
        expect_part(rt, &acc, at, selected.as_slice());
    }
    Ok(())
}

#[test]
fn products_are_the_plain_sums(rt: HostRuntime) -> Result<(), Fail> {
    compare(&rt, rt.alloc(), 1, 1, 4, 1)?;
    compare(&rt, rt.alloc(), 2, 2, 7, 2)?;
    compare(&rt, rt.alloc(), 3, 3, 10, 6)?;
    compare(&rt, rt.alloc(), 1, 4, 12, 2)?;
    compare(&rt, rt.alloc(), 1, 1, 1, 63)?;
    Ok(())
}

#[test]
fn laws_are_free() {
    laws::laws();
}
