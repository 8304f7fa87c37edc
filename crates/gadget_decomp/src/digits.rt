//! The digits of one word, and one digit of each coefficient of a polynomial.

ghost use Rattle.std.specs.Prelude.{◌≡◌, ℤ, ◌+◌, ◌-◌, ◌*◌, ◌≤◌, List, length, EachIndex, slice_index, slice_index_or, pos};
ghost use Rattle.word_ring.specs.Signed.{word_of};
ghost use Rattle.gadget_decomp.specs.Decomposition.{IsDecomposition, half_weights, digit_of, digit_polynomial};

use negacyclic::Poly;

/// Half of the weight of each place from 0 to `level`: added to a word, it turns its balanced digits into
/// those of plain positional notation, each `2^(base-1)` more, and the rounding into a cut.
fn half_weights(base: u32, level: u32) -> u64
    requires some_bits { 1 ≤ base }
    requires fits { base * level ≤ 63 }
    ensures { result ≡ half_weights base level }
{
    let mut sum = 0;
    for t in 0..level + 1 {
        sum += 1 << (63 - base * t);
    }
    sum
}

/// Digit `t` of a word, given the half weights.
#[inline]
fn digit(word: u64, base: u32, level: u32, t: u32, halves: u64) -> i64
    requires some_bits { 1 ≤ base }
    requires fits { base * level ≤ 63 }
    requires first { 1 ≤ t }
    requires last { t ≤ level }
    requires given { halves ≡ half_weights base level }
    ensures { result ≡ digit_of word base level t }
{
    let raised = (word.wrapping_add(halves) >> (64 - base * t)) & ((1 << base) - 1);
    raised as i64 - (1 << (base - 1))
}

/// Writes the digits of `word`: the only numbers in `[-2^(base-1), 2^(base-1))` whose sum, digit `t` times
/// `2^(64 - base*t)`, is congruent modulo 2^64 to the word rounded to a multiple of `2^(64 - base*level)`.
/// Digit `t`, from 1, goes to place `t - 1`.
pub fn digits_into(word: u64, base: u32, level: u32, out: &mut [i64])
    requires some_bits { 1 ≤ base }
    requires some_digits { 1 ≤ level }
    requires fits { base * level ≤ 63 }
    requires places { length out.old ≡ level }
    ensures { IsDecomposition word base level out.new }
{
    let halves = half_weights(base, level);
    for t in 0..level {
        out[t as usize] = digit(word, base, level, t + 1, halves);
    }
}

/// Sets each coefficient of `out` to digit `t` of the same coefficient of `source`, modulo 2^64.
///
/// It takes a few operations a coefficient, whatever the number of levels.
pub fn poly_digit_into(out: &mut Poly, source: &Poly, base: u32, level: u32, t: u32)
    requires some_bits { 1 ≤ base }
    requires some_digits { 1 ≤ level }
    requires fits { base * level ≤ 63 }
    requires first { 1 ≤ t }
    requires last { t ≤ level }
    requires one_length { length out.old ≡ length source.now }
    ensures digits { EachIndex out.new (λ k. (digits : List ℤ)
        × IsDecomposition (slice_index source.now k) base level digits
        × (slice_index out.new k ≡ word_of (slice_index_or digits (t - 1) (pos 0)))) }
    ensures words { out.new ≡ digit_polynomial base level t source.now }
{
    let halves = half_weights(base, level);
    for (at, word) in source.coeffs().iter().enumerate() {
        out.set(at, digit(*word, base, level, t, halves).cast_unsigned());
    }
}
