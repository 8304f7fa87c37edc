//! What the rows of keys stand for.

ghost use Rattle.std.specs.Prelude.{◌≡◌, ◌≤◌, ◌<◌, ◌+◌, ◌*◌, [], length, map, take, drop};
ghost use Rattle.std.specs.List.{slice_index_or};
ghost use Rattle.word_ring.specs.Words.{word_negation};
ghost use Rattle.word_ring.specs.Rows.{scaled_row};
ghost use Rattle.lwe_core.specs.Secret.{bit_word, bit_words};
ghost use Rattle.negacyclic.specs.Product.{monomial};
ghost use Rattle.gadget_decomp.specs.Decomposition.{place_weight};
ghost use Rattle.ggsw_core.specs.Noise.{part_factors};
ghost use Rattle.blind_rotate.specs.Fits.{key_polynomials};

use lwe_core::{Big, LweKey};
use negacyclic::Poly;
use word_ring::Lin;

/// A bit times the weight `2^(64 - base*t)` of place t.
#[inline]
pub(crate) fn weighted_bit(bit: bool, base: u32, t: u32) -> u64
    requires first { 1 ≤ t }
    requires some { 1 ≤ base }
    requires fits { base * t ≤ 63 }
    ensures { result ≡ bit_word bit * place_weight base t }
{
    if bit { 1 << (64 - base * t) } else { 0 }
}

/// Minus a bit.
#[inline]
fn minus_bit(bit: bool) -> u64
    ensures { result ≡ word_negation (bit_word bit) }
{
    if bit { u64::MAX } else { 0 }
}

/// Sets a polynomial to minus the bits of a key from a place on.
fn set_minus_bits(out: &mut Poly, key: &LweKey<Big>, at: usize)
    requires { at + length out.old ≤ length key.now }
    ensures bits { out.new ≡ map word_negation (bit_words (take (length out.old) (drop at key.now))) }
    ensures length { length out.new ≡ length out.old }
{
    let end = key.len();
    for i in 0..out.coeffs().len() {
        prove!(i < end - at);
        out.set(i, minus_bit(key.bit(at + i)));
    }
}

/// Sets a polynomial to 1.
fn set_one(out: &mut Poly)
    requires { 0 < length out.old }
    ensures one { out.new ≡ monomial (length out.old) 0 }
    ensures length { length out.new ≡ length out.old }
{
    negacyclic::laws::laws();
    out.zero_assign();
    out.set(0, 1);
}

/// Sets a polynomial to what part j of a GLWE ciphertext counts in a phase: minus polynomial j of the key, or, for the
/// body, 1 (Chillotti et al. 2020, TRGSW samples).
fn set_factor(out: &mut Poly, key: &LweKey<Big>, k: u32, j: u32)
    requires some { 0 < length out.old }
    requires key { length key.now ≡ k * length out.old }
    requires part { j ≤ k }
    ensures factor { out.new
        ≡ slice_index_or (part_factors (length out.old) (key_polynomials k (length out.old) key.now)) j [] }
    ensures length { length out.new ≡ length out.old }
{
    if j < k {
        let n = key.len() / k as usize;
        set_minus_bits(out, key, j as usize * n);
    } else {
        set_one(out);
    }
}

/// Sets a polynomial to the message of a row of part j: a factor times what the part counts.
pub(crate) fn set_message(out: &mut Poly, key: &LweKey<Big>, k: u32, j: u32, factor: u64)
    requires some { 0 < length out.old }
    requires key { length key.now ≡ k * length out.old }
    requires part { j ≤ k }
    ensures message { out.new ≡ scaled_row factor
        (slice_index_or (part_factors (length out.old) (key_polynomials k (length out.old) key.now)) j []) }
    ensures length { length out.new ≡ length out.old }
{
    set_factor(out, key, k, j);
    out.scale_assign(factor);
}
