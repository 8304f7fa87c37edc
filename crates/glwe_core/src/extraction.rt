//! Sample extraction.

ghost use Rattle.std.specs.Prelude.{◌≡◌, ◌<◌, ◌≤◌, ◌+◌, ◌-◌, ◌*◌, ◌==◌, ◌++◌, length, take, drop, slice_index, if◌then◌else◌};
ghost use Rattle.word_ring.specs.Words.{word_negation};
ghost use Rattle.glwe_core.specs.Glwe.{degree_of, extracted_mask, extracted};

use crate::glwe::Glwe;
use lwe_core::{Big, Lwe};
use negacyclic::Poly;
use word_ring::wneg;

/// The mask word at a place, of the mask polynomial with these words.
#[inline]
fn mask_word(words: &[u64], at: usize) -> u64
    requires { at < length words.now }
    ensures { result ≡ (if at == 0 then slice_index words.now 0
        else word_negation (slice_index words.now (length words.now - at))) }
{
    if at == 0 {
        words[0]
    } else {
        wneg(words[words.len() - at])
    }
}

/// Sets the mask words from a place on to those of a mask polynomial.
fn extract_part(out: &mut Lwe<Big>, at: usize, part: &Poly)
    requires room { at + length part.now ≤ length out.old }
    requires fits { length out.old ≤ usize.MAX }
    ensures { out.new ≡ take at out.old ++ extracted_mask part.now ++ drop (at + length part.now) out.old }
{
    let words = part.coeffs();
    for i in 0..words.len() {
        out.set(at + i, mask_word(words, i));
    }
}

/// Coefficient 0.
#[inline]
fn first(poly: &Poly) -> u64
    requires { 0 < length poly.now }
    ensures { result ≡ slice_index poly.now 0 }
{
    poly.coeffs()[0]
}

/// Sets `out` to the LWE ciphertext of coefficient 0, under the flat key: of each mask polynomial its first
/// coefficient, and then the others from the last down with the other sign; the body is coefficient 0 of the body
/// (Chillotti et al. 2020, sample extraction). It has dimension k*N.
pub fn extract_into(out: &mut Lwe<Big>, c: &Glwe)
    requires { length out.old ≡ (length c.now - 1) * degree_of c.now + 1 }
    ensures { out.new ≡ extracted c.now }
{
    let k = c.parts.len() - 1;
    let mut at = 0;
    for j in 0..k {
        let part = &c.parts[j];
        extract_part(out, at, part);
        at += part.coeffs().len();
    }
    let body = &c.parts[k];
    out.set(at, first(body));
}
