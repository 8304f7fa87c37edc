//! Secret keys of polynomials.

ghost use Rattle.std.specs.Prelude.{◌≡◌, ◌≤◌, ◌+◌, ◌*◌, ◌^◌, ◌++◌, Bool, List, IfOk, OnOk, All, length, map, take, drop};
ghost use Rattle.lwe_core.specs.Secret.{bit_word, bit_words};
ghost use Rattle.glwe_core.specs.Glwe.{words_bits, IsKeyFrom, flat_key_of};

use lwe_core::{Big, LweKey};
use negacyclic::Poly;
use std::alloc::{AllocError, Global};
use std::marker::Model;

/// A secret key of k polynomials of N = 2^log_n bits, with k from 1 to 3 and log_n from 1 to 13 (Chillotti et al.
/// 2020, keys of TRLWE samples). A clause sees it as the list of their bits.
#[derive(Drop)]
pub struct GlweKey {
    polys: Vec<Poly>,
}

impl Model for GlweKey {
    ghost Value = { List (List Bool) };

    ghost view = { λ key. map words_bits key.polys.items };

    ghost invariant = { λ key. All (λ poly. bit_words (words_bits poly) ≡ poly) key.polys.items };
}

/// A bit as a word.
#[inline]
fn word_of_bit(bit: bool) -> u64
    ensures { result ≡ bit_word bit }
{
    if bit { 1 } else { 0 }
}

/// The polynomial of 2^log_n bits of the flat key from a place on. It fails only for memory.
fn poly_at(alloc: Global, log_n: u32, flat: &LweKey<Big>, at: usize) -> Result<Poly, AllocError>
    requires one_or_more { 1 ≤ log_n }
    requires thirteen_or_less { log_n ≤ 13 }
    requires within { at + 2 ^ log_n ≤ length flat.now }
    ensures { IfOk result (λ poly. poly ≡ bit_words (take (2 ^ log_n) (drop at flat.now))) }
{
    let end = flat.len();
    let mut poly = Poly::new(alloc, log_n)?;
    for i in 0..poly.coeffs().len() {
        prove!(i < end - at);
        poly.set(i, word_of_bit(flat.bit(at + i)));
    }
    Ok(poly)
}

impl GlweKey {
    /// The key of k polynomials whose coefficients, in order, are the bits of the flat key. It fails only for
    /// memory.
    pub fn new(alloc: Global, k: u32, log_n: u32, flat: &LweKey<Big>) -> Result<GlweKey, AllocError>
        requires some_masks { 1 ≤ k }
        requires few_masks { k ≤ 3 }
        requires one_or_more { 1 ≤ log_n }
        requires thirteen_or_less { log_n ≤ 13 }
        requires length { length flat.now ≡ k * 2 ^ log_n }
        ensures { IfOk result (IsKeyFrom k (2 ^ log_n) flat.now) }
    {
        let mut polys = Vec::new(alloc);
        let mut at = 0;
        for _j in 0..k {
            let poly = poly_at(alloc, log_n, flat, at)?;
            at += poly.coeffs().len();
            polys.push(poly)?;
        }
        Ok(GlweKey { polys })
    }

    /// The polynomials, for products.
    #[inline]
    pub(crate) fn polys(&self) -> &[Poly]
        ensures { result.now ≡ map bit_words self.now }
    {
        self.polys.as_slice()
    }
}

/// Adds the bits of a polynomial.
fn push_bits(bits: &mut Vec<bool>, words: &[u64]) -> Result<(), AllocError>
    ensures { OnOk result (bits.new.items ≡ bits.old.items ++ words_bits words.now) }
{
    for word in words {
        bits.push(*word == 1)?;
    }
    Ok(())
}

/// The flat key: the coefficients of the polynomials in order (Chillotti et al. 2020, the key of extracted
/// samples). It fails only for memory.
pub fn flat_key(alloc: Global, key: &GlweKey) -> Result<LweKey<Big>, AllocError>
    ensures { IfOk result (λ flat. flat ≡ flat_key_of key.now) }
{
    let mut bits = Vec::new(alloc);
    for j in 0..key.polys.len() {
        push_bits(&mut bits, key.polys[j].coeffs())?;
    }
    Ok(LweKey::from_bits(bits))
}
