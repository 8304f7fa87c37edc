//! Polynomials, with their product and rotation.

ghost use Rattle.std.specs.Prelude.{◌≡◌, ◌<◌, ◌≤◌, ◌*◌, ◌^◌, ◌↔◌, ℕ, List, [], ◌∷◌, IsTrue, IfOk, All, length, replicate, slice_set};
ghost use Rattle.word_ring.specs.Words.{IsWord};
ghost use Rattle.word_ring.specs.Rows.{row_sum};
ghost use Rattle.negacyclic.specs.Product.{negacyclic_product, rotation};

use crate::karatsuba::LEAF_LOG_N;
use crate::{karatsuba, product};
use std::alloc::{AllocError, Global};
use std::marker::Model;
use word_ring::{Lin, rows};

/// A polynomial of N = 2^log_n words modulo X^N + 1, with log_n from 1 to 13. A clause sees it as the
/// list of its coefficients, the constant one first.
#[derive(Debug, Drop)]
pub struct Poly {
    words: Vec<u64>,
    log_n: u32,
}

impl Model for Poly {
    ghost Value = { List ℕ };

    ghost view = { λ p. p.words.items };

    ghost invariant = { λ p. (length p.words.items ≡ 2 ^ p.log_n) × (1 ≤ p.log_n) × (p.log_n ≤ 13) };
}

impl Poly {
    /// The polynomial 0 of 2^log_n coefficients. It fails only for memory.
    pub fn new(alloc: Global, log_n: u32) -> Result<Poly, AllocError>
        requires one_or_more { 1 ≤ log_n }
        requires thirteen_or_less { log_n ≤ 13 }
        ensures { IfOk result (λ p. p ≡ replicate (2 ^ log_n) 0) }
    {
        let words = vec![in alloc; 0; 1 << log_n]?;
        Ok(Poly { words, log_n })
    }

    /// The logarithm to base 2 of the number of coefficients.
    #[inline]
    pub fn log_n(&self) -> u32
        ensures { length self.now ≡ 2 ^ result }
    {
        self.log_n
    }

    /// The coefficients, the constant one first.
    #[inline]
    pub fn coeffs(&self) -> &[u64]
        ensures { result.now ≡ self.now }
    {
        self.words.as_slice()
    }

    /// Sets one coefficient.
    #[inline]
    pub fn set(&mut self, at: usize, word: u64)
        requires { at < length self.old }
        ensures { self.new ≡ slice_set self.old at word }
    {
        self.words[at] = word;
    }
}

impl Lin for Poly {
    ghost is_value = { All IsWord };

    ghost words = { λ p. p };

    ghost shape = { λ p. length p ∷ [] };

    #[inline]
    fn known(&self) {
        rows::known(self.words.as_slice());
    }

    #[inline]
    fn fits(&self, other: &Self) -> bool {
        self.words.len() == other.words.len()
    }

    #[inline]
    fn zero_assign(&mut self) {
        rows::clear(self.words.as_mut_slice());
    }

    #[inline]
    fn add_assign(&mut self, other: &Self) {
        rows::add(self.words.as_mut_slice(), other.words.as_slice());
    }

    #[inline]
    fn sub_assign(&mut self, other: &Self) {
        rows::subtract(self.words.as_mut_slice(), other.words.as_slice());
    }

    #[inline]
    fn scale_assign(&mut self, factor: u64) {
        rows::scale(self.words.as_mut_slice(), factor);
    }

    #[inline]
    fn add_scaled(&mut self, other: &Self, factor: u64) {
        rows::add_scaled(self.words.as_mut_slice(), other.words.as_slice(), factor);
    }

    ghost use Rattle.std.specs.Prelude.{slice_index};
    ghost use Rattle.std.proofs.Common.{rules, ap};

    ghost words_fit = { λ p fits. fits };

    ghost same_length = { λ p q _ _ shapes. ap (λ s. slice_index s 0) shapes };
}

/// The room that a product of polynomials of N = 2^log_n coefficients works in, with log_n from 1 to 13:
/// 6N words. A clause sees it as log_n.
#[derive(Debug, Drop)]
pub struct Scratch {
    words: Vec<u64>,
    log_n: u32,
}

impl Model for Scratch {
    ghost Value = { ℕ };

    ghost view = { λ s. s.log_n };

    ghost invariant = { λ s. (length s.words.items ≡ 6 * 2 ^ s.log_n) × (1 ≤ s.log_n) × (s.log_n ≤ 13) };
}

impl Scratch {
    /// The room for products of 2^log_n coefficients. It fails only for memory.
    pub fn new(alloc: Global, log_n: u32) -> Result<Scratch, AllocError>
        requires one_or_more { 1 ≤ log_n }
        requires thirteen_or_less { log_n ≤ 13 }
        ensures { IfOk result (λ s. s ≡ log_n) }
    {
        let words = vec![in alloc; 0; 6 << log_n]?;
        Ok(Scratch { words, log_n })
    }
}

/// Adds to `into` the product of `a` and `b` modulo X^N + 1 (Chillotti et al. 2020), by Karatsuba's method from
/// N 8 on. All have one log_n.
pub fn mul_add(into: &mut Poly, a: &Poly, b: &Poly, scratch: &mut Scratch)
    requires first { length a.now ≡ length into.old }
    requires second { length b.now ≡ length into.old }
    requires room { length into.old ≡ 2 ^ scratch.old }
    ensures sum { into.new ≡ row_sum into.old (negacyclic_product a.now b.now) }
    ensures room_stays { scratch.new ≡ scratch.old }
{
    if scratch.log_n < LEAF_LOG_N {
        mul_add_plain(into, a, b);
    } else {
        karatsuba::add_product(
            into.words.as_mut_slice(),
            a.words.as_slice(),
            b.words.as_slice(),
            scratch.words.as_mut_slice(),
            scratch.log_n - LEAF_LOG_N,
        );
    }
}

/// Adds to `into` the product of `a` and `b`, as `mul_add` does, by its plain sums. All have one log_n.
pub fn mul_add_plain(into: &mut Poly, a: &Poly, b: &Poly)
    requires first { length a.now ≡ length into.old }
    requires second { length b.now ≡ length into.old }
    ensures { into.new ≡ row_sum into.old (negacyclic_product a.now b.now) }
{
    product::add_product(
        into.words.as_mut_slice(),
        a.words.as_slice(),
        b.words.as_slice(),
    );
}

/// Sets `into` to X^by times `a`, where X^N is -1 (Chillotti et al. 2020). Both have one log_n.
pub fn rotate_into(into: &mut Poly, a: &Poly, by: u32)
    requires one_length { length a.now ≡ length into.old }
    requires below { by < 2 * length into.old }
    ensures { into.new ≡ rotation by a.now }
{
    product::rotate(into.words.as_mut_slice(), a.words.as_slice(), by as usize);
}
