//! GLWE ciphertexts.

ghost use Rattle.std.specs.Prelude.{◌≡◌, ◌<◌, ◌≤◌, ◌+◌, ◌*◌, ◌^◌, ◌↔◌, ℕ, List, [], IsTrue, IfOk, All, length, map, replicate, slice_set};
ghost use Rattle.std.specs.List.{concat, slice_index_or};
ghost use Rattle.word_ring.specs.Rows.{row_sum, row_difference, scaled_row, sum_with_scaled, zip_rows};
ghost use Rattle.glwe_core.specs.Glwe.{lengths_of, degree_of, HasShape, IsGlwe, plus_product, rotated};

use crate::parts;
use negacyclic::{Poly, Scratch};
use std::alloc::{AllocError, Global};
use std::marker::Model;
use word_ring::Lin;

/// A GLWE ciphertext of k mask polynomials and a body, all of N = 2^log_n words, with k from 1 to 3 and log_n
/// from 1 to 13 (Chillotti et al. 2020). A clause sees it as the list of its parts, the body last.
#[derive(Debug, Drop)]
pub struct Glwe {
    pub(crate) parts: Vec<Poly>,
}

impl Model for Glwe {
    ghost Value = { List (List ℕ) };

    ghost view = { λ c. c.parts.items };

    ghost invariant = { λ c. HasShape c.parts.items };
}

impl Glwe {
    /// The ciphertext with k mask polynomials and a body of 2^log_n words, all 0. It fails only for memory.
    pub fn new(alloc: Global, k: u32, log_n: u32) -> Result<Glwe, AllocError>
        requires some_masks { 1 ≤ k }
        requires few_masks { k ≤ 3 }
        requires one_or_more { 1 ≤ log_n }
        requires thirteen_or_less { log_n ≤ 13 }
        ensures { IfOk result (λ c. c ≡ replicate (k + 1) (replicate (2 ^ log_n) 0)) }
    {
        let mut parts = Vec::new(alloc);
        for _part in 0..k + 1 {
            parts.push(Poly::new(alloc, log_n)?)?;
        }
        Ok(Glwe { parts })
    }

    /// The number of mask polynomials.
    #[inline]
    pub fn k(&self) -> u32
        ensures { length self.now ≡ result + 1 }
    {
        (self.parts.len() - 1) as u32
    }

    /// The mask polynomial at a place, or at place k the body.
    #[inline]
    pub fn part(&self, at: u32) -> &Poly
        requires { at < length self.now }
        ensures { result.now ≡ slice_index_or self.now at [] }
    {
        &self.parts[at as usize]
    }

    /// Sets one coefficient of the mask polynomial at a place, or at place k of the body.
    #[inline]
    pub fn set(&mut self, at: u32, place: usize, word: u64)
        requires part { at < length self.old }
        requires place { place < degree_of self.old }
        ensures parts { self.new ≡ slice_set self.old at (slice_set (slice_index_or self.old at []) place word) }
        ensures shape { lengths_of self.new ≡ lengths_of self.old }
    {
        self.parts[at as usize].set(place, word);
    }
}

impl Lin for Glwe {
    ghost is_value = { IsGlwe };

    ghost words = { concat };

    ghost shape = { lengths_of };

    #[inline]
    fn known(&self) {
        parts::known(self.parts.as_slice());
    }

    #[inline]
    fn fits(&self, other: &Self) -> bool {
        self.parts.len() == other.parts.len() && self.parts[0].fits(&other.parts[0])
    }

    fn zero_assign(&mut self)
        ensures shape { lengths_of self.new ≡ lengths_of self.old }
        ensures words { concat self.new ≡ replicate (length (concat self.old)) 0 }
        ensures parts { self.new ≡ map (λ part. replicate (length part) 0) self.old }
    {
        parts::clear(self.parts.as_mut_slice());
    }

    fn add_assign(&mut self, other: &Self)
        requires { lengths_of self.old ≡ lengths_of other.now }
        ensures shape { lengths_of self.new ≡ lengths_of self.old }
        ensures words { concat self.new ≡ row_sum (concat self.old) (concat other.now) }
        ensures parts { self.new ≡ zip_rows row_sum self.old other.now }
    {
        parts::add(self.parts.as_mut_slice(), other.parts.as_slice());
    }

    fn sub_assign(&mut self, other: &Self)
        requires { lengths_of self.old ≡ lengths_of other.now }
        ensures shape { lengths_of self.new ≡ lengths_of self.old }
        ensures words { concat self.new ≡ row_difference (concat self.old) (concat other.now) }
        ensures parts { self.new ≡ zip_rows row_difference self.old other.now }
    {
        parts::subtract(self.parts.as_mut_slice(), other.parts.as_slice());
    }

    fn scale_assign(&mut self, factor: u64)
        ensures shape { lengths_of self.new ≡ lengths_of self.old }
        ensures words { concat self.new ≡ scaled_row factor (concat self.old) }
        ensures parts { self.new ≡ map (scaled_row factor) self.old }
    {
        parts::scale(self.parts.as_mut_slice(), factor);
    }

    fn add_scaled(&mut self, other: &Self, factor: u64)
        requires { lengths_of self.old ≡ lengths_of other.now }
        ensures shape { lengths_of self.new ≡ lengths_of self.old }
        ensures words { concat self.new ≡ sum_with_scaled (concat self.old) factor (concat other.now) }
        ensures parts { self.new ≡ zip_rows (λ x y. sum_with_scaled x factor y) self.old other.now }
    {
        parts::add_scaled(self.parts.as_mut_slice(), other.parts.as_slice(), factor);
    }

    ghost use Rattle.glwe_core.specs.Words.{all_words, same_words};

    ghost words_fit = { λ c is. all_words c is.words };

    ghost same_length = { λ c d _ _ shapes. same_words c d shapes };
}

/// Adds `p` times each part of `c` to the same part of `into` (Chillotti et al. 2020, products of TRLWE samples
/// with polynomials). All have one shape.
pub fn add_product(into: &mut Glwe, p: &Poly, c: &Glwe, scratch: &mut Scratch)
    requires shape { lengths_of into.old ≡ lengths_of c.now }
    requires degree { length p.now ≡ degree_of into.old }
    requires room { length p.now ≡ 2 ^ scratch.old }
    ensures parts { into.new ≡ plus_product into.old p.now c.now }
    ensures shape { lengths_of into.new ≡ lengths_of into.old }
    ensures room_stays { scratch.new ≡ scratch.old }
{
    parts::add_products(into.parts.as_mut_slice(), p, c.parts.as_slice(), scratch);
}

/// Sets each part of `into` to X^by times the same part of `c` (Chillotti et al. 2020). Both have one shape.
pub fn rotate_glwe_into(into: &mut Glwe, c: &Glwe, by: u32)
    requires shape { lengths_of into.old ≡ lengths_of c.now }
    requires below { by < 2 * degree_of c.now }
    ensures parts { into.new ≡ rotated by c.now }
    ensures shape { lengths_of into.new ≡ lengths_of into.old }
{
    parts::rotate(into.parts.as_mut_slice(), c.parts.as_slice(), by);
}
