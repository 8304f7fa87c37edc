//! GGSW ciphertexts.

ghost use Rattle.std.specs.Prelude.{◌≡◌, ◌+◌, ◌-◌, ◌*◌, ◌^◌, ◌<◌, ◌≤◌, IfOk, length};
ghost use Rattle.glwe_core.specs.Glwe.{lengths_of};
ghost use Rattle.ggsw_core.specs.Ggsw.{IsGgsw, row_lengths, row_of, zero_ggsw, with_row};

use glwe_core::Glwe;
use std::alloc::{AllocError, Global};
use std::marker::Model;
use std::mem;

/// A GGSW ciphertext: for each part j of a GLWE ciphertext, the k masks and the body, and each place t from 1 to
/// `level`, a GLWE ciphertext, row (j, t). In one of a bit the phase of row (j, t) is the bit times `2^(64 - base*t)`
/// times minus polynomial j of the key, or for the body times 1, and an error.
///
/// A clause sees it as how words are taken to digits, and its rows.
#[derive(Debug, Drop)]
pub struct Ggsw {
    rows: Vec<Glwe>,
    base: u32,
    level: u32,
}

impl Model for Ggsw {
    ghost use Rattle.ggsw_core.specs.Ggsw.{GgswRows, IsGgsw};

    ghost Value = { GgswRows };

    ghost view = { λ g. record { base = g.base; level = g.level; rows = g.rows.items } };

    ghost invariant = { λ g. IsGgsw (record { base = g.base; level = g.level; rows = g.rows.items }) };
}

impl Ggsw {
    /// One for ciphertexts of k mask polynomials and a body of 2^log_n words, whose rows are 0. It fails only for
    /// memory.
    pub fn new(alloc: Global, k: u32, log_n: u32, base: u32, level: u32) -> Result<Ggsw, AllocError>
        requires some_masks { 1 ≤ k }
        requires few_masks { k ≤ 3 }
        requires one_or_more { 1 ≤ log_n }
        requires thirteen_or_less { log_n ≤ 13 }
        requires some_bits { 1 ≤ base }
        requires some_digits { 1 ≤ level }
        requires fits { base * level ≤ 63 }
        ensures { IfOk result (λ g. g ≡ zero_ggsw (k + 1) (2 ^ log_n) base level) }
    {
        let mut rows = Vec::new(alloc);
        for _row in 0..(k + 1) * level {
            rows.push(Glwe::new(alloc, k, log_n)?)?;
        }
        Ok(Ggsw { rows, base, level })
    }

    /// What a GGSW ciphertext is, for proofs alone.
    #[inline]
    pub fn known(&self)
        ensures { IsGgsw self.now }
    {
        let _rows = &self.rows;
    }

    /// The number of bits of a digit.
    #[inline]
    pub fn base(&self) -> u32
        ensures { result ≡ self.now.base }
    {
        self.base
    }

    /// The number of digits of a word.
    #[inline]
    pub fn level(&self) -> u32
        ensures { result ≡ self.now.level }
    {
        self.level
    }

    /// Where row (j, t) stands.
    #[inline]
    fn place_of(&self, j: u32, t: u32) -> usize
        requires part { j < length (row_lengths self.now) }
        requires first { 1 ≤ t }
        requires last { t ≤ self.now.level }
        ensures place { result ≡ j * self.now.level + (t - 1) }
        ensures inside { result < length self.now.rows }
    {
        j as usize * self.level as usize + (t as usize - 1)
    }

    /// Row (j, t), for part j, the body last, and place t, counted from 1.
    #[inline]
    pub fn row(&self, j: u32, t: u32) -> &Glwe
        requires part { j < length (row_lengths self.now) }
        requires first { 1 ≤ t }
        requires last { t ≤ self.now.level }
        ensures { result.now ≡ row_of self.now j t }
    {
        &self.rows[self.place_of(j, t)]
    }

    /// Exchanges row (j, t) with the given one of its shape, and leaves all other rows. It takes no memory.
    pub fn swap_row(&mut self, j: u32, t: u32, row: &mut Glwe)
        requires part { j < length (row_lengths self.old) }
        requires first { 1 ≤ t }
        requires last { t ≤ self.old.level }
        requires shape { lengths_of row.old ≡ row_lengths self.old }
        ensures rows { self.new ≡ with_row self.old j t row.old }
        ensures row { row.new ≡ row_of self.old j t }
    {
        let place = self.place_of(j, t);
        mem::swap(&mut self.rows[place], row);
    }
}
