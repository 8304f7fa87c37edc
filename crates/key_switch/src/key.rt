//! Switch keys.

ghost use Rattle.std.specs.Prelude.{◌≡◌, ◌+◌, ◌-◌, ◌*◌, ◌<◌, ◌≤◌, IfOk, length, take, drop};
ghost use Rattle.key_switch.specs.Key.{IsSwitchKey, row_of, with_row, zero_key};

use lwe_core::{Lwe, Small};
use std::alloc::{AllocError, Global};
use std::marker::Model;
use std::mem;

/// A switch key: for each bit i of the big key and each place t from 1 to `level`, a ciphertext under the small key,
/// row (i, t). In a key that is to be of use its phase is the bit times `2^(64 - base*t)`, and an error.
///
/// A clause sees it as its dimensions, how words are taken to digits, and its rows.
#[derive(Debug, Drop)]
pub struct SwitchKey {
    rows: Vec<Lwe<Small>>,
    big_dim: usize,
    small_dim: usize,
    base: u32,
    level: u32,
}

impl Model for SwitchKey {
    ghost use Rattle.key_switch.specs.Key.{SwitchRows, IsSwitchKey, switch_rows};

    ghost Value = { SwitchRows };

    ghost view = { λ k. switch_rows k.big_dim k.small_dim k.base k.level k.rows.items };

    ghost invariant = { λ k. IsSwitchKey (switch_rows k.big_dim k.small_dim k.base k.level k.rows.items) };
}

impl SwitchKey {
    /// A key from `big_dim` mask words to ciphertexts of `small_dim` mask words, whose rows are 0. It fails only for
    /// memory.
    pub fn new(
        alloc: Global,
        big_dim: usize,
        small_dim: usize,
        base: u32,
        level: u32,
    ) -> Result<SwitchKey, AllocError>
        requires some_bits { 1 ≤ base }
        requires some_digits { 1 ≤ level }
        requires fits { base * level ≤ 63 }
        requires countable { big_dim * level ≤ usize.MAX }
        requires room { small_dim + 1 ≤ usize.MAX }
        ensures { IfOk result (λ key. key ≡ zero_key big_dim small_dim base level) }
    {
        let mut rows = Vec::new(alloc);
        for _ in 0..big_dim * level as usize {
            rows.push(Lwe::new(alloc, small_dim)?)?;
        }
        Ok(SwitchKey {
            rows,
            big_dim,
            small_dim,
            base,
            level,
        })
    }

    /// What a switch key is, for proofs alone.
    #[inline]
    pub fn known(&self)
        ensures { IsSwitchKey self.now }
    {
        let _rows = &self.rows;
    }

    /// The number of mask words of the ciphertexts that are switched.
    #[inline]
    pub fn big_dim(&self) -> usize
        ensures { result ≡ self.now.big_dim }
    {
        self.big_dim
    }

    /// The number of mask words of the rows, and of what a switch gives.
    #[inline]
    pub fn small_dim(&self) -> usize
        ensures { result ≡ self.now.small_dim }
    {
        self.small_dim
    }

    /// The number of bits of a digit.
    #[inline]
    pub fn base(&self) -> u32
        ensures { result ≡ self.now.base }
    {
        self.base
    }

    /// The number of digits of a word.
    #[inline]
    pub fn level(&self) -> u32
        ensures { result ≡ self.now.level }
    {
        self.level
    }

    /// Where row (i, t) stands.
    #[inline]
    fn place_of(&self, i: usize, t: u32) -> usize
        requires word { i < self.now.big_dim }
        requires first { 1 ≤ t }
        requires last { t ≤ self.now.level }
        ensures place { result ≡ i * self.now.level + (t - 1) }
        ensures inside { result < length self.now.rows }
    {
        i * self.level as usize + (t as usize - 1)
    }

    /// Row (i, t), for bit i of the big key, counted from 0, and place t, counted from 1.
    #[inline]
    pub fn row(&self, i: usize, t: u32) -> &Lwe<Small>
        requires word { i < self.now.big_dim }
        requires first { 1 ≤ t }
        requires last { t ≤ self.now.level }
        ensures { result.now ≡ row_of self.now.level self.now.rows i t }
    {
        &self.rows[self.place_of(i, t)]
    }

    /// The rows for bit i of the big key, those of place 1 first.
    #[inline]
    pub(crate) fn rows_of(&self, i: usize) -> &[Lwe<Small>]
        requires { i < self.now.big_dim }
        ensures { result.now ≡ take self.now.level (drop (i * self.now.level) self.now.rows) }
    {
        let level = self.level as usize;
        let start = i * level;
        &self.rows[start..start + level]
    }

    /// Exchanges row (i, t) with the given one, and leaves all other rows. It takes no memory.
    pub fn swap_row(&mut self, i: usize, t: u32, row: &mut Lwe<Small>)
        requires word { i < self.old.big_dim }
        requires first { 1 ≤ t }
        requires last { t ≤ self.old.level }
        requires fits { length row.old ≡ self.old.small_dim + 1 }
        ensures key { self.new ≡ with_row self.old i t row.old }
        ensures row { row.new ≡ row_of self.old.level self.old.rows i t }
    {
        let place = self.place_of(i, t);
        mem::swap(&mut self.rows[place], row);
    }
}
