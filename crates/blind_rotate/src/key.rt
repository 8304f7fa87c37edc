//! Boot keys.

ghost use Rattle.std.specs.Prelude.{◌≡◌, ◌+◌, ◌*◌, ◌<◌, ◌≤◌, IfOk, length};
ghost use Rattle.glwe_core.specs.Glwe.{lengths_of};
ghost use Rattle.blind_rotate.specs.BootKey.{IsBootKey, shape_lengths, ggsw_at, boot_row, zero_boot_key, with_boot_row};

use ggsw_core::Ggsw;
use glwe_core::Glwe;
use std::alloc::{AllocError, Global};
use std::marker::Model;

/// A boot key: for each bit of the small key a GGSW ciphertext, with rows of k mask polynomials and a body of 2^log_n
/// words. In a key that is to be of use it is one of the bit under the big key.
///
/// A clause sees it as the shape of its rows, how words are taken to digits, and its GGSW ciphertexts.
#[derive(Debug, Drop)]
pub struct BootKey {
    ggsws: Vec<Ggsw>,
    k: u32,
    log_n: u32,
    base: u32,
    level: u32,
}

impl Model for BootKey {
    ghost use Rattle.blind_rotate.specs.BootKey.{BootRows, IsBootKey, boot_rows};

    ghost Value = { BootRows };

    ghost view = { λ k. boot_rows k.k k.log_n k.base k.level k.ggsws.items };

    ghost invariant = { λ k. IsBootKey (boot_rows k.k k.log_n k.base k.level k.ggsws.items) };
}

impl BootKey {
    /// A key for a small key of n bits and ciphertexts of k mask polynomials and a body of 2^log_n words. Its rows are 0.
    /// It fails only for memory.
    pub fn new(
        alloc: Global,
        k: u32,
        log_n: u32,
        n: u32,
        base: u32,
        level: u32,
    ) -> Result<BootKey, AllocError>
        requires some_masks { 1 ≤ k }
        requires few_masks { k ≤ 3 }
        requires one_or_more { 1 ≤ log_n }
        requires thirteen_or_less { log_n ≤ 13 }
        requires some_bits { 1 ≤ base }
        requires some_digits { 1 ≤ level }
        requires fits { base * level ≤ 63 }
        ensures { IfOk result (λ key. key ≡ zero_boot_key k log_n n base level) }
    {
        let mut ggsws = Vec::new(alloc);
        for _bit in 0..n {
            let ggsw = Ggsw::new(alloc, k, log_n, base, level)?;
            ggsw.known();
            ggsws.push(ggsw)?;
        }
        Ok(BootKey {
            ggsws,
            k,
            log_n,
            base,
            level,
        })
    }

    /// What a boot key is, for proofs alone.
    #[inline]
    pub fn known(&self)
        ensures { IsBootKey self.now }
    {
        let _ggsws = &self.ggsws;
    }

    /// The number of mask polynomials of the rows.
    #[inline]
    pub fn k(&self) -> u32
        ensures { result ≡ self.now.shape.k }
    {
        self.k
    }

    /// The logarithm to base 2 of the number of coefficients of a part of a row.
    #[inline]
    pub fn log_n(&self) -> u32
        ensures { result ≡ self.now.shape.log_n }
    {
        self.log_n
    }

    /// The number of bits of the small key.
    #[inline]
    pub fn small_dim(&self) -> usize
        ensures { result ≡ length self.now.ggsws }
    {
        self.ggsws.len()
    }

    /// The number of bits of a digit.
    #[inline]
    pub fn base(&self) -> u32
        ensures { result ≡ self.now.base }
    {
        self.base
    }

    /// The number of digits of a word.
    #[inline]
    pub fn level(&self) -> u32
        ensures { result ≡ self.now.level }
    {
        self.level
    }

    /// The GGSW ciphertext of bit i of the small key, counted from 0.
    #[inline]
    pub fn ggsw(&self, i: u32) -> &Ggsw
        requires { i < length self.now.ggsws }
        ensures { result.now ≡ ggsw_at self.now.ggsws i }
    {
        &self.ggsws[i as usize]
    }

    /// The GGSW ciphertexts of all bits, in order.
    #[inline]
    pub(crate) fn ggsws(&self) -> &[Ggsw]
        ensures { result.now ≡ self.now.ggsws }
    {
        self.ggsws.as_slice()
    }

    /// Exchanges row (j, t) of the GGSW ciphertext of bit i with the given one of its shape, and leaves all other rows.
    /// It takes no memory.
    pub fn swap_row(&mut self, i: u32, j: u32, t: u32, row: &mut Glwe)
        requires bit { i < length self.old.ggsws }
        requires part { j ≤ self.old.shape.k }
        requires first { 1 ≤ t }
        requires last { t ≤ self.old.level }
        requires shape { lengths_of row.old ≡ shape_lengths self.old.shape }
        ensures key { self.new ≡ with_boot_row self.old i j t row.old }
        ensures row { row.new ≡ boot_row self.old i j t }
    {
        ggsw_core::laws::laws();
        self.ggsws[i as usize].swap_row(j, t, row);
    }
}
