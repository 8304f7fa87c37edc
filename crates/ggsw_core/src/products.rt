//! The external product and CMux.

ghost use Rattle.std.specs.Prelude.{◌≡◌, ◌+◌, ◌<◌, ◌≤◌, ◌^◌, ℕ, List, IfOk, length, replicate};
ghost use Rattle.glwe_core.specs.Glwe.{lengths_of, degree_of};
ghost use Rattle.ggsw_core.specs.Ggsw.{row_lengths, plus_all, part_products, all_products, external_product, cmux_of};
ghost use Rattle.ggsw_core.specs.Noise.{MultipliesPhase, SelectsPhase};

use crate::ggsw::Ggsw;
use crate::laws;
use gadget_decomp::poly_digit_into;
use glwe_core::{Glwe, add_product};
use negacyclic::{Poly, Scratch};
use std::alloc::{AllocError, Global};
use std::marker::Model;
use word_ring::Lin;

/// The room that products with GGSW ciphertexts work in, for ciphertexts of k mask polynomials and a body of 2^log_n
/// words. A clause sees it as the lengths of such a ciphertext's parts.
#[derive(Debug, Drop)]
pub struct ExtRoom {
    more: Glwe,
    digit: Poly,
    scratch: Scratch,
}

impl Model for ExtRoom {
    ghost use Rattle.std.specs.Prelude.{◌≡◌, ◌^◌, ℕ, List, length};
    ghost use Rattle.glwe_core.specs.Glwe.{lengths_of, degree_of};

    ghost Value = { List ℕ };

    ghost view = { λ r. lengths_of r.more };

    ghost invariant = { λ r. (length r.digit ≡ degree_of r.more) × (length r.digit ≡ 2 ^ r.scratch) };
}

impl ExtRoom {
    /// The room for ciphertexts of k mask polynomials and a body of 2^log_n words. It fails only for memory.
    pub fn new(alloc: Global, k: u32, log_n: u32) -> Result<ExtRoom, AllocError>
        requires some_masks { 1 ≤ k }
        requires few_masks { k ≤ 3 }
        requires one_or_more { 1 ≤ log_n }
        requires thirteen_or_less { log_n ≤ 13 }
        ensures { IfOk result (λ room. room ≡ replicate (k + 1) (2 ^ log_n)) }
    {
        let more = Glwe::new(alloc, k, log_n)?;
        let digit = Poly::new(alloc, log_n)?;
        let scratch = Scratch::new(alloc, log_n)?;
        Ok(ExtRoom {
            more,
            digit,
            scratch,
        })
    }
}

/// Adds each digit polynomial of part j of `c` times its row.
fn add_part(into: &mut Glwe, g: &Ggsw, c: &Glwe, j: u32, digit: &mut Poly, scratch: &mut Scratch)
    requires part { j < length c.now }
    requires into { lengths_of into.old ≡ lengths_of c.now }
    requires rows { row_lengths g.now ≡ lengths_of c.now }
    requires degree { length digit.old ≡ degree_of c.now }
    requires room { length digit.old ≡ 2 ^ scratch.old }
    ensures words { into.new ≡ plus_all into.old (part_products g.now c.now j) }
    ensures shape { lengths_of into.new ≡ lengths_of into.old }
    ensures degree_stays { length digit.new ≡ length digit.old }
    ensures room_stays { scratch.new ≡ scratch.old }
{
    into.known();
    c.known();
    g.known();
    word_ring::laws::laws();
    negacyclic::laws::laws();
    for t in 0..g.level() {
        poly_digit_into(digit, c.part(j), g.base(), g.level(), t + 1);
        add_product(into, digit, g.row(j, t + 1), scratch);
    }
}

/// Adds the external product of `g` and `c`.
fn add_external(into: &mut Glwe, g: &Ggsw, c: &Glwe, digit: &mut Poly, scratch: &mut Scratch)
    requires into { lengths_of into.old ≡ lengths_of c.now }
    requires rows { row_lengths g.now ≡ lengths_of c.now }
    requires degree { length digit.old ≡ degree_of c.now }
    requires room { length digit.old ≡ 2 ^ scratch.old }
    ensures words { into.new ≡ plus_all into.old (all_products g.now c.now) }
    ensures shape { lengths_of into.new ≡ lengths_of into.old }
    ensures degree_stays { length digit.new ≡ length digit.old }
    ensures room_stays { scratch.new ≡ scratch.old }
{
    into.known();
    c.known();
    g.known();
    word_ring::laws::laws();
    negacyclic::laws::laws();
    for j in 0..c.k() + 1 {
        add_part(into, g, c, j, digit, scratch);
    }
}

/// Sets `out` to the external product of `g` and `c` (Chillotti et al. 2020): the sum over the rows of the digit
/// polynomial of their part and place times the row. All have one shape. It takes no memory.
///
/// Under every key that the rows of `g` fit with a bit, the phase is the bit times that of `c`, but for a noise that
/// the rows' errors and the rounding to digits bound.
pub fn external_into(out: &mut Glwe, g: &Ggsw, c: &Glwe, room: &mut ExtRoom)
    requires out { lengths_of out.old ≡ lengths_of c.now }
    requires rows { row_lengths g.now ≡ lengths_of c.now }
    requires room { room.old ≡ lengths_of c.now }
    ensures words { out.new ≡ external_product g.now c.now }
    ensures noise { MultipliesPhase g.now c.now out.new }
    ensures shape { lengths_of out.new ≡ lengths_of out.old }
    ensures room_stays { room.new ≡ room.old }
{
    c.known();
    g.known();
    word_ring::laws::laws();
    negacyclic::laws::laws();
    laws::laws();
    out.zero_assign();
    add_external(out, g, c, &mut room.digit, &mut room.scratch);
}

/// CMux (Chillotti et al. 2020): adds to `acc` the external product of `g` and what `other` has more. All have one
/// shape. It takes no memory.
///
/// Under every key that the rows of `g` fit with a bit, the phase is that of `other` where the bit is 1, and else that
/// of `acc` before, but for the noise of the external product.
pub fn cmux_into(acc: &mut Glwe, g: &Ggsw, other: &Glwe, room: &mut ExtRoom)
    requires other { lengths_of other.now ≡ lengths_of acc.old }
    requires rows { row_lengths g.now ≡ lengths_of acc.old }
    requires room { room.old ≡ lengths_of acc.old }
    ensures words { acc.new ≡ cmux_of g.now acc.old other.now }
    ensures noise { SelectsPhase g.now acc.old other.now acc.new }
    ensures shape { lengths_of acc.new ≡ lengths_of acc.old }
    ensures room_stays { room.new ≡ room.old }
{
    other.known();
    word_ring::laws::laws();
    negacyclic::laws::laws();
    laws::laws();
    room.more.zero_assign();
    room.more.add_assign(other);
    room.more.sub_assign(acc);
    add_external(acc, g, &room.more, &mut room.digit, &mut room.scratch);
}
