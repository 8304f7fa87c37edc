//! The bootstrap.

ghost use Rattle.std.specs.Prelude.{◌≡◌, ◌<◌, ◌≤◌, ◌+◌, ◌-◌, ◌*◌, ◌%◌, ◌^◌, IfOk, All, length, slice_index};
ghost use Rattle.word_ring.specs.Rounding.{mod_switched};
ghost use Rattle.glwe_core.specs.Glwe.{lengths_of, degree_of};
ghost use Rattle.ggsw_core.specs.Ggsw.{row_lengths};
ghost use Rattle.blind_rotate.specs.BootKey.{glwe_shape, ggsw_at};
ghost use Rattle.blind_rotate.specs.Bootstrap.{accumulator_step, blind_rotation, first_accumulator, bootstrapped};
ghost use Rattle.blind_rotate.specs.Noise.{ReadsTest, LooksUp};

use crate::key::BootKey;
use crate::laws;
use ggsw_core::{ExtRoom, Ggsw, cmux_into};
use glwe_core::{Glwe, extract_into, rotate_glwe_into, trivial_into};
use lwe_core::{Big, Lwe, Small};
use negacyclic::{Poly, rotate_into};
use std::alloc::{AllocError, Global};
use std::marker::Model;
use word_ring::mod_switch;

/// The room that a bootstrap works in, for ciphertexts of k mask polynomials and a body of 2^log_n words. A clause sees
/// it as that shape.
#[derive(Debug, Drop)]
pub struct Room {
    acc: Glwe,
    turned: Glwe,
    body: Poly,
    product: ExtRoom,
    k: u32,
    log_n: u32,
}

impl Model for Room {
    ghost use Rattle.std.specs.Prelude.{◌≡◌, ◌≤◌, ◌+◌, ◌^◌, length, replicate};
    ghost use Rattle.glwe_core.specs.Glwe.{lengths_of};
    ghost use Rattle.blind_rotate.specs.BootKey.{GlweShape, glwe_shape};

    ghost Value = { GlweShape };

    ghost view = { λ r. glwe_shape r.k r.log_n };

    ghost invariant = { λ r. (lengths_of r.acc ≡ replicate (r.k + 1) (2 ^ r.log_n))
        × (lengths_of r.turned ≡ replicate (r.k + 1) (2 ^ r.log_n))
        × (length r.body ≡ 2 ^ r.log_n)
        × (r.product ≡ replicate (r.k + 1) (2 ^ r.log_n))
        × (1 ≤ r.log_n) × (r.log_n ≤ 13) };
}

impl Room {
    /// The room for ciphertexts of k mask polynomials and a body of 2^log_n words. It fails only for memory.
    pub fn new(alloc: Global, k: u32, log_n: u32) -> Result<Room, AllocError>
        requires some_masks { 1 ≤ k }
        requires few_masks { k ≤ 3 }
        requires one_or_more { 1 ≤ log_n }
        requires thirteen_or_less { log_n ≤ 13 }
        ensures { IfOk result (λ room. room ≡ glwe_shape k log_n) }
    {
        let acc = Glwe::new(alloc, k, log_n)?;
        let turned = Glwe::new(alloc, k, log_n)?;
        let body = Poly::new(alloc, log_n)?;
        let product = ExtRoom::new(alloc, k, log_n)?;
        Ok(Room {
            acc,
            turned,
            body,
            product,
            k,
            log_n,
        })
    }
}

/// How many places a word is switched to: 2N.
#[inline]
fn places(log_n: u32) -> u32
    requires { log_n ≤ 13 }
    ensures { result ≡ 2 * 2 ^ log_n }
{
    2 << log_n
}

/// The exponent modulo 2N that turns back by a switched word.
#[inline]
fn minus_switched(word: u64, log_n: u32) -> u32
    requires low { 1 ≤ log_n }
    requires high { log_n ≤ 13 }
    ensures value { result ≡ (2 * 2 ^ log_n - mod_switched word log_n) % (2 * 2 ^ log_n) }
    ensures below { result < 2 * 2 ^ log_n }
{
    word_ring::laws::laws();
    (places(log_n) - mod_switch(word, log_n)) % places(log_n)
}

/// Sets the accumulator to the ciphertext without a mask of X^(-b) times the test polynomial, where b is the switched
/// body.
fn start(acc: &mut Glwe, room: &mut Poly, test: &Poly, log_n: u32, body: u64)
    requires test { length test.now ≡ 2 ^ log_n }
    requires room { length room.old ≡ 2 ^ log_n }
    requires degree { degree_of acc.old ≡ 2 ^ log_n }
    requires low { 1 ≤ log_n }
    requires high { log_n ≤ 13 }
    ensures words { acc.new ≡ first_accumulator (glwe_shape (length acc.old - 1) log_n) test.now body }
    ensures shape { lengths_of acc.new ≡ lengths_of acc.old }
    ensures room_stays { length room.new ≡ length room.old }
{
    negacyclic::laws::laws();
    rotate_into(room, test, minus_switched(body, log_n));
    trivial_into(acc, room);
}

/// Step i: CMux, with the GGSW ciphertext of bit i, between the accumulator and X^a times it, where a is the switched
/// mask word.
#[tactic(auto, unfolding(crate::specs::Bootstrap::accumulator_step))]
fn step(
    acc: &mut Glwe,
    turned: &mut Glwe,
    ggsws: &[Ggsw],
    words: &[u64],
    i: usize,
    log_n: u32,
    room: &mut ExtRoom,
)
    requires bit { i < length ggsws.now }
    requires word { i < length words.now }
    requires rows { All (λ g. row_lengths g ≡ lengths_of acc.old) ggsws.now }
    requires turned { lengths_of turned.old ≡ lengths_of acc.old }
    requires room { room.old ≡ lengths_of acc.old }
    requires degree { degree_of acc.old ≡ 2 ^ log_n }
    requires low { 1 ≤ log_n }
    requires high { log_n ≤ 13 }
    ensures words { acc.new ≡ accumulator_step log_n acc.old (ggsw_at ggsws.now i) (slice_index words.now i) }
    ensures shape { lengths_of acc.new ≡ lengths_of acc.old }
    ensures turned_stays { lengths_of turned.new ≡ lengths_of turned.old }
    ensures room_stays { room.new ≡ room.old }
{
    word_ring::laws::laws();
    rotate_glwe_into(turned, acc, mod_switch(words[i], log_n));
    cmux_into(acc, &ggsws[i], turned, room);
}

/// All steps: one for each GGSW ciphertext with its mask word.
fn rotate_blindly(
    acc: &mut Glwe,
    turned: &mut Glwe,
    ggsws: &[Ggsw],
    words: &[u64],
    log_n: u32,
    room: &mut ExtRoom,
)
    requires number { length ggsws.now ≤ length words.now }
    requires rows { All (λ g. row_lengths g ≡ lengths_of acc.old) ggsws.now }
    requires turned { lengths_of turned.old ≡ lengths_of acc.old }
    requires room { room.old ≡ lengths_of acc.old }
    requires degree { degree_of acc.old ≡ 2 ^ log_n }
    requires low { 1 ≤ log_n }
    requires high { log_n ≤ 13 }
    ensures words { acc.new ≡ blind_rotation log_n acc.old ggsws.now words.now }
    ensures shape { lengths_of acc.new ≡ lengths_of acc.old }
    ensures turned_stays { lengths_of turned.new ≡ lengths_of turned.old }
    ensures room_stays { room.new ≡ room.old }
{
    for i in 0..ggsws.len() {
        step(acc, turned, ggsws, words, i, log_n, room);
    }
}

/// Sets `out` to the bootstrap of `c` with a test polynomial (Chillotti et al. 2020): the words of `c` are switched to
/// 2N places; the accumulator begins as X^(-b) times the test polynomial without a mask; a CMux for each mask word a
/// takes X^a times it where the bit of the small key is 1; and coefficient 0 is extracted. It takes no memory.
///
/// For all keys that fit, the phase under the big key is coefficient 0 of the test polynomial rotated by minus the
/// switched phase, but for a noise that the keys bound. So with the test polynomial of a table it stands for the entry
/// of the value that `c` stands for, where the error of `c` leaves room for that of switching to 2N places.
pub fn bootstrap_into(
    out: &mut Lwe<Big>,
    room: &mut Room,
    key: &BootKey,
    test: &Poly,
    c: &Lwe<Small>,
)
    requires key { key.now.shape ≡ room.old }
    requires test { length test.now ≡ 2 ^ room.old.log_n }
    requires small { length c.now ≡ length key.now.ggsws + 1 }
    requires big { length out.old ≡ room.old.k * 2 ^ room.old.log_n + 1 }
    ensures words { out.new ≡ bootstrapped key.now test.now c.now }
    ensures near { ReadsTest key.now test.now c.now out.new }
    ensures entry { LooksUp key.now test.now c.now out.new }
    ensures dim { length out.new ≡ length out.old }
    ensures room_stays { room.new ≡ room.old }
{
    key.known();
    laws::laws();
    glwe_core::laws::laws();
    let log_n = room.log_n;
    start(
        &mut room.acc,
        &mut room.body,
        test,
        log_n,
        c.word(key.small_dim()),
    );
    rotate_blindly(
        &mut room.acc,
        &mut room.turned,
        key.ggsws(),
        c.words(),
        log_n,
        &mut room.product,
    );
    extract_into(out, &room.acc);
}
