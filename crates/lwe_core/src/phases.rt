//! Phases.

ghost use Rattle.std.specs.Prelude.{◌≡◌, ◌+◌, cond, length};
ghost use Rattle.word_ring.specs.Words.{word_sum, word_difference};
ghost use Rattle.word_ring.specs.Signed.{word_of as word_of_number};
ghost use Rattle.lwe_core.specs.Phase.{FitsKey, phase_of, sealed};

use crate::key::LweKey;
use crate::kind::Kind;
use crate::laws;
use crate::lwe::Lwe;
use word_ring::{wadd, word_of, wsub};

/// A phase without a mask word, if its bit is 1.
#[inline]
fn without_masked(phase: u64, bit: bool, word: u64) -> u64
    ensures { result ≡ word_difference phase (cond bit word 0) }
{
    if bit { wsub(phase, word) } else { phase }
}

/// What the key reads in a ciphertext: the body minus the mask words whose bit is 1, modulo 2^64
/// (Chillotti et al. 2020, the phase of a TLWE sample).
pub fn phase<K: Kind>(key: &LweKey<K>, c: &Lwe<K>) -> u64
    requires { FitsKey key.now c.now }
    ensures { result ≡ phase_of key.now c.now }
{
    let words = c.words();
    let mut phase = words[key.len()];
    for i in 0..key.len() {
        phase = without_masked(phase, key.bit(i), words[i]);
    }
    phase
}

/// The body that turns a phase into message plus error.
#[inline]
fn moved_body(body: u64, phase: u64, message: u64, error: i64) -> u64
    ensures { result ≡ word_sum (word_sum message (word_of_number error)) (word_difference body phase) }
{
    wadd(wadd(message, word_of(error)), wsub(body, phase))
}

/// Keeps the mask and sets the body so that the phase is message plus error (Chillotti et al. 2020, TLWE
/// samples of a message).
pub fn seal<K: Kind>(key: &LweKey<K>, c: &mut Lwe<K>, message: u64, error: i64)
    requires { FitsKey key.now c.old }
    ensures words { c.new ≡ sealed key.now c.old (word_sum message (word_of_number error)) }
    ensures phase { phase_of key.now c.new ≡ word_sum message (word_of_number error) }
{
    laws::laws();
    let dim = key.len();
    let body = moved_body(c.word(dim), phase(key, c), message, error);
    c.set(dim, body);
}
