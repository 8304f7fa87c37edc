//! Decoding.

ghost use Rattle.std.specs.Prelude.{◌≡◌, ◌≤◌, ◌-◌, ◌^◌};
ghost use Rattle.word_ring.specs.Words.{word_sum, word_difference};
ghost use Rattle.lwe_core.specs.Decoding.{decoded, encoded};

use word_ring::{wadd, wmul, word_of, wsub};

/// The place of a value at a width: `value * 2^(63-width)` modulo 2^64 (Chillotti et al. 2020, the encoding of a
/// message on the torus).
#[inline]
pub fn encode(value: i64, width: u32) -> u64
    requires { width ≤ 63 }
    ensures { result ≡ encoded width value }
{
    wmul(word_of(value), 1 << (63 - width))
}

/// Half the distance of neighbouring values at a width.
#[inline]
fn half_step(width: u32) -> u64
    requires { width ≤ 62 }
    ensures { result ≡ 2 ^ (62 - width) }
{
    1 << (62 - width)
}

/// How far a phase is past half a step below the place of `lo`.
#[inline]
fn distance(phase: u64, width: u32, lo: i64) -> u64
    requires { width ≤ 62 }
    ensures { result ≡ word_sum (word_difference phase (encoded width lo)) (2 ^ (62 - width)) }
{
    wadd(wsub(phase, encode(lo, width)), half_step(width))
}

/// The offset over `lo` of the value nearest to a phase, a tie going up, where the value v of `width` bits
/// stands at `v * 2^(63-width)` (Chillotti et al. 2020, rounding of the phase). It is below
/// `2^(width+1)`.
pub fn decode(phase: u64, width: u32, lo: i64) -> u32
    requires low { 1 ≤ width }
    requires high { width ≤ 16 }
    ensures { result ≡ decoded phase width lo }
{
    word_ring::laws::laws();
    (distance(phase, width, lo) >> (63 - width)) as u32
}
