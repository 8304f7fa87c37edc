//! Rounding of words.

ghost use Rattle.std.specs.Prelude.{◌≡◌, ◌-◌, ◌*◌, ◌^◌, ◌≤◌};
ghost use Rattle.word_ring.specs.Rounding.{rounded, mod_switched, RoundingLaws, SwitchingLaws};

/// Half of `2^shift`: added to a word before its lowest bits are cut, it makes the cut a rounding.
#[inline]
fn half_step(shift: u32) -> u64
    requires some { 1 ≤ shift }
    requires fits { shift ≤ 64 }
    ensures { result ≡ 2 ^ (shift - 1) }
{
    1 << (shift - 1)
}

/// The multiple of `2^(64 - base*level)` nearest to `w`, a tie going up, modulo 2^64: what `level` digits
/// of `base` bits keep of a word (Chillotti et al. 2020, the approximate gadget decomposition).
#[inline]
pub fn round_to(w: u64, base: u32, level: u32) -> u64
    requires some_bits { 1 ≤ base }
    requires some_digits { 1 ≤ level }
    requires fits { base * level ≤ 63 }
    ensures { result ≡ rounded w base level }
{
    let shift = 64 - base * level;
    (w.wrapping_add(half_step(shift)) >> shift) << shift
}

/// The nearest of `2N` places, `N = 2^log_n`, that stand `2^(63-log_n)` apart on the circle of the words, a
/// tie going up: the exponent of X that a bootstrap turns by (Chillotti et al. 2020, modulus switching).
#[inline]
pub fn mod_switch(w: u64, log_n: u32) -> u32
    requires low { 1 ≤ log_n }
    requires high { log_n ≤ 13 }
    ensures { result ≡ mod_switched w log_n }
{
    let shift = 63 - log_n;
    (w.wrapping_add(half_step(shift)) >> shift) as u32
}

/// A rounded word is a multiple of the step, at most half a step away.
#[inline]
pub fn rounding_laws()
    ensures { RoundingLaws }
{}

/// A switched word is one of `2N` places, at most half their distance away.
#[inline]
pub fn switching_laws()
    ensures { SwitchingLaws }
{}
