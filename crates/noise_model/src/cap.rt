//! Sums and products up to 2^64.

ghost use Rattle.std.specs.Prelude.{◌≡◌, ◌≤◌, ◌+◌, ◌*◌, ◌^◌};
ghost use Rattle.noise_model.specs.Bounds.{capped};

/// Where bounds are capped: no limit is as large.
const CAP: u128 = 1 << 64;

/// The least of a bound and 2^64.
pub(crate) fn cap(bound: u128) -> u128
    ensures value { result ≡ capped bound }
    ensures most { result ≤ 2 ^ 64 }
{
    bound.min(CAP)
}

/// The least of the sum and 2^64.
pub fn cap_add(a: u128, b: u128) -> u128
    requires first { a ≤ 2 ^ 64 }
    requires second { b ≤ 2 ^ 64 }
    ensures value { result ≡ capped (a + b) }
    ensures most { result ≤ 2 ^ 64 }
{
    cap(a + b)
}

/// The least of the product and 2^64.
pub fn cap_mul(a: u128, b: u128) -> u128
    requires first { a ≤ 2 ^ 64 }
    requires second { b ≤ 2 ^ 64 }
    ensures value { result ≡ capped (a * b) }
    ensures most { result ≤ 2 ^ 64 }
{
    cap(a.saturating_mul(b))
}
