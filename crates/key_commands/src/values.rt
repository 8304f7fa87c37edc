//! The values of ciphertexts under a secret key.

ghost use Rattle.std.specs.Prelude.{◌≡◌, ◌+◌, ◌<◌, ◌≤◌, ◌^◌, length, All, unsigned_abs, IfOk, pos, int_le, ◌+ℤ◌, ◌-ℤ◌};
ghost use Rattle.refusals.specs.Reading.{Gives};
ghost use Rattle.forms.specs.Ranges.{IsNumber, IsNumberRange};
ghost use Rattle.lwe_core.specs.Phase.{FitsKey};
ghost use Rattle.key_commands.specs.Decrypt.{value_at, values_at};

use lwe_core::{Big, Lwe, LweKey, decode, phase};
use refusals::unless;
use std::alloc::Global;
use value_files::{ValueFault, ValueKind, ValueRefusal};

/// Whether the offset over the least number of a range lies in the range.
fn is_within(offset: u32, range: (i64, i64)) -> bool
    requires { IsNumberRange range.0 range.1 }
    ensures { result ≡ int_le (pos offset) (range.1 -ℤ range.0) }
{
    i64::from(offset) <= range.1 - range.0
}

/// The number with this offset over a least one.
fn value_over(lo: i64, offset: u32) -> i64
    requires { IsNumber lo }
    ensures value { result ≡ (lo +ℤ pos offset) }
    ensures limit { unsigned_abs result < 2 ^ 60 }
{
    lo + i64::from(offset)
}

/// The value of a ciphertext with a range of values: the least one and the decoded offset, which lies in the range.
#[tactic(auto, unfolding(crate::specs::Decrypt::value_at))]
fn value_at(
    line: u32,
    width: u32,
    key: &LweKey<Big>,
    range: (i64, i64),
    c: &Lwe<Big>,
) -> Result<i64, ValueRefusal>
    requires low { 1 ≤ width }
    requires high { width ≤ 16 }
    requires fits { FitsKey key.now c.now }
    requires range { IsNumberRange range.0 range.1 }
    ensures value { Gives (λ value. value) result (value_at line width key.now range c.now) }
    ensures limit { IfOk result (λ z. unsigned_abs z < 2 ^ 60) }
{
    let offset = decode(phase(key, c), width, range.0);
    let fault = ValueFault {
        line,
        kind: ValueKind::Decoded,
    };
    unless(is_within(offset, range), fault)?;
    Ok(value_over(range.0, offset))
}

/// The values of ciphertexts, of which each has a range.
pub(crate) fn values_at(
    alloc: Global,
    width: u32,
    key: &LweKey<Big>,
    ranges: &[(i64, i64)],
    list: &[Lwe<Big>],
) -> Result<Vec<i64>, ValueRefusal>
    requires low { 1 ≤ width }
    requires high { width ≤ 16 }
    requires few { length ranges.now + 1 < 2 ^ 32 }
    requires number { length list.now ≡ length ranges.now }
    requires fits { All (FitsKey key.now) list.now }
    requires ranges { All (λ range. IsNumberRange range.0 range.1) ranges.now }
    ensures { Gives (λ values. values.items) result (values_at 1 width key.now ranges.now list.now) }
{
    let mut values = Vec::with_capacity(alloc, ranges.len())?;
    for place in 0..ranges.len() {
        let value = value_at(place as u32 + 1, width, key, ranges[place], &list[place])?;
        values.push(value)?;
    }
    Ok(values)
}
