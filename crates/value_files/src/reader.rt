//! Reading a value file.

ghost use Rattle.std.specs.Prelude.{◌≡◌, ◌+◌, ◌<◌, ◌^◌, unsigned_abs, length, position, IfOk, IfSome};
ghost use Rattle.std.specs.List.{list_all};
ghost use Rattle.std.specs.Char.{is_ascii_digit};
ghost use Rattle.refusals.specs.Reading.{Gives};
ghost use Rattle.forms.specs.Forms.{AreIn};
ghost use Rattle.value_files.specs.Values.{is_line_feed, first_line, after_line, ends_with_return, without_return, is_natural, natural_of, number_of, number_or, value_of, values_from, values_of};

use crate::fault::{ValueFault, ValueKind, ValueRefusal};
use refusals::{Refusal, unless};
use std::alloc::Global;
use std::str;

/// The most bytes of a value file.
pub const VALUES_LIMIT: u64 = 1 << 16;

/// The most digits of a number.
const MOST_DIGITS: usize = 18;

/// Where the first line feed stands.
fn line_feed_in(bytes: &[u8]) -> Option<usize>
    ensures { result ≡ position is_line_feed bytes.now }
{
    bytes.iter().position(|byte| *byte == b'\n')
}

/// The first line, up to its line feed or to the end.
fn first_line(bytes: &[u8]) -> &[u8]
    ensures { result.now ≡ first_line bytes.now }
{
    match line_feed_in(bytes) {
        Some(end) => &bytes[..end],
        None => bytes,
    }
}

/// What stands behind the first line.
fn after_line(bytes: &[u8]) -> &[u8]
    ensures { result.now ≡ after_line bytes.now }
{
    match line_feed_in(bytes) {
        Some(end) => &bytes[end + 1..],
        None => &[],
    }
}

/// The line without a carriage return at its end.
fn without_return(line: &[u8]) -> &[u8]
    ensures { result.now ≡ without_return line.now }
{
    let length = line.len();
    if length > 0 && line[length - 1] == b'\r' {
        &line[..length - 1]
    } else {
        line
    }
}

/// Whether all of these are digits.
fn are_digits(bytes: &[u8]) -> bool
    ensures { result ≡ list_all is_ascii_digit bytes.now }
{
    bytes.iter().all(|byte| byte.is_ascii_digit())
}

/// Whether these are one to eighteen digits.
fn is_natural(digits: &[u8]) -> bool
    ensures { result ≡ is_natural digits.now }
{
    !digits.is_empty() && digits.len() <= MOST_DIGITS && are_digits(digits)
}

/// The number that the digits spell, where they are one to eighteen.
#[tactic(auto, using(crate::proofs::NumberLemmas::all_digits, crate::proofs::NumberLemmas::digits_utf8, crate::proofs::NumberLemmas::short_below))]
fn natural_of(digits: &[u8]) -> Option<u64>
    ensures value { result ≡ natural_of digits.now }
    ensures limit { IfSome result (λ n. n < 2 ^ 60) }
{
    if !is_natural(digits) {
        return None;
    }
    let Ok(text) = str::from_utf8(digits) else {
        return None;
    };
    match text.parse::<u64>() {
        Ok(value) => Some(value),
        Err(_) => None,
    }
}

/// The number that the line spells.
fn number_of(line: &[u8]) -> Option<i64>
    ensures value { result ≡ number_of line.now }
    ensures limit { IfSome result (λ z. unsigned_abs z < 2 ^ 60) }
{
    match line {
        [] => None,
        [b'-', digits @ ..] => Some(-(natural_of(digits)? as i64)),
        _ => Some(natural_of(line)? as i64),
    }
}

/// The number, where there is one.
fn number_or(line: u32, found: Option<i64>) -> Result<i64, ValueRefusal>
    requires limit { IfSome found (λ z. unsigned_abs z < 2 ^ 60) }
    ensures value { Gives (λ value. value) result (number_or line found) }
    ensures limit { IfOk result (λ z. unsigned_abs z < 2 ^ 60) }
{
    match found {
        Some(value) => Ok(value),
        None => Err(Refusal::Fault(ValueFault {
            line,
            kind: ValueKind::Number,
        })),
    }
}

/// The value of a line, which lies in its range.
#[tactic(auto, unfolding(crate::specs::Values::value_of))]
fn value_of(line: u32, range: (i64, i64), bytes: &[u8]) -> Result<i64, ValueRefusal>
    ensures value { Gives (λ value. value) result (value_of line range bytes.now) }
    ensures limit { IfOk result (λ z. unsigned_abs z < 2 ^ 60) }
{
    let value = number_or(line, number_of(without_return(bytes)))?;
    unless(
        range.0 <= value && value <= range.1,
        ValueFault {
            line,
            kind: ValueKind::Range,
        },
    )?;
    Ok(value)
}

/// The values of a file: a number a line, one in each range. The first fault: a line that is no number, a number
/// outside its range, a line too many, or one too few.
pub fn read_values(
    alloc: Global,
    bytes: &[u8],
    ranges: &[(i64, i64)],
) -> Result<Vec<i64>, ValueRefusal>
    requires few { length ranges.now + 1 < 2 ^ 32 }
    ensures values { Gives (λ values. values.items) result (values_of bytes.now ranges.now) }
    ensures within { IfOk result (λ values. AreIn ranges.now values.items) }
{
    let mut values = Vec::with_capacity(alloc, ranges.len())?;
    let mut rest = bytes;
    for (place, range) in ranges.iter().enumerate() {
        let line = place as u32 + 1;
        let few = ValueFault {
            line,
            kind: ValueKind::Few,
        };
        unless(!rest.is_empty(), few)?;
        let value = value_of(line, *range, first_line(rest))?;
        values.push(value)?;
        rest = after_line(rest);
    }
    let many = ValueFault {
        line: ranges.len() as u32 + 1,
        kind: ValueKind::Many,
    };
    unless(rest.is_empty(), many)?;
    Ok(values)
}
