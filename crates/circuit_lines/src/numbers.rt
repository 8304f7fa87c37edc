//! Words and numbers at the front of a text, each with the bytes after it.

ghost use Rattle.std.specs.Prelude.{◌≡◌, ◌≤◌, ◌<◌, length, not, position, IfOk};
ghost use Rattle.std.specs.Char.{is_ascii_digit};
ghost use Rattle.std.specs.Str.Parse.{AllDigits};
ghost use Rattle.refusals.specs.Reading.{Gives};
ghost use Rattle.circuit_lines.specs.Numbers.{number_limit, IsShort, misspelled, literal_at, is_numeral, numeral_value, digit_count, natural_at, number_at, field_at};

use crate::fault::{LineRefusal, Misspelled};
use refusals::Refusal;
use std::str;

/// The most digits of a number.
const MOST_DIGITS: usize = 38;

/// A value at the front of a text, and the bytes after it.
pub type Read<'a, T> = Result<(T, &'a [u8]), LineRefusal>;

/// The refusal of a text at a line.
pub fn misspelled<T>(line: u32) -> Result<T, LineRefusal>
    ensures { result ≡ Err (Refusal.Fault (misspelled line)) }
{
    Err(Refusal::Fault(Misspelled { line }))
}

/// The bytes after the literal text, where it stands at the front.
#[tactic(auto, unfolding(crate::specs::Numbers::literal_at))]
pub fn literal_at<'a>(line: u32, bytes: &'a [u8], literal: &[u8]) -> Result<&'a [u8], LineRefusal>
    ensures { Gives (λ rest. rest.now) result (literal_at line literal.now bytes.now) }
{
    match bytes.strip_prefix(literal) {
        Some(rest) => Ok(rest),
        None => misspelled(line),
    }
}

/// One digit or more, no zero in front of another digit, and not too many.
fn is_numeral(digits: &[u8]) -> bool
    ensures { result ≡ is_numeral digits.now }
{
    !digits.is_empty() && (digits.len() < 2 || digits[0] != b'0') && digits.len() <= MOST_DIGITS
}

/// The number that the digits spell.
#[tactic(auto, using(crate::proofs::NumberLemmas::digits_utf8, crate::proofs::NumberLemmas::short_below), unfolding(crate::specs::Numbers::numeral_value))]
fn numeral_value(line: u32, digits: &[u8]) -> Result<u128, LineRefusal>
    requires { AllDigits 10 digits.now }
    ensures value { Gives (λ value. value) result (numeral_value line digits.now) }
    ensures limit { IfOk result (λ value. value < number_limit) }
{
    if !is_numeral(digits) {
        return misspelled(line);
    }
    let Ok(text) = str::from_utf8(digits) else {
        return misspelled(line);
    };
    match text.parse::<u128>() {
        Ok(value) => Ok(value),
        Err(_) => misspelled(line),
    }
}

/// The place of the first byte that is no digit.
fn first_other(bytes: &[u8]) -> Option<usize>
    ensures { result ≡ position (λ byte. not (is_ascii_digit byte)) bytes.now }
{
    bytes.iter().position(|byte| !byte.is_ascii_digit())
}

/// How many digits stand at the front.
#[tactic(auto, using(crate::proofs::NumberLemmas::place_or_len))]
fn digit_count(bytes: &[u8]) -> usize
    ensures count { result ≡ digit_count bytes.now }
    ensures bound { result ≤ length bytes.now }
{
    first_other(bytes).unwrap_or(bytes.len())
}

/// The number that all digits at the front spell, and the bytes after them.
#[tactic(auto, unfolding(crate::specs::Numbers::natural_at))]
fn natural_at(line: u32, bytes: &[u8]) -> Read<'_, u128>
    ensures value { Gives (λ x. (x.0, x.1.now)) result (natural_at line bytes.now) }
    ensures limit { IfOk result (λ x. x.0 < number_limit) }
{
    let (digits, rest) = bytes.split_at(digit_count(bytes));
    let value = numeral_value(line, digits)?;
    Ok((value, rest))
}

/// The number with a minus directly before it, which zero has not, or without, and the bytes after it.
#[tactic(auto, unfolding(crate::specs::Numbers::number_at))]
pub fn number_at(line: u32, bytes: &[u8]) -> Read<'_, i128>
    ensures value { Gives (λ x. (x.0, x.1.now)) result (number_at line bytes.now) }
    ensures short { IfOk result (λ x. IsShort x.0) }
{
    match bytes {
        [] => misspelled(line),
        [b'-', digits @ ..] => {
            let (magnitude, rest) = natural_at(line, digits)?;
            if magnitude == 0 {
                return misspelled(line);
            }
            Ok((-(magnitude as i128), rest))
        }
        _ => {
            let (magnitude, rest) = natural_at(line, bytes)?;
            Ok((magnitude as i128, rest))
        }
    }
}

/// The literal text, and then a number.
#[tactic(auto, unfolding(crate::specs::Numbers::field_at))]
pub fn field_at<'a>(line: u32, bytes: &'a [u8], literal: &[u8]) -> Read<'a, i128>
    ensures value { Gives (λ x. (x.0, x.1.now)) result (field_at line literal.now bytes.now) }
    ensures short { IfOk result (λ x. IsShort x.0) }
{
    let rest = literal_at(line, bytes, literal)?;
    number_at(line, rest)
}
