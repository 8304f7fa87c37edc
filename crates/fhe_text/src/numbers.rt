//! The numbers that tokens spell.

ghost use Rattle.std.specs.Prelude.{◌≡◌, ◌<◌, ◌≤◌, ◌^◌, IsTrue, IfSome};
ghost use Rattle.mlir_lex.specs.Spellings.{is_int};
ghost use Rattle.fhe_text.specs.Numbers.{fits_bits, signed_of, natural_between, width_of, length_of, bits_of, itype_of, xtype_of, AreBits};

use std::str;

/// The number that an INT spells, where 64 bits hold it.
pub(crate) fn i64_of(text: &[u8]) -> Option<i64>
    requires { IsTrue (is_int text.now) }
    ensures { result ≡ signed_of 64 text.now }
{
    let Ok(text) = str::from_utf8(text) else {
        return None;
    };
    match text.parse::<i64>() {
        Ok(number) => Some(number),
        Err(_) => None,
    }
}

/// The number that an INT spells, where 128 bits hold it.
pub(crate) fn i128_of(text: &[u8]) -> Option<i128>
    requires { IsTrue (is_int text.now) }
    ensures { result ≡ signed_of 128 text.now }
{
    let Ok(text) = str::from_utf8(text) else {
        return None;
    };
    match text.parse::<i128>() {
        Ok(number) => Some(number),
        Err(_) => None,
    }
}

/// Whether a signed number of so many bits, from 1 to 64, holds the number.
pub(crate) fn fits_bits(bits: u32, value: i64) -> bool
    requires least { 1 ≤ bits }
    requires most { bits ≤ 64 }
    ensures { result ≡ fits_bits bits value }
{
    let half = 1u64 << (bits - 1);
    let size = value.unsigned_abs();
    if value < 0 { size <= half } else { size < half }
}

/// The number that an INT spells, where it lies in the range.
fn natural_between(text: &[u8], least: u32, most: u32) -> Option<u32>
    requires { IsTrue (is_int text.now) }
    ensures { result ≡ natural_between least most text.now }
{
    let number = i64_of(text)?;
    if i64::from(least) <= number && number <= i64::from(most) {
        Some(number as u32)
    } else {
        None
    }
}

/// The width that one to nine digits spell, unless it is zero.
pub(crate) fn width_of(text: &[u8]) -> Option<u32>
    requires { IsTrue (is_int text.now) }
    ensures { result ≡ width_of text.now }
{
    if text.len() <= 9 {
        natural_between(text, 1, 999_999_999)
    } else {
        None
    }
}

/// The length that an INT spells, from 1 to 2^31.
pub(crate) fn length_of(text: &[u8]) -> Option<u32>
    requires { IsTrue (is_int text.now) }
    ensures { result ≡ length_of text.now }
{
    natural_between(text, 1, 1 << 31)
}

/// The number of bits that one digit or two spell, from 1 to 64 without leading zeros.
fn bits_of(text: &[u8]) -> Option<u32>
    ensures exact { result ≡ bits_of text.now }
    ensures bits { IfSome result AreBits }
{
    match text {
        [a] if (b'1'..=b'9').contains(a) => Some(u32::from(*a - b'0')),
        [a, b] if (b'1'..=b'9').contains(a) && b.is_ascii_digit() => {
            let bits = 10 * u32::from(*a - b'0') + u32::from(*b - b'0');
            if bits <= 64 { Some(bits) } else { None }
        }
        _ => None,
    }
}

/// The bits of an itype: `i` and their number.
pub(crate) fn itype_of(text: &[u8]) -> Option<u32>
    ensures exact { result ≡ itype_of text.now }
    ensures bits { IfSome result AreBits }
{
    match text {
        [b'i', digits @ ..] => bits_of(digits),
        _ => None,
    }
}

/// The bits of an xtype: `x` and an itype.
pub(crate) fn xtype_of(text: &[u8]) -> Option<u32>
    ensures exact { result ≡ xtype_of text.now }
    ensures bits { IfSome result AreBits }
{
    match text {
        [b'x', itype @ ..] => itype_of(itype),
        _ => None,
    }
}
