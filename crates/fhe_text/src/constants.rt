//! Constants.

ghost use Rattle.std.specs.Prelude.{◌≡◌, ◌<◌, ◌≤◌, length, IfOk, codes};
ghost use Rattle.refusals.specs.Reading.{Gives};
ghost use Rattle.fhe_text.specs.Conditions.{is_length_of, all_fit};
ghost use Rattle.fhe_text.specs.Roles.{word};
ghost use Rattle.fhe_text.specs.Rest.{pieces, IsBehind};
ghost use Rattle.fhe_text.specs.Descent.{role_at, number_at, scalar_constant_at, next_number_at, numbers_at, behind_comma_at, list_at, entries_at, item_count, entry_numbers, dense_length_at, dense_cell_at, dense_type_at, dense_constant_at, constant_at};

use crate::fault::TextKind;
use crate::numbers::{fits_bits, i64_of};
use crate::rest::Rest;
use crate::source::{Entries, Statement};
use crate::tokens::{Read, ReadRefusal, begins, kind_at, sign_at, word_at, wrong};
use crate::types::{itype_at, length_at, xtype_at};
use lists::List;
use mlir_lex::TokenKind;
use std::alloc::Global;

/// A constant.
#[tactic(auto, unfolding(crate::specs::Descent::constant_at))]
pub(crate) fn constant_at(alloc: Global, rest: Rest<'_>) -> Read<'_, Statement>
    ensures exact { Gives (λ x. (x.0, pieces x.1)) result (constant_at (pieces rest.entry)) }
    ensures behind { IfOk result (λ x. IsBehind rest.entry x.1) }
{
    let (_, after) = constant_word_at(rest)?;
    if begins(after, TokenKind::Word, b"dense") {
        return dense_constant_at(alloc, after);
    }
    scalar_constant_at(after)
}

/// The word `arith.constant`.
#[tactic(auto, unfolding(crate::specs::Descent::role_at))]
fn constant_word_at(rest: Rest<'_>) -> Read<'_, &[u8]>
    ensures exact { Gives (λ x. (x.0.now, pieces x.1)) result
        (role_at (word (codes "arith.constant")) (pieces rest.entry)) }
    ensures behind { IfOk result (λ x. IsBehind rest.entry x.1) }
{
    word_at(rest, b"arith.constant")
}

/// `number : itype`.
#[tactic(auto, unfolding(crate::specs::Descent::scalar_constant_at))]
fn scalar_constant_at(rest: Rest<'_>) -> Read<'_, Statement>
    ensures exact { Gives (λ x. (x.0, pieces x.1)) result (scalar_constant_at (pieces rest.entry)) }
    ensures behind { IfOk result (λ x. IsBehind rest.entry x.1) }
{
    let (value, after) = number_at(rest)?;
    let (_, before) = sign_at(after, b":")?;
    let (bits, after) = itype_at(before)?;
    if !fits_bits(bits, value) {
        return wrong(before, TextKind::Constant);
    }
    Ok((Statement::Int { value, bits }, after))
}

/// An INT of a constant.
#[tactic(auto, unfolding(crate::specs::Descent::number_at))]
fn number_at(rest: Rest<'_>) -> Read<'_, i64>
    ensures exact { Gives (λ x. (x.0, pieces x.1)) result (number_at (pieces rest.entry)) }
    ensures behind { IfOk result (λ x. IsBehind rest.entry x.1) }
{
    let (text, after) = kind_at(rest, TokenKind::Int)?;
    match i64_of(text) {
        Some(value) => Ok((value, after)),
        None => wrong(rest, TextKind::Syntax),
    }
}

/// `dense<entries> : tensor`.
#[tactic(auto, unfolding(crate::specs::Descent::dense_constant_at))]
fn dense_constant_at(alloc: Global, rest: Rest<'_>) -> Read<'_, Statement>
    ensures exact { Gives (λ x. (x.0, pieces x.1)) result (dense_constant_at (pieces rest.entry)) }
    ensures behind { IfOk result (λ x. IsBehind rest.entry x.1) }
{
    let (_, after) = word_at(rest, b"dense")?;
    let (_, after) = sign_at(after, b"<")?;
    let (entries, after) = entries_at(alloc, after)?;
    let (_, after) = sign_at(after, b">")?;
    let (_, after) = sign_at(after, b":")?;
    dense_type_at(after, entries)
}

/// The tensor of these entries.
#[tactic(auto, unfolding(crate::specs::Descent::dense_type_at))]
fn dense_type_at(rest: Rest<'_>, entries: Entries) -> Read<'_, Statement>
    ensures exact { Gives (λ x. (x.0, pieces x.1)) result (dense_type_at entries (pieces rest.entry)) }
    ensures behind { IfOk result (λ x. IsBehind rest.entry x.1) }
{
    let (_, after) = word_at(rest, b"tensor")?;
    let (_, after) = sign_at(after, b"<")?;
    let (length, after) = dense_length_at(after, &entries)?;
    let (bits, after) = dense_cell_at(after, &entries)?;
    let (_, after) = sign_at(after, b">")?;
    let statement = Statement::Dense {
        entries,
        length,
        bits,
    };
    Ok((statement, after))
}

/// The entries of a tensor: a list, or one number for all of them.
#[tactic(auto, unfolding(crate::specs::Descent::entries_at))]
fn entries_at(alloc: Global, rest: Rest<'_>) -> Read<'_, Entries>
    ensures exact { Gives (λ x. (x.0, pieces x.1)) result (entries_at (pieces rest.entry)) }
    ensures behind { IfOk result (λ x. IsBehind rest.entry x.1) }
{
    if begins(rest, TokenKind::Sign, b"[") {
        let (numbers, after) = list_at(alloc, rest)?;
        return Ok((Entries::List(List::from_vec(numbers)), after));
    }
    let (value, after) = number_at(rest)?;
    Ok((Entries::Splat(value), after))
}

/// The numbers of a list, in brackets.
#[tactic(auto, unfolding(crate::specs::Descent::list_at))]
fn list_at(alloc: Global, rest: Rest<'_>) -> Read<'_, Vec<i64>>
    ensures exact { Gives (λ x. (x.0.items, pieces x.1)) result (list_at (pieces rest.entry)) }
    ensures behind { IfOk result (λ x. IsBehind rest.entry x.1) }
{
    let (_, after) = sign_at(rest, b"[")?;
    let (numbers, after) = numbers_at(alloc, after)?;
    let (_, after) = sign_at(after, b"]")?;
    Ok((numbers, after))
}

/// Numbers with `,` between, one or more.
fn numbers_at(alloc: Global, rest: Rest<'_>) -> Read<'_, Vec<i64>>
    ensures exact { Gives (λ x. (x.0.items, pieces x.1)) result (numbers_at (pieces rest.entry)) }
    ensures behind { IfOk result (λ x. IsBehind rest.entry x.1) }
{
    let mut numbers = Vec::new(alloc);
    let mut after = next_number_at(rest, &mut numbers)?;
    while begins(after, TokenKind::Sign, b",") {
        after = more_number_at(after, &mut numbers)?;
    }
    Ok((numbers, after))
}

/// One number more, behind its comma.
#[tactic(auto, unfolding(crate::specs::Descent::behind_comma_at))]
fn more_number_at<'a>(rest: Rest<'a>, numbers: &mut Vec<i64>) -> Result<Rest<'a>, ReadRefusal>
    ensures exact { Gives (λ x. (numbers.new.items, pieces x)) result
        (behind_comma_at next_number_at numbers.old.items (pieces rest.entry)) }
    ensures behind { IfOk result (λ x. IsBehind rest.entry x) }
{
    let (_, after) = sign_at(rest, b",")?;
    next_number_at(after, numbers)
}

/// One number more.
#[tactic(auto, unfolding(crate::specs::Descent::next_number_at))]
fn next_number_at<'a>(rest: Rest<'a>, numbers: &mut Vec<i64>) -> Result<Rest<'a>, ReadRefusal>
    ensures exact { Gives (λ x. (numbers.new.items, pieces x)) result
        (next_number_at numbers.old.items (pieces rest.entry)) }
    ensures behind { IfOk result (λ x. IsBehind rest.entry x) }
{
    let (value, after) = number_at(rest)?;
    numbers.push(value)?;
    Ok(after)
}

/// How many numbers a list has, 0 where one number stands for all.
fn item_count(entries: &Entries) -> usize
    ensures { result ≡ item_count entries.now }
{
    match entries {
        Entries::List(numbers) => numbers.len(),
        Entries::Splat(_) => 0,
    }
}

/// Whether a tensor of so many entries may have so many in its list.
fn is_length_of(items: usize, length: u32) -> bool
    ensures { result ≡ is_length_of items length }
{
    items == 0 || items == length as usize
}

/// Whether so many bits hold all entries.
fn all_fit(bits: u32, entries: &Entries) -> bool
    requires least { 1 ≤ bits }
    requires most { bits ≤ 64 }
    ensures { result ≡ all_fit bits (entry_numbers entries.now) }
{
    match entries {
        Entries::List(numbers) => numbers
            .as_slice()
            .iter()
            .all(|value| fits_bits(bits, *value)),
        Entries::Splat(value) => fits_bits(bits, *value),
    }
}

/// The length of the tensor of these entries: a list has as many.
#[tactic(auto, unfolding(crate::specs::Descent::dense_length_at))]
fn dense_length_at<'a>(rest: Rest<'a>, entries: &Entries) -> Read<'a, u32>
    ensures exact { Gives (λ x. (x.0, pieces x.1)) result
        (dense_length_at (item_count entries.now) (pieces rest.entry)) }
    ensures behind { IfOk result (λ x. IsBehind rest.entry x.1) }
{
    let (length, after) = length_at(rest)?;
    if !is_length_of(item_count(entries), length) {
        return wrong(rest, TextKind::Shape);
    }
    Ok((length, after))
}

/// The bits of the tensor of these entries, which hold them.
#[tactic(auto, unfolding(crate::specs::Descent::dense_cell_at))]
fn dense_cell_at<'a>(rest: Rest<'a>, entries: &Entries) -> Read<'a, u32>
    ensures exact { Gives (λ x. (x.0, pieces x.1)) result
        (dense_cell_at (entry_numbers entries.now) (pieces rest.entry)) }
    ensures behind { IfOk result (λ x. IsBehind rest.entry x.1) }
{
    let (bits, after) = xtype_at(rest)?;
    if !all_fit(bits, entries) {
        return wrong(rest, TextKind::Constant);
    }
    Ok((bits, after))
}
