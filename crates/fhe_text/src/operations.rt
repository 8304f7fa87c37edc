//! Operations on values.

ghost use Rattle.std.specs.Prelude.{◌≡◌, ◌<◌, ◌≤◌, length, IfOk, []};
ghost use Rattle.refusals.specs.Reading.{Gives};
ghost use Rattle.fhe_text.specs.Rest.{pieces, IsBehind, HasRoom};
ghost use Rattle.fhe_text.specs.Descent.{op_at, known_name_at, next_value_at, values_at, behind_comma_at, listed_at, operation_entry_at, operation_dict_at, result_at, operands_at, signature_at, applied_at, maybe_types_at};

use crate::args::operation_entry_at;
use crate::fault::TextKind;
use crate::names::Names;
use crate::op_names::op_of;
use crate::rest::Rest;
use crate::source::{OpName, Statement, WrittenType};
use crate::tokens::{Read, ReadRefusal, begins, kind_at, sign_at, wrong};
use crate::types::{type_at, types_at};
use lists::List;
use mlir_lex::TokenKind;
use std::alloc::Global;

/// An operation on values with these names.
#[tactic(auto, unfolding(crate::specs::Descent::applied_at))]
pub(crate) fn applied_at<'a>(
    alloc: Global,
    rest: Rest<'a>,
    names: &Names<'a>,
) -> Read<'a, Statement>
    requires { HasRoom names.now rest }
    ensures exact { Gives (λ x. (x.0, pieces x.1)) result (applied_at names.now (pieces rest.entry)) }
    ensures behind { IfOk result (λ x. IsBehind rest.entry x.1) }
{
    let (name, after) = op_at(rest)?;
    let (operands, after) = operands_at(alloc, after, names)?;
    let after = operation_dict_at(after)?;
    let (types, ty, after) = signature_at(alloc, after)?;
    let statement = Statement::Op {
        name,
        operands: List::from_vec(operands),
        types: List::from_vec(types),
        result: ty,
    };
    Ok((statement, after))
}

/// The name of an operation.
#[tactic(auto, unfolding(crate::specs::Descent::op_at))]
fn op_at(rest: Rest<'_>) -> Read<'_, OpName>
    ensures exact { Gives (λ x. (x.0, pieces x.1)) result (op_at (pieces rest.entry)) }
    ensures behind { IfOk result (λ x. IsBehind rest.entry x.1) }
{
    let (text, after) = kind_at(rest, TokenKind::Text)?;
    match op_of(text) {
        Some(name) => Ok((name, after)),
        None => wrong(rest, TextKind::Op),
    }
}

/// The operands, in brackets.
#[tactic(auto, unfolding(crate::specs::Descent::operands_at, crate::specs::Descent::maybe_listed_at, crate::specs::Descent::values_at))]
fn operands_at<'a>(alloc: Global, rest: Rest<'a>, names: &Names<'a>) -> Read<'a, Vec<u32>>
    requires { HasRoom names.now rest }
    ensures exact { Gives (λ x. (x.0.items, pieces x.1)) result (operands_at names.now (pieces rest.entry)) }
    ensures behind { IfOk result (λ x. IsBehind rest.entry x.1) }
{
    let (_, after) = sign_at(rest, b"(")?;
    if begins(after, TokenKind::Sign, b")") {
        let (_, after) = sign_at(after, b")")?;
        return Ok((Vec::new(alloc), after));
    }
    let (operands, after) = values_at(alloc, after, names)?;
    let (_, after) = sign_at(after, b")")?;
    Ok((operands, after))
}

/// The numbers of values, with `,` between, one or more.
pub(crate) fn values_at<'a>(alloc: Global, rest: Rest<'a>, names: &Names<'a>) -> Read<'a, Vec<u32>>
    requires { HasRoom names.now rest }
    ensures exact { Gives (λ x. (x.0.items, pieces x.1)) result (values_at names.now (pieces rest.entry)) }
    ensures behind { IfOk result (λ x. IsBehind rest.entry x.1) }
{
    let mut values = Vec::new(alloc);
    let mut after = next_value_at(rest, names, &mut values)?;
    while begins(after, TokenKind::Sign, b",") {
        after = more_value_at(after, names, &mut values)?;
    }
    Ok((values, after))
}

/// One value more, behind its comma.
#[tactic(auto, unfolding(crate::specs::Descent::behind_comma_at))]
fn more_value_at<'a>(
    rest: Rest<'a>,
    names: &Names<'a>,
    values: &mut Vec<u32>,
) -> Result<Rest<'a>, ReadRefusal>
    requires { HasRoom names.now rest }
    ensures exact { Gives (λ x. (values.new.items, pieces x)) result
        (behind_comma_at (next_value_at names.now) values.old.items (pieces rest.entry)) }
    ensures behind { IfOk result (λ x. IsBehind rest.entry x) }
{
    let (_, after) = sign_at(rest, b",")?;
    next_value_at(after, names, values)
}

/// One value more.
#[tactic(auto, unfolding(crate::specs::Descent::next_value_at))]
fn next_value_at<'a>(
    rest: Rest<'a>,
    names: &Names<'a>,
    values: &mut Vec<u32>,
) -> Result<Rest<'a>, ReadRefusal>
    requires { HasRoom names.now rest }
    ensures exact { Gives (λ x. (values.new.items, pieces x)) result
        (next_value_at names.now values.old.items (pieces rest.entry)) }
    ensures behind { IfOk result (λ x. IsBehind rest.entry x) }
{
    let (number, after) = known_name_at(rest, names)?;
    values.push(number)?;
    Ok(after)
}

/// The number of a value whose name is defined.
#[tactic(auto, unfolding(crate::specs::Descent::known_name_at))]
fn known_name_at<'a>(rest: Rest<'a>, names: &Names<'a>) -> Read<'a, u32>
    requires { HasRoom names.now rest }
    ensures exact { Gives (λ x. (x.0, pieces x.1)) result (known_name_at names.now (pieces rest.entry)) }
    ensures behind { IfOk result (λ x. IsBehind rest.entry x.1) }
{
    let (name, after) = kind_at(rest, TokenKind::Value)?;
    match names.number(name) {
        Some(number) => Ok((number as u32, after)),
        None => wrong(rest, TextKind::Name),
    }
}

/// The dict of an operation, where one is written. It is read and ignored.
#[tactic(auto, unfolding(crate::specs::Descent::operation_dict_at, crate::specs::Descent::maybe_listed_at))]
fn operation_dict_at(rest: Rest<'_>) -> Result<Rest<'_>, ReadRefusal>
    ensures exact { Gives (λ x. (tt, pieces x)) result (operation_dict_at (pieces rest.entry)) }
    ensures behind { IfOk result (λ x. length x.tokens.now ≤ length rest.entry.tokens.now) }
{
    if !begins(rest, TokenKind::Sign, b"{") {
        return Ok(rest);
    }
    let (_, after) = sign_at(rest, b"{")?;
    if begins(after, TokenKind::Sign, b"}") {
        let (_, after) = sign_at(after, b"}")?;
        return Ok(after);
    }
    let after = operation_entries_at(after)?;
    let (_, after) = sign_at(after, b"}")?;
    Ok(after)
}

/// One entry or more of an operation's dict.
fn operation_entries_at(rest: Rest<'_>) -> Result<Rest<'_>, ReadRefusal>
    ensures exact { Gives (λ x. (tt, pieces x)) result (listed_at operation_entry_at tt (pieces rest.entry)) }
    ensures behind { IfOk result (λ x. IsBehind rest.entry x) }
{
    let mut after = operation_entry_at(rest)?;
    while begins(after, TokenKind::Sign, b",") {
        after = more_operation_entry_at(after)?;
    }
    Ok(after)
}

/// One entry more, behind its comma.
#[tactic(auto, unfolding(crate::specs::Descent::behind_comma_at))]
fn more_operation_entry_at(rest: Rest<'_>) -> Result<Rest<'_>, ReadRefusal>
    ensures exact { Gives (λ x. (tt, pieces x)) result (behind_comma_at operation_entry_at tt (pieces rest.entry)) }
    ensures behind { IfOk result (λ x. IsBehind rest.entry x) }
{
    let (_, after) = sign_at(rest, b",")?;
    operation_entry_at(after)
}

/// The types of the operands, in brackets, and that of the result.
#[tactic(auto, unfolding(crate::specs::Descent::signature_at))]
fn signature_at(
    alloc: Global,
    rest: Rest<'_>,
) -> Result<(Vec<WrittenType>, WrittenType, Rest<'_>), ReadRefusal>
    ensures exact { Gives (λ x. ((x.0.items, x.1), pieces x.2)) result (signature_at (pieces rest.entry)) }
    ensures behind { IfOk result (λ x. IsBehind rest.entry x.2) }
{
    let (_, after) = sign_at(rest, b":")?;
    let (_, after) = sign_at(after, b"(")?;
    let (types, after) = maybe_types_at(alloc, after)?;
    let (_, after) = sign_at(after, b")")?;
    let (_, after) = sign_at(after, b"->")?;
    let (ty, after) = result_at(after)?;
    Ok((types, ty, after))
}

/// The types before a `)`, none or more.
#[tactic(auto, unfolding(crate::specs::Descent::maybe_types_at, crate::specs::Descent::maybe_listed_at, crate::specs::Descent::types_at))]
fn maybe_types_at(alloc: Global, rest: Rest<'_>) -> Read<'_, Vec<WrittenType>>
    ensures exact { Gives (λ x. (x.0.items, pieces x.1)) result (maybe_types_at (pieces rest.entry)) }
    ensures behind { IfOk result (λ x. length x.1.tokens.now ≤ length rest.entry.tokens.now) }
{
    if begins(rest, TokenKind::Sign, b")") {
        return Ok((Vec::new(alloc), rest));
    }
    types_at(alloc, rest)
}

/// The type of the result, in brackets or without.
#[tactic(auto, unfolding(crate::specs::Descent::result_at))]
fn result_at(rest: Rest<'_>) -> Read<'_, WrittenType>
    ensures exact { Gives (λ x. (x.0, pieces x.1)) result (result_at (pieces rest.entry)) }
    ensures behind { IfOk result (λ x. IsBehind rest.entry x.1) }
{
    if begins(rest, TokenKind::Sign, b"(") {
        let (_, after) = sign_at(rest, b"(")?;
        let (ty, after) = type_at(after)?;
        let (_, after) = sign_at(after, b")")?;
        return Ok((ty, after));
    }
    type_at(rest)
}
