//! Written types.

ghost use Rattle.std.specs.Prelude.{◌≡◌, ◌<◌, ◌≤◌, length, IfOk};
ghost use Rattle.refusals.specs.Reading.{Gives};
ghost use Rattle.fhe_text.specs.Numbers.{AreBits};
ghost use Rattle.fhe_text.specs.Roles.{eint_name};
ghost use Rattle.fhe_text.specs.Rest.{pieces, IsBehind};
ghost use Rattle.fhe_text.specs.Descent.{role_at, length_at, width_at, itype_at, xtype_at, etype_at, tensor_at, type_at, next_type_at, types_at, next_etype_at, etypes_at, result_types_at, behind_comma_at};

use crate::fault::TextKind;
use crate::numbers::{itype_of, length_of, width_of, xtype_of};
use crate::rest::Rest;
use crate::source::WrittenType;
use crate::tokens::{Read, ReadRefusal, begins, kind_at, sign_at, word_at, wrong};
use mlir_lex::TokenKind;
use std::alloc::Global;

/// The word before the width of an encrypted number.
const EINT: &[u8; 9] = b"!FHE.eint";

/// The width of `!FHE.eint<width>`.
#[tactic(auto, unfolding(crate::specs::Descent::etype_at))]
pub(crate) fn etype_at(rest: Rest<'_>) -> Read<'_, u32>
    ensures exact { Gives (λ x. (x.0, pieces x.1)) result (etype_at (pieces rest.entry)) }
    ensures behind { IfOk result (λ x. IsBehind rest.entry x.1) }
{
    let (_, after) = eint_name_at(rest)?;
    let (_, after) = sign_at(after, b"<")?;
    let (width, after) = width_at(after)?;
    let (_, after) = sign_at(after, b">")?;
    Ok((width, after))
}

/// The word `!FHE.eint`.
#[tactic(auto, unfolding(crate::specs::Descent::role_at))]
fn eint_name_at(rest: Rest<'_>) -> Read<'_, &[u8]>
    ensures exact { Gives (λ x. (x.0.now, pieces x.1)) result (role_at eint_name (pieces rest.entry)) }
    ensures behind { IfOk result (λ x. IsBehind rest.entry x.1) }
{
    let (text, after) = kind_at(rest, TokenKind::TypeName)?;
    if text != EINT.as_slice() {
        return wrong(rest, TextKind::Syntax);
    }
    Ok((text, after))
}

/// A width.
#[tactic(auto, unfolding(crate::specs::Descent::width_at))]
fn width_at(rest: Rest<'_>) -> Read<'_, u32>
    ensures exact { Gives (λ x. (x.0, pieces x.1)) result (width_at (pieces rest.entry)) }
    ensures behind { IfOk result (λ x. IsBehind rest.entry x.1) }
{
    let (text, after) = kind_at(rest, TokenKind::Int)?;
    match width_of(text) {
        Some(width) => Ok((width, after)),
        None => wrong(rest, TextKind::Syntax),
    }
}

/// The length of a tensor.
#[tactic(auto, unfolding(crate::specs::Descent::length_at))]
pub(crate) fn length_at(rest: Rest<'_>) -> Read<'_, u32>
    ensures exact { Gives (λ x. (x.0, pieces x.1)) result (length_at (pieces rest.entry)) }
    ensures behind { IfOk result (λ x. IsBehind rest.entry x.1) }
{
    let (text, after) = kind_at(rest, TokenKind::Int)?;
    match length_of(text) {
        Some(length) => Ok((length, after)),
        None => wrong(rest, TextKind::Shape),
    }
}

/// The bits of an xtype.
#[tactic(auto, unfolding(crate::specs::Descent::xtype_at))]
pub(crate) fn xtype_at(rest: Rest<'_>) -> Read<'_, u32>
    ensures exact { Gives (λ x. (x.0, pieces x.1)) result (xtype_at (pieces rest.entry)) }
    ensures bits { IfOk result (λ x. AreBits x.0) }
    ensures behind { IfOk result (λ x. IsBehind rest.entry x.1) }
{
    let (text, after) = kind_at(rest, TokenKind::Word)?;
    match xtype_of(text) {
        Some(bits) => Ok((bits, after)),
        None => wrong(rest, TextKind::Syntax),
    }
}

/// The bits of an itype.
#[tactic(auto, unfolding(crate::specs::Descent::itype_at))]
pub(crate) fn itype_at(rest: Rest<'_>) -> Read<'_, u32>
    ensures exact { Gives (λ x. (x.0, pieces x.1)) result (itype_at (pieces rest.entry)) }
    ensures bits { IfOk result (λ x. AreBits x.0) }
    ensures behind { IfOk result (λ x. IsBehind rest.entry x.1) }
{
    let (text, after) = kind_at(rest, TokenKind::Word)?;
    match itype_of(text) {
        Some(bits) => Ok((bits, after)),
        None => wrong(rest, TextKind::Syntax),
    }
}

/// `tensor<length xtype>`.
#[tactic(auto, unfolding(crate::specs::Descent::tensor_at))]
fn tensor_at(rest: Rest<'_>) -> Read<'_, WrittenType>
    ensures exact { Gives (λ x. (x.0, pieces x.1)) result (tensor_at (pieces rest.entry)) }
    ensures behind { IfOk result (λ x. IsBehind rest.entry x.1) }
{
    let (_, after) = word_at(rest, b"tensor")?;
    let (_, after) = sign_at(after, b"<")?;
    let (length, after) = length_at(after)?;
    let (bits, after) = xtype_at(after)?;
    let (_, after) = sign_at(after, b">")?;
    Ok((WrittenType::Tensor { length, bits }, after))
}

/// Any type.
#[tactic(auto, unfolding(crate::specs::Descent::type_at))]
pub(crate) fn type_at(rest: Rest<'_>) -> Read<'_, WrittenType>
    ensures exact { Gives (λ x. (x.0, pieces x.1)) result (type_at (pieces rest.entry)) }
    ensures behind { IfOk result (λ x. IsBehind rest.entry x.1) }
{
    if begins(rest, TokenKind::TypeName, EINT) {
        let (width, after) = etype_at(rest)?;
        return Ok((WrittenType::Eint(width), after));
    }
    if begins(rest, TokenKind::Word, b"tensor") {
        return tensor_at(rest);
    }
    let (bits, after) = itype_at(rest)?;
    Ok((WrittenType::Int(bits), after))
}

/// Types with `,` between, one or more.
#[tactic(auto, unfolding(crate::specs::Descent::types_at))]
pub(crate) fn types_at(alloc: Global, rest: Rest<'_>) -> Read<'_, Vec<WrittenType>>
    ensures exact { Gives (λ x. (x.0.items, pieces x.1)) result (types_at (pieces rest.entry)) }
    ensures behind { IfOk result (λ x. IsBehind rest.entry x.1) }
{
    let mut types = Vec::new(alloc);
    let mut after = next_type_at(rest, &mut types)?;
    while begins(after, TokenKind::Sign, b",") {
        after = more_type_at(after, &mut types)?;
    }
    Ok((types, after))
}

/// One type more.
#[tactic(auto, unfolding(crate::specs::Descent::next_type_at))]
fn next_type_at<'a>(rest: Rest<'a>, types: &mut Vec<WrittenType>) -> Result<Rest<'a>, ReadRefusal>
    ensures exact { Gives (λ x. (types.new.items, pieces x)) result (next_type_at types.old.items (pieces rest.entry)) }
    ensures behind { IfOk result (λ x. IsBehind rest.entry x) }
{
    let (ty, after) = type_at(rest)?;
    types.push(ty)?;
    Ok(after)
}

/// The types of the results of a function: one, or several in brackets.
#[tactic(auto, unfolding(crate::specs::Descent::result_types_at))]
pub(crate) fn result_types_at(alloc: Global, rest: Rest<'_>) -> Read<'_, Vec<WrittenType>>
    ensures exact { Gives (λ x. (x.0.items, pieces x.1)) result (result_types_at (pieces rest.entry)) }
    ensures behind { IfOk result (λ x. IsBehind rest.entry x.1) }
{
    if begins(rest, TokenKind::Sign, b"(") {
        let (_, after) = sign_at(rest, b"(")?;
        let (types, after) = etypes_at(alloc, after)?;
        let (_, after) = sign_at(after, b")")?;
        return Ok((types, after));
    }
    let mut types = Vec::new(alloc);
    let after = next_etype_at(rest, &mut types)?;
    Ok((types, after))
}

/// Encrypted types with `,` between, one or more.
#[tactic(auto, unfolding(crate::specs::Descent::etypes_at))]
fn etypes_at(alloc: Global, rest: Rest<'_>) -> Read<'_, Vec<WrittenType>>
    ensures exact { Gives (λ x. (x.0.items, pieces x.1)) result (etypes_at (pieces rest.entry)) }
    ensures behind { IfOk result (λ x. IsBehind rest.entry x.1) }
{
    let mut types = Vec::new(alloc);
    let mut after = next_etype_at(rest, &mut types)?;
    while begins(after, TokenKind::Sign, b",") {
        after = more_etype_at(after, &mut types)?;
    }
    Ok((types, after))
}

/// One encrypted type more.
#[tactic(auto, unfolding(crate::specs::Descent::next_etype_at))]
fn next_etype_at<'a>(rest: Rest<'a>, types: &mut Vec<WrittenType>) -> Result<Rest<'a>, ReadRefusal>
    ensures exact { Gives (λ x. (types.new.items, pieces x)) result (next_etype_at types.old.items (pieces rest.entry)) }
    ensures behind { IfOk result (λ x. IsBehind rest.entry x) }
{
    let (width, after) = etype_at(rest)?;
    types.push(WrittenType::Eint(width))?;
    Ok(after)
}

/// One type more, behind its comma.
#[tactic(auto, unfolding(crate::specs::Descent::behind_comma_at))]
fn more_type_at<'a>(rest: Rest<'a>, types: &mut Vec<WrittenType>) -> Result<Rest<'a>, ReadRefusal>
    ensures exact { Gives (λ x. (types.new.items, pieces x)) result
        (behind_comma_at next_type_at types.old.items (pieces rest.entry)) }
    ensures behind { IfOk result (λ x. IsBehind rest.entry x) }
{
    let (_, after) = sign_at(rest, b",")?;
    next_type_at(after, types)
}

/// One encrypted type more, behind its comma.
#[tactic(auto, unfolding(crate::specs::Descent::behind_comma_at))]
fn more_etype_at<'a>(rest: Rest<'a>, types: &mut Vec<WrittenType>) -> Result<Rest<'a>, ReadRefusal>
    ensures exact { Gives (λ x. (types.new.items, pieces x)) result
        (behind_comma_at next_etype_at types.old.items (pieces rest.entry)) }
    ensures behind { IfOk result (λ x. IsBehind rest.entry x) }
{
    let (_, after) = sign_at(rest, b",")?;
    next_etype_at(after, types)
}
