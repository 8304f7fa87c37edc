//! Arguments, and dicts of entries.

ghost use Rattle.std.specs.Prelude.{◌≡◌, ◌<◌, ◌≤◌, length, IfOk, None};
ghost use Rattle.refusals.specs.Reading.{Gives};
ghost use Rattle.fhe_text.specs.Roles.{range_word, argument_entry, entry_value, entry_type};
ghost use Rattle.fhe_text.specs.Rest.{pieces, IsBehind, HasRoom};
ghost use Rattle.fhe_text.specs.Descent.{role_at, range_end_at, range_at, entry_type_at, entry_value_at, entry_at, argument_entry_at, operation_entry_at, behind_comma_at, listed_at, argument_dict_at, declared_at, new_name_at, arg_at, next_arg_at, args_at};

use crate::fault::TextKind;
use crate::names::Names;
use crate::numbers::i128_of;
use crate::rest::Rest;
use crate::source::{Arg, WrittenType};
use crate::tokens::{Read, ReadRefusal, begins, kind_at, sign_at, word_at, wrong};
use crate::types::etype_at;
use mlir_lex::TokenKind;
use std::alloc::Global;

/// The word before the range of an argument.
const RANGE: &[u8; 10] = b"fhec.range";

/// The least and the greatest number of a range, where one is declared.
type Declared = Option<(i128, i128)>;

/// A name that is new.
#[tactic(auto, unfolding(crate::specs::Descent::new_name_at))]
pub(crate) fn new_name_at<'a>(rest: Rest<'a>, names: &Names<'a>) -> Read<'a, &'a [u8]>
    ensures exact { Gives (λ x. (x.0.now, pieces x.1)) result (new_name_at names.now (pieces rest.entry)) }
    ensures behind { IfOk result (λ x. IsBehind rest.entry x.1) }
{
    let (name, after) = kind_at(rest, TokenKind::Value)?;
    if names.contains(name) {
        return wrong(rest, TextKind::Name);
    }
    Ok((name, after))
}

/// The arguments, in brackets. Their names are defined.
#[tactic(auto, unfolding(crate::specs::Descent::args_at, crate::specs::Descent::maybe_listed_at))]
pub(crate) fn args_at<'a>(
    rest: Rest<'a>,
    names: &mut Names<'a>,
    args: &mut Vec<Arg>,
) -> Result<Rest<'a>, ReadRefusal>
    requires { HasRoom names.old rest }
    ensures exact { Gives (λ x. ((names.new, args.new.items), pieces x)) result
        (args_at (names.old, args.old.items) (pieces rest.entry)) }
    ensures room { IfOk result (λ x. HasRoom names.new x) }
    ensures behind { IfOk result (λ x. IsBehind rest.entry x) }
{
    let (_, after) = sign_at(rest, b"(")?;
    if begins(after, TokenKind::Sign, b")") {
        let (_, after) = sign_at(after, b")")?;
        return Ok(after);
    }
    let after = listed_args_at(after, names, args)?;
    let (_, after) = sign_at(after, b")")?;
    Ok(after)
}

/// One argument or more.
fn listed_args_at<'a>(
    rest: Rest<'a>,
    names: &mut Names<'a>,
    args: &mut Vec<Arg>,
) -> Result<Rest<'a>, ReadRefusal>
    requires { HasRoom names.old rest }
    ensures exact { Gives (λ x. ((names.new, args.new.items), pieces x)) result
        (listed_at next_arg_at (names.old, args.old.items) (pieces rest.entry)) }
    ensures room { IfOk result (λ x. HasRoom names.new x) }
    ensures behind { IfOk result (λ x. IsBehind rest.entry x) }
{
    let mut after = next_arg_at(rest, names, args)?;
    while begins(after, TokenKind::Sign, b",") {
        after = more_arg_at(after, names, args)?;
    }
    Ok(after)
}

/// One argument more, behind its comma.
#[tactic(auto, unfolding(crate::specs::Descent::behind_comma_at))]
fn more_arg_at<'a>(
    rest: Rest<'a>,
    names: &mut Names<'a>,
    args: &mut Vec<Arg>,
) -> Result<Rest<'a>, ReadRefusal>
    requires { HasRoom names.old rest }
    ensures exact { Gives (λ x. ((names.new, args.new.items), pieces x)) result
        (behind_comma_at next_arg_at (names.old, args.old.items) (pieces rest.entry)) }
    ensures room { IfOk result (λ x. HasRoom names.new x) }
    ensures behind { IfOk result (λ x. IsBehind rest.entry x) }
{
    let (_, after) = sign_at(rest, b",")?;
    next_arg_at(after, names, args)
}

/// One argument more.
#[tactic(auto, unfolding(crate::specs::Descent::next_arg_at))]
fn next_arg_at<'a>(
    rest: Rest<'a>,
    names: &mut Names<'a>,
    args: &mut Vec<Arg>,
) -> Result<Rest<'a>, ReadRefusal>
    requires { HasRoom names.old rest }
    ensures exact { Gives (λ x. ((names.new, args.new.items), pieces x)) result
        (next_arg_at (names.old, args.old.items) (pieces rest.entry)) }
    ensures room { IfOk result (λ x. HasRoom names.new x) }
    ensures behind { IfOk result (λ x. IsBehind rest.entry x) }
{
    let (arg, after) = arg_at(rest, names)?;
    args.push(arg)?;
    Ok(after)
}

/// An argument. Its name is defined.
#[tactic(auto, unfolding(crate::specs::Descent::arg_at, crate::specs::Descent::new_name_at))]
fn arg_at<'a>(rest: Rest<'a>, names: &mut Names<'a>) -> Read<'a, Arg>
    requires { HasRoom names.old rest }
    ensures exact { Gives (λ x. ((names.new, x.0), pieces x.1)) result (arg_at names.old (pieces rest.entry)) }
    ensures room { IfOk result (λ x. HasRoom names.new x.1) }
    ensures behind { IfOk result (λ x. IsBehind rest.entry x.1) }
{
    let (name, after) = new_name_at(rest, names)?;
    let (_, after) = sign_at(after, b":")?;
    let (width, after) = etype_at(after)?;
    let (declared, after) = declared_at(after)?;
    names.define(name)?;
    let arg = Arg {
        ty: WrittenType::Eint(width),
        declared,
    };
    Ok((arg, after))
}

/// The range of an argument, where a dict with one is written.
#[tactic(auto, unfolding(crate::specs::Descent::declared_at))]
fn declared_at(rest: Rest<'_>) -> Read<'_, Declared>
    ensures exact { Gives (λ x. (x.0, pieces x.1)) result (declared_at (pieces rest.entry)) }
    ensures behind { IfOk result (λ x. length x.1.tokens.now ≤ length rest.entry.tokens.now) }
{
    if begins(rest, TokenKind::Sign, b"{") {
        return argument_dict_at(rest);
    }
    Ok((None, rest))
}

/// The range in the dict of an argument, where one is written.
#[tactic(auto, unfolding(crate::specs::Descent::argument_dict_at, crate::specs::Descent::maybe_listed_at))]
fn argument_dict_at(rest: Rest<'_>) -> Read<'_, Declared>
    ensures exact { Gives (λ x. (x.0, pieces x.1)) result (argument_dict_at (pieces rest.entry)) }
    ensures behind { IfOk result (λ x. IsBehind rest.entry x.1) }
{
    let (_, after) = sign_at(rest, b"{")?;
    if begins(after, TokenKind::Sign, b"}") {
        let (_, after) = sign_at(after, b"}")?;
        return Ok((None, after));
    }
    let (declared, after) = argument_entries_at(after)?;
    let (_, after) = sign_at(after, b"}")?;
    Ok((declared, after))
}

/// One entry or more of an argument's dict.
fn argument_entries_at(rest: Rest<'_>) -> Read<'_, Declared>
    ensures exact { Gives (λ x. (x.0, pieces x.1)) result (listed_at argument_entry_at None (pieces rest.entry)) }
    ensures behind { IfOk result (λ x. IsBehind rest.entry x.1) }
{
    let (mut declared, mut after) = argument_entry_at(rest, None)?;
    while begins(after, TokenKind::Sign, b",") {
        (declared, after) = more_argument_entry_at(after, declared)?;
    }
    Ok((declared, after))
}

/// One entry more, behind its comma.
#[tactic(auto, unfolding(crate::specs::Descent::behind_comma_at))]
fn more_argument_entry_at(rest: Rest<'_>, declared: Declared) -> Read<'_, Declared>
    ensures exact { Gives (λ x. (x.0, pieces x.1)) result
        (behind_comma_at argument_entry_at declared (pieces rest.entry)) }
    ensures behind { IfOk result (λ x. IsBehind rest.entry x.1) }
{
    let (_, after) = sign_at(rest, b",")?;
    argument_entry_at(after, declared)
}

/// An entry or the range of an argument's dict, with the range so far.
#[tactic(auto, unfolding(crate::specs::Descent::argument_entry_at))]
fn argument_entry_at(rest: Rest<'_>, declared: Declared) -> Read<'_, Declared>
    ensures exact { Gives (λ x. (x.0, pieces x.1)) result (argument_entry_at declared (pieces rest.entry)) }
    ensures behind { IfOk result (λ x. IsBehind rest.entry x.1) }
{
    if begins(rest, TokenKind::Word, RANGE) {
        if declared.is_some() {
            return wrong(rest, TextKind::Syntax);
        }
        let (range, after) = range_at(rest)?;
        return Ok((Some(range), after));
    }
    let after = argument_other_at(rest)?;
    Ok((declared, after))
}

/// `fhec.range = [low, high]`.
#[tactic(auto, unfolding(crate::specs::Descent::range_at))]
fn range_at(rest: Rest<'_>) -> Read<'_, (i128, i128)>
    ensures exact { Gives (λ x. (x.0, pieces x.1)) result (range_at (pieces rest.entry)) }
    ensures behind { IfOk result (λ x. IsBehind rest.entry x.1) }
{
    let (_, after) = range_word_at(rest)?;
    let (_, after) = sign_at(after, b"=")?;
    let (_, after) = sign_at(after, b"[")?;
    let (low, after) = range_end_at(after)?;
    let (_, after) = sign_at(after, b",")?;
    let (high, after) = range_end_at(after)?;
    let (_, after) = sign_at(after, b"]")?;
    Ok(((low, high), after))
}

/// The word `fhec.range`.
#[tactic(auto, unfolding(crate::specs::Descent::role_at))]
fn range_word_at(rest: Rest<'_>) -> Read<'_, &[u8]>
    ensures exact { Gives (λ x. (x.0.now, pieces x.1)) result (role_at range_word (pieces rest.entry)) }
    ensures behind { IfOk result (λ x. IsBehind rest.entry x.1) }
{
    word_at(rest, RANGE)
}

/// An end of a range.
#[tactic(auto, unfolding(crate::specs::Descent::range_end_at))]
fn range_end_at(rest: Rest<'_>) -> Read<'_, i128>
    ensures exact { Gives (λ x. (x.0, pieces x.1)) result (range_end_at (pieces rest.entry)) }
    ensures behind { IfOk result (λ x. IsBehind rest.entry x.1) }
{
    let (text, after) = kind_at(rest, TokenKind::Int)?;
    match i128_of(text) {
        Some(end) => Ok((end, after)),
        None => wrong(rest, TextKind::Constant),
    }
}

/// An entry of an argument's dict that is no range. It is read and ignored.
#[tactic(auto, unfolding(crate::specs::Descent::entry_at, crate::specs::Descent::role_at))]
fn argument_other_at(rest: Rest<'_>) -> Result<Rest<'_>, ReadRefusal>
    ensures exact { Gives (λ x. (tt, pieces x)) result (entry_at argument_entry (pieces rest.entry)) }
    ensures behind { IfOk result (λ x. IsBehind rest.entry x) }
{
    let (name, after) = kind_at(rest, TokenKind::Word)?;
    if name == RANGE.as_slice() {
        return wrong(rest, TextKind::Syntax);
    }
    entry_value_at(after)
}

/// An entry of an operation's dict. It is read and ignored.
#[tactic(auto, unfolding(crate::specs::Descent::operation_entry_at, crate::specs::Descent::entry_at, crate::specs::Descent::role_at))]
pub(crate) fn operation_entry_at(rest: Rest<'_>) -> Result<Rest<'_>, ReadRefusal>
    ensures exact { Gives (λ x. (tt, pieces x)) result (operation_entry_at tt (pieces rest.entry)) }
    ensures behind { IfOk result (λ x. IsBehind rest.entry x) }
{
    let (_, after) = kind_at(rest, TokenKind::Word)?;
    entry_value_at(after)
}

/// The value of an entry, behind its name.
#[tactic(auto, unfolding(crate::specs::Descent::entry_value_at, crate::specs::Descent::role_at))]
fn entry_value_at(rest: Rest<'_>) -> Result<Rest<'_>, ReadRefusal>
    ensures exact { Gives (λ x. (tt, pieces x)) result (entry_value_at (pieces rest.entry)) }
    ensures behind { IfOk result (λ x. IsBehind rest.entry x) }
{
    let (_, after) = sign_at(rest, b"=")?;
    let (_, after) = kind_at(after, TokenKind::Int)?;
    entry_type_at(after)
}

/// The type of an entry, where one is written.
#[tactic(auto, unfolding(crate::specs::Descent::entry_type_at, crate::specs::Descent::role_at))]
fn entry_type_at(rest: Rest<'_>) -> Result<Rest<'_>, ReadRefusal>
    ensures exact { Gives (λ x. (tt, pieces x)) result (entry_type_at (pieces rest.entry)) }
    ensures behind { IfOk result (λ x. length x.tokens.now ≤ length rest.entry.tokens.now) }
{
    if !begins(rest, TokenKind::Sign, b":") {
        return Ok(rest);
    }
    let (_, after) = sign_at(rest, b":")?;
    let (_, after) = kind_at(after, TokenKind::Word)?;
    Ok(after)
}
