//! Reading a program from its text.

ghost use Rattle.std.specs.Prelude.{◌≡◌, ◌+◌, ◌<◌, ◌≤◌, ◌^◌, ◌==◌, not, length, count_by, codes, IfOk, IfSome, [], All, map};
ghost use Rattle.std.specs.List.{suffix_len};
ghost use Rattle.refusals.specs.Reading.{Gives};
ghost use Rattle.mlir_lex.specs.Pieces.{IsSpelled};
ghost use Rattle.mlir_lex.specs.Tokens.{IsWithin};
ghost use Rattle.fhe_text.specs.Faults.{fault_at, spelled};
ghost use Rattle.fhe_text.specs.Reading.{end_fault, wrong_fault, program_of};
ghost use Rattle.fhe_text.specs.Rest.{pieces, IsBehind, HasRoom};
ghost use Rattle.fhe_text.specs.Roles.{word, function_name};
ghost use Rattle.fhe_text.specs.Spellable.{IsSpellable};
ghost use Rattle.fhe_text.specs.Descent.{computed_at, statement_at, next_statement_at, statements_at, return_word_at, return_at, func_at, module_at, unit_at, source_at, role_at, body_at, finished};

use crate::args::{args_at, new_name_at};
use crate::constants::constant_at;
use crate::fault::{TextFault, TextKind, TextRefusal, Wrong};
use crate::laws::laws;
use crate::names::Names;
use crate::operations::{applied_at, values_at};
use crate::rest::Rest;
use crate::source::{Source, Statement, WrittenType};
use crate::tokens::{Read, ReadRefusal, begins, begins_value, kind_at, sign_at, word_at, wrong};
use crate::types::{result_types_at, types_at};
use lists::List;
use mlir_lex::{LexFault, Token, TokenKind, lex};
use refusals::Refusal;
use std::alloc::Global;

/// The program that a text spells.
///
/// A fault is at the first token with which the tokens so far begin no program; where there is none, at the byte at
/// which no token starts, and else at the end. One pass over the tokens, and memory in proportion to the bytes.
pub fn read_program(alloc: Global, bytes: &[u8]) -> Result<Source, TextRefusal>
    requires { length bytes.now ≤ 2 ^ 20 }
    ensures exact { Gives (λ source. source) result (program_of bytes.now) }
    ensures rules { IfOk result IsSpellable }
{
    laws();
    read_text(alloc, bytes)
}

/// The program that a text spells.
fn read_text(alloc: Global, bytes: &[u8]) -> Result<Source, TextRefusal>
    requires { length bytes.now ≤ 2 ^ 20 }
    ensures { Gives (λ source. source) result (program_of bytes.now) }
{
    let tokens = lex(alloc, bytes)?;
    mlir_lex::laws::laws();
    finished(alloc, bytes, tokens.list.as_slice(), tokens.stop)
}

/// The source of the tokens where they reach the end of the bytes, and else the fault at its place.
fn finished(
    alloc: Global,
    bytes: &[u8],
    tokens: &[Token],
    stop: Option<LexFault>,
) -> Result<Source, TextRefusal>
    requires few { length bytes.now ≤ 2 ^ 20 }
    requires room { length tokens.now < 2 ^ 32 }
    requires stop_within { IfSome stop (λ s. s.at ≤ length bytes.now) }
    requires within { All (IsWithin bytes.now) tokens.now }
    requires spelled { All (IsSpelled bytes.now) tokens.now }
    ensures { Gives (λ source. source) result
        (finished bytes.now tokens.now stop (source_at (map (spelled bytes.now) tokens.now))) }
{
    match source_at(alloc, Rest { bytes, tokens }) {
        Ok(source) => match stop {
            None => Ok(source),
            Some(_) => Err(Refusal::Fault(end_fault(bytes, stop))),
        },
        Err(Refusal::Fault(wrong)) => Err(Refusal::Fault(placed(bytes, tokens, stop, wrong))),
        Err(Refusal::Memory) => Err(Refusal::Memory),
    }
}

/// The place of what is wrong.
fn placed(bytes: &[u8], tokens: &[Token], stop: Option<LexFault>, wrong: Wrong) -> TextFault
    requires few { length bytes.now ≤ 2 ^ 20 }
    requires stop_within { IfSome stop (λ s. s.at ≤ length bytes.now) }
    requires within { All (IsWithin bytes.now) tokens.now }
    requires left { wrong.left ≤ length tokens.now }
    ensures { result ≡ wrong_fault bytes.now tokens.now stop wrong }
{
    if wrong.left == 0 {
        return end_fault(bytes, stop);
    }
    let token = tokens[tokens.len() - wrong.left];
    fault_at(bytes, token.start as usize, wrong.kind)
}

/// The fault where the tokens end: at the stop, or at the end of the bytes.
fn end_fault(bytes: &[u8], stop: Option<LexFault>) -> TextFault
    requires few { length bytes.now ≤ 2 ^ 20 }
    requires within { IfSome stop (λ s. s.at ≤ length bytes.now) }
    ensures { result ≡ end_fault bytes.now stop }
{
    match stop {
        Some(stop) => fault_at(bytes, stop.at as usize, TextKind::Token),
        None => fault_at(bytes, bytes.len(), TextKind::End),
    }
}

/// The fault of the kind at the place.
fn fault_at(bytes: &[u8], place: usize, kind: TextKind) -> TextFault
    requires few { length bytes.now ≤ 2 ^ 20 }
    requires within { place ≤ length bytes.now }
    ensures { result ≡ fault_at bytes.now place kind }
{
    let before = &bytes[..place];
    let line = line_feeds(before) + 1;
    let column = bytes_behind_line_feed(before) + 1;
    TextFault {
        line: line as u32,
        column: column as u32,
        kind,
    }
}

/// How many line feeds there are.
#[tactic(auto, using(crate::proofs::Places::count_filtered))]
fn line_feeds(bytes: &[u8]) -> usize
    ensures value { result ≡ count_by (λ b. b == 10) bytes.now }
    ensures within { result ≤ length bytes.now }
{
    bytes.iter().filter(|byte| **byte == b'\n').count()
}

/// How many bytes stand behind the last line feed.
fn bytes_behind_line_feed(bytes: &[u8]) -> usize
    ensures value { result ≡ suffix_len (λ b. not (b == 10)) bytes.now }
    ensures within { result ≤ length bytes.now }
{
    bytes
        .iter()
        .rev()
        .take_while(|byte| **byte != b'\n')
        .count()
}

/// The source of all of the tokens.
#[tactic(auto, unfolding(crate::specs::Descent::source_at))]
fn source_at(alloc: Global, rest: Rest<'_>) -> Result<Source, ReadRefusal>
    requires { HasRoom [] rest }
    ensures { Gives (λ source. source) result (source_at (pieces rest.entry)) }
{
    let (source, after) = unit_at(alloc, rest)?;
    if !after.tokens.is_empty() {
        return wrong(after, TextKind::Syntax);
    }
    Ok(source)
}

/// The function, alone or in a module.
#[tactic(auto, unfolding(crate::specs::Descent::unit_at))]
fn unit_at(alloc: Global, rest: Rest<'_>) -> Read<'_, Source>
    requires { HasRoom [] rest }
    ensures { Gives (λ x. (x.0, pieces x.1)) result (unit_at (pieces rest.entry)) }
{
    if begins(rest, TokenKind::Word, b"module") {
        return module_at(alloc, rest);
    }
    func_at(alloc, rest)
}

/// The function, in a module.
#[tactic(auto, unfolding(crate::specs::Descent::module_at))]
fn module_at(alloc: Global, rest: Rest<'_>) -> Read<'_, Source>
    requires { HasRoom [] rest }
    ensures { Gives (λ x. (x.0, pieces x.1)) result (module_at (pieces rest.entry)) }
{
    let (_, after) = word_at(rest, b"module")?;
    let (_, after) = sign_at(after, b"{")?;
    let (source, after) = func_at(alloc, after)?;
    let (_, after) = sign_at(after, b"}")?;
    Ok((source, after))
}

/// The function.
#[tactic(auto, unfolding(crate::specs::Descent::func_at))]
fn func_at(alloc: Global, rest: Rest<'_>) -> Read<'_, Source>
    requires { HasRoom [] rest }
    ensures { Gives (λ x. (x.0, pieces x.1)) result (func_at (pieces rest.entry)) }
{
    let mut names = Names::new(alloc);
    let mut args = Vec::new(alloc);
    let (_, after) = func_word_at(rest)?;
    let (_, after) = symbol_at(after)?;
    let after = args_at(after, &mut names, &mut args)?;
    let (_, after) = sign_at(after, b"->")?;
    let (results, after) = result_types_at(alloc, after)?;
    let (body, last, after) = body_at(alloc, after, &mut names)?;
    let source = Source {
        args: List::from_vec(args),
        results: List::from_vec(results),
        body: List::from_vec(body),
        returned: List::from_vec(last.values),
        returned_types: List::from_vec(last.types),
    };
    Ok((source, after))
}

/// The word `func.func`.
#[tactic(auto, unfolding(crate::specs::Descent::role_at))]
fn func_word_at(rest: Rest<'_>) -> Read<'_, &[u8]>
    ensures exact { Gives (λ x. (x.0.now, pieces x.1)) result (role_at (word (codes "func.func")) (pieces rest.entry)) }
    ensures behind { IfOk result (λ x. IsBehind rest.entry x.1) }
{
    word_at(rest, b"func.func")
}

/// The name of the function.
#[tactic(auto, unfolding(crate::specs::Descent::role_at))]
fn symbol_at(rest: Rest<'_>) -> Read<'_, &[u8]>
    ensures exact { Gives (λ x. (x.0.now, pieces x.1)) result (role_at function_name (pieces rest.entry)) }
    ensures behind { IfOk result (λ x. IsBehind rest.entry x.1) }
{
    kind_at(rest, TokenKind::Symbol)
}

/// The values that are returned, by number, and the types that are written for them.
#[derive(Drop)]
struct Return {
    values: Vec<u32>,
    types: Vec<WrittenType>,
}

/// The body: the statements and the return, in braces.
#[tactic(auto, unfolding(crate::specs::Descent::body_at))]
fn body_at<'a>(
    alloc: Global,
    rest: Rest<'a>,
    names: &mut Names<'a>,
) -> Result<(Vec<Statement>, Return, Rest<'a>), ReadRefusal>
    requires { HasRoom names.old rest }
    ensures { Gives (λ x. ((x.0.items, (x.1.values.items, x.1.types.items)), pieces x.2)) result
        (body_at names.old (pieces rest.entry)) }
{
    let mut body = Vec::new(alloc);
    let (_, after) = sign_at(rest, b"{")?;
    let after = statements_at(alloc, after, names, &mut body)?;
    let (last, after) = return_at(alloc, after, names)?;
    let (_, after) = sign_at(after, b"}")?;
    Ok((body, last, after))
}

/// The statements, as many as stand there. Their names are defined.
fn statements_at<'a>(
    alloc: Global,
    rest: Rest<'a>,
    names: &mut Names<'a>,
    body: &mut Vec<Statement>,
) -> Result<Rest<'a>, ReadRefusal>
    requires { HasRoom names.old rest }
    ensures exact { Gives (λ x. ((names.new, body.new.items), pieces x)) result
        (statements_at (names.old, body.old.items) (pieces rest.entry)) }
    ensures room { IfOk result (λ x. HasRoom names.new x) }
{
    let mut after = rest;
    while begins_value(after) {
        after = next_statement_at(alloc, after, names, body)?;
    }
    Ok(after)
}

/// One statement more.
#[tactic(auto, unfolding(crate::specs::Descent::next_statement_at))]
fn next_statement_at<'a>(
    alloc: Global,
    rest: Rest<'a>,
    names: &mut Names<'a>,
    body: &mut Vec<Statement>,
) -> Result<Rest<'a>, ReadRefusal>
    requires { HasRoom names.old rest }
    ensures exact { Gives (λ x. ((names.new, body.new.items), pieces x)) result
        (next_statement_at (names.old, body.old.items) (pieces rest.entry)) }
    ensures room { IfOk result (λ x. HasRoom names.new x) }
    ensures behind { IfOk result (λ x. IsBehind rest.entry x) }
{
    let (statement, after) = statement_at(alloc, rest, names)?;
    body.push(statement)?;
    Ok(after)
}

/// A statement. Its name is defined behind it.
#[tactic(auto, unfolding(crate::specs::Descent::statement_at, crate::specs::Descent::new_name_at))]
fn statement_at<'a>(alloc: Global, rest: Rest<'a>, names: &mut Names<'a>) -> Read<'a, Statement>
    requires { HasRoom names.old rest }
    ensures exact { Gives (λ x. ((names.new, x.0), pieces x.1)) result (statement_at names.old (pieces rest.entry)) }
    ensures room { IfOk result (λ x. HasRoom names.new x.1) }
    ensures behind { IfOk result (λ x. IsBehind rest.entry x.1) }
{
    let (name, after) = new_name_at(rest, names)?;
    let (_, after) = sign_at(after, b"=")?;
    let (statement, after) = computed_at(alloc, after, names)?;
    names.define(name)?;
    Ok((statement, after))
}

/// A constant or an operation.
#[tactic(auto, unfolding(crate::specs::Descent::computed_at))]
fn computed_at<'a>(alloc: Global, rest: Rest<'a>, names: &Names<'a>) -> Read<'a, Statement>
    requires { HasRoom names.now rest }
    ensures exact { Gives (λ x. (x.0, pieces x.1)) result (computed_at names.now (pieces rest.entry)) }
    ensures behind { IfOk result (λ x. IsBehind rest.entry x.1) }
{
    if begins(rest, TokenKind::Word, b"arith.constant") {
        return constant_at(alloc, rest);
    }
    applied_at(alloc, rest, names)
}

/// The values that are returned, and their types.
#[tactic(auto, unfolding(crate::specs::Descent::return_at))]
fn return_at<'a>(alloc: Global, rest: Rest<'a>, names: &Names<'a>) -> Read<'a, Return>
    requires { HasRoom names.now rest }
    ensures exact { Gives (λ x. ((x.0.values.items, x.0.types.items), pieces x.1)) result
        (return_at names.now (pieces rest.entry)) }
    ensures behind { IfOk result (λ x. IsBehind rest.entry x.1) }
{
    let (_, after) = return_word_at(rest, names)?;
    let (values, after) = values_at(alloc, after, names)?;
    let (_, after) = sign_at(after, b":")?;
    let (types, after) = types_at(alloc, after)?;
    Ok((Return { values, types }, after))
}

/// The word of a return, where a value is defined.
#[tactic(auto, unfolding(crate::specs::Descent::return_word_at, crate::specs::Descent::role_at))]
fn return_word_at<'a>(rest: Rest<'a>, names: &Names<'a>) -> Read<'a, &'a [u8]>
    ensures exact { Gives (λ x. (x.0.now, pieces x.1)) result (return_word_at names.now (pieces rest.entry)) }
    ensures behind { IfOk result (λ x. IsBehind rest.entry x.1) }
{
    let (text, after) = kind_at(rest, TokenKind::Word)?;
    if text != b"return".as_slice() && text != b"func.return".as_slice() {
        return wrong(rest, TextKind::Syntax);
    }
    if names.len() == 0 {
        return wrong(rest, TextKind::Syntax);
    }
    Ok((text, after))
}
