//! How much a source may have.

ghost use Rattle.std.specs.Prelude.{◌≡◌, count_by};
ghost use Rattle.std.specs.Option.{option_or};
ghost use Rattle.fhe_level.specs.Limits.{over, width_of, widest, widest_arg, statement_width, widest_statement, source_width, is_look_up, limit_fault};

use crate::fault::{LimitFault, LimitName};
use fhe_text::{Arg, OpName, Source, Statement, WrittenType};
use forms::limits::{MOST_INPUTS, MOST_OUTS, MOST_WIDTH};

/// The most statements of a program.
pub const MOST_OPERATIONS: usize = 4096;

/// The most look-ups.
pub const MOST_LOOKUPS: usize = 1024;

/// The fault of a count that is above its limit.
fn over(what: LimitName, count: usize, most: usize) -> Option<LimitFault>
    ensures { result ≡ over what count most }
{
    if count > most {
        Some(LimitFault {
            what,
            count: count as u128,
            most: most as u128,
        })
    } else {
        None
    }
}

/// The width of an encrypted type, and 0 for every other type.
pub(crate) fn width_of(ty: WrittenType) -> u32
    ensures { result ≡ width_of ty }
{
    match ty {
        WrittenType::Eint(width) => width,
        WrittenType::Int(_) | WrittenType::Tensor { .. } => 0,
    }
}

/// The greatest width of these types.
fn widest(types: &[WrittenType]) -> u32
    ensures { result ≡ widest types.now }
{
    types.iter().fold(0, |most, ty| most.max(width_of(*ty)))
}

/// The greatest width that is written for these arguments.
fn widest_arg(args: &[Arg]) -> u32
    ensures { result ≡ widest_arg args.now }
{
    args.iter().fold(0, |most, arg| most.max(width_of(arg.ty)))
}

/// The greatest width that is written in a statement.
fn statement_width(statement: &Statement) -> u32
    ensures { result ≡ statement_width statement.now }
{
    match statement {
        Statement::Op { types, result, .. } => widest(types.as_slice()).max(width_of(*result)),
        Statement::Int { .. } | Statement::Dense { .. } => 0,
    }
}

/// The greatest width that is written in these statements.
fn widest_statement(body: &[Statement]) -> u32
    ensures { result ≡ widest_statement body.now }
{
    body.iter()
        .fold(0, |most, statement| most.max(statement_width(statement)))
}

/// The greatest width that is written in a source.
fn source_width(source: &Source) -> u32
    ensures { result ≡ source_width source.now }
{
    widest_arg(source.args.as_slice())
        .max(widest(source.results.as_slice()))
        .max(widest_statement(source.body.as_slice()))
        .max(widest(source.returned_types.as_slice()))
}

/// Whether a statement is a look-up.
fn is_look_up(statement: &Statement) -> bool
    ensures { result ≡ is_look_up statement.now }
{
    matches!(
        statement,
        Statement::Op {
            name: OpName::ApplyLookupTable,
            ..
        }
    )
}

/// How many look-ups there are.
fn look_ups(body: &[Statement]) -> usize
    ensures { result ≡ count_by is_look_up body.now }
{
    body.iter()
        .filter(|statement| is_look_up(statement))
        .count()
}

/// The first count of a source that is above its limit: of statements, of arguments, of results, of look-ups, and the
/// greatest width of an encrypted type.
pub fn check_limits(source: &Source) -> Option<LimitFault>
    ensures { result ≡ limit_fault source.now }
{
    over(LimitName::Operations, source.body.len(), MOST_OPERATIONS)
        .or(over(LimitName::Arguments, source.args.len(), MOST_INPUTS))
        .or(over(LimitName::Results, source.results.len(), MOST_OUTS))
        .or(over(
            LimitName::Lookups,
            look_ups(source.body.as_slice()),
            MOST_LOOKUPS,
        ))
        .or(over(
            LimitName::Width,
            source_width(source) as usize,
            MOST_WIDTH as usize,
        ))
}
