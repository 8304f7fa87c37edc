//! Lines as operations, where their numbers fit the fields of an operation.

ghost use Rattle.std.specs.Prelude.{◌≡◌, map, Ok, IsTrue, unsigned_abs};
ghost use Rattle.std.specs.List.{list_all};
ghost use Rattle.refusals.specs.Reading.{Gives};
ghost use Rattle.circuit_nodes.specs.Lines.{op_of, is_numbered};
ghost use Rattle.circuit_nodes.specs.Fitting.{is_place, is_narrow, is_narrow_term, fits};

use circuit_lines::{Line, LineRefusal};
use std::alloc::Global;
use tfhe_level::{List, TfheOp};

/// Whether 32 bits hold a number.
fn is_place(number: i128) -> bool
    ensures { result ≡ is_place number }
{
    0 <= number && number < 1 << 32
}

/// Whether 64 bits with a sign hold a number.
fn is_narrow(number: i128) -> bool
    ensures { result ≡ is_narrow number }
{
    -(1 << 63) <= number && number < 1 << 63
}

fn are_narrow(numbers: &[i128]) -> bool
    ensures { result ≡ list_all is_narrow numbers.now }
{
    numbers.iter().all(|number| is_narrow(*number))
}

fn is_narrow_term(term: (i128, i128)) -> bool
    ensures { result ≡ is_narrow_term term }
{
    is_place(term.0) && is_narrow(term.1)
}

fn are_narrow_terms(terms: &[(i128, i128)]) -> bool
    ensures { result ≡ list_all is_narrow_term terms.now }
{
    terms.iter().all(|term| is_narrow_term(*term))
}

/// Whether the fields of an operation hold all numbers of a line but its own.
pub(crate) fn fits(line: &Line) -> bool
    ensures { result ≡ fits line.now }
{
    match line {
        Line::Input { lo, hi, .. } => is_narrow(*lo) && is_narrow(*hi),
        Line::Lin {
            constant,
            terms,
            ..
        } => is_narrow(*constant) && are_narrow_terms(terms.as_slice()),
        Line::Switch { source, .. } => is_place(*source),
        Line::Boot {
            source,
            entries,
            ..
        } => is_place(*source) && are_narrow(entries.as_slice()),
        Line::Out { source, lo, hi } => is_place(*source) && is_narrow(*lo) && is_narrow(*hi),
    }
}

/// Whether a line has the number of its node.
pub(crate) fn is_numbered(place: u32, line: &Line) -> bool
    ensures { result ≡ is_numbered place line.now }
{
    match line {
        Line::Input { number, .. }
        | Line::Lin { number, .. }
        | Line::Switch { number, .. }
        | Line::Boot { number, .. } => *number == i128::from(place),
        Line::Out { .. } => true,
    }
}

/// A term as the number of its operand and its weight.
fn term_of(term: (i128, i128)) -> (u32, i64)
    requires { IsTrue (is_narrow_term term) }
    ensures { result ≡ (unsigned_abs term.0, term.1) }
{
    (term.0 as u32, term.1 as i64)
}

fn terms_of(alloc: Global, terms: &[(i128, i128)]) -> Result<Vec<(u32, i64)>, LineRefusal>
    requires { IsTrue (list_all is_narrow_term terms.now) }
    ensures { Gives (λ made. made.items) result (Ok (map (λ t. (unsigned_abs t.0, t.1)) terms.now)) }
{
    let mut made = Vec::with_capacity(alloc, terms.len())?;
    for term in terms {
        made.push(term_of(*term))?;
    }
    Ok(made)
}

fn entries_of(alloc: Global, entries: &[i128]) -> Result<Vec<i64>, LineRefusal>
    requires { IsTrue (list_all is_narrow entries.now) }
    ensures { Gives (λ made. made.items) result (Ok entries.now) }
{
    let mut made = Vec::with_capacity(alloc, entries.len())?;
    for entry in entries {
        made.push(*entry as i64)?;
    }
    Ok(made)
}

/// The operation of a line. It fails only for memory.
pub(crate) fn op_of(alloc: Global, line: &Line) -> Result<TfheOp, LineRefusal>
    requires { IsTrue (fits line.now) }
    ensures { Gives (λ op. op) result (Ok (op_of line.now)) }
{
    let op = match line {
        Line::Input { lo, hi, .. } => TfheOp::Input {
            lo: *lo as i64,
            hi: *hi as i64,
        },
        Line::Lin {
            constant,
            terms,
            ..
        } => TfheOp::Lin {
            constant: *constant as i64,
            terms: List::from_vec(terms_of(alloc, terms.as_slice())?),
        },
        Line::Switch { source, .. } => TfheOp::Switch {
            source: *source as u32,
        },
        Line::Boot {
            source,
            entries,
            ..
        } => TfheOp::Boot {
            source: *source as u32,
            entries: List::from_vec(entries_of(alloc, entries.as_slice())?),
        },
        Line::Out { source, lo, hi } => TfheOp::Out {
            source: *source as u32,
            lo: *lo as i64,
            hi: *hi as i64,
        },
    };
    Ok(op)
}
