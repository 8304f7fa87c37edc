//! The lines of nodes and outs, and the end of the text.

ghost use Rattle.std.specs.Prelude.{◌+◌, ◌<◌, ◌^◌, length};
ghost use Rattle.refusals.specs.Reading.{Gives};
ghost use Rattle.circuit_lines.specs.Numbers.{begins};
ghost use Rattle.circuit_lines.specs.Reading.{term_at, terms_at, entries_at, input_at, lin_at, switch_at, boot_at, form_at, node_line_at, out_line_at, end_at};

use crate::fault::{LineRefusal, Misspelled};
use crate::head::last_field_at;
use crate::line::Line;
use crate::numbers::{Read, field_at, literal_at, misspelled, number_at};
use lists::List;
use refusals::{Refusal, unless};
use std::alloc::Global;

#[tactic(auto, unfolding(crate::specs::Reading::input_at))]
fn input_at(line: u32, number: i128, bytes: &[u8]) -> Read<'_, Line>
    ensures { Gives (λ x. (x.0, x.1.now)) result (input_at line number bytes.now) }
{
    let (lo, rest) = number_at(line, bytes)?;
    let (hi, rest) = last_field_at(line, rest, b" ")?;
    Ok((Line::Input { number, lo, hi }, rest))
}

/// A term, as the number of its operand and its weight.
#[tactic(auto, unfolding(crate::specs::Reading::term_at))]
fn term_at(line: u32, bytes: &[u8]) -> Read<'_, (i128, i128)>
    ensures { Gives (λ x. (x.0, x.1.now)) result (term_at line bytes.now) }
{
    let (weight, rest) = field_at(line, bytes, b" ")?;
    let (operand, rest) = field_at(line, rest, b" %")?;
    Ok(((operand, weight), rest))
}

/// The terms at the front, as many as stand there.
fn terms_at(alloc: Global, line: u32, bytes: &[u8]) -> Read<'_, Vec<(i128, i128)>>
    ensures { Gives (λ x. (x.0.items, x.1.now)) result (terms_at line bytes.now) }
{
    let mut terms = Vec::new(alloc);
    let mut rest = bytes;
    for _ in 0..bytes.len() {
        match term_at(line, rest) {
            Ok((term, after)) => {
                terms.push(term)?;
                rest = after;
            }
            Err(Refusal::Fault(_)) => break,
            Err(Refusal::Memory) => return Err(Refusal::Memory),
        }
    }
    Ok((terms, rest))
}

#[tactic(auto, unfolding(crate::specs::Reading::lin_at))]
fn lin_at(alloc: Global, line: u32, number: i128, bytes: &[u8]) -> Read<'_, Line>
    ensures { Gives (λ x. (x.0, x.1.now)) result (lin_at line number bytes.now) }
{
    let (constant, rest) = number_at(line, bytes)?;
    let (terms, rest) = terms_at(alloc, line, rest)?;
    let rest = literal_at(line, rest, b"\n")?;
    let lin = Line::Lin {
        number,
        constant,
        terms: List::from_vec(terms),
    };
    Ok((lin, rest))
}

#[tactic(auto, unfolding(crate::specs::Reading::switch_at))]
fn switch_at(line: u32, number: i128, bytes: &[u8]) -> Read<'_, Line>
    ensures { Gives (λ x. (x.0, x.1.now)) result (switch_at line number bytes.now) }
{
    let (source, rest) = number_at(line, bytes)?;
    let rest = literal_at(line, rest, b"\n")?;
    Ok((Line::Switch { number, source }, rest))
}

/// The entries at the front, as many as stand there.
fn entries_at(alloc: Global, line: u32, bytes: &[u8]) -> Read<'_, Vec<i128>>
    ensures { Gives (λ x. (x.0.items, x.1.now)) result (entries_at line bytes.now) }
{
    let mut entries = Vec::new(alloc);
    let mut rest = bytes;
    for _ in 0..bytes.len() {
        match field_at(line, rest, b" ") {
            Ok((entry, after)) => {
                entries.push(entry)?;
                rest = after;
            }
            Err(Refusal::Fault(_)) => break,
            Err(Refusal::Memory) => return Err(Refusal::Memory),
        }
    }
    Ok((entries, rest))
}

#[tactic(auto, unfolding(crate::specs::Reading::boot_at))]
fn boot_at(alloc: Global, line: u32, number: i128, bytes: &[u8]) -> Read<'_, Line>
    ensures { Gives (λ x. (x.0, x.1.now)) result (boot_at line number bytes.now) }
{
    let (source, rest) = number_at(line, bytes)?;
    let (entries, rest) = entries_at(alloc, line, rest)?;
    unless(!entries.is_empty(), Misspelled { line })?;
    let rest = literal_at(line, rest, b"\n")?;
    let boot = Line::Boot {
        number,
        source,
        entries: List::from_vec(entries),
    };
    Ok((boot, rest))
}

/// What stands behind the number of a node, up to the end of the line.
#[tactic(auto, unfolding(crate::specs::Reading::form_at))]
fn form_at(alloc: Global, line: u32, number: i128, bytes: &[u8]) -> Read<'_, Line>
    ensures { Gives (λ x. (x.0, x.1.now)) result (form_at line number bytes.now) }
{
    if let Some(rest) = bytes.strip_prefix(b"input ") {
        return input_at(line, number, rest);
    }
    if let Some(rest) = bytes.strip_prefix(b"lin ") {
        return lin_at(alloc, line, number, rest);
    }
    if let Some(rest) = bytes.strip_prefix(b"switch %") {
        return switch_at(line, number, rest);
    }
    match bytes.strip_prefix(b"boot %") {
        Some(rest) => boot_at(alloc, line, number, rest),
        None => misspelled(line),
    }
}

/// Reads the line of a node, the one with this number counted from 1, and answers the bytes after it. A fault means
/// that none stands there.
#[tactic(auto, unfolding(crate::specs::Reading::node_line_at))]
pub fn read_node(alloc: Global, line: u32, bytes: &[u8]) -> Read<'_, Line>
    ensures { Gives (λ x. (x.0, x.1.now)) result (node_line_at line bytes.now) }
{
    let (number, rest) = field_at(line, bytes, b"%")?;
    let rest = literal_at(line, rest, b" = ")?;
    form_at(alloc, line, number, rest)
}

/// Reads the line of an out, and answers the bytes after it. A fault means that none stands there.
#[tactic(auto, unfolding(crate::specs::Reading::out_line_at))]
pub fn read_out(line: u32, bytes: &[u8]) -> Read<'_, Line>
    ensures { Gives (λ x. (x.0, x.1.now)) result (out_line_at line bytes.now) }
{
    let (source, rest) = field_at(line, bytes, b"out %")?;
    let (lo, rest) = field_at(line, rest, b" ")?;
    let (hi, rest) = last_field_at(line, rest, b" ")?;
    Ok((Line::Out { source, lo, hi }, rest))
}

/// Reads the line `end`, after which nothing stands.
#[tactic(auto, unfolding(crate::specs::Reading::end_at))]
pub fn read_end(line: u32, bytes: &[u8]) -> Result<(), LineRefusal>
    requires { line + 1 < 2 ^ 32 }
    ensures { Gives (λ x. x) result (end_at line bytes.now) }
{
    let rest = literal_at(line, bytes, b"end\n")?;
    unless(rest.is_empty(), Misspelled { line: line + 1 })
}
