//! Going over all lines of a text once.

ghost use Rattle.std.specs.Prelude.{◌≡◌, ◌≤◌, ◌<◌, ◌+◌, ◌^◌, length, Ok, OnOk, IfOk};
ghost use Rattle.refusals.specs.Reading.{Gives};
ghost use Rattle.circuit_lines.specs.Reading.{head_at, end_at};
ghost use Rattle.circuit_nodes.specs.Walk.{walk_from};
ghost use Rattle.circuit_file.specs.Faults.{refusal_of, as_spelling};
ghost use Rattle.circuit_file.specs.Limits.{circuit_limit};
ghost use Rattle.circuit_file.specs.Walks.{line_at, walked, walked_text};

use crate::fault::{CircuitFault, CircuitKind, CircuitRefusal};
use circuit_lines::{Head, Line, LineRefusal, read_end, read_head, read_node, read_out};
use circuit_nodes::LineWalk;
use refusals::Refusal;
use std::alloc::Global;

/// The line of the first node.
pub(crate) const FIRST_NODE: u32 = 7;

/// What is known after all lines of a text: the numbers of the first ones, the walk over those of nodes and outs, and how
/// many there are of both.
#[derive(Drop)]
pub(crate) struct WalkedLines {
    pub(crate) head: Head,
    pub(crate) walk: LineWalk,
    pub(crate) nodes: u32,
    pub(crate) outs: u32,
}

/// Which lines stand at a place.
#[derive(Clone, Copy)]
pub(crate) enum Part {
    Nodes,
    Outs,
}

/// Reads a line of a part.
fn read_line(
    alloc: Global,
    part: Part,
    line: u32,
    bytes: &[u8],
) -> Result<(Line, &[u8]), LineRefusal>
    ensures exact { Gives (λ x. (x.0, x.1.now)) result (line_at part line bytes.now) }
    ensures left { IfOk result (λ x. length x.1.now ≤ length bytes.now) }
{
    circuit_lines::laws::laws();
    match part {
        Part::Nodes => read_node(alloc, line, bytes),
        Part::Outs => read_out(line, bytes),
    }
}

/// The walk after the lines of a part, as many as stand at the front of a text from this line on; how many they are; and
/// the bytes after them.
pub(crate) fn walk_over(
    alloc: Global,
    part: Part,
    walk: LineWalk,
    line: u32,
    bytes: &[u8],
) -> Result<(LineWalk, u32, &[u8]), CircuitRefusal>
    requires { line + length bytes.now < 2 ^ 32 }
    ensures exact { Gives (λ x. (x.0, x.1, x.2.now)) result (Ok (walked part walk line bytes.now)) }
    ensures count { IfOk result (λ x. x.1 ≤ length bytes.now) }
    ensures left { IfOk result (λ x. length x.2.now ≤ length bytes.now) }
{
    let mut walk = walk;
    let mut rest = bytes;
    let mut count = 0;
    for index in 0..bytes.len() as u32 {
        match read_line(alloc, part, line + index, rest) {
            Ok((read, after)) => {
                let Ok(next) = walk.take(alloc, &read) else {
                    return Err(Refusal::Memory);
                };
                walk = next;
                rest = after;
                count = index + 1;
            }
            Err(Refusal::Fault(_)) => break,
            Err(Refusal::Memory) => return Err(Refusal::Memory),
        }
    }
    Ok((walk, count, rest))
}

/// The refusal of a text for what is wrong with a line.
fn refusal_of(refusal: LineRefusal) -> CircuitRefusal
    ensures { result ≡ refusal_of refusal }
{
    match refusal {
        Refusal::Fault(misspelled) => Refusal::Fault(CircuitFault {
            line: misspelled.line,
            kind: CircuitKind::Spelling,
        }),
        Refusal::Memory => Refusal::Memory,
    }
}

/// The numbers of the lines before the nodes, and the bytes after them.
fn head_of(bytes: &[u8]) -> Result<(Head, &[u8]), CircuitRefusal>
    ensures exact { Gives (λ x. (x.0, x.1.now)) result (as_spelling (head_at bytes.now)) }
    ensures left { IfOk result (λ x. length x.1.now ≤ length bytes.now) }
{
    circuit_lines::laws::laws();
    match read_head(bytes) {
        Ok(read) => Ok(read),
        Err(refusal) => Err(refusal_of(refusal)),
    }
}

/// Goes on where the text ends with the line of `end`.
fn end_of(line: u32, bytes: &[u8]) -> Result<(), CircuitRefusal>
    requires { line + 1 < 2 ^ 32 }
    ensures { Gives (λ x. x) result (as_spelling (end_at line bytes.now)) }
{
    match read_end(line, bytes) {
        Ok(()) => Ok(()),
        Err(refusal) => Err(refusal_of(refusal)),
    }
}

/// Goes over all lines of a text.
#[tactic(auto, unfolding(crate::specs::Walks::walked_text))]
pub(crate) fn walk_text(alloc: Global, bytes: &[u8]) -> Result<WalkedLines, CircuitRefusal>
    requires { length bytes.now ≤ circuit_limit }
    ensures exact { Gives (λ lines. lines) result (walked_text bytes.now) }
    ensures nodes { IfOk result (λ lines. lines.nodes ≤ circuit_limit) }
{
    let (head, rest) = head_of(bytes)?;
    let walk = LineWalk::new(alloc)?;
    let (walk, nodes, rest) = walk_over(alloc, Part::Nodes, walk, FIRST_NODE, rest)?;
    let (walk, outs, rest) = walk_over(alloc, Part::Outs, walk, FIRST_NODE + nodes, rest)?;
    end_of(FIRST_NODE + nodes + outs, rest)?;
    Ok(WalkedLines {
        head,
        walk,
        nodes,
        outs,
    })
}
