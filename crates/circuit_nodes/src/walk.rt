//! Going over the lines of nodes and outs once.

ghost use Rattle.std.specs.Prelude.{◌≡◌, ◌<◌, ◌≤◌, length, Ok, Some, None, IfOk, IfSome, IsTrue, if◌then◌else◌};
ghost use Rattle.refusals.specs.Reading.{Gives};
ghost use Rattle.circuit_nodes.specs.Lines.{op_of, keeps_line};
ghost use Rattle.circuit_nodes.specs.Tests.{keeps_alone};
ghost use Rattle.circuit_nodes.specs.Walk.{Walk, start, step, with_name, is_unused, broken_place, most_operations};

use crate::fitting::{fits, is_numbered, op_of};
use crate::nodes::Nodes;
use circuit_lines::{Line, LineRefusal};
use std::alloc::{AllocError, Global};
use std::marker::Model;
use tfhe_level::TfheOp;

/// The most operations of a circuit.
const MOST_OPERATIONS: usize = 64 + 1088 + 1024 + 1024 + 64;

/// What is known after some lines: the operations of those in front that keep their rules, whether one does not, and
/// which numbers lines of bootstraps name as their key switches.
#[derive(Drop)]
pub struct LineWalk {
    nodes: Nodes,
    broken: bool,
    named: Vec<bool>,
}

impl Model for LineWalk {
    ghost Value = { Walk };

    ghost view = { λ walk. record { operations = walk.nodes; broken = walk.broken; named = walk.named.items } };

    ghost invariant = { λ walk. length walk.named.items ≡ most_operations };
}

/// Marks the number that a line of a bootstrap names.
fn name(named: &mut Vec<bool>, line: &Line)
    ensures named { named.new.items ≡ with_name named.old.items line.now }
    ensures number { length named.new.items ≡ length named.old.items }
{
    if let Line::Boot { source, .. } = line {
        if 0 <= *source && *source < named.len() as i128 {
            named[*source as usize] = true;
        }
    }
}

/// The operation of a line, where the line keeps its rule behind the operations so far.
#[tactic(auto, using(crate::proofs::Kept::kept_by_fit))]
fn next_op(alloc: Global, nodes: &Nodes, line: &Line) -> Result<Option<TfheOp>, LineRefusal>
    ensures op { Gives (λ op. op) result (Ok (if keeps_line nodes.now line.now then Some (op_of line.now) else None)) }
    ensures kept { IfOk result (λ made. IfSome made (λ op. IsTrue (keeps_alone nodes.now op))) }
{
    if !is_numbered(nodes.count(), line) || !fits(line) {
        return Ok(None);
    }
    let op = op_of(alloc, line)?;
    if nodes.keeps_alone(&op) {
        Ok(Some(op))
    } else {
        Ok(None)
    }
}

impl LineWalk {
    /// What is known before the first line.
    pub fn new(alloc: Global) -> Result<LineWalk, AllocError>
        ensures { IfOk result (λ walk. walk ≡ start) }
    {
        let named = vec![in alloc; false; MOST_OPERATIONS]?;
        Ok(LineWalk {
            nodes: Nodes::new(alloc),
            broken: false,
            named,
        })
    }

    /// What is known after a line more. It fails only for memory.
    pub fn take(self, alloc: Global, line: &Line) -> Result<LineWalk, LineRefusal>
        ensures { Gives (λ walk. walk) result (Ok (step self line.now)) }
    {
        let LineWalk {
            nodes,
            broken,
            mut named,
        } = self;
        name(&mut named, line);
        if broken {
            return Ok(LineWalk {
                nodes,
                broken,
                named,
            });
        }
        match next_op(alloc, &nodes, line)? {
            Some(op) => Ok(LineWalk {
                nodes: nodes.push(op)?,
                broken,
                named,
            }),
            None => Ok(LineWalk {
                nodes,
                broken: true,
                named,
            }),
        }
    }

    /// Whether the operation at a place is a key switch that no line names.
    fn is_unused(&self, place: u32) -> bool
        ensures { result ≡ is_unused self.now.named self.now.operations place }
    {
        let named = self.named.get(place as usize).copied().unwrap_or(false);
        self.nodes.is_switch_at(place) && !named
    }

    /// The place of the first line that breaks its rule, counted from 0, where one does.
    pub fn first_broken(&self) -> Option<u32>
        ensures place { result ≡ broken_place self.now }
        ensures few { length self.now.operations ≤ most_operations }
        ensures most { IfSome result (λ place. place ≤ most_operations) }
    {
        let count = self.nodes.count();
        for place in 0..count {
            if self.is_unused(place) {
                return Some(place);
            }
        }
        if self.broken { Some(count) } else { None }
    }

    /// The operations in front whose lines keep their rules as far as those before them tell.
    pub fn into_nodes(self) -> Nodes
        ensures { result ≡ self.operations }
    {
        let LineWalk { nodes, .. } = self;
        nodes
    }
}
