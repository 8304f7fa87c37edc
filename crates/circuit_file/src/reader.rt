//! Reading a circuit from its whole text.

ghost use Rattle.std.specs.Prelude.{◌≡◌, ◌≤◌, ◌<◌, ◌+◌, ◌^◌, length, IfOk, IfSome, Ok};
ghost use Rattle.refusals.specs.Reading.{Gives};
ghost use Rattle.ir_core.specs.Placed.{IsPlaced};
ghost use Rattle.forms.specs.Limits.{most_width};
ghost use Rattle.fhe_params.specs.Params.{IsParams};
ghost use Rattle.tfhe_level.specs.Nodes.{nodes_of};
ghost use Rattle.circuit_nodes.specs.Walk.{most_operations};
ghost use Rattle.circuit_file.specs.Limits.{circuit_limit};
ghost use Rattle.noise_model.specs.Circuits.{IsCircuit};
ghost use Rattle.circuit_file.specs.Circuit.{no_broken_line, is_width, circuit_of};
ghost use Rattle.circuit_file.specs.Steps.{kept_nodes, shape_of, shape_after, met_by, circuit_with, circuit_by_walk};

use crate::fault::{CircuitFault, CircuitKind, CircuitRefusal};
use crate::laws::laws;
use crate::params::params_of;
use crate::places::line_of;
use crate::walks::{FIRST_NODE, WalkedLines, walk_text};
use circuit_nodes::Nodes;
use fhe_params::Params;
use forms::limits::MOST_WIDTH;
use noise_model::{BoundRoom, first_broken};
use refusals::{Refusal, unless};
use std::alloc::Global;
use tfhe_level::{Circuit, Shape};

/// The line of the width.
const WIDTH_LINE: u32 = 2;

/// Goes on where no line breaks its rule.
fn no_broken_line(place: Option<u32>) -> Result<(), CircuitRefusal>
    requires { IfSome place (λ place. place ≤ most_operations) }
    ensures { Gives (λ x. x) result (no_broken_line place) }
{
    match place {
        None => Ok(()),
        Some(place) => Err(Refusal::Fault(CircuitFault {
            line: FIRST_NODE + place,
            kind: CircuitKind::Node,
        })),
    }
}

/// The operations of lines that all keep their rules, with an out among them.
#[tactic(auto, unfolding(crate::specs::Steps::kept_nodes))]
fn kept_nodes(lines: WalkedLines) -> Result<Nodes, CircuitRefusal>
    requires { lines.nodes ≤ circuit_limit }
    ensures exact { Gives (λ nodes. nodes) result (kept_nodes lines) }
    ensures few { IfOk result (λ nodes. length nodes ≤ most_operations) }
{
    let WalkedLines {
        walk,
        nodes,
        outs,
        ..
    } = lines;
    no_broken_line(walk.first_broken())?;
    unless(
        outs > 0,
        CircuitFault {
            line: FIRST_NODE + nodes,
            kind: CircuitKind::Node,
        },
    )?;
    Ok(walk.into_nodes())
}

/// Whether a width as it is written is the least that holds the ranges of these operations.
#[tactic(auto, using(crate::proofs::Limits::width_by_fit))]
fn is_width(nodes: &Nodes, width: i128) -> bool
    ensures { result ≡ is_width nodes.now width }
{
    0 <= width && width <= i128::from(MOST_WIDTH) && nodes.is_least_width(width as u32)
}

/// The shape of operations, whose width must be the least.
#[tactic(auto, unfolding(crate::specs::Steps::shape_of))]
fn shape_of(nodes: Nodes, width: i128) -> Result<Shape, CircuitRefusal>
    requires { length nodes ≤ most_operations }
    ensures exact { Gives (λ shape. shape) result (shape_of nodes width) }
    ensures placed { IfOk result (λ shape. IsPlaced shape.graph) }
    ensures width { IfOk result (λ shape. shape.width ≤ most_width) }
    ensures few { IfOk result (λ shape. length (nodes_of shape) ≤ most_operations) }
{
    unless(
        is_width(&nodes, width),
        CircuitFault {
            line: WIDTH_LINE,
            kind: CircuitKind::Width,
        },
    )?;
    Ok(nodes.into_shape(width as u32))
}

/// Goes on where the parameters meet all constraints of a shape.
#[tactic(auto, unfolding(crate::specs::Steps::met_by))]
fn meets_all(alloc: Global, shape: &Shape, params: &Params) -> Result<(), CircuitRefusal>
    requires placed { IsPlaced shape.now.graph }
    requires params { IsParams params.now }
    requires width { shape.now.width ≤ most_width }
    requires few { length (nodes_of shape.now) ≤ most_operations }
    ensures { Gives (λ x. x) result (met_by params.now shape.now) }
{
    let mut room = BoundRoom::new(alloc, shape)?;
    match first_broken(shape, params, &mut room) {
        None => Ok(()),
        Some(broken) => Err(Refusal::Fault(CircuitFault {
            line: line_of(shape, broken.at),
            kind: CircuitKind::Constraint {
                bound: broken.bound,
                limit: broken.limit,
            },
        })),
    }
}

/// The shape of the lines of a text.
#[tactic(auto, unfolding(crate::specs::Steps::shape_after))]
fn shape_after(lines: WalkedLines) -> Result<Shape, CircuitRefusal>
    requires { lines.nodes ≤ circuit_limit }
    ensures exact { Gives (λ shape. shape) result (shape_after lines) }
    ensures placed { IfOk result (λ shape. IsPlaced shape.graph) }
    ensures width { IfOk result (λ shape. shape.width ≤ most_width) }
    ensures few { IfOk result (λ shape. length (nodes_of shape) ≤ most_operations) }
{
    let width = lines.head.width;
    let nodes = kept_nodes(lines)?;
    shape_of(nodes, width)
}

/// The circuit of a shape whose constraints the parameters meet.
#[tactic(auto, unfolding(crate::specs::Steps::circuit_with))]
fn circuit_with(alloc: Global, params: Params, shape: Shape) -> Result<Circuit, CircuitRefusal>
    requires placed { IsPlaced shape.graph }
    requires params { IsParams params }
    requires width { shape.width ≤ most_width }
    requires few { length (nodes_of shape) ≤ most_operations }
    ensures { Gives (λ circuit. circuit) result (circuit_with params shape) }
{
    meets_all(alloc, &shape, &params)?;
    Ok(Circuit { shape, params })
}

/// The circuit of a text, step by step.
#[tactic(auto, unfolding(crate::specs::Steps::circuit_by_walk))]
fn circuit_by_walk(alloc: Global, bytes: &[u8]) -> Result<Circuit, CircuitRefusal>
    requires { length bytes.now ≤ circuit_limit }
    ensures { Gives (λ circuit. circuit) result (circuit_by_walk bytes.now) }
{
    let lines = walk_text(alloc, bytes)?;
    let params = params_of(&lines.head)?;
    let shape = shape_after(lines)?;
    circuit_with(alloc, params, shape)
}

/// The circuit that a whole text spells, or its first fault: a misspelled line goes before parameters outside their limits,
/// then come nodes and outs that break their rules, the width, and the constraints on parameters. The text has at most 2^27
/// bytes. It takes time in proportion to the bytes.
pub fn read_circuit(alloc: Global, bytes: &[u8]) -> Result<Circuit, CircuitRefusal>
    requires { length bytes.now ≤ circuit_limit }
    ensures exact { Gives (λ circuit. circuit) result (circuit_of bytes.now) }
    // What is read keeps the rules of circuits.
    ensures rules { IfOk result IsCircuit }
{
    laws();
    circuit_nodes::laws::laws();
    circuit_by_walk(alloc, bytes)
}
