//! The lines of constraints.

ghost use Rattle.std.specs.Prelude.{◌≡◌, ◌≤◌, ◌<◌, ◌+◌, length};
ghost use Rattle.ir_core.specs.Placed.{IsPlaced};
ghost use Rattle.tfhe_level.specs.Nodes.{nodes_of};
ghost use Rattle.circuit_nodes.specs.Walk.{most_operations};
ghost use Rattle.circuit_file.specs.Circuit.{is_on, place_among, line_of};

use crate::walks::FIRST_NODE;
use noise_model::Constraint;
use tfhe_level::{Shape, TfheOp};

/// The line of the parameters of the ring.
const GLWE_LINE: u32 = 3;

/// Whether an operation is of the kind that a constraint is on.
fn is_on(at: Constraint, op: &TfheOp) -> bool
    ensures { result ≡ is_on at op.now }
{
    match at {
        Constraint::Size => false,
        Constraint::Boot(_) => matches!(op, TfheOp::Boot { .. }),
        Constraint::Result(_) => matches!(op, TfheOp::Out { .. }),
    }
}

/// The place of the operation with a number, counted from 0 over those of the kind that a constraint is on.
fn place_among(shape: &Shape, at: Constraint, count: u32) -> u32
    requires { IsPlaced shape.now.graph }
    ensures place { result ≡ place_among (is_on at) (nodes_of shape.now) count }
    ensures there { result ≤ length (nodes_of shape.now) }
{
    let mut left = count;
    for place in 0..shape.node_count() {
        if is_on(at, shape.node(place)) {
            if left == 0 {
                return place;
            }
            left -= 1;
        }
    }
    shape.node_count()
}

/// The line of a constraint: that of the ring's parameters for the size of the keys, else that of the bootstrap or the out.
pub(crate) fn line_of(shape: &Shape, at: Constraint) -> u32
    requires placed { IsPlaced shape.now.graph }
    requires few { length (nodes_of shape.now) ≤ most_operations }
    ensures { result ≡ line_of (nodes_of shape.now) at }
{
    match at {
        Constraint::Size => GLWE_LINE,
        Constraint::Boot(count) | Constraint::Result(count) => {
            FIRST_NODE + place_among(shape, at, count)
        }
    }
}
