//! How much a circuit does.

ghost use Rattle.std.specs.Prelude.{◌≡◌, ◌<◌, ◌≤◌, ◌+◌, ◌*◌, ◌^◌, length, count_by, if◌then◌else◌};
ghost use Rattle.ir_core.specs.Placed.{IsPlaced};
ghost use Rattle.tfhe_level.specs.Operations.{operands_of, is_switch, is_boot};
ghost use Rattle.tfhe_level.specs.Nodes.{nodes_of};
ghost use Rattle.tfhe_level.specs.Counts.{is_weight, weight_count, counts_of};

use crate::level::TfheOp;
use crate::shape::Shape;
use fhe_params::Counts;

/// How many of the terms have a weight that is not 0.
fn weights_in(terms: &[(u32, i64)]) -> u64
    ensures count { result ≡ count_by is_weight terms.now }
    ensures most { result ≤ length terms.now }
{
    terms.iter().filter(|term| term.1 != 0).count() as u64
}

/// The counts with an operation more.
fn with_node(counts: Counts, op: &TfheOp) -> Counts
    requires switches { counts.switches < 2 ^ 32 }
    requires boots { counts.boots < 2 ^ 32 }
    requires weights { counts.weights + weight_count op.now < 2 ^ 64 }
    ensures switches { result.switches ≡ counts.switches + (if is_switch op.now then 1 else 0) }
    ensures boots { result.boots ≡ counts.boots + (if is_boot op.now then 1 else 0) }
    ensures weights { result.weights ≡ counts.weights + weight_count op.now }
{
    match op {
        TfheOp::Lin { terms, .. } => Counts {
            weights: counts.weights + weights_in(terms.as_slice()),
            ..counts
        },
        TfheOp::Switch { .. } => Counts {
            switches: counts.switches + 1,
            ..counts
        },
        TfheOp::Boot { .. } => Counts {
            boots: counts.boots + 1,
            ..counts
        },
        TfheOp::Input { .. } | TfheOp::Out { .. } => counts,
    }
}

/// How many key switches and bootstraps a circuit has, and how many weights that are not 0 its weighted sums have in
/// all.
pub fn counts(shape: &Shape) -> Counts
    requires { IsPlaced shape.now.graph }
    ensures { result ≡ counts_of (nodes_of shape.now) }
{
    let mut counts = Counts {
        switches: 0,
        boots: 0,
        weights: 0,
    };
    for number in 0..shape.node_count() {
        counts = with_node(counts, shape.node(number));
    }
    counts
}
