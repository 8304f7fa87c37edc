//! The bounds of the nodes of a circuit.

ghost use Rattle.std.specs.Prelude.{◌≡◌, ◌<◌, ◌≤◌, ◌+◌, ◌*◌, ◌^◌, ℕ, List, length, map, All, slice_index, slice_set, unsigned_abs, IfOk};
ghost use Rattle.std.specs.List.{sum_by};
ghost use Rattle.ir_core.specs.Placed.{IsPlaced};
ghost use Rattle.fhe_params.specs.Params.{IsParams};
ghost use Rattle.tfhe_level.specs.Operations.{operands_of};
ghost use Rattle.tfhe_level.specs.Nodes.{nodes_of};
ghost use Rattle.noise_model.specs.Bounds.{switch_noise, boot_noise, bound_of, noise_bounds, capped};

use crate::cap::{cap_add, cap_mul};
use crate::noise::{Noise, noise_of};
use fhe_params::Params;
use std::alloc::{AllocError, Global};
use std::marker::Model;
use tfhe_level::{Shape, TfheOp};

/// Room for the bounds of a circuit's operations, each at most 2^64. A clause sees the list of them.
#[derive(Debug, Drop)]
pub struct BoundRoom {
    bounds: Vec<u128>,
}

impl Model for BoundRoom {
    ghost Value = { List ℕ };

    ghost view = { λ room. room.bounds.items };

    ghost invariant = { λ room. All (λ bound. bound ≤ 2 ^ 64) room.bounds.items };
}

impl BoundRoom {
    /// Room for the bounds of this circuit. It fails only for memory.
    pub fn new(alloc: Global, shape: &Shape) -> Result<BoundRoom, AllocError>
        requires { IsPlaced shape.now.graph }
        ensures { IfOk result (λ room. length room ≡ length (nodes_of shape.now)) }
    {
        let bounds = vec![in alloc; 0; shape.node_count() as usize]?;
        Ok(BoundRoom { bounds })
    }

    /// The bound of the operation with a number, or 2^64 where it is larger, as `edge_bounds` left it.
    pub fn bound(&self, node: u32) -> u128
        requires { node < length self.now }
        ensures value { result ≡ slice_index self.now node }
        ensures most { result ≤ 2 ^ 64 }
    {
        self.bounds[node as usize]
    }

    /// The bounds, in the order of the operations.
    fn as_slice(&self) -> &[u128]
        ensures list { result.now ≡ self.now }
        ensures most { All (λ bound. bound ≤ 2 ^ 64) result.now }
    {
        self.bounds.as_slice()
    }

    /// Sets the bound of the operation with a number.
    fn set(&mut self, node: u32, bound: u128)
        requires there { node < length self.old }
        requires most { bound ≤ 2 ^ 64 }
        ensures { self.new ≡ slice_set self.old node bound }
    {
        self.bounds[node as usize] = bound;
    }
}

/// The bound of a term: the size of its weight times the bound of its operand.
fn term_bound(term: (u32, i64), bounds: &[u128]) -> u128
    requires there { term.0 < length bounds.now }
    requires most { All (λ bound. bound ≤ 2 ^ 64) bounds.now }
    ensures value { result ≡ capped (unsigned_abs term.1 * slice_index bounds.now term.0) }
    ensures most { result ≤ 2 ^ 64 }
{
    let (operand, weight) = term;
    cap_mul(u128::from(weight.unsigned_abs()), bounds[operand as usize])
}

/// The bound of a weighted sum: those of its terms, added up.
fn lin_bound(terms: &[(u32, i64)], bounds: &[u128]) -> u128
    requires earlier { All (λ operand. operand < length bounds.now) (map (λ t. t.0) terms.now) }
    requires most { All (λ bound. bound ≤ 2 ^ 64) bounds.now }
    ensures value { result ≡ capped (sum_by (λ t. unsigned_abs t.1 * slice_index bounds.now t.0) terms.now) }
    ensures most { result ≤ 2 ^ 64 }
{
    let mut total = 0;
    for term in terms {
        total = cap_add(total, term_bound(*term, bounds));
    }
    total
}

/// The bound of an operation, from the bounds of the operations before it.
fn node_bound(op: &TfheOp, params: &Params, noise: Noise, bounds: &[u128]) -> u128
    requires earlier { All (λ operand. operand < length bounds.now) (operands_of op.now) }
    requires bounds { All (λ bound. bound ≤ 2 ^ 64) bounds.now }
    requires input { noise.input ≡ capped params.now.glwe.error }
    requires switch { noise.switch ≡ capped (switch_noise params.now) }
    requires boot { noise.boot ≡ capped (boot_noise params.now) }
    ensures value { result ≡ capped (bound_of params.now bounds.now op.now) }
    ensures most { result ≤ 2 ^ 64 }
{
    match op {
        TfheOp::Input { .. } => noise.input,
        TfheOp::Lin { terms, .. } => lin_bound(terms.as_slice(), bounds),
        TfheOp::Switch { source } => cap_add(bounds[*source as usize], noise.switch),
        TfheOp::Boot { .. } => noise.boot,
        TfheOp::Out { source, .. } => bounds[*source as usize],
    }
}

/// Computes the bound of each operation: for an input the error of fresh ciphertexts, for a weighted sum the sizes of
/// the weights times the bounds, for a key switch its operand's and what it adds, and for a bootstrap what it leaves
/// (worst cases, where Bergerat et al. 2023 take variances). Each is the least of itself and 2^64.
pub fn edge_bounds(shape: &Shape, params: &Params, room: &mut BoundRoom)
    requires placed { IsPlaced shape.now.graph }
    requires params { IsParams params.now }
    requires room { length room.old ≡ length (nodes_of shape.now) }
    ensures bounds { room.new ≡ map capped (noise_bounds params.now (nodes_of shape.now)) }
    ensures room { length room.new ≡ length (nodes_of shape.now) }
{
    let noise = noise_of(params);
    for number in 0..shape.node_count() {
        let bound = node_bound(shape.node(number), params, noise, room.as_slice());
        room.set(number, bound);
    }
}
