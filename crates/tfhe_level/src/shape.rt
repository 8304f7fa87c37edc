//! Circuits: their operations with a width, and with parameters.

ghost use Rattle.std.specs.Prelude.{◌≡◌, ◌<◌, ◌-◌, ◌^◌, [], ◌∷◌, ◌++◌, length, All, slice_get, IfOk, IfErr, OnOk, OnErr};

use crate::level::{TfheLevel, TfheOp};
use fhe_params::Params;
use ir_core::{Graph, Returned};
use std::alloc::Global;

/// The operations of a circuit, its outs last, and the bits of its messages. The number of an operation is its place,
/// counted from 0.
#[derive(Drop)]
pub struct Shape {
    pub graph: Graph<TfheLevel>,
    pub width: u32,
}

impl Shape {
    ghost use Rattle.ir_core.specs.Placed.{IsPlaced};
    ghost use Rattle.tfhe_level.specs.Operations.{operands_of};
    ghost use Rattle.tfhe_level.specs.Nodes.{nodes_of};

    /// The circuit of no operations.
    pub fn new(alloc: Global, width: u32) -> Shape
        ensures placed { IsPlaced result.graph }
        ensures nodes { nodes_of result ≡ [] }
        ensures width { result.width ≡ width }
    {
        ir_core::laws::laws::<TfheLevel>();
        Shape {
            graph: Graph::new(alloc),
            width,
        }
    }

    /// Adds an operation at the end, and answers its number. For want of memory alone it hands the operation back, and
    /// the circuit is as it was.
    pub fn push(&mut self, op: TfheOp) -> Result<u32, Returned<TfheOp>>
        requires placed { IsPlaced self.old.graph }
        requires earlier { All (λ operand. operand < length (nodes_of self.old)) (operands_of op) }
        requires few { length (operands_of op) < 2 ^ 32 }
        requires numbers_left { length (nodes_of self.old) < 2 ^ 32 - 1 }
        ensures number { IfOk result (λ number. number ≡ length (nodes_of self.old)) }
        ensures ok { OnOk result (nodes_of self.new ≡ nodes_of self.old ++ op ∷ []) }
        ensures placed { IsPlaced self.new.graph }
        ensures width { self.new.width ≡ self.old.width }
        ensures returned { IfErr result (λ returned. returned.op ≡ op) }
        ensures err { OnErr result (self.new ≡ self.old) }
    {
        self.graph.append(op)
    }

    /// How many operations there are, the outs among them.
    pub fn node_count(&self) -> u32
        requires { IsPlaced self.now.graph }
        ensures { result ≡ length (nodes_of self.now) }
    {
        self.graph.op_count()
    }

    /// The operation with a number.
    pub fn node(&self, number: u32) -> &TfheOp
        requires placed { IsPlaced self.now.graph }
        requires there { number < length (nodes_of self.now) }
        ensures node { slice_get (nodes_of self.now) number ≡ Some result.now }
        // Its operands are earlier ones, and fewer than 2^32.
        ensures earlier { All (λ operand. operand < number) (operands_of result.now) }
        ensures few { length (operands_of result.now) < 2 ^ 32 }
    {
        self.graph.op_at(number)
    }
}

/// A circuit: a shape, and the parameters of its ciphertexts and keys.
#[derive(Drop)]
pub struct Circuit {
    pub shape: Shape,
    pub params: Params,
}
