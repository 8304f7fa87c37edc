//! Calls for graphs in which the number of an operation is its place, as in those that appending alone made.

ghost use Rattle.std.specs.Prelude.{◌≡◌, ◌<◌, ◌-◌, ◌^◌, [], ◌∷◌, ◌++◌, length, All, slice_get, IfOk, IfErr, OnOk, OnErr};
ghost use Rattle.ir_core.specs.Placed.{operations_of, IsPlaced};

use crate::laws::laws;
use crate::{Graph, Level, Returned};

impl<L: Level> Graph<L> {
    /// Adds an operation at the end, and answers its number, which is its place. For want of memory
    /// alone it hands the operation back, and the graph is as it was.
    pub fn append(&mut self, op: L::Op) -> Result<u32, Returned<L::Op>>
        requires placed { IsPlaced self.old }
        requires earlier { All (λ operand. operand < length (operations_of self.old)) (L.operands op) }
        requires few { length (L.operands op) < 2 ^ 32 }
        requires numbers_left { length (operations_of self.old) < 2 ^ 32 - 1 }
        ensures number { IfOk result (λ number. number ≡ length (operations_of self.old)) }
        ensures ok { OnOk result (operations_of self.new ≡ operations_of self.old ++ op ∷ []) }
        ensures placed { IsPlaced self.new }
        ensures returned { IfErr result (λ returned. returned.op ≡ op) }
        ensures err { OnErr result (self.new ≡ self.old) }
    {
        laws::<L>();
        self.push(op)
    }

    /// How many operations there are.
    pub fn op_count(&self) -> u32
        requires { IsPlaced self.now }
        ensures { result ≡ length (operations_of self.now) }
    {
        self.made()
    }

    /// The operation at a place, counted from 0.
    pub fn op_at(&self, place: u32) -> &L::Op
        requires placed { IsPlaced self.now }
        requires there { place < length (operations_of self.now) }
        ensures op { slice_get (operations_of self.now) place ≡ Some result.now }
        // Its operands stand at earlier places, and are fewer than 2^32.
        ensures earlier { All (λ operand. operand < place) (L.operands result.now) }
        ensures few { length (L.operands result.now) < 2 ^ 32 }
    {
        laws::<L>();
        self.known();
        self.op(place)
    }
}
