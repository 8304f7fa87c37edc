//! Programs of patterns: their operations with a width.

ghost use Rattle.std.specs.Prelude.{◌≡◌, []};

use crate::level::ApLevel;
use ir_core::Graph;
use std::alloc::Global;

/// Arguments, look-ups and results, the results last, and the bits of their values. The number of an operation is its
/// place, counted from 0: operations are added by `append` of the graph, and read by `op_at`.
#[derive(Drop)]
pub struct ApProgram {
    pub graph: Graph<ApLevel>,
    pub width: u32,
}

impl ApProgram {
    ghost use Rattle.ir_core.specs.Placed.{IsPlaced};
    ghost use Rattle.ap_level.specs.Patterns.{patterns_of};

    /// The program of no operations.
    pub fn new(alloc: Global, width: u32) -> ApProgram
        ensures placed { IsPlaced result.graph }
        ensures patterns { patterns_of result ≡ [] }
        ensures width { result.width ≡ width }
    {
        ir_core::laws::laws::<ApLevel>();
        ApProgram {
            graph: Graph::new(alloc),
            width,
        }
    }
}
