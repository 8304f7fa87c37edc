//! Programs: the operations of a source, with the ranges of the arguments and the numbers of the results.

use crate::level::FheLevel;
use ir_core::Graph;
use lists::List;

/// A program: its operations, the arguments first, the range of each argument, and the numbers of what it returns.
#[derive(Drop)]
pub struct Program {
    pub graph: Graph<FheLevel>,
    pub args: List<(i64, i64)>,
    pub results: List<u32>,
}
