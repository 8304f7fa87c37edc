//! The level of circuits: inputs, weighted sums, key switches, bootstraps and outs, in a graph.
//!
//! `level` has the operations, `shape` the circuits made of them, and `specs` what they compute on whole numbers and
//! the rules that they keep.
#![tactic(auto)]

mod count;
pub mod laws;
mod level;
mod limits;
mod shape;

pub use count::counts;
pub use level::{Held, TfheLevel, TfheOp};
pub use limits::{MOST_BOOTS, MOST_LINS, MOST_SWITCHES};
pub use lists::List;
pub use shape::{Circuit, Shape};

#[cfg(test)]
mod tests;
