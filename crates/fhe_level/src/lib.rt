//! The level of programs: their limits, their types, and what they compute.
//!
//! `limits` counts what a source has, `types` checks its types and gives the program as a graph of the operations of
//! `level`, and `computing` computes a program on whole numbers.
#![tactic(auto)]

mod computing;
mod fault;
pub mod laws;
mod level;
mod limits;
mod program;
mod rows;
mod types;

pub use computing::clear;
pub use fault::{LimitFault, LimitName, TypeFault, TypeKind, TypeRefusal};
pub use level::{FheLevel, FheOp};
pub use limits::check_limits;
pub use lists::List;
pub use program::Program;
pub use types::check_types;

#[cfg(test)]
mod tests;
