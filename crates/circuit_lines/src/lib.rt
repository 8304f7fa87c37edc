//! The lines of a circuit text, each with its numbers as they stand: reading them, and where a text is misspelled.
//!
//! Nothing here asks what the numbers mean. A number has at most 38 digits, so that `i128` holds it.
#![tactic(auto)]

mod fault;
mod head;
pub mod laws;
mod line;
mod nodes;
mod numbers;

pub use fault::{LineRefusal, Misspelled};
pub use head::{GadgetNumbers, GlweNumbers, Head, LweNumbers, read_head};
pub use line::Line;
pub use nodes::{read_end, read_node, read_out};

#[cfg(test)]
mod tests;
