//! The nodes and outs of a circuit from the lines of its text, each tested against its rule.
//!
//! `Nodes` keeps the operations so far with their ranges and tests the next one; `LineWalk` goes over the lines once.
#![tactic(auto)]

mod fitting;
mod kinds;
pub mod laws;
mod nodes;
mod numbers;
mod walk;

pub use nodes::Nodes;
pub use walk::LineWalk;

#[cfg(test)]
mod tests;
