//! Circuits and the one text of each: reading it, with the place and the kind of what refuses it, and writing it.
#![tactic(auto)]

mod fault;
pub mod laws;
mod params;
mod places;
mod printing;
mod reader;
mod walks;

pub use fault::{CircuitFault, CircuitKind, CircuitRefusal};
pub use printing::{print_circuit, print_params};
pub use reader::read_circuit;

#[cfg(test)]
mod tests;
