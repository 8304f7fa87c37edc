//! The command `run`: a circuit on ciphertexts, from files to a file.
//!
//! It is one step that reads its files and computes what it writes, and then writes it. What is written decrypts to the
//! values of the circuit on whole numbers, for all keys and inputs within the bounds: the headline.
#![tactic(auto)]

mod command;
mod inputs;
mod keys;

pub use command::{RunNames, run};

#[cfg(test)]
mod tests;
