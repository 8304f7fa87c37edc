//! The commands on keys and ciphertexts.
//!
//! Each is one step that reads its files and computes what it writes or puts, and then writes or puts it.
#![tactic(auto)]

pub mod decrypt;
pub mod encrypt;
mod inputs;
pub mod keygen;
#[cfg(test)]
mod tests;
mod values;
