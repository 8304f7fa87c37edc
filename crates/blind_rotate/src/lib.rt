//! Bootstrapping: what a ciphertext under the small key stands for is looked up in a table, and the result stands for the
//! entry under the big key, with a noise that hangs on the keys alone (Chillotti et al. 2020, "TFHE: Fast Fully
//! Homomorphic Encryption over the Torus", J. Cryptology 33).
//!
//! `key` has the boot keys, `bootstrap` the bootstrap and its room, and `laws` promises what it does to phases, for all
//! keys that fit. Nothing but the two constructors takes memory.
#![tactic(auto)]

mod bootstrap;
mod key;
pub mod laws;
#[cfg(test)]
mod tests;

pub use bootstrap::{Room, bootstrap_into};
pub use key::BootKey;
