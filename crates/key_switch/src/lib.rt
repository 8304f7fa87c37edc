//! Key switching: from a ciphertext under the big key to one under the small key (Chillotti et al. 2020, "TFHE: Fast
//! Fully Homomorphic Encryption over the Torus", J. Cryptology 33).
//!
//! `key` has the switch keys and `switching` the switch; `laws` promises how far a phase moves.
#![tactic(auto)]

mod key;
pub mod laws;
mod switching;
#[cfg(test)]
mod tests;

pub use key::SwitchKey;
pub use switching::switch_into;
