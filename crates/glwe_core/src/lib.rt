//! GLWE ciphertexts over polynomials of words modulo X^N + 1 (Chillotti et al. 2020, "TFHE: Fast Fully
//! Homomorphic Encryption over the Torus", J. Cryptology 33, where they are called TRLWE).
//!
//! `glwe` has the ciphertexts and `key` the secret keys; `parts` is what goes part by part, `phases` what a key
//! reads in a ciphertext, `extraction` takes coefficient 0 to an LWE ciphertext, and `laws` is what a proof may
//! call for. Only the constructors and the flat key take memory.
#![tactic(auto)]

mod extraction;
mod glwe;
mod key;
pub mod laws;
mod parts;
mod phases;
#[cfg(test)]
mod tests;

pub use extraction::extract_into;
pub use glwe::{Glwe, add_product, rotate_glwe_into};
pub use key::{GlweKey, flat_key};
pub use phases::{phase_into, seal_glwe, trivial_into};
pub use word_ring::Lin;
