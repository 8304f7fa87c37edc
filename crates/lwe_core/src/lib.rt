//! LWE ciphertexts over words, of the two kinds that TFHE has (Chillotti et al. 2020, "TFHE: Fast
//! Fully Homomorphic Encryption over the Torus", J. Cryptology 33).
//!
//! `kind` has the two kinds, `lwe` the ciphertexts and `key` the secret keys; `phases` is what a key reads in
//! a ciphertext, `decoding` takes it back to a value, and `laws` is what a proof may call for, with the bounds
//! on how far off it is.
#![tactic(auto)]

mod decoding;
mod key;
mod kind;
pub mod laws;
mod lwe;
mod phases;
#[cfg(test)]
mod tests;

pub use decoding::{decode, encode};
pub use key::{LweKey, Secret};
pub use kind::{Big, Kind, Small};
pub use lwe::Lwe;
pub use phases::{phase, seal};
pub use word_ring::Lin;
