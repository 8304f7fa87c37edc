//! GGSW ciphertexts and the products with them, by which a ciphertext is multiplied with an encrypted bit or one of
//! two is selected (Chillotti et al. 2020, "TFHE: Fast Fully Homomorphic Encryption over the Torus", J. Cryptology 33,
//! where they are called TRGSW).
//!
//! `ggsw` has the ciphertexts, `products` the external product and CMux, and `laws` promises their noise. Nothing but
//! the two constructors takes memory.
#![tactic(auto)]

mod ggsw;
pub mod laws;
mod products;
#[cfg(test)]
mod tests;

pub use ggsw::Ggsw;
pub use products::{ExtRoom, cmux_into, external_into};
