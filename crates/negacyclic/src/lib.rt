//! Polynomials of words modulo X^N + 1, for N from 2 to 8192: the ring in which GLWE ciphertexts live
//! (Chillotti et al. 2020, "TFHE: Fast Fully Homomorphic Encryption over the Torus", J. Cryptology 33).
//!
//! `poly` has the polynomials with their product and rotation, `product` and `karatsuba` the product by its plain
//! sums and by halves, and `laws` what a proof may call for.
//! Nothing but the two constructors takes memory.
#![tactic(auto)]

mod karatsuba;
pub mod laws;
mod poly;
mod product;
#[cfg(test)]
mod tests;

pub use poly::{Poly, Scratch, mul_add, mul_add_plain, rotate_into};
pub use word_ring::Lin;
