//! The balanced digits of words, which key switching and external products multiply rows of a key by: the
//! gadget decomposition of Chillotti et al. 2020, "TFHE: Fast Fully Homomorphic Encryption over the Torus",
//! J. Cryptology 33, with digits in `[-2^(base-1), 2^(base-1))`.
#![tactic(auto)]

mod digits;
pub mod laws;
#[cfg(test)]
mod tests;

pub use digits::{digits_into, poly_digit_into};
