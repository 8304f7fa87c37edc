//! Test polynomials: tables of values as polynomials, out of which a bootstrap takes the entry that it looks up
//! (Chillotti et al. 2020, "TFHE: Fast Fully Homomorphic Encryption over the Torus", J. Cryptology 33). `laws` promises
//! what a rotation reads in one.
#![tactic(auto)]

pub mod laws;
mod test_poly;
#[cfg(test)]
mod tests;

pub use test_poly::test_poly_into;
