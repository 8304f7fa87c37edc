//! The words of TFHE: integers modulo 2^64, the torus of Chillotti et al. 2020, "TFHE: Fast Fully
//! Homomorphic Encryption over the Torus", J. Cryptology 33, scaled by 2^64 and kept as a `u64`.
//!
//! `words` has the ring's operations with their laws, `rounding` words by their highest bits, `rows` the operations
//! on slices of words, `lin` the trait of the types that are such rows, and `combination` weighted sums of such
//! values. `laws` promises what holds of them.
#![tactic(auto)]

mod combination;
pub mod laws;
mod lin;
mod rounding;
pub mod rows;
#[cfg(test)]
mod tests;
mod words;

pub use combination::combine;
pub use lin::Lin;
pub use rounding::{mod_switch, round_to};
pub use words::{centred, wadd, wmul, wneg, word_of, wsub};
