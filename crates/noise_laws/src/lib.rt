//! The noise that circuits are judged by is the noise that their operations have: the numbers of `noise_model` are
//! those of the laws on key switches, products and bootstraps. For proofs alone.
#![tactic(auto)]

pub mod laws;
#[cfg(test)]
mod tests;
