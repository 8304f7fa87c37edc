//! Forms: a constant and weights on numbered leaves.
//!
//! `specs` says what a form's value and its range are, and what patterns and circuits have in common beside; `terms`
//! puts terms on other leaves, and `limits` has the numbers that code compares with.
#![tactic(auto)]

pub mod laws;
pub mod limits;
pub mod terms;
#[cfg(test)]
mod tests;
