//! From patterns to a circuit: the arguments, for each look-up a weighted sum, a key switch and a bootstrap, and for each
//! result a weighted sum and an out. A weighted sum that is there already is used again, and so is a key switch.
//!
//! `nodes` puts one node after the other, and `places` goes over the patterns.
#![tactic(auto)]

pub mod laws;
mod nodes;
mod outlet;
mod places;

pub use places::place;

#[cfg(test)]
mod tests;
