//! The search for the least choice out of a table of parameters.
//!
//! `choices` has all choices with their costs, in order; `least` tries them one after the other.
#![tactic(auto)]

mod choices;
pub mod laws;
mod least;

pub use least::{Found, Refused, search};
pub use lists::List;

#[cfg(test)]
mod tests;
