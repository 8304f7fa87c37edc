//! What the statements of a program come to: patterns, in the order in which they are made.
//!
//! Each statement gets a form: a constant and weights on leaves, which are the arguments and the patterns. A pattern is a
//! look-up on a form whose values begin with 0; equal patterns are one leaf, and a look-up on one number is a constant.
//! `sums` has the forms of sums and multiples, `looks` the patterns, `checks` what a form must keep, and `walk` goes over
//! the operations of a program once. Patterns that no result hangs on are among them; `live_patterns` drops these.
#![tactic(auto)]

mod checks;
mod fault;
mod finding;
mod looks;
mod operands;
mod sums;
mod walk;

pub use checks::MOST_WEIGHTS;
pub use fault::{FormFault, FormRefusal};
pub use finding::patterns_found;

#[cfg(test)]
mod tests;
