//! The level of patterns: arguments, look-ups on forms, and results, in a graph.
//!
//! A pattern is a look-up: a form on arguments and earlier look-ups, from 0 on, and an entry for each of its values.
//! `level` has the operations, `program` the lists made of them, and `specs` what they compute on whole numbers and the
//! rules that they keep.
#![tactic(auto)]

mod level;
mod program;

pub use level::{ApLevel, ApOp};
pub use lists::List;
pub use program::ApProgram;

#[cfg(test)]
mod tests;
