//! The commands on programs: `clear`, `compile` and `check`.
//!
//! Each module has one command, with the files that it reads and what it does with them; `program` has the step that they
//! begin with.
#![tactic(auto)]

pub mod check;
pub mod clear;
pub mod compile;
mod program;
mod table;
