//! The text of a program: reading it to its source, with the first fault of a text that is none, and printing it.
#![tactic(auto)]

mod args;
mod constants;
mod fault;
pub mod laws;
mod names;
mod numbers;
mod op_names;
mod operations;
mod printing;
mod reader;
mod rest;
mod source;
mod tokens;
mod types;

pub use fault::{TextFault, TextKind, TextRefusal};
pub use lists::List;
pub use printing::print_program;
pub use reader::read_program;
pub use source::{Arg, Entries, OpName, Source, Statement, WrittenType};

#[cfg(test)]
mod tests;
