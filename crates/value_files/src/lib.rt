//! Value files: a whole number a line, one for each argument.
//!
//! A line goes up to a line feed, or to the end of the file; a carriage return at its end is no part of it. It holds
//! one to eighteen decimal digits, with a `-` before them or without; zeros may lead.
#![tactic(auto)]

mod fault;
pub mod laws;
mod printer;
mod reader;

pub use fault::{ValueFault, ValueKind, ValueRefusal};
pub use printer::print_values;
pub use reader::{VALUES_LIMIT, read_values};

#[cfg(test)]
mod tests;
