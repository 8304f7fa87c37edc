//! The limits of patterns and of circuits, as far as they are the same.

/// How many arguments a program has at most, and a circuit inputs.
pub const MOST_INPUTS: usize = 64;

/// How many results a program has at most, and a circuit outs.
pub const MOST_OUTS: usize = 64;

/// The greatest size of a weight.
pub const MOST_WEIGHT: u64 = 1 << 40;

/// The greatest size of the constant of a form.
pub const MOST_CONSTANT: u64 = 1 << 41;

/// The least number of an argument, of a table's entry and of a result.
pub const LEAST_NUMBER: i64 = -(1 << 15);

/// The greatest such number.
pub const MOST_NUMBER: i64 = (1 << 16) - 1;

/// The most bits of a message.
pub const MOST_WIDTH: u32 = 16;
