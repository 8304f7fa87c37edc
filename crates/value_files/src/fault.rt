//! Why a value file is refused.

use refusals::Refusal;

/// Why no values were read.
pub type ValueRefusal = Refusal<ValueFault>;

/// The first line, counted from 1, at which a value file is wrong, and why.
#[derive(Clone, Copy, Debug, PartialEq, Eq)]
pub struct ValueFault {
    pub line: u32,
    pub kind: ValueKind,
}

/// What is wrong with a value.
#[derive(Clone, Copy, Debug, PartialEq, Eq)]
pub enum ValueKind {
    /// The line is no number.
    Number,
    /// The number lies outside the range of its argument.
    Range,
    /// There is no argument left for the line.
    Many,
    /// The file ends before the line, and arguments are left.
    Few,
    /// The result of this number decodes to no value of its range.
    Decoded,
}
