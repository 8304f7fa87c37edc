//! Why a circuit text is refused.

use refusals::Refusal;

/// Why no circuit was read.
pub type CircuitRefusal = Refusal<CircuitFault>;

/// Where and why a circuit text is refused. Lines are counted from 1.
#[derive(Clone, Copy, Debug, PartialEq, Eq)]
pub struct CircuitFault {
    pub line: u32,
    pub kind: CircuitKind,
}

/// Why a circuit text is refused, in the order in which the kinds go before each other.
#[derive(Clone, Copy, Debug, PartialEq, Eq)]
pub enum CircuitKind {
    /// No line of one of the forms of its place stands there.
    Spelling,
    /// A parameter is outside its limits.
    Params,
    /// A node or an out breaks its rule, or no out stands before the line.
    Node,
    /// The width is not the least that holds the ranges of key switches and outs.
    Width,
    /// A constraint on the parameters is broken: its bound, or 2^64 where that is less, and its limit.
    Constraint { bound: u128, limit: u128 },
}
