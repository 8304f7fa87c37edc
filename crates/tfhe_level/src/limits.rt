//! The limits of circuits, beside those that circuits share with patterns.

/// How many weighted sums a circuit has at most.
pub const MOST_LINS: usize = 1088;

/// How many key switches a circuit has at most.
pub const MOST_SWITCHES: usize = 1024;

/// How many bootstraps a circuit has at most.
pub const MOST_BOOTS: usize = 1024;
