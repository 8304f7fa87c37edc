//! A line of a node or of an out.

use lists::List;

/// A line of a node or of an out, with its numbers. Whether they keep the rules of circuits is not asked.
#[derive(Debug, Drop)]
pub enum Line {
    /// `%NUMBER = input LO HI`
    Input {
        number: i128,
        lo: i128,
        hi: i128,
    },
    /// `%NUMBER = lin CONSTANT W %J W %J ..`: the terms are pairs of `J` and `W`.
    Lin {
        number: i128,
        constant: i128,
        terms: List<(i128, i128)>,
    },
    /// `%NUMBER = switch %SOURCE`
    Switch {
        number: i128,
        source: i128,
    },
    /// `%NUMBER = boot %SOURCE E0 E1 ..`
    Boot {
        number: i128,
        source: i128,
        entries: List<i128>,
    },
    /// `out %SOURCE LO HI`
    Out {
        source: i128,
        lo: i128,
        hi: i128,
    },
}
