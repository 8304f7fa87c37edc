//! Why a circuit text is misspelled.

use refusals::Refusal;

/// No line of the text that has one of the forms of its place stands there. Lines are counted from 1.
#[derive(Clone, Copy, Debug, PartialEq, Eq)]
pub struct Misspelled {
    pub line: u32,
}

/// Why no line was read.
pub type LineRefusal = Refusal<Misspelled>;
