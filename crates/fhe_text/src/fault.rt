//! Why a program text is refused.

use refusals::Refusal;

/// Why no program was read.
pub type TextRefusal = Refusal<TextFault>;

/// Where and why a text is no program: the line and the column of a byte, each counted from 1.
#[derive(Clone, Copy, PartialEq, Eq, Debug)]
pub struct TextFault {
    pub line: u32,
    pub column: u32,
    pub kind: TextKind,
}

/// Why a text is no program.
#[derive(Clone, Copy, PartialEq, Eq, Debug)]
pub enum TextKind {
    /// No token starts there.
    Token,
    /// The token may not stand there.
    Syntax,
    /// The name is not new, or not defined before.
    Name,
    /// No operation has this name.
    Op,
    /// The type does not hold the constant's numbers, or the end of a range is too large.
    Constant,
    /// The length is not the list's, or none that a tensor has.
    Shape,
    /// The text ends before a program does.
    End,
}

/// What is wrong with the first token that is: how many tokens are left there, with it, and the kind. None is left
/// where the tokens end before a program does.
#[derive(Clone, Copy, PartialEq, Eq, Debug)]
pub(crate) struct Wrong {
    pub left: usize,
    pub kind: TextKind,
}
