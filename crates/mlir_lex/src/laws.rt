//! The laws of tokens, as a contract that a proof may call for. The call does nothing.

ghost use Rattle.mlir_lex.specs.Laws.{GapLaws, PieceLaws, SpellingLaws, TokenLaws};

/// All laws of tokens. Any bytes, also more than [`lex`](super::lex) takes, have one reading; a text that is made of
/// pieces is read as those pieces.
#[inline]
pub fn laws()
    ensures tokens { TokenLaws }
    ensures spellings { SpellingLaws }
    ensures gaps { GapLaws }
    ensures pieces { PieceLaws }
{}
