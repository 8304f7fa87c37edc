//! The tokens that are left to read.

ghost use Rattle.std.specs.Prelude.{All};
ghost use Rattle.mlir_lex.specs.Tokens.{IsWithin};
ghost use Rattle.mlir_lex.specs.Pieces.{IsSpelled};

use mlir_lex::Token;

/// The last tokens of a text, with the bytes of all of it.
#[derive(Clone, Copy)]
pub(crate) struct Rest<'a> {
    pub bytes: &'a [u8],
    pub tokens: &'a [Token],
    ghost within: { All (IsWithin bytes.now) tokens.now },
    ghost spelled: { All (IsSpelled bytes.now) tokens.now },
}
