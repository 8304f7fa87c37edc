//! The tokens of a program text.
//!
//! A text is bytes. Spaces, tabs, CR and LF separate tokens, and so do comments, which go from `//` to the next
//! LF or the end and may hold any bytes. The longest match is taken. A byte at which no token starts stops the
//! tokens, an unclosed string at its first quote.
#![tactic(auto)]

ghost use Rattle.std.specs.Prelude.{All, IfOk, length, ◌^◌, ◌≤◌};
ghost use Rattle.mlir_lex.specs.Tokens.{AreTokensOf, IsNextFrom, IsWithin};

pub use lists::List;
use std::alloc::{AllocError, Global};

pub mod laws;
mod lengths;

/// What a token is. Letters and digits are ASCII.
#[derive(Clone, Copy, PartialEq, Eq, Debug)]
pub enum TokenKind {
    /// A letter or `_`, then letters, digits, `_`, `$`, `.`.
    Word,
    /// One or more digits, with or without a `-` directly before.
    Int,
    /// `%`, then one or more letters, digits, `_`, `$`, `.`, `-`.
    Value,
    /// `@`, then a word.
    Symbol,
    /// `!`, then a word.
    TypeName,
    /// `"`, then bytes from 32 to 126 other than `"` and `\`, then `"`.
    Text,
    /// One of `(` `)` `{` `}` `[` `]` `<` `>` `,` `:` `=` `->`.
    Sign,
}

/// A token, by the places of its first byte and of the byte after its last, counted from 0.
#[derive(Clone, Copy, PartialEq, Eq, Debug)]
pub struct Token {
    pub kind: TokenKind,
    pub start: u32,
    pub end: u32,
}

/// The place of the first byte at which no token starts, counted from 0.
#[derive(Clone, Copy, PartialEq, Eq, Debug)]
pub struct LexFault {
    pub at: u32,
}

/// The tokens of a text, in order, and where they stop before its end.
#[derive(Debug, Drop)]
pub struct Tokens {
    pub list: List<Token>,
    pub stop: Option<LexFault>,
}

/// The tokens of at most 2^20 bytes, and the first place at which no token starts, if there is one.
///
/// One pass, and no byte is copied. Want of memory for the list is the only refusal.
pub fn lex(alloc: Global, bytes: &[u8]) -> Result<Tokens, AllocError>
    requires { length bytes.now ≤ 2 ^ 20 }
    ensures tokens { IfOk result (λ tokens. AreTokensOf bytes.now tokens.list tokens.stop) }
    ensures within { IfOk result (λ tokens. All (IsWithin bytes.now) tokens.list) }
{
    let mut list = Vec::new(alloc);
    let mut place = 0;
    let stop = loop {
        match next_token(bytes, place) {
            Ok(Some(token)) => {
                list.push(token)?;
                place = token.end as usize;
            }
            Ok(None) => break None,
            Err(fault) => break Some(fault),
        }
    };
    Ok(Tokens {
        list: List::from_vec(list),
        stop,
    })
}

/// The first token from the place on, `None` where only blanks and comments are left.
fn next_token(bytes: &[u8], place: usize) -> Result<Option<Token>, LexFault>
    requires few { length bytes.now ≤ 2 ^ 20 }
    requires within { place ≤ length bytes.now }
    ensures { IsNextFrom bytes.now place result }
{
    let start = place + lengths::gap_length(&bytes[place..]);
    if start == bytes.len() {
        return Ok(None);
    }
    let at = start as u32;
    match lengths::first_token(&bytes[start..]) {
        Some((kind, length)) => Ok(Some(Token {
            kind,
            start: at,
            end: at + length as u32,
        })),
        None => Err(LexFault { at }),
    }
}

#[cfg(test)]
mod tests;
