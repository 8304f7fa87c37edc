//! One token, in its role.

ghost use Rattle.std.specs.Prelude.{◌≡◌, ◌+◌, ◌<◌, ◌≤◌, length, IfOk, IsTrue};
ghost use Rattle.mlir_lex.specs.Spellings.{spells};
ghost use Rattle.refusals.specs.Reading.{Gives};
ghost use Rattle.fhe_text.specs.Roles.{sign, word, is_kind};
ghost use Rattle.fhe_text.specs.Rest.{pieces, IsBehind, IsFirst};
ghost use Rattle.fhe_text.specs.Descent.{wrong_at, kind_at, role_at, sign_at, stands, kind_stands};

use crate::fault::{TextKind, Wrong};
use crate::rest::Rest;
use mlir_lex::TokenKind;
use refusals::Refusal;

/// Why a production is not read.
pub(crate) type ReadRefusal = Refusal<Wrong>;

/// A value at the front of some tokens, and the tokens behind it.
pub(crate) type Read<'a, T> = Result<(T, Rest<'a>), ReadRefusal>;

/// What is wrong at the first of these tokens.
pub(crate) fn wrong<T>(rest: Rest<'_>, kind: TextKind) -> Result<T, ReadRefusal>
    ensures { result ≡ Err (Refusal.Fault (wrong_at kind (pieces rest.entry))) }
{
    let left = rest.tokens.len();
    let kind = if left == 0 { TextKind::End } else { kind };
    Err(Refusal::Fault(Wrong { left, kind }))
}

/// Whether the two kinds are one.
fn is_kind(kind: TokenKind, other: TokenKind) -> bool
    ensures { result ≡ is_kind kind other }
{
    kind == other
}

/// The first token, its bytes, and the tokens behind it.
fn first(rest: Rest<'_>) -> Option<(TokenKind, &[u8], Rest<'_>)>
    ensures { IsFirst rest.entry result }
{
    let (token, tokens) = rest.tokens.split_first()?;
    let text = &rest.bytes[token.start as usize..token.end as usize];
    let bytes = rest.bytes;
    Some((token.kind, text, Rest { bytes, tokens }))
}

/// The bytes of a token of the kind.
#[tactic(auto, unfolding(crate::specs::Descent::kind_at))]
pub(crate) fn kind_at(rest: Rest<'_>, kind: TokenKind) -> Read<'_, &[u8]>
    ensures exact { Gives (λ x. (x.0.now, pieces x.1)) result (kind_at kind (pieces rest.entry)) }
    ensures spelled { IfOk result (λ x. IsTrue (spells kind x.0.now)) }
    ensures behind { IfOk result (λ x. IsBehind rest.entry x.1) }
{
    let Some((found, text, after)) = first(rest) else {
        return wrong(rest, TextKind::Syntax);
    };
    if !is_kind(kind, found) {
        return wrong(rest, TextKind::Syntax);
    }
    Ok((text, after))
}

/// The sign.
#[tactic(auto, unfolding(crate::specs::Descent::sign_at, crate::specs::Descent::role_at))]
pub(crate) fn sign_at<'a>(rest: Rest<'a>, spelling: &[u8]) -> Read<'a, &'a [u8]>
    ensures exact { Gives (λ x. (x.0.now, pieces x.1)) result (sign_at spelling.now (pieces rest.entry)) }
    ensures behind { IfOk result (λ x. IsBehind rest.entry x.1) }
{
    let (text, after) = kind_at(rest, TokenKind::Sign)?;
    if text != spelling {
        return wrong(rest, TextKind::Syntax);
    }
    Ok((text, after))
}

/// The word.
#[tactic(auto, unfolding(crate::specs::Descent::role_at))]
pub(crate) fn word_at<'a>(rest: Rest<'a>, spelling: &[u8]) -> Read<'a, &'a [u8]>
    ensures exact { Gives (λ x. (x.0.now, pieces x.1)) result (role_at (word spelling.now) (pieces rest.entry)) }
    ensures behind { IfOk result (λ x. IsBehind rest.entry x.1) }
{
    let (text, after) = kind_at(rest, TokenKind::Word)?;
    if text != spelling {
        return wrong(rest, TextKind::Syntax);
    }
    Ok((text, after))
}

/// Whether the first token is of the kind and has the bytes.
pub(crate) fn begins(rest: Rest<'_>, kind: TokenKind, text: &[u8]) -> bool
    ensures { result ≡ stands kind text.now (pieces rest.entry) }
{
    match first(rest) {
        Some((found, bytes, _)) => is_kind(kind, found) && bytes == text,
        None => false,
    }
}

/// Whether the first token is the name of a value.
pub(crate) fn begins_value(rest: Rest<'_>) -> bool
    ensures { result ≡ kind_stands TokenKind.Value (pieces rest.entry) }
{
    match first(rest) {
        Some((found, _, _)) => is_kind(TokenKind::Value, found),
        None => false,
    }
}
