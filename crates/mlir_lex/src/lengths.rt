//! How long the gap and the token at the front of some bytes are.

ghost use Rattle.std.specs.Prelude.{◌≡◌, ◌+◌, ◌^◌, ◌<◌, ◌≤◌, ◌==◌, length, false};
ghost use Rattle.std.specs.Char.{is_ascii_digit};
ghost use Rattle.std.specs.List.{prefix_len, position_or_len};
ghost use Rattle.mlir_lex.specs.Spellings.{begins_word, continues_word, continues_value, is_text_byte, is_sign, is_blank};
ghost use Rattle.mlir_lex.specs.Tokens.{gap_length};
ghost use Rattle.mlir_lex.specs.Lengths.{IsFirstToken, closed_length, kind_of_first, marked_length, starts_with_digit, token_length, word_length};

use super::TokenKind;

/// How many bytes at the front are blanks and comments.
pub(crate) fn gap_length(bytes: &[u8]) -> usize
    ensures value { result ≡ gap_length false bytes.now }
    ensures within { result ≤ length bytes.now }
{
    let mut at = 0;
    loop {
        at += blanks_length(&bytes[at..]);
        if !bytes[at..].starts_with(b"//") {
            return at;
        }
        at += comment_length(&bytes[at..]);
    }
}

/// How many bytes at the front are blanks.
fn blanks_length(bytes: &[u8]) -> usize
    ensures value { result ≡ prefix_len is_blank bytes.now }
    ensures within { result ≤ length bytes.now }
{
    bytes.iter().take_while(|byte| is_blank(**byte)).count()
}

/// How many bytes stand before the first LF, all where there is none.
fn comment_length(bytes: &[u8]) -> usize
    ensures value { result ≡ position_or_len (λ b. b == 10) bytes.now }
    ensures within { result ≤ length bytes.now }
{
    bytes.iter().take_while(|byte| **byte != b'\n').count()
}

/// The kind and the length of the token at the front, `None` where none starts there.
pub(crate) fn first_token(bytes: &[u8]) -> Option<(TokenKind, usize)>
    ensures { IsFirstToken bytes.now result }
{
    let (first, rest) = bytes.split_first()?;
    let kind = kind_of_first(*first, starts_with_digit(rest))?;
    let length = token_length(kind, *first, rest);
    if length == 0 {
        None
    } else {
        Some((kind, length))
    }
}

/// The only kind of a token that begins with the byte. A `-` begins an integer or the sign `->`.
fn kind_of_first(byte: u8, digit_follows: bool) -> Option<TokenKind>
    ensures { result ≡ kind_of_first byte digit_follows }
{
    match byte {
        _ if byte.is_ascii_digit() => Some(TokenKind::Int),
        _ if begins_word(byte) => Some(TokenKind::Word),
        b'%' => Some(TokenKind::Value),
        b'@' => Some(TokenKind::Symbol),
        b'!' => Some(TokenKind::TypeName),
        b'"' => Some(TokenKind::Text),
        _ if is_sign(byte) => Some(TokenKind::Sign),
        b'-' if digit_follows => Some(TokenKind::Int),
        b'-' => Some(TokenKind::Sign),
        _ => None,
    }
}

/// The length of the longest token of the kind, from its first byte and those behind, 0 where none starts.
fn token_length(kind: TokenKind, first: u8, rest: &[u8]) -> usize
    ensures { result ≡ token_length kind first rest.now }
{
    match kind {
        TokenKind::Word => 1 + word_tail_length(rest),
        TokenKind::Int => 1 + digits_length(rest),
        TokenKind::Value => marked_length(value_tail_length(rest)),
        TokenKind::Symbol | TokenKind::TypeName => marked_length(word_length(rest)),
        TokenKind::Text => marked_length(closed_length(rest)),
        TokenKind::Sign if first != b'-' => 1,
        TokenKind::Sign if rest.first() == Some(&b'>') => 2,
        TokenKind::Sign => 0,
    }
}

/// The length of a mark of one byte and of what has to follow it, 0 where nothing does.
fn marked_length(length: usize) -> usize
    requires { length < 2 ^ 63 }
    ensures { result ≡ marked_length length }
{
    if length == 0 { 0 } else { length + 1 }
}

/// The length of the longest word at the front, 0 where none starts.
fn word_length(bytes: &[u8]) -> usize
    ensures value { result ≡ word_length bytes.now }
    ensures within { result ≤ length bytes.now }
{
    match bytes {
        [first, rest @ ..] if begins_word(*first) => 1 + word_tail_length(rest),
        _ => 0,
    }
}

/// The length up to and with the closing quote, 0 where another byte or the end comes before it.
fn closed_length(bytes: &[u8]) -> usize
    ensures value { result ≡ closed_length bytes.now }
    ensures within { result ≤ length bytes.now }
{
    let length = text_tail_length(bytes);
    if length < bytes.len() && bytes[length] == b'"' {
        length + 1
    } else {
        0
    }
}

/// How many bytes at the front go on in a word.
fn word_tail_length(bytes: &[u8]) -> usize
    ensures value { result ≡ prefix_len continues_word bytes.now }
    ensures within { result ≤ length bytes.now }
{
    bytes
        .iter()
        .take_while(|byte| continues_word(**byte))
        .count()
}

/// How many bytes at the front go on in the name of a value.
fn value_tail_length(bytes: &[u8]) -> usize
    ensures value { result ≡ prefix_len continues_value bytes.now }
    ensures within { result ≤ length bytes.now }
{
    bytes
        .iter()
        .take_while(|byte| continues_value(**byte))
        .count()
}

/// How many bytes at the front may stand in a string.
fn text_tail_length(bytes: &[u8]) -> usize
    ensures value { result ≡ prefix_len is_text_byte bytes.now }
    ensures within { result ≤ length bytes.now }
{
    bytes.iter().take_while(|byte| is_text_byte(**byte)).count()
}

/// How many digits stand at the front.
fn digits_length(bytes: &[u8]) -> usize
    ensures value { result ≡ prefix_len is_ascii_digit bytes.now }
    ensures within { result ≤ length bytes.now }
{
    bytes
        .iter()
        .take_while(|byte| byte.is_ascii_digit())
        .count()
}

/// Whether a digit stands at the front.
fn starts_with_digit(bytes: &[u8]) -> bool
    ensures { result ≡ starts_with_digit bytes.now }
{
    match bytes {
        [first, ..] => first.is_ascii_digit(),
        [] => false,
    }
}

/// Whether the byte is a letter or `_`.
fn begins_word(byte: u8) -> bool
    ensures { result ≡ begins_word byte }
{
    byte.is_ascii_alphabetic() || byte == b'_'
}

/// Whether the byte is a letter, a digit, `_`, `$` or `.`.
fn continues_word(byte: u8) -> bool
    ensures { result ≡ continues_word byte }
{
    byte.is_ascii_alphanumeric() || byte == b'_' || byte == b'$' || byte == b'.'
}

/// Whether the byte is one of those or `-`.
fn continues_value(byte: u8) -> bool
    ensures { result ≡ continues_value byte }
{
    continues_word(byte) || byte == b'-'
}

/// Whether the byte may stand in a string: from 32 to 126, other than `"` and `\`.
fn is_text_byte(byte: u8) -> bool
    ensures { result ≡ is_text_byte byte }
{
    (32..=126).contains(&byte) && byte != b'"' && byte != b'\\'
}

/// Whether the byte is a sign.
fn is_sign(byte: u8) -> bool
    ensures { result ≡ is_sign byte }
{
    b"(){}[]<>,:=".contains(&byte)
}

/// Whether the byte separates tokens: a space, a tab, CR or LF.
fn is_blank(byte: u8) -> bool
    ensures { result ≡ is_blank byte }
{
    byte == b' ' || byte == b'\t' || byte == b'\r' || byte == b'\n'
}
