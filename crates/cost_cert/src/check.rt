//! Checking that bytes are the one certificate, and telling where two texts differ.

ghost use Rattle.std.specs.Prelude.{◌≡◌, ◌+◌, ◌≤◌, length, count_by, Some, None, if◌then◌else◌};
ghost use Rattle.fhe_params.specs.Table.{IsTable};
ghost use Rattle.tfhe_level.specs.Rules.{IsShape};
ghost use Rattle.cost_cert.specs.declared.check.CertRefusal.TheVariants.{Memory};
ghost use Rattle.cost_cert.specs.Check.{file_limit, common_prefix, is_same, is_line_feed, line_apart, check_of, Answers};

use crate::certificate::print_cert;
use fhe_params::{Choice, Table};
use param_search::search;
use std::alloc::{AllocError, Global};
use tfhe_level::Shape;

/// Why a certificate is refused: the first line, counted from 1, in which it differs from the one certificate, or memory.
#[derive(Clone, Copy, Debug, PartialEq, Eq)]
pub enum CertRefusal {
    Line(u32),
    Memory,
}

impl From<AllocError> for CertRefusal {
    ghost from_gives = { λ _ refusal. refusal ≡ Memory };

    fn from(_error: AllocError) -> CertRefusal {
        CertRefusal::Memory
    }
}

/// The length of the longest prefix that both have.
fn common_length(text: &[u8], bytes: &[u8]) -> usize
    ensures { result ≡ length (common_prefix text.now bytes.now) }
{
    let most = text.len().min(bytes.len());
    for at in 0..most {
        if text[at] != bytes[at] {
            return at;
        }
    }
    most
}

/// How many lines end in a text.
fn line_feeds(text: &[u8]) -> u32
    requires { length text.now ≤ file_limit }
    ensures count { result ≡ count_by is_line_feed text.now }
    ensures most { result ≤ file_limit }
{
    let mut count = 0;
    for byte in text {
        if *byte == b'\n' {
            count += 1;
        }
    }
    count
}

/// The first line in which two texts differ that have this many bytes in common.
fn line_after(text: &[u8], bytes: &[u8], same: usize) -> u32
    requires length { length bytes.now ≤ file_limit }
    requires same { same ≡ length (common_prefix text.now bytes.now) }
    ensures { result ≡ line_apart text.now bytes.now }
{
    line_feeds(&text[..same]) + 1
}

/// The first line, counted from 1, in which two texts differ, or that there is none: then they are the same. The second
/// has at most 2^29 bytes. Both are read up to there and not further.
pub fn line_apart(text: &[u8], bytes: &[u8]) -> Option<u32>
    requires { length bytes.now ≤ file_limit }
    ensures { result ≡ (if is_same text.now bytes.now then None else Some (line_apart text.now bytes.now)) }
{
    let same = common_length(text, bytes);
    if same == text.len() && same == bytes.len() {
        return None;
    }
    Some(line_after(text, bytes, same))
}

/// Whether the bytes are the one certificate of a circuit's shape and a table: then the chosen choice, or that there is
/// none, and else the first line that differs. Both texts are read up to there and not further. It refuses nothing else
/// but for memory.
#[tactic(auto, unfolding(crate::specs::Check::check_of))]
pub fn check_cert(
    alloc: Global,
    shape: &Shape,
    table: &Table,
    bytes: &[u8],
) -> Result<Option<Choice>, CertRefusal>
    requires shape { IsShape shape.now }
    requires table { IsTable table.now }
    requires length { length bytes.now ≤ file_limit }
    ensures { Answers result (check_of table.now shape.now bytes.now) }
{
    let found = search(alloc, shape, table)?;
    let text = print_cert(alloc, shape, table, &found)?;
    match line_apart(&text, bytes) {
        Some(line) => Err(CertRefusal::Line(line)),
        None => Ok(found.chosen),
    }
}
