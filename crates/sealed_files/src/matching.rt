//! What a file is used with.

ghost use Rattle.std.specs.Prelude.{◌≡◌};
ghost use Rattle.refusals.specs.Reading.{Gives};
ghost use Rattle.sealed_files.specs.Matching.{padded, same_digest, same_word};

use crate::fault::{FileFault, FileRefusal};
use refusals::unless;

/// A word as 32 bytes: its own eight, the lowest first, and zeros.
#[tactic(auto, unfolding(crate::specs::Frame::word_bytes))]
pub fn padded(word: u64) -> [u8; 32]
    ensures { result ≡ padded word }
{
    let mut bytes = [0; 32];
    let (front, _) = bytes.split_at_mut(8);
    front.copy_from_slice(&word.to_le_bytes());
    bytes
}

/// Compares a digest of a file, at the right, with that of what it is used with.
#[tactic(auto, unfolding(crate::specs::Matching::same_digest))]
pub fn same_digest(left: &[u8; 32], right: &[u8; 32]) -> Result<(), FileRefusal>
    ensures { Gives (λ x. x) result (same_digest left.now right.now) }
{
    unless(
        left.as_slice() == right.as_slice(),
        FileFault::Mismatch {
            left: *left,
            right: *right,
        },
    )
}

/// Compares a word of a file, at the right, with that of what it is used with.
#[tactic(auto, unfolding(crate::specs::Matching::same_word))]
pub fn same_word(left: u64, right: u64) -> Result<(), FileRefusal>
    ensures { Gives (λ x. x) result (same_word left right) }
{
    unless(
        left == right,
        FileFault::Mismatch {
            left: padded(left),
            right: padded(right),
        },
    )
}
