//! Writing the bytes of a file.

ghost use Rattle.std.specs.Prelude.{◌≡◌, ◌++◌, IfOk, OnOk, All};
ghost use Rattle.word_ring.specs.Words.{IsWord};
ghost use Rattle.sealed_files.specs.Frame.{word_bytes, words_bytes, front_bytes, sealed};

use crate::kinds::{FileKind, magic_of};
use sha2::{Digest, Sha256};
use std::alloc::{AllocError, Global};

/// What stands before the words of a file, with room for so many bytes. It fails only where memory runs out.
pub fn begin(
    alloc: Global,
    kind: FileKind,
    digest: &[u8; 32],
    room: usize,
) -> Result<Vec<u8>, AllocError>
    ensures { IfOk result (λ out. out.items ≡ front_bytes kind digest.now) }
{
    let mut out = Vec::with_capacity(alloc, room)?;
    out.extend_from_slice(magic_of(kind))?;
    out.extend_from_slice(digest)?;
    Ok(out)
}

/// Puts a word as its eight bytes, the lowest first.
#[tactic(auto, unfolding(crate::specs::Frame::word_bytes))]
pub fn put_word(out: &mut Vec<u8>, word: u64) -> Result<(), AllocError>
    ensures { OnOk result (out.new.items ≡ out.old.items ++ word_bytes word) }
{
    out.extend_from_slice(&word.to_le_bytes())
}

/// Puts words one after the other.
pub fn put_words(out: &mut Vec<u8>, words: &[u64]) -> Result<(), AllocError>
    ensures { OnOk result (out.new.items ≡ out.old.items ++ words_bytes words.now) }
{
    for word in words {
        put_word(out, *word)?;
    }
    Ok(())
}

/// Seals the bytes: puts the SHA-256 of them all.
pub fn seal(out: &mut Vec<u8>) -> Result<(), AllocError>
    ensures { OnOk result (out.new.items ≡ sealed out.old.items) }
{
    let seal = Sha256::digest(out.as_slice());
    out.extend_from_slice(&seal)
}
