//! Rows of words in files.

ghost use Rattle.std.specs.Prelude.{◌≡◌, ◌+◌, ◌*◌, ◌<◌, ◌≤◌, ◌++◌, length, All, OnOk};
ghost use Rattle.word_ring.specs.Words.{IsWord};
ghost use Rattle.sealed_files.specs.Frame.{words_bytes};
ghost use Rattle.sealed_files.specs.Limits.{words_place, word_size};
ghost use Rattle.sealed_files.specs.FrameReading.{words_at};

use lwe_core::{Kind, Lwe};
use sealed_files::{put_words, word_at};
use std::alloc::AllocError;
use word_ring::rows;

/// Sets the words of a ciphertext to those from a place on.
pub(crate) fn read_row<K: Kind>(row: &mut Lwe<K>, bytes: &[u8], place: usize)
    requires { words_place + word_size * (place + length row.old) ≤ length bytes.now }
    ensures { row.new ≡ words_at bytes.now place (length row.old) }
{
    for i in 0..row.words().len() {
        row.set(i, word_at(bytes, place + i));
    }
}

/// What a digest is, for proofs alone.
#[inline]
pub(crate) fn known_digest(digest: &[u8; 32])
    ensures long { length digest.now ≡ 32 }
    ensures bytes { All (λ byte. byte < 256) digest.now }
{
    let _bytes = digest.as_slice();
}

/// Puts the words of a row.
pub(crate) fn put_row(out: &mut Vec<u8>, words: &[u64]) -> Result<(), AllocError>
    ensures ok { OnOk result (out.new.items ≡ out.old.items ++ words_bytes words.now) }
    ensures words { OnOk result (All IsWord words.now) }
{
    rows::known(words);
    put_words(out, words)
}
