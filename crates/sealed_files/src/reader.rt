//! Reading the bytes of a file, check by check.

ghost use Rattle.std.specs.Prelude.{◌≡◌, ◌+◌, ◌*◌, ◌<◌, ◌≤◌, ◌^◌, length, OnOk};
ghost use Rattle.refusals.specs.Reading.{Gives};
ghost use Rattle.fhe_params.specs.Limits.{most_polynomials, most_log_n, most_dimension, most_small_dimension, most_digit_bits};
ghost use Rattle.forms.specs.Limits.{most_inputs};
ghost use Rattle.sealed_files.specs.Limits.{words_place, word_size, seal_size};
ghost use Rattle.sealed_files.specs.Kinds.{header_of, AreWithin, switch_words, boot_words, cipher_words, body_words, word_count, file_size};
ghost use Rattle.sealed_files.specs.FrameReading.{word_at, fields_within, header_words, digest_in, has_room, has_size, is_sealed, frame_in, frame_of};

use crate::fault::{FileFault, FileRefusal};
use crate::kinds::{FileKind, header_of, is_within, magic_of};
use crate::limits::{MAGIC_SIZE, SEAL_SIZE, WORD_SIZE, WORDS_PLACE};
use refusals::unless;
use sha2::{Digest, Sha256};

/// The word at a place, counted from 0 behind the digest.
#[inline]
#[tactic(auto, unfolding(crate::specs::FrameReading::word_of_bytes))]
pub fn word_at(bytes: &[u8], place: usize) -> u64
    requires { words_place + word_size * (place + 1) ≤ length bytes.now }
    ensures { result ≡ word_at bytes.now place }
{
    let start = WORDS_PLACE + WORD_SIZE * place;
    let word = &bytes[start..start + WORD_SIZE];
    u64::from_le_bytes([
        word[0], word[1], word[2], word[3], word[4], word[5], word[6], word[7],
    ])
}

/// The digest of the parameters.
pub fn digest_in(bytes: &[u8]) -> [u8; 32]
    requires { words_place ≤ length bytes.now }
    ensures { result ≡ digest_in bytes.now }
{
    let mut digest = [0; 32];
    digest.copy_from_slice(&bytes[MAGIC_SIZE..WORDS_PLACE]);
    digest
}

/// The bytes of a file of so many words.
fn file_size(count: u64) -> u64
    requires { count < 2 ^ 60 }
    ensures { result ≡ file_size count }
{
    WORDS_PLACE as u64 + WORD_SIZE as u64 * count + SEAL_SIZE as u64
}

fn has_room(want: u64, bytes: &[u8]) -> Result<(), FileRefusal>
    ensures exact { Gives (λ x. x) result (has_room want bytes.now) }
    ensures held { OnOk result (want ≤ length bytes.now) }
{
    let have = bytes.len() as u64;
    unless(want <= have, FileFault::Length { want, have })
}

fn has_size(want: u64, bytes: &[u8]) -> Result<(), FileRefusal>
    ensures exact { Gives (λ x. x) result (has_size want bytes.now) }
    ensures held { OnOk result (length bytes.now ≡ want) }
{
    let have = bytes.len() as u64;
    unless(have == want, FileFault::Length { want, have })
}

/// The header keeps its limits.
fn fields_within(kind: FileKind, bytes: &[u8]) -> Result<(), FileRefusal>
    requires { file_size (length (header_of kind)) ≤ length bytes.now }
    ensures exact { Gives (λ x. x) result (fields_within 0 (header_of kind) bytes.now) }
    ensures held { OnOk result (AreWithin (header_of kind) (header_words kind bytes.now)) }
{
    for (place, field) in header_of(kind).iter().enumerate() {
        unless(
            is_within(field, word_at(bytes, place)),
            FileFault::Field {
                place: place as u32,
            },
        )?;
    }
    Ok(())
}

/// The coefficients of a polynomial.
#[tactic(auto, using(crate::proofs::Sizes::coefficients_few))]
fn coefficients(log_n: u64) -> u64
    requires { log_n ≤ most_log_n }
    ensures number { result ≡ 2 ^ log_n }
    ensures most { result ≤ 2 ^ most_log_n }
{
    1 << log_n
}

/// The words of a switch key.
#[tactic(auto, using(crate::proofs::Sizes::switch_dimension, crate::proofs::Sizes::switch_rows, crate::proofs::Sizes::switch_few))]
fn switch_words(k: u64, log_n: u64, n: u64, level_s: u64) -> u64
    requires k { k ≤ most_polynomials }
    requires log_n { log_n ≤ most_log_n }
    requires n { n ≤ most_small_dimension }
    requires level_s { level_s ≤ most_digit_bits }
    ensures number { result ≡ switch_words k log_n n level_s }
    ensures few { result < 2 ^ 58 }
{
    k * coefficients(log_n) * level_s * (n + 1)
}

/// The words of a boot key.
#[tactic(auto, using(crate::proofs::Sizes::boot_parts, crate::proofs::Sizes::boot_rows, crate::proofs::Sizes::boot_few))]
fn boot_words(k: u64, log_n: u64, n: u64, level_b: u64) -> u64
    requires k { k ≤ most_polynomials }
    requires log_n { log_n ≤ most_log_n }
    requires n { n ≤ most_small_dimension }
    requires level_b { level_b ≤ most_digit_bits }
    ensures number { result ≡ boot_words k log_n n level_b }
    ensures few { result < 2 ^ 58 }
{
    n * ((k + 1) * (k + 1)) * level_b * coefficients(log_n)
}

/// The words of ciphertexts.
#[tactic(auto, using(crate::proofs::Sizes::cipher_few))]
fn cipher_words(dim: u64, number: u64) -> u64
    requires dim { dim ≤ most_dimension }
    requires number { number ≤ most_inputs }
    ensures number { result ≡ cipher_words dim number }
    ensures few { result < 2 ^ 58 }
{
    2 * number + number * (dim + 1)
}

/// How many words stand behind the header.
fn body_words(kind: FileKind, bytes: &[u8]) -> u64
    requires room { file_size (length (header_of kind)) ≤ length bytes.now }
    requires header { AreWithin (header_of kind) (header_words kind bytes.now) }
    ensures number { result ≡ body_words kind (header_words kind bytes.now) }
    ensures few { result < 2 ^ 59 }
{
    match kind {
        FileKind::Secret => word_at(bytes, 0) + word_at(bytes, 1),
        FileKind::Eval => {
            let (k, log_n, n) = (word_at(bytes, 0), word_at(bytes, 1), word_at(bytes, 2));
            switch_words(k, log_n, n, word_at(bytes, 4))
                + boot_words(k, log_n, n, word_at(bytes, 3))
        }
        FileKind::Cipher => cipher_words(word_at(bytes, 0), word_at(bytes, 2)),
    }
}

#[tactic(auto, unfolding(crate::specs::FrameReading::is_sealed))]
fn is_sealed(bytes: &[u8]) -> bool
    requires { seal_size ≤ length bytes.now }
    ensures { result ≡ is_sealed bytes.now }
{
    let (body, seal) = bytes.split_at(bytes.len() - SEAL_SIZE);
    seal == Sha256::digest(body).as_slice()
}

/// Checks the bytes as a file of this kind, all of them: that there is room for a header, the magic, the limits of each
/// field of the header, the length that the header says, and the seal. The first check that fails is the fault.
///
/// It takes no memory, and goes over the bytes once, for the seal. After it [`digest_in`] and [`word_at`] read the file.
#[tactic(auto, unfolding(crate::specs::FrameReading::frame_of))]
pub fn check_file(kind: FileKind, bytes: &[u8]) -> Result<(), FileRefusal>
    ensures { Gives (λ _. frame_in kind bytes.now) result (frame_of kind bytes.now) }
{
    let fields = header_of(kind).len() as u64;
    has_room(file_size(fields), bytes)?;
    unless(&bytes[..MAGIC_SIZE] == magic_of(kind), FileFault::Magic)?;
    fields_within(kind, bytes)?;
    has_size(file_size(fields + body_words(kind, bytes)), bytes)?;
    unless(is_sealed(bytes), FileFault::Digest)?;
    Ok(())
}
