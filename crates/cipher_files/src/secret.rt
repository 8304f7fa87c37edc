//! Files of secret keys.

ghost use Rattle.std.specs.Prelude.{◌≡◌, ◌+◌, ◌*◌, ◌^◌, ◌<◌, ◌≤◌, ◌++◌, length, IfOk, OnOk};
ghost use Rattle.refusals.specs.Reading.{Gives};
ghost use Rattle.lwe_core.specs.Secret.{bit_words};
ghost use Rattle.sealed_files.specs.Limits.{words_place, word_size, file_limit};
ghost use Rattle.sealed_files.specs.Frame.{words_bytes};
ghost use Rattle.sealed_files.specs.FrameReading.{word_at};
ghost use Rattle.cipher_files.specs.SecretFile.{secret_file, secret_bytes, HasSecretLimits, IsSecretFile, bit_at, bits_at, secret_in, secret_of};

use crate::laws::laws;
use crate::rows::known_digest;
use lwe_core::{Kind, LweKey, Secret};
use refusals::unless;
use sealed_files::{
    FileFault, FileKind, FileRefusal, begin, check_file, digest_in, put_word, seal, word_at,
};
use std::alloc::{AllocError, Global};

/// The bit at a place.
#[tactic(auto, unfolding(crate::specs::SecretFile::bit_at))]
fn bit_at(bytes: &[u8], place: usize) -> Result<bool, FileRefusal>
    requires room { words_place + word_size * (place + 1) ≤ length bytes.now }
    requires few { place < 2 ^ 32 }
    ensures { Gives (λ bit. bit) result (bit_at bytes.now place) }
{
    let word = word_at(bytes, place);
    unless(
        word <= 1,
        FileFault::Field {
            place: place as u32,
        },
    )?;
    Ok(word == 1)
}

/// So many bits, from a place on.
fn bits_at(
    alloc: Global,
    bytes: &[u8],
    place: usize,
    count: usize,
) -> Result<Vec<bool>, FileRefusal>
    requires room { words_place + word_size * (place + count) ≤ length bytes.now }
    requires few { place + count < 2 ^ 32 }
    ensures { Gives (λ bits. bits.items) result (bits_at bytes.now place count) }
{
    let mut bits = Vec::with_capacity(alloc, count)?;
    for i in 0..count {
        bits.push(bit_at(bytes, place + i)?)?;
    }
    Ok(bits)
}

/// The bits of both keys.
#[tactic(auto, unfolding(crate::specs::SecretFile::secret_in))]
fn secret_in(alloc: Global, bytes: &[u8]) -> Result<([u8; 32], Secret), FileRefusal>
    requires small { word_at bytes.now 0 ≤ 1024 }
    requires big { word_at bytes.now 1 ≤ 24576 }
    requires room { words_place + word_size * (2 + (word_at bytes.now 0 + word_at bytes.now 1)) ≤ length bytes.now }
    ensures { Gives (λ read. secret_file read.0 read.1.small read.1.big) result (secret_in bytes.now) }
{
    let n = word_at(bytes, 0) as usize;
    let dim = word_at(bytes, 1) as usize;
    let small = bits_at(alloc, bytes, 2, n)?;
    let big = bits_at(alloc, bytes, 2 + n, dim)?;
    let secret = Secret {
        big: LweKey::from_bits(big),
        small: LweKey::from_bits(small),
    };
    Ok((digest_in(bytes), secret))
}

#[tactic(auto, unfolding(crate::specs::SecretFile::secret_of))]
fn checked_secret(alloc: Global, bytes: &[u8]) -> Result<([u8; 32], Secret), FileRefusal>
    ensures { Gives (λ read. secret_file read.0 read.1.small read.1.big) result (secret_of bytes.now) }
{
    sealed_files::laws::laws();
    check_file(FileKind::Secret, bytes)?;
    secret_in(alloc, bytes)
}

/// The secret keys that the bytes hold, all of the bytes, and the digest of the parameters that they were made under.
///
/// The checks are those of a sealed file, and then that each bit is 0 or 1. The bytes are checked before any memory is
/// taken.
pub fn read_secret(alloc: Global, bytes: &[u8]) -> Result<([u8; 32], Secret), FileRefusal>
    ensures exact { Gives (λ read. secret_file read.0 read.1.small read.1.big) result (secret_of bytes.now) }
    // So it can be printed again.
    ensures valid { IfOk result (λ read. IsSecretFile (secret_file read.0 read.1.small read.1.big)) }
{
    laws();
    checked_secret(alloc, bytes)
}

/// Puts a word for each bit.
fn put_bits<K: Kind>(out: &mut Vec<u8>, key: &LweKey<K>) -> Result<(), AllocError>
    ensures { OnOk result (out.new.items ≡ out.old.items ++ words_bytes (bit_words key.now)) }
{
    for i in 0..key.len() {
        put_word(out, u64::from(key.bit(i)))?;
    }
    Ok(())
}

fn spelled_secret(alloc: Global, digest: &[u8; 32], secret: &Secret) -> Result<Vec<u8>, AllocError>
    requires { HasSecretLimits (secret_file digest.now secret.now.small secret.now.big) }
    ensures { IfOk result (λ out. out.items
        ≡ secret_bytes (secret_file digest.now secret.now.small secret.now.big)) }
{
    let (n, dim) = (secret.small.len(), secret.big.len());
    let mut out = begin(alloc, FileKind::Secret, digest, 88 + 8 * (n + dim))?;
    put_word(&mut out, n as u64)?;
    put_word(&mut out, dim as u64)?;
    put_bits(&mut out, &secret.small)?;
    put_bits(&mut out, &secret.big)?;
    seal(&mut out)?;
    Ok(out)
}

/// The bytes of the file of these secret keys, in order, with the digest of their parameters. It fails only where memory
/// runs out.
pub fn print_secret(
    alloc: Global,
    digest: &[u8; 32],
    secret: &Secret,
) -> Result<Vec<u8>, AllocError>
    requires { HasSecretLimits (secret_file digest.now secret.now.small secret.now.big) }
    ensures spelled { IfOk result (λ out. out.items
        ≡ secret_bytes (secret_file digest.now secret.now.small secret.now.big)) }
    // So the file is one that is read again.
    ensures valid { OnOk result (IsSecretFile (secret_file digest.now secret.now.small secret.now.big)) }
    ensures size { IfOk result (λ out. length out.items ≤ file_limit) }
{
    laws();
    known_digest(digest);
    let out = spelled_secret(alloc, digest, secret)?;
    Ok(out)
}
