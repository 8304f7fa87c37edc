//! What files are used with: the first of their values that differs.

ghost use Rattle.std.specs.Prelude.{◌≡◌};
ghost use Rattle.refusals.specs.Reading.{Gives};
ghost use Rattle.fhe_params.specs.Params.{IsGlwe};
ghost use Rattle.cipher_files.specs.SecretFile.{secret_file, secret_fits};
ghost use Rattle.cipher_files.specs.CipherFile.{same_range, same_ranges, head_fits, key_fits};

use crate::head::CipherHead;
use fhe_params::{Params, dimension};
use lwe_core::{Big, LweKey, Secret};
use sealed_files::{FileRefusal, same_digest, same_word};
use word_ring::word_of;

/// Compares secret keys and the digest that they came with, `have`, to a circuit's parameters, whose digest is
/// `wanted`: the digest, n, and D.
#[tactic(auto, unfolding(crate::specs::SecretFile::secret_fits))]
pub fn secret_fits(
    wanted: &[u8; 32],
    params: &Params,
    have: &[u8; 32],
    secret: &Secret,
) -> Result<(), FileRefusal>
    requires { IsGlwe params.now.glwe }
    ensures { Gives (λ x. x) result
        (secret_fits wanted.now params.now (secret_file have.now secret.now.small secret.now.big)) }
{
    same_digest(wanted, have)?;
    same_word(u64::from(params.lwe.n), secret.small.len() as u64)?;
    same_word(u64::from(dimension(params)), secret.big.len() as u64)
}

/// Compares a range.
#[tactic(auto, unfolding(crate::specs::CipherFile::same_range))]
fn same_range(left: (i64, i64), right: (i64, i64)) -> Result<(), FileRefusal>
    ensures { Gives (λ x. x) result (same_range left right) }
{
    same_word(word_of(left.0), word_of(right.0))?;
    same_word(word_of(left.1), word_of(right.1))
}

/// Compares ranges in order, each end after the other, as far as both lists go.
fn same_ranges(lefts: &[(i64, i64)], rights: &[(i64, i64)]) -> Result<(), FileRefusal>
    ensures { Gives (λ x. x) result (same_ranges lefts.now rights.now) }
{
    let count = lefts.len().min(rights.len());
    for i in 0..count {
        same_range(lefts[i], rights[i])?;
    }
    Ok(())
}

/// Compares the head of a file of ciphertexts to the one that is wanted, as a circuit's inputs are: the digest, D, P,
/// the number of ciphertexts, and then each range.
#[tactic(auto, unfolding(crate::specs::CipherFile::head_fits))]
pub fn head_fits(wanted: &CipherHead, head: &CipherHead) -> Result<(), FileRefusal>
    ensures { Gives (λ x. x) result (head_fits wanted.now head.now) }
{
    same_digest(&wanted.digest, &head.digest)?;
    same_word(u64::from(wanted.dim), u64::from(head.dim))?;
    same_word(u64::from(wanted.width), u64::from(head.width))?;
    same_word(wanted.ranges.len() as u64, head.ranges.len() as u64)?;
    same_ranges(wanted.ranges.as_slice(), head.ranges.as_slice())
}

/// Compares the head of a file of ciphertexts to a big secret key and the digest that it came with: the digest, and D.
#[tactic(auto, unfolding(crate::specs::CipherFile::key_fits))]
pub fn key_fits(digest: &[u8; 32], big: &LweKey<Big>, head: &CipherHead) -> Result<(), FileRefusal>
    ensures { Gives (λ x. x) result (key_fits digest.now big.now head.now) }
{
    same_digest(digest, &head.digest)?;
    same_word(big.len() as u64, u64::from(head.dim))
}
