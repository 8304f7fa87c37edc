//! `decrypt`: the values that the ciphertexts of a file stand for.

ghost use Rattle.std.specs.Prelude.{◌≡◌, [], ◌∷◌, true, length, OnOk};
ghost use Rattle.refusals.specs.Reading.{Gives};
ghost use Rattle.sealed_files.specs.declared.kinds.FileKind.TheVariants as kind;
ghost use Rattle.cipher_files.specs.SecretFile.{secret_file};
ghost use Rattle.cipher_files.specs.CipherFile.{file_of, key_fits, IsCipherFile};
ghost use Rattle.command_forms.specs.Names.{are_distinct};
ghost use Rattle.command_forms.specs.Outcome.{as_fault};
ghost use Rattle.command_forms.specs.Outside.{MayLeave, outside, store_at};
ghost use Rattle.command_forms.specs.Steps.{ReadsAs};
ghost use Rattle.key_commands.specs.Words.{decrypt_view, decrypt_files};
ghost use Rattle.key_commands.specs.Decrypt.{values_at, decrypted_text, decrypted, decrypt_outcome};

use crate::values::values_at;
use cipher_files::{CipherHead, key_fits};
use command_files::{cipher_from, secret_from};
use command_forms::{Fault, FileKind, Status, StepRefusal, put_all};
use lwe_core::{Big, Lwe, LweKey, Secret};
use port_store::{Sink, Store};
use refusals::Refusal;
use std::alloc::Global;
use value_files::print_values;

/// The words of `decrypt SECRET OUTPUT`.
#[derive(Clone, Copy, Debug)]
pub struct DecryptNames<'a> {
    pub secret: &'a str,
    pub output: &'a str,
}

/// Whether the ciphertexts are under the big key.
fn check_key(digest: &[u8; 32], big: &LweKey<Big>, head: &CipherHead) -> Result<(), Refusal<Fault>>
    ensures exact { Gives (λ x. x) result
        (as_fault (λ f. Fault.File kind.Cipher f) (key_fits digest.now big.now head.now)) }
    ensures long { OnOk result (length big.now ≡ head.now.dim) }
{
    sealed_files::laws::laws();
    match key_fits(digest, big, head) {
        Ok(()) => Ok(()),
        Err(Refusal::Fault(fault)) => Err(Refusal::Fault(Fault::File(FileKind::Cipher, fault))),
        Err(Refusal::Memory) => Err(Refusal::Memory),
    }
}

/// The values of all ciphertexts.
fn decrypted_values(
    alloc: Global,
    big: &LweKey<Big>,
    head: &CipherHead,
    list: &[Lwe<Big>],
) -> Result<Vec<i64>, Refusal<Fault>>
    requires file { IsCipherFile (file_of head.now list.now) }
    requires long { length big.now ≡ head.now.dim }
    ensures { Gives (λ values. values.items) result
        (as_fault Fault.Value (values_at 1 head.now.width big.now head.now.ranges list.now)) }
{
    match values_at(alloc, head.width, big, head.ranges.as_slice(), list) {
        Ok(values) => Ok(values),
        Err(Refusal::Fault(fault)) => Err(Refusal::Fault(Fault::Value(fault))),
        Err(Refusal::Memory) => Err(Refusal::Memory),
    }
}

/// The lines of the values of ciphertexts under the secret keys, which must fit them.
#[tactic(auto, unfolding(crate::specs::Decrypt::decrypted_text))]
fn decrypted_text(
    alloc: Global,
    digest: &[u8; 32],
    secret: &Secret,
    head: &CipherHead,
    list: &[Lwe<Big>],
) -> Result<Vec<u8>, Refusal<Fault>>
    requires { IsCipherFile (file_of head.now list.now) }
    ensures { Gives (λ text. text.items) result
        (decrypted_text (secret_file digest.now secret.now.small secret.now.big) (file_of head.now list.now)) }
{
    check_key(digest, &secret.big, head)?;
    let values = decrypted_values(alloc, &secret.big, head, list)?;
    Ok(print_values(alloc, &values)?)
}

/// The lines of the values, out of both files.
fn decrypted<S: Store>(
    alloc: Global,
    store: &mut S,
    names: &DecryptNames<'_>,
) -> Result<Vec<u8>, StepRefusal>
    ensures { ReadsAs (names.now.secret.now ∷ names.now.output.now ∷ [])
        (store_at S.files S.shown S.read_faults S.write_faults store.old)
        (store_at S.files S.shown S.read_faults S.write_faults store.new)
        (λ text. text.items) result (decrypted (decrypt_view names.now)) }
{
    let (digest, secret) = secret_from(alloc, store, names.secret)?;
    let (head, list) = cipher_from(alloc, store, names.output)?;
    Ok(decrypted_text(alloc, &digest, &secret, &head, &list)?)
}

/// Puts the values that the ciphertexts of OUTPUT stand for under the secret keys of SECRET, a line each, in one put. No
/// file is written.
pub fn decrypt<S: Store, O: Sink>(
    alloc: Global,
    store: &mut S,
    out: &mut O,
    names: &DecryptNames<'_>,
) -> Status
    requires distinct { are_distinct (decrypt_files (decrypt_view names.now)) ≡ true }
    ensures { MayLeave (decrypt_outcome (decrypt_view names.now)) result
        (outside (store_at S.files S.shown S.read_faults S.write_faults store.old) O.taken O.put_faults out.old)
        (outside (store_at S.files S.shown S.read_faults S.write_faults store.new) O.taken O.put_faults out.new) }
{
    match decrypted(alloc, store, names) {
        Ok(text) => put_all(out, &text),
        Err(refusal) => Status::from(refusal),
    }
}
