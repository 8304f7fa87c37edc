//! Secret keys in a file.

ghost use Rattle.std.specs.Prelude.{◌<◌, [], ◌∷◌, All, IfOk};
ghost use Rattle.refusals.specs.Reading.{Gives};
ghost use Rattle.cipher_files.specs.SecretFile.{secret_file, IsSecretFile};
ghost use Rattle.command_forms.specs.Outside.{store_at};
ghost use Rattle.command_forms.specs.Steps.{ReadsAs};
ghost use Rattle.command_files.specs.Files.{secret_in, secret_from};

use cipher_files::{FILE_LIMIT, read_secret};
use command_forms::{Fault, FileKind, StepRefusal, read_file};
use lwe_core::Secret;
use port_store::Store;
use refusals::Refusal;
use std::alloc::Global;

/// The secret keys in the bytes of a file, and the digest of the parameters that they are for.
fn secret_in(alloc: Global, bytes: &[u8]) -> Result<([u8; 32], Secret), Refusal<Fault>>
    ensures file { Gives (λ read. secret_file read.0 read.1.small read.1.big) result (secret_in bytes.now) }
    ensures valid { IfOk result (λ read. IsSecretFile (secret_file read.0 read.1.small read.1.big)) }
{
    match read_secret(alloc, bytes) {
        Ok(read) => Ok(read),
        Err(Refusal::Fault(fault)) => Err(Refusal::Fault(Fault::File(FileKind::Secret, fault))),
        Err(Refusal::Memory) => Err(Refusal::Memory),
    }
}

/// The secret keys in a file, which is let go once it is read, and the digest of the parameters that they are for.
pub fn secret_from<S: Store>(
    alloc: Global,
    store: &mut S,
    name: &str,
) -> Result<([u8; 32], Secret), StepRefusal>
    ensures reads { ReadsAs (name.now ∷ [])
        (store_at S.files S.shown S.read_faults S.write_faults store.old)
        (store_at S.files S.shown S.read_faults S.write_faults store.new)
        (λ read. secret_file read.0 read.1.small read.1.big) result (secret_from name.now) }
    ensures valid { IfOk result (λ read. IsSecretFile (secret_file read.0 read.1.small read.1.big)) }
{
    let bytes = read_file(alloc, store, name, FILE_LIMIT)?;
    Ok(secret_in(alloc, &bytes)?)
}
