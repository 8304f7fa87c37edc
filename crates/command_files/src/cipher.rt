//! Ciphertexts in a file.

ghost use Rattle.std.specs.Prelude.{[], ◌∷◌, IfOk};
ghost use Rattle.refusals.specs.Reading.{Gives};
ghost use Rattle.cipher_files.specs.CipherFile.{file_of, IsCipherFile};
ghost use Rattle.command_forms.specs.Outside.{store_at};
ghost use Rattle.command_forms.specs.Steps.{ReadsAs};
ghost use Rattle.command_files.specs.Files.{cipher_in, cipher_from};

use cipher_files::{CipherHead, FILE_LIMIT, read_cipher};
use command_forms::{Fault, FileKind, StepRefusal, read_file};
use lwe_core::{Big, Lwe};
use port_store::Store;
use refusals::Refusal;
use std::alloc::Global;

/// The ciphertexts in the bytes of a file, and what it says of them.
fn cipher_in(alloc: Global, bytes: &[u8]) -> Result<(CipherHead, Vec<Lwe<Big>>), Refusal<Fault>>
    ensures file { Gives (λ read. file_of read.0 read.1.items) result (cipher_in bytes.now) }
    ensures valid { IfOk result (λ read. IsCipherFile (file_of read.0 read.1.items)) }
{
    match read_cipher(alloc, bytes) {
        Ok(read) => Ok(read),
        Err(Refusal::Fault(fault)) => Err(Refusal::Fault(Fault::File(FileKind::Cipher, fault))),
        Err(Refusal::Memory) => Err(Refusal::Memory),
    }
}

/// The ciphertexts in a file, which is let go once it is read, and what it says of them.
pub fn cipher_from<S: Store>(
    alloc: Global,
    store: &mut S,
    name: &str,
) -> Result<(CipherHead, Vec<Lwe<Big>>), StepRefusal>
    ensures reads { ReadsAs (name.now ∷ [])
        (store_at S.files S.shown S.read_faults S.write_faults store.old)
        (store_at S.files S.shown S.read_faults S.write_faults store.new)
        (λ read. file_of read.0 read.1.items) result (cipher_from name.now) }
    ensures valid { IfOk result (λ read. IsCipherFile (file_of read.0 read.1.items)) }
{
    let bytes = read_file(alloc, store, name, FILE_LIMIT)?;
    Ok(cipher_in(alloc, &bytes)?)
}
