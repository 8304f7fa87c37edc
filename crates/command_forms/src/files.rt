//! Files that a command reads and writes.

ghost use Rattle.std.specs.Prelude.{◌<◌, ◌≤◌, [], ◌∷◌, length, All, IfOk};
ghost use Rattle.command_forms.specs.Outcome.{reading, wrote, wrote_all, file_write};
ghost use Rattle.command_forms.specs.Outside.{store_at};
ghost use Rattle.command_forms.specs.Steps.{ReadsAs, WritesAs, PutsAs};

use crate::fault::{Fault, StepRefusal};
use crate::status::Status;
use fhe_level::{LimitFault, LimitName};
use port_store::{PortFault, ReadRefusal, Sink, Store, read_whole, write_whole};
use std::alloc::Global;

/// What the bytes of a file are, for proofs alone.
#[inline]
fn known(bytes: &[u8])
    ensures { All (λ byte. byte < 256) bytes.now }
{}

/// Reads a whole file of at most so many bytes.
pub fn read_file<S: Store>(
    alloc: Global,
    store: &mut S,
    name: &str,
    most: u64,
) -> Result<Vec<u8>, StepRefusal>
    ensures reads { ReadsAs (name.now ∷ [])
        (store_at S.files S.shown S.read_faults S.write_faults store.old)
        (store_at S.files S.shown S.read_faults S.write_faults store.new)
        (λ v. v.items) result (λ files. reading files name.now most) }
    ensures short { IfOk result (λ v. length v.items ≤ most) }
    ensures bytes { IfOk result (λ v. All (λ byte. byte < 256) v.items) }
{
    port_store::laws::laws();
    match read_whole(alloc, store, name, most) {
        Ok(bytes) => {
            known(&bytes);
            Ok(bytes)
        }
        Err(ReadRefusal::Failed) => Err(StepRefusal::Failure),
        Err(ReadRefusal::Memory) => Err(StepRefusal::Memory),
        Err(ReadRefusal::Above { size }) => Err(StepRefusal::Fault(Fault::Limit(LimitFault {
            what: LimitName::Bytes,
            count: u128::from(size),
            most: u128::from(most),
        }))),
    }
}

/// Writes one whole file, and answers that it was written, that a call failed, or
/// that memory ran out.
pub fn write_file<S: Store>(store: &mut S, name: &str, bytes: &[u8]) -> Status
    ensures { WritesAs (wrote name.now bytes.now) result
        (store_at S.files S.shown S.read_faults S.write_faults store.old)
        (store_at S.files S.shown S.read_faults S.write_faults store.new) }
{
    match write_whole(store, name, bytes) {
        Ok(()) => Status::Ok,
        Err(PortFault::Failed) => Status::Write,
        Err(PortFault::Memory) => Status::Memory,
    }
}

/// Writes two whole files, one after the other; and answers that both were written, that a call failed, or that memory
/// ran out. Where the first is not written whole, the second is as it was.
pub fn write_both<S: Store>(
    store: &mut S,
    first: &str,
    first_bytes: &[u8],
    second: &str,
    second_bytes: &[u8],
) -> Status
    ensures { WritesAs
        (wrote_all Status.Ok (file_write first.now first_bytes.now ∷ file_write second.now second_bytes.now ∷ [])) result
        (store_at S.files S.shown S.read_faults S.write_faults store.old)
        (store_at S.files S.shown S.read_faults S.write_faults store.new) }
{
    match write_file(store, first, first_bytes) {
        Status::Ok => write_file(store, second, second_bytes),
        other => other,
    }
}

/// Puts all of the bytes in one call, and answers that they were put, that the call failed, or that memory ran out.
pub fn put_all<O: Sink>(out: &mut O, bytes: &[u8]) -> Status
    ensures { PutsAs bytes.now result (O.taken out.old) (O.taken out.new) (O.put_faults out.old) (O.put_faults out.new) }
{
    match out.put(bytes) {
        Ok(()) => Status::Ok,
        Err(PortFault::Failed) => Status::Write,
        Err(PortFault::Memory) => Status::Memory,
    }
}
