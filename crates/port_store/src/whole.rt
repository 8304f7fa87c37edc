//! A whole file at once, read under a limit and written in pieces.

ghost use Rattle.std.specs.Prelude.{◌≡◌, ◌≤◌, ◌<◌, ℕ, length, take, vec_len, List, ◌∷◌, Option, Some, IfOk, OnOk, OnErr, IsErrOf};
ghost use Rattle.port_store.specs.Files.{Told, MayHold, IsMissing, OfFile, IsWritten, MayBeWritten};
ghost use Rattle.port_store.specs.Faults.{Rises};
ghost use Rattle.port_store.specs.Refusals.{IfAbove};
ghost use Rattle.port_store.specs.Shown.{Shown, Accounts, whole, sized};

use crate::fault::{PortFault, ReadRefusal};
use crate::store::Store;
use std::alloc::{AllocError, Global};

/// The length in bytes of each append of [`write_whole`], but for the last one.
pub const PIECE: usize = 65_536;

/// Reads a whole file, which is refused where it is longer than `limit` bytes.
///
/// Memory of the file's size is taken once, before the first byte is read.
pub fn read_whole<S: Store>(
    alloc: Global,
    store: &mut S,
    name: &str,
    limit: u64,
) -> Result<Vec<u8>, ReadRefusal>
    ensures content { IfOk result (λ v. OfFile (S.files store.old) name.now (λ bytes. v.items ≡ bytes)) }
    ensures within { IfOk result (λ v. vec_len v ≤ limit) }
    ensures above { IfAbove result (λ size. limit < size) }
    ensures size { IfAbove result (λ size. OfFile (S.files store.old) name.now (λ bytes. size ≡ length bytes)) }

    // On every store that keeps account of what its calls gave, the bytes are those that `read_at` gave, in order.
    ensures shown { IfOk result (λ v.
        Accounts (λ account. whole name.now v.items ∷ account) (S.shown store.old) (S.shown store.new)) }
    ensures sized { IfAbove result (λ size.
        Accounts (λ account. sized name.now size ∷ account) (S.shown store.old) (S.shown store.new)) }
    ensures unseen { IsMissing (S.files store.old) name.now
        → Accounts (λ account. account) (S.shown store.old) (S.shown store.new) }

    // When a call failed, and what the counts say of it.
    ensures ok { OnOk result (S.read_faults store.new ≡ S.read_faults store.old) }
    ensures no_fault { IfAbove result (λ size. S.read_faults store.new ≡ S.read_faults store.old) }
    ensures failed { IsErrOf result ReadRefusal.Failed → MayHold (S.files store.old) name.now
        → Rises (S.read_faults store.old) (S.read_faults store.new) }
    ensures missing { IsMissing (S.files store.old) name.now → S.read_faults store.new ≡ S.read_faults store.old }

    // Whatever the answer.
    ensures files { S.files store.new ≡ S.files store.old }
    ensures never_fall { S.read_faults store.old ≤ S.read_faults store.new }
    ensures no_write { S.write_faults store.new ≡ S.write_faults store.old }
{
    let size = store.size(name)?;
    if size > limit {
        return Err(ReadRefusal::Above { size });
    }
    let mut buffer = zeros(alloc, size as usize)?;
    let filled = fill(store, name, &mut buffer)?;
    buffer.truncate(filled);
    Ok(buffer)
}

// A buffer of so many zeros.
fn zeros(alloc: Global, count: usize) -> Result<Vec<u8>, PortFault>
    ensures ok { IfOk result (λ v. vec_len v ≡ count) }
    ensures not_failed { IsErrOf result PortFault.Failed → ⊥ }
{
    match vec![in alloc; 0; count] {
        Ok(buffer) => Ok(buffer),
        Err(AllocError) => Err(PortFault::Memory),
    }
}

// Reads a file from its first byte on, until the buffer is full or the file ends, and answers how many bytes came.
fn fill<S: Store>(store: &mut S, name: &str, buffer: &mut [u8]) -> Result<usize, PortFault>
    requires { MayHold (S.files store.old) name.now }

    ensures content { IfOk result (λ count. OfFile (S.files store.old) name.now
        (λ bytes. take count buffer.new ≡ take (length buffer.old) bytes)) }
    ensures room { IfOk result (λ count. count ≤ length buffer.old) }
    ensures shown { IfOk result (λ count. (account : List Shown)
        → S.shown store.old ≡ Some (sized name.now (length buffer.old) ∷ account)
        → S.shown store.new ≡ Some (whole name.now (take count buffer.new) ∷ account)) }
    ensures ok { OnOk result (S.read_faults store.new ≡ S.read_faults store.old) }
    ensures failed { IsErrOf result PortFault.Failed → Rises (S.read_faults store.old) (S.read_faults store.new) }
    ensures files { S.files store.new ≡ S.files store.old }
    ensures never_fall { S.read_faults store.old ≤ S.read_faults store.new }
    ensures no_write { S.write_faults store.new ≡ S.write_faults store.old }
{
    let mut filled = 0;
    while filled < buffer.len() {
        let count = store.read_at(name, filled as u64, &mut buffer[filled..])?;
        if count == 0 {
            return Ok(filled);
        }
        filled += count;
    }
    Ok(filled)
}

/// Writes a whole file: makes or empties it, and then appends the bytes in pieces of [`PIECE`] bytes,
/// the last one shorter and none of them empty. Stops at the first fault.
pub fn write_whole<S: Store>(store: &mut S, name: &str, bytes: &[u8]) -> Result<(), PortFault>
    ensures written { OnOk result (Told (IsWritten name.now bytes.now) (S.files store.old) (S.files store.new)) }
    ensures err { OnErr result (Told (MayBeWritten name.now bytes.now) (S.files store.old) (S.files store.new)) }
    ensures ok { OnOk result (S.write_faults store.new ≡ S.write_faults store.old) }
    ensures failed { IsErrOf result PortFault.Failed → Rises (S.write_faults store.old) (S.write_faults store.new) }
    ensures never_fall { S.write_faults store.old ≤ S.write_faults store.new }
    ensures no_read { S.read_faults store.new ≡ S.read_faults store.old }
    ensures account { S.shown store.new ≡ S.shown store.old }
{
    store.create(name)?;
    let mut written = 0;
    while written < bytes.len() {
        let end = written + PIECE.min(bytes.len() - written);
        store.append(name, &bytes[written..end])?;
        written = end;
    }
    Ok(())
}
