//! A store in memory, a fake for tests.

ghost use Rattle.std.specs.Prelude.{◌≡◌, ◌++◌, List, ◌∷◌, [], length, ◌≤◌, if◌then◌else◌, Option, Some, None, IfOk, IfErr, OnOk, OnErr, IsErrOf, is_some, is_ok};
ghost use Rattle.std.specs.Option.{option_copied};
ghost use Rattle.std.specs.FinMap as map;
ghost use Rattle.port_store.specs.Files.{Told, MayHold, IsMissing, OfFile, Copies, IsCreated, MayBeCreated, IsAppended, MayBeAppended};
ghost use Rattle.port_store.specs.Faults.{Rises};
ghost use Rattle.port_store.specs.Listed.{one_more, IsUnlessMemory};
ghost use Rattle.port_store.specs.Memory.{no_files, listed_now, file_answer, after_read, count_from, filled_from, buffer_after, create_answer, after_create, after_append, extended};
ghost use Rattle.port_store.specs.Kept.{files_of};

use crate::failures::{kept_of, unless_memory};
use crate::fault::PortFault;
use crate::store::Store;
use std::alloc::{AllocError, Global};
use std::collections::BTreeMap;
use std::marker::Model;

/// A store in memory that tells its files, and fails at the calls that a test lists.
///
/// It counts the calls of [`Store`](crate::Store) from 0 on.
#[derive(Drop)]
pub struct MemStore {
    alloc: Global,
    files: BTreeMap<String, Vec<u8>>,
    calls: u64,
    failures: Vec<(u64, u64)>,
    read_faults: u64,
    write_faults: u64,
}

impl Model for MemStore {
    ghost use Rattle.port_store.specs.Memory.{Memory, memory_code};
    ghost use Rattle.port_store.specs.Kept.{files_of};

    ghost Value = { Memory };

    ghost coded = { memory_code };

    ghost view = { λ s. record {
      files = files_of s.files;
      calls = s.calls;
      failures = s.failures.items;
      read_faults = s.read_faults;
      write_faults = s.write_faults;
    } };
}

impl MemStore {
    /// A store with no files, none of whose calls fail.
    pub fn new(alloc: Global) -> MemStore
        ensures { result ≡ no_files }
    {
        MemStore {
            alloc,
            files: BTreeMap::new(alloc),
            calls: 0,
            failures: Vec::new(alloc),
            read_faults: 0,
            write_faults: 0,
        }
    }

    /// Makes a file of these bytes, in place of one that has the name. It is not counted as a call.
    pub fn set(&mut self, name: &str, bytes: &[u8]) -> Result<(), AllocError>
        ensures ok { OnOk result (self.new ≡ record self.old { files = map.insert self.old.files name.now bytes.now }) }
        ensures err { OnErr result (self.new ≡ self.old) }
    {
        put(self.alloc, &mut self.files, name, bytes)
    }

    /// Lists a call, by its number, that is to fail. An append keeps at most `kept` bytes of its piece then.
    ///
    /// Where a call is listed twice, the first entry counts.
    pub fn fail(&mut self, call: u64, kept: u64) -> Result<(), AllocError>
        ensures ok { OnOk result (self.new ≡ record self.old { failures = self.old.failures ++ (call, kept) ∷ [] }) }
        ensures err { OnErr result (self.new ≡ self.old) }
    {
        self.failures.push((call, kept))?;
        Ok(())
    }

    /// The bytes of a file, `None` exactly where no file has the name. It is not counted as a call.
    pub fn bytes(&self, name: &str) -> Option<&[u8]>
        ensures { option_copied result ≡ map.get self.now.files name.now }
    {
        held(&self.files, name)
    }
}

impl MemStore {
    // Counts a call, and answers how many bytes it keeps where it is listed to fail.
    fn next_call(&mut self) -> Option<u64>
        ensures listed { result ≡ listed_now self.old }
        ensures counted { self.new ≡ record self.old { calls = one_more self.old.calls } }
    {
        let listed = kept_of(&self.failures, self.calls);
        self.calls = self.calls.saturating_add(1);
        listed
    }

    // Counts a call that reads a file, and answers whether it is listed to fail, which is a fault if the file is there.
    fn next_read(&mut self, name: &str) -> bool
        ensures listed { result ≡ is_some (listed_now self.old) }
        ensures after { self.new ≡ after_read self.old name.now }
        ensures never_fall { self.old.read_faults ≤ self.new.read_faults }
    {
        let listed = self.next_call().is_some();
        if listed && self.bytes(name).is_some() {
            self.read_faults = self.read_faults.saturating_add(1);
        }
        listed
    }

    // Adds a piece at the end of a file, which stays as it is where memory runs out.
    fn add(&mut self, name: &str, piece: &[u8]) -> Result<(), PortFault>
        ensures after { self.new ≡ record self.old {
          files = if is_ok result then extended self.old.files name.now piece.now else self.old.files;
        } }
        ensures only_memory { IfErr result (λ fault. fault ≡ PortFault.Memory) }
    {
        unless_memory(extend(&mut self.files, name, piece))
    }
}

impl Store for MemStore {
    ghost files = { λ s. Some s.files };

    ghost shown = { λ _. None };

    ghost read_faults = { λ s. s.read_faults };

    ghost write_faults = { λ s. s.write_faults };

    fn size(&mut self, name: &str) -> Result<u64, PortFault>
        ensures answer { result ≡ file_answer self.old name.now length }
        ensures after { self.new ≡ after_read self.old name.now }

        ensures files { Some self.new.files ≡ Some self.old.files }
        ensures never_fall { self.old.read_faults ≤ self.new.read_faults }
        ensures no_write { self.new.write_faults ≡ self.old.write_faults }
        ensures size { IfOk result (λ size. OfFile (Some self.old.files) name.now (λ bytes. size ≡ length bytes)) }
        ensures ok { OnOk result (self.new.read_faults ≡ self.old.read_faults) }
        ensures failed { IsErrOf result PortFault.Failed → MayHold (Some self.old.files) name.now
            → Rises self.old.read_faults self.new.read_faults }
        ensures missing { IsMissing (Some self.old.files) name.now → self.new.read_faults ≡ self.old.read_faults }
    {
        let listed = self.next_read(name);
        match self.bytes(name) {
            Some(bytes) if !listed => Ok(bytes.len() as u64),
            _ => Err(PortFault::Failed),
        }
    }

    fn read_at(&mut self, name: &str, at: u64, buffer: &mut [u8]) -> Result<usize, PortFault>
        ensures answer { result ≡ file_answer self.old name.now (count_from at (length buffer.old)) }
        ensures after { self.new ≡ after_read self.old name.now }
        ensures filled { buffer.new ≡ buffer_after self.old name.now at buffer.old }

        ensures files { Some self.new.files ≡ Some self.old.files }
        ensures never_fall { self.old.read_faults ≤ self.new.read_faults }
        ensures no_write { self.new.write_faults ≡ self.old.write_faults }
        ensures room { IfOk result (λ count. count ≤ length buffer.old) }
        ensures copied { IfOk result (λ count.
            OfFile (Some self.old.files) name.now (λ bytes. Copies bytes at buffer.new count)) }
        ensures ok { OnOk result (self.new.read_faults ≡ self.old.read_faults) }
        ensures failed { IsErrOf result PortFault.Failed → MayHold (Some self.old.files) name.now
            → Rises self.old.read_faults self.new.read_faults }
        ensures missing { IsMissing (Some self.old.files) name.now → self.new.read_faults ≡ self.old.read_faults }
    {
        let listed = self.next_read(name);
        match self.bytes(name) {
            Some(bytes) if !listed => Ok(copy_from(bytes, at, buffer)),
            _ => Err(PortFault::Failed),
        }
    }

    fn create(&mut self, name: &str) -> Result<(), PortFault>
        ensures answer { IsUnlessMemory result (create_answer self.old) }
        ensures after { self.new ≡ after_create self.old name.now result }

        ensures never_fall { self.old.write_faults ≤ self.new.write_faults }
        ensures no_read { self.new.read_faults ≡ self.old.read_faults }
        ensures created { OnOk result (Told (IsCreated name.now) (Some self.old.files) (Some self.new.files)) }
        ensures ok { OnOk result (self.new.write_faults ≡ self.old.write_faults) }
        ensures err { OnErr result (Told (MayBeCreated name.now) (Some self.old.files) (Some self.new.files)) }
        ensures failed { IsErrOf result PortFault.Failed → Rises self.old.write_faults self.new.write_faults }
    {
        if self.next_call().is_some() {
            self.write_faults = self.write_faults.saturating_add(1);
            return Err(PortFault::Failed);
        }
        unless_memory(self.set(name, &[]))
    }

    fn append(&mut self, name: &str, bytes: &[u8]) -> Result<(), PortFault>
        ensures answer { IsUnlessMemory result (file_answer self.old name.now (λ _. tt)) }
        ensures after { self.new ≡ after_append self.old name.now bytes.now result }

        ensures never_fall { self.old.write_faults ≤ self.new.write_faults }
        ensures no_read { self.new.read_faults ≡ self.old.read_faults }
        ensures appended { OnOk result
            (Told (IsAppended name.now bytes.now) (Some self.old.files) (Some self.new.files)) }
        ensures ok { OnOk result (self.new.write_faults ≡ self.old.write_faults) }
        ensures err { OnErr result
            (Told (MayBeAppended name.now bytes.now) (Some self.old.files) (Some self.new.files)) }
        ensures failed { IsErrOf result PortFault.Failed → MayHold (Some self.old.files) name.now
            → Rises self.old.write_faults self.new.write_faults }
        ensures missing { IsMissing (Some self.old.files) name.now → self.new.write_faults ≡ self.old.write_faults }
    {
        let listed = self.next_call();
        if self.bytes(name).is_none() {
            return Err(PortFault::Failed);
        }
        let Some(kept) = listed else {
            return self.add(name, bytes);
        };
        self.write_faults = self.write_faults.saturating_add(1);
        let kept = kept.min(bytes.len() as u64) as usize;
        self.add(name, &bytes[..kept])?;
        Err(PortFault::Failed)
    }
}

// Copies the bytes from a place on to the front of the buffer, as many as it has room for, and answers how many.
fn copy_from(bytes: &[u8], at: u64, buffer: &mut [u8]) -> usize
    ensures count { result ≡ count_from at (length buffer.old) bytes.now }
    ensures filled { buffer.new ≡ filled_from at buffer.old bytes.now }
{
    let rest = if at < bytes.len() as u64 {
        &bytes[at as usize..]
    } else {
        &[]
    };
    let count = rest.len().min(buffer.len());
    buffer[..count].copy_from_slice(&rest[..count]);
    count
}

// Puts a file under a name.
fn put(
    alloc: Global,
    files: &mut BTreeMap<String, Vec<u8>>,
    name: &str,
    bytes: &[u8],
) -> Result<(), AllocError>
    ensures ok { OnOk result (files_of files.new ≡ map.insert (files_of files.old) name.now bytes.now) }
    ensures err { OnErr result (files_of files.new ≡ files_of files.old) }
{
    let name = String::from_str(alloc, name)?;
    let bytes = Vec::from_slice(alloc, bytes)?;
    files.insert(name, bytes)?;
    Ok(())
}

// The bytes of a file.
fn held<'a>(files: &'a BTreeMap<String, Vec<u8>>, name: &str) -> Option<&'a [u8]>
    ensures { option_copied result ≡ map.get (files_of files.now) name.now }
{
    match files.get(name) {
        Some(bytes) => Some(bytes.as_slice()),
        None => None,
    }
}

// Adds a piece at the end of a file, which is there.
fn extend(files: &mut BTreeMap<String, Vec<u8>>, name: &str, piece: &[u8]) -> Result<(), AllocError>
    ensures ok { OnOk result (files_of files.new ≡ extended (files_of files.old) name.now piece.now) }
    ensures err { OnErr result (files_of files.new ≡ files_of files.old) }
{
    match files.get_mut(name) {
        Some(bytes) => bytes.extend_from_slice(piece),
        None => Ok(()),
    }
}
