//! The real files as a store, through the runtime that `main` is given.

ghost use Rattle.std.specs.Prelude.{◌≡◌, ◌≤◌, length, None, IfOk, OnOk, OnErr};
ghost use Rattle.port_store.specs.Faults.{Rises, no_faults};

use crate::fault::PortFault;
use crate::store::Store;
use std::alloc::Global;
use std::fs::{File, OpenFile, OpenOptions};
use std::io::{ErrorKind, Read, Seek, SeekFrom, Write};
use std::marker::Model;
use std::rt::Files;
use std::{fs, io};

/// The files of the system. A name is a path.
///
/// It tells nothing of the files. Only a regular file is read: a folder, a pipe, a socket or a device is a fault, and
/// nothing of it is read. A file that was created stays open for what is appended to it, until another one is created.
/// Each error of the system is a fault, a write that takes nothing among them, and a count stands still at `u64::MAX`.
#[derive(Drop)]
pub struct FileStore<'a, R: Files> {
    rt: &'a R,
    alloc: Global,
    created: Option<Created<R>>,
    read_faults: u64,
    write_faults: u64,
}

// The file that was created last, open for writing.
#[derive(Drop)]
struct Created<R: Files> {
    name: String,
    file: R::File,
}

impl<'a, R: Files> Model for FileStore<'a, R> {
    ghost use Rattle.port_store.specs.Faults.{FaultCounts};

    ghost Value = { FaultCounts };

    ghost view = { λ s. record { reads = s.read_faults; writes = s.write_faults } };
}

impl<'a, R: Files> FileStore<'a, R> {
    /// The files that the runtime reaches, with no faults so far. It takes no memory.
    pub fn new(rt: &'a R, alloc: Global) -> FileStore<'a, R>
        ensures { result ≡ no_faults }
    {
        FileStore {
            rt,
            alloc,
            created: None,
            read_faults: 0,
            write_faults: 0,
        }
    }

    // Counts a fault of `size` or `read_at`.
    fn read_fault(&mut self) -> PortFault
        ensures writes { self.new.writes ≡ self.old.writes }
        ensures never_fall { self.old.reads ≤ self.new.reads }
        ensures rises { Rises self.old.reads self.new.reads }
        ensures failed { result ≡ PortFault.Failed }
    {
        self.read_faults = self.read_faults.saturating_add(1);
        PortFault::Failed
    }

    // Counts a fault of `create` or `append`.
    fn write_fault(&mut self) -> PortFault
        ensures reads { self.new.reads ≡ self.old.reads }
        ensures never_fall { self.old.writes ≤ self.new.writes }
        ensures rises { Rises self.old.writes self.new.writes }
        ensures failed { result ≡ PortFault.Failed }
    {
        self.write_faults = self.write_faults.saturating_add(1);
        PortFault::Failed
    }
}

impl<'a, R: Files> Store for FileStore<'a, R> {
    ghost files = { λ _. None };

    ghost shown = { λ _. None };

    ghost read_faults = { λ s. s.reads };

    ghost write_faults = { λ s. s.writes };

    fn size(&mut self, name: &str) -> Result<u64, PortFault> {
        match open_regular(self.rt, name).and_then(|file| file.metadata()) {
            Ok(metadata) => Ok(metadata.len()),
            Err(_) => Err(self.read_fault()),
        }
    }

    fn read_at(&mut self, name: &str, at: u64, buffer: &mut [u8]) -> Result<usize, PortFault> {
        match read_from(self.rt, name, at, buffer) {
            Ok(count) => Ok(count),
            Err(_) => Err(self.read_fault()),
        }
    }

    fn create(&mut self, name: &str) -> Result<(), PortFault> {
        self.created = None;
        let Ok(owned) = String::from_str(self.alloc, name) else {
            return Err(PortFault::Memory);
        };
        match File::create(self.rt, name) {
            Ok(file) => {
                self.created = Some(Created { name: owned, file });
                Ok(())
            }
            Err(_) => Err(self.write_fault()),
        }
    }

    fn append(&mut self, name: &str, bytes: &[u8]) -> Result<(), PortFault> {
        let written = match &mut self.created {
            Some(created) if created.name.as_str() == name => created.file.write_all(bytes),
            _ => write_to_end(self.rt, name, bytes),
        };
        match written {
            Ok(()) => Ok(()),
            Err(_) => Err(self.write_fault()),
        }
    }
}

// Opens a regular file for reading. Nothing else is opened, since to open a pipe would wait for who writes to it.
fn open_regular<R: Files>(rt: &R, name: &str) -> io::Result<R::File> {
    if !fs::metadata(rt, name)?.is_file() {
        return Err(io::Error::from(ErrorKind::InvalidInput));
    }
    File::open(rt, name)
}

// Reads a file from a place on, until the buffer is full or the file ends, and answers how many bytes came.
fn read_from<R: Files>(rt: &R, name: &str, at: u64, buffer: &mut [u8]) -> io::Result<usize>
    ensures { IfOk result (λ count. count ≤ length buffer.old) }
{
    let mut file = open_regular(rt, name)?;
    file.seek(SeekFrom::Start(at))?;
    fill(&mut file, buffer)
}

// Reads until the buffer is full or nothing is left. A read that a signal interrupts is tried again.
fn fill(from: &mut impl Read, buffer: &mut [u8]) -> io::Result<usize>
    ensures { IfOk result (λ count. count ≤ length buffer.old) }
{
    let mut filled = 0;
    for _ in 0..u64::MAX {
        if filled == buffer.len() {
            break;
        }
        match from.read(&mut buffer[filled..]) {
            Ok(0) => break,
            Ok(count) => filled += count,
            Err(error) if error.kind() == ErrorKind::Interrupted => {}
            Err(error) => return Err(error),
        }
    }
    Ok(filled)
}

// Adds bytes at the end of a file, which has to be there. A write of a part is followed by one of the rest.
fn write_to_end<R: Files>(rt: &R, name: &str, bytes: &[u8]) -> io::Result<()> {
    let mut file = OpenOptions::new().append(true).open(rt, name)?;
    file.write_all(bytes)
}
