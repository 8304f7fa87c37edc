//! Computes on encrypted small integers: `fhec` does the command that its words are, and ends with the code
//! of its status.
#![tactic(auto)]

use fhec_cmd::{Status, fhec};
use port_store::{FileStore, OutSink};
use std::alloc::Global;
use std::env;
use std::io::ErrorKind;
use std::process::ExitCode;
use std::rt::Env;

/// The words after the program's name. One that is not UTF-8 is a faulty command line.
fn words(rt: &(impl Env + AllocGlobal)) -> Result<Vec<String>, Status> {
    let mut words = match env::args(rt) {
        Ok(words) => words,
        Err(error) if error.kind() == ErrorKind::OutOfMemory => return Err(Status::Memory),
        Err(_) => return Err(Status::Usage),
    };
    let _program = words.next();
    words.collect(rt.alloc()).map_err(|_| Status::Memory)
}

fn main(rt: HostRuntime) -> ExitCode {
    let alloc: Global = rt.alloc();
    let mut store = FileStore::new(&rt, alloc);
    let mut sink = OutSink::new(&rt, alloc);
    let status = match words(&rt) {
        Ok(words) => fhec(alloc, &words, &mut store, &mut sink),
        Err(status) => status,
    };
    if status.code() != 0
        && let Ok(line) = status.line(alloc)
    {
        let _ = eprintln!(rt; "{line}");
    }
    ExitCode::from(status.code())
}
