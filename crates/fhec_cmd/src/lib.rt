//! The commands of fhec over a store of files and a sink of bytes.
//!
//! One call does the command that its words are. What it answers and leaves is one function of the words and the files
//! (`outcome_of`), what a run writes decrypts to the values of its circuit, and what `compile` writes computes its
//! program at the least cost (the headline). From program and values to the values that are put: `laws`.
#![tactic(auto)]

ghost use Rattle.std.specs.Prelude.{◌≡◌, map};
ghost use Rattle.std.specs.String.{string_bytes};
ghost use Rattle.command_forms.specs.Outside.{MayLeave, outside, store_at};
ghost use Rattle.fhec_cmd.specs.CommandLine.{request_of, faulty};
ghost use Rattle.fhec_cmd.specs.Commands.{outcome_of};
ghost use Rattle.fhec_cmd.specs.Headline.{Headline};

pub mod laws;
mod seed;
mod words;

pub use command_forms::{
    CertFile, CircuitFault, CircuitKind, FieldName, FileFault, FileKind, LimitFault, LimitName,
    ListName, Status, TableFault, TextKind, TypeKind, ValueKind,
};
use key_commands::decrypt::decrypt;
use key_commands::encrypt::encrypt;
use key_commands::keygen::keygen;
use port_store::{Sink, Store};
use program_commands::check::check;
use program_commands::clear::clear;
use program_commands::compile::compile;
use run_command::run;
use std::alloc::Global;
use words::{Request, parse};

/// Does the command that the words are, those after the program's name.
///
/// What it answers and what it leaves of the files and of the bytes put is one function of the words and of
/// the files as they are when it begins, unless a call of the store or the sink fails or memory runs out.
pub fn fhec<S: Store, O: Sink>(
    alloc: Global,
    words: &[String],
    store: &mut S,
    out: &mut O,
) -> Status
    // Words that are no command are answered with Usage, and leave the store and the sink as they were.
    ensures usage { request_of (map string_bytes words.now) ≡ faulty
        → (result ≡ Status.Usage) × (store.new ≡ store.old) × (out.new ≡ out.old) }
    // What is answered and what is left, whatever the store and the sink do.
    ensures outcome { MayLeave (outcome_of (map string_bytes words.now)) result
        (outside (store_at S.files S.shown S.read_faults S.write_faults store.old) O.taken O.put_faults out.old)
        (outside (store_at S.files S.shown S.read_faults S.write_faults store.new) O.taken O.put_faults out.new) }
    // The headline: over a store that tells its files, what a run that answers Ok writes decrypts to the values of
    // its circuit on whole numbers, whatever its inputs stand for; the circuit that `compile` writes where it answers
    // Ok computes the program, meets all constraints, and no cheaper choice of the table does; and the keys and inputs
    // that `keygen` and `encrypt` write are those of their seeds. `laws` has what follows for commands in a row.
    ensures headline { Headline (request_of (map string_bytes words.now)) result
        (outside (store_at S.files S.shown S.read_faults S.write_faults store.old) O.taken O.put_faults out.old)
        (outside (store_at S.files S.shown S.read_faults S.write_faults store.new) O.taken O.put_faults out.new) }
{
    key_flow::laws::laws();
    match parse(words) {
        Request::Faulty => Status::Usage,
        Request::Compile(names) => compile(alloc, store, out, &names),
        Request::Check(names) => check(alloc, store, out, &names),
        Request::Clear(names) => clear(alloc, store, out, &names),
        Request::Keygen(names) => keygen(alloc, store, out, &names),
        Request::Encrypt(names) => encrypt(alloc, store, out, &names),
        Request::Run(names) => run(alloc, store, out, &names),
        Request::Decrypt(names) => decrypt(alloc, store, out, &names),
    }
}

#[cfg(test)]
mod flow_tests;
#[cfg(test)]
mod program_tests;
#[cfg(test)]
mod tests;
#[cfg(test)]
mod worked;
