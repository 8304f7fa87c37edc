//! `check`: whether a circuit and a certificate are those of a program and a table.

ghost use Rattle.std.specs.Prelude.{◌≡◌, ◌≤◌, ◌^◌, [], ◌∷◌, true, length};
ghost use Rattle.refusals.specs.Reading.{Gives};
ghost use Rattle.command_forms.specs.Names.{are_distinct};
ghost use Rattle.command_forms.specs.Outside.{MayLeave, outside, store_at};
ghost use Rattle.command_forms.specs.Steps.{ReadsAs};
ghost use Rattle.program_commands.specs.Words.{compile_view, compile_files};
ghost use Rattle.compile_pipe.specs.Back.{compiled_view};
ghost use Rattle.program_commands.specs.Check.{agreeing, chosen_text, agreeing_file, checked, check_outcome};

use crate::compile::{CompileNames, texts_of};
use command_files::CIRCUIT_LIMIT;
use command_forms::{CertFile, Fault, Status, StepRefusal, read_file};
use compile_pipe::Compiled;
use cost_cert::{CERT_LIMIT, line_apart};
use port_store::{Sink, Store};
use refusals::Refusal;
use std::alloc::Global;

/// Refuses bytes that are not the one text of a file.
fn agreeing(file: CertFile, text: &[u8], bytes: &[u8]) -> Result<(), Refusal<Fault>>
    requires { length bytes.now ≤ 2 ^ 29 }
    ensures { Gives (λ x. x) result (agreeing file text.now bytes.now) }
{
    match line_apart(text, bytes) {
        None => Ok(()),
        Some(line) => Err(Refusal::Fault(Fault::Certificate { file, line })),
    }
}

/// The text of the circuit, where there is one.
fn chosen_text(found: &Compiled) -> Result<&[u8], Refusal<Fault>>
    ensures { Gives (λ text. text.now) result (chosen_text (compiled_view found.now).circuit) }
{
    match &found.circuit {
        Some((_, text)) => Ok(text),
        None => Err(Refusal::Fault(Fault::NoChoice)),
    }
}

/// Refuses a file that does not hold this text.
fn agreeing_file<S: Store>(
    alloc: Global,
    store: &mut S,
    file: CertFile,
    text: &[u8],
    name: &str,
    most: u64,
) -> Result<(), StepRefusal>
    requires { most ≤ 2 ^ 29 }
    ensures { ReadsAs (name.now ∷ [])
        (store_at S.files S.shown S.read_faults S.write_faults store.old)
        (store_at S.files S.shown S.read_faults S.write_faults store.new)
        (λ x. x) result (agreeing_file file text.now most name.now) }
{
    let bytes = read_file(alloc, store, name, most)?;
    Ok(agreeing(file, text, &bytes)?)
}

/// Refuses the first of the files that is not as `compile` writes it.
fn checked<S: Store>(
    alloc: Global,
    store: &mut S,
    names: &CompileNames<'_>,
) -> Result<(), StepRefusal>
    ensures { ReadsAs (compile_files (compile_view names.now))
        (store_at S.files S.shown S.read_faults S.write_faults store.old)
        (store_at S.files S.shown S.read_faults S.write_faults store.new)
        (λ x. x) result (checked (compile_view names.now)) }
{
    let found = texts_of(alloc, store, names)?;
    agreeing_file(
        alloc,
        store,
        CertFile::Cert,
        &found.cert,
        names.cert,
        CERT_LIMIT,
    )?;
    let text = chosen_text(&found)?;
    agreeing_file(
        alloc,
        store,
        CertFile::Circuit,
        text,
        names.circuit,
        CIRCUIT_LIMIT,
    )?;
    Ok(())
}

/// Answers Ok exactly where CERT and CIRCUIT hold what `compile` writes for the program of PROGRAM and the table of TABLE.
/// Where CERT does and there is no choice, CIRCUIT is not read. No file is written, and the sink is not touched.
pub fn check<S: Store, O: Sink>(
    alloc: Global,
    store: &mut S,
    out: &mut O,
    names: &CompileNames<'_>,
) -> Status
    requires distinct { are_distinct (compile_files (compile_view names.now)) ≡ true }
    ensures { MayLeave (check_outcome (compile_view names.now)) result
        (outside (store_at S.files S.shown S.read_faults S.write_faults store.old) O.taken O.put_faults out.old)
        (outside (store_at S.files S.shown S.read_faults S.write_faults store.new) O.taken O.put_faults out.new) }
{
    match checked(alloc, store, names) {
        Ok(()) => Status::Ok,
        Err(refusal) => Status::from(refusal),
    }
}
