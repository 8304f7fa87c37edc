//! `compile`: the certificate and the circuit of a program and a table.

ghost use Rattle.std.specs.Prelude.{◌≡◌, [], ◌∷◌, true, IfOk, Some};
ghost use Rattle.port_store.specs.Files.{Files};
ghost use Rattle.compile_pipe.specs.Back.{compiled_view};
ghost use Rattle.command_forms.specs.Names.{are_distinct};
ghost use Rattle.command_forms.specs.Outside.{MayLeave, outside, store_at};
ghost use Rattle.command_forms.specs.Steps.{ReadsAs, WritesAs};
ghost use Rattle.program_commands.specs.Words.{compile_view, compile_files};
ghost use Rattle.program_commands.specs.Compile.{compiled, wrote_compiled, compile_outcome};
ghost use Rattle.program_commands.specs.Found.{GaveCompiled};
ghost use Rattle.program_commands.specs.Headline.{CompileHeadline};

use crate::program::front_from;
use crate::table::compiled_from;
use command_forms::{Status, StepRefusal, write_both, write_file};
use compile_pipe::Compiled;
use port_store::{Sink, Store};
use std::alloc::Global;

/// The words of `compile PROGRAM TABLE CIRCUIT CERT`, and those of `check`.
#[derive(Clone, Copy, Debug)]
pub struct CompileNames<'a> {
    pub program: &'a str,
    pub table: &'a str,
    pub circuit: &'a str,
    pub cert: &'a str,
}

/// The certificate and the circuit, out of the files of the program and of the table.
pub(crate) fn texts_of<S: Store>(
    alloc: Global,
    store: &mut S,
    names: &CompileNames<'_>,
) -> Result<Compiled, StepRefusal>
    ensures reads { ReadsAs (names.now.program.now ∷ names.now.table.now ∷ [])
        (store_at S.files S.shown S.read_faults S.write_faults store.old)
        (store_at S.files S.shown S.read_faults S.write_faults store.new)
        compiled_view result (compiled (compile_view names.now)) }
    ensures gave { IfOk result (λ found. (files : Files) → S.files store.old ≡ Some files
        → GaveCompiled (compile_view names.now) files (compiled_view found)) }
{
    let front = front_from(alloc, store, names.program)?;
    let found = compiled_from(alloc, store, front.shape, names.table)?;
    Ok(found)
}

/// Writes a certificate to CERT, and answers that there is no choice, unless a call failed or memory ran out.
fn write_cert<S: Store>(store: &mut S, names: &CompileNames<'_>, found: &Compiled) -> Status
    requires { found.now.circuit ≡ None }
    ensures { WritesAs (wrote_compiled (compile_view names.now) (compiled_view found.now)) result
        (store_at S.files S.shown S.read_faults S.write_faults store.old)
        (store_at S.files S.shown S.read_faults S.write_faults store.new) }
{
    match write_file(store, names.cert, &found.cert) {
        Status::Ok => Status::NoChoice,
        other => other,
    }
}

/// Writes CERT, and then CIRCUIT where there is a circuit.
fn write_compiled<S: Store>(store: &mut S, names: &CompileNames<'_>, found: &Compiled) -> Status
    ensures { WritesAs (wrote_compiled (compile_view names.now) (compiled_view found.now)) result
        (store_at S.files S.shown S.read_faults S.write_faults store.old)
        (store_at S.files S.shown S.read_faults S.write_faults store.new) }
{
    match &found.circuit {
        Some((_, text)) => write_both(store, names.cert, &found.cert, names.circuit, text),
        None => write_cert(store, names, found),
    }
}

/// Writes to CERT the certificate of the search through the table of TABLE for the program of PROGRAM, and then to CIRCUIT
/// its circuit with the parameters of the least cost that meet all constraints. Where there are none, CERT alone is
/// written, and the answer is NoChoice. The sink is not touched.
pub fn compile<S: Store, O: Sink>(
    alloc: Global,
    store: &mut S,
    out: &mut O,
    names: &CompileNames<'_>,
) -> Status
    requires distinct { are_distinct (compile_files (compile_view names.now)) ≡ true }
    ensures outcome { MayLeave (compile_outcome (compile_view names.now)) result
        (outside (store_at S.files S.shown S.read_faults S.write_faults store.old) O.taken O.put_faults out.old)
        (outside (store_at S.files S.shown S.read_faults S.write_faults store.new) O.taken O.put_faults out.new) }
    // The headline of the compiler: over a store that tells its files, the circuit computes the program, meets all
    // constraints, and no cheaper choice of the table does.
    ensures headline { CompileHeadline (compile_view names.now) result
        (outside (store_at S.files S.shown S.read_faults S.write_faults store.old) O.taken O.put_faults out.old)
        (outside (store_at S.files S.shown S.read_faults S.write_faults store.new) O.taken O.put_faults out.new) }
{
    port_store::laws::laws();
    fhe_params::laws::laws();
    param_search::laws::laws();
    circuit_file::laws::laws();
    compile_pipe::laws::laws();
    match texts_of(alloc, store, names) {
        Ok(found) => write_compiled(store, names, &found),
        Err(refusal) => Status::from(refusal),
    }
}
