//! `clear`: what a program computes on whole numbers.

ghost use Rattle.std.specs.Prelude.{◌≡◌, [], ◌∷◌, true, IfOk};
ghost use Rattle.forms.specs.Forms.{AreIn};
ghost use Rattle.fhe_level.specs.Programs.{clear_values};
ghost use Rattle.fhe_level.specs.Clearing.{IsClear};
ghost use Rattle.value_files.specs.Values.{values_text};
ghost use Rattle.command_forms.specs.Names.{are_distinct};
ghost use Rattle.command_forms.specs.Outside.{MayLeave, outside, store_at};
ghost use Rattle.command_forms.specs.Steps.{ReadsAs};
ghost use Rattle.program_commands.specs.Words.{clear_view, clear_files};
ghost use Rattle.program_commands.specs.Clear.{cleared, clear_outcome};

use crate::program::front_from;
use command_files::values_from;
use command_forms::{Status, StepRefusal, put_all};
use compile_pipe::Program;
use port_store::{Sink, Store};
use std::alloc::{AllocError, Global};
use value_files::print_values;

/// The words of `clear PROGRAM VALUES`.
#[derive(Clone, Copy, Debug)]
pub struct ClearNames<'a> {
    pub program: &'a str,
    pub values: &'a str,
}

/// The lines of the values of a program's results.
fn result_lines(alloc: Global, program: &Program, values: &[i64]) -> Result<Vec<u8>, AllocError>
    requires { IsClear program.now values.now }
    ensures { IfOk result (λ text. text.items ≡ values_text (clear_values program.now values.now)) }
{
    let results = fhe_level::clear(alloc, program, values)?;
    print_values(alloc, &results)
}

/// The lines of the values, out of both files.
fn cleared<S: Store>(
    alloc: Global,
    store: &mut S,
    names: &ClearNames<'_>,
) -> Result<Vec<u8>, StepRefusal>
    ensures { ReadsAs (clear_files (clear_view names.now))
        (store_at S.files S.shown S.read_faults S.write_faults store.old)
        (store_at S.files S.shown S.read_faults S.write_faults store.new)
        (λ text. text.items) result (cleared (clear_view names.now)) }
{
    let front = front_from(alloc, store, names.program)?;
    let values = values_from(alloc, store, front.program.args.as_slice(), names.values)?;
    match result_lines(alloc, &front.program, &values) {
        Ok(text) => Ok(text),
        Err(AllocError) => Err(StepRefusal::Memory),
    }
}

/// Puts what the program of PROGRAM gives for the values of VALUES, a line each result, in one put. No file is written.
pub fn clear<S: Store, O: Sink>(
    alloc: Global,
    store: &mut S,
    out: &mut O,
    names: &ClearNames<'_>,
) -> Status
    requires distinct { are_distinct (clear_files (clear_view names.now)) ≡ true }
    ensures { MayLeave (clear_outcome (clear_view names.now)) result
        (outside (store_at S.files S.shown S.read_faults S.write_faults store.old) O.taken O.put_faults out.old)
        (outside (store_at S.files S.shown S.read_faults S.write_faults store.new) O.taken O.put_faults out.new) }
{
    match cleared(alloc, store, names) {
        Ok(text) => put_all(out, &text),
        Err(refusal) => Status::from(refusal),
    }
}
