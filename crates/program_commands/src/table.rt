//! A table in a file, and what it gives for a circuit.

ghost use Rattle.std.specs.Prelude.{[], ◌∷◌, IfOk};
ghost use Rattle.refusals.specs.Reading.{Gives};
ghost use Rattle.tfhe_level.specs.Rules.{IsShape};
ghost use Rattle.compile_pipe.specs.Back.{compiled_view};
ghost use Rattle.command_forms.specs.Outside.{store_at};
ghost use Rattle.command_forms.specs.Steps.{ReadsAs};
ghost use Rattle.program_commands.specs.Programs.{compiled_in, compiled_from};

use command_forms::{Fault, StepRefusal, read_file};
use compile_pipe::{Compiled, Shape, back};
use port_store::Store;
use refusals::Refusal;
use std::alloc::Global;

/// The most bytes of a table.
const TABLE_LIMIT: u64 = 1 << 16;

/// What a circuit and the text of a table come to.
fn compiled_in(alloc: Global, shape: Shape, text: &[u8]) -> Result<Compiled, Refusal<Fault>>
    requires { IsShape shape }
    ensures { Gives compiled_view result (compiled_in shape text.now) }
{
    match back(alloc, shape, text) {
        Ok(compiled) => Ok(compiled),
        Err(Refusal::Fault(fault)) => Err(Refusal::Fault(Fault::Table(fault))),
        Err(Refusal::Memory) => Err(Refusal::Memory),
    }
}

/// What a circuit and the table of a file come to.
pub(crate) fn compiled_from<S: Store>(
    alloc: Global,
    store: &mut S,
    shape: Shape,
    name: &str,
) -> Result<Compiled, StepRefusal>
    requires { IsShape shape }
    ensures { ReadsAs (name.now ∷ [])
        (store_at S.files S.shown S.read_faults S.write_faults store.old)
        (store_at S.files S.shown S.read_faults S.write_faults store.new)
        compiled_view result (compiled_from shape name.now) }
{
    let text = read_file(alloc, store, name, TABLE_LIMIT)?;
    Ok(compiled_in(alloc, shape, &text)?)
}
