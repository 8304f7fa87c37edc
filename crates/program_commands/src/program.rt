//! A program in a file, with its circuit.

ghost use Rattle.std.specs.Prelude.{◌≤◌, ◌^◌, [], ◌∷◌, length, IfOk};
ghost use Rattle.refusals.specs.Reading.{Gives};
ghost use Rattle.tfhe_level.specs.Rules.{IsShape};
ghost use Rattle.fhe_level.specs.Checked.{IsChecked};
ghost use Rattle.compile_pipe.specs.Laws.{CanClear};
ghost use Rattle.command_forms.specs.Outside.{store_at};
ghost use Rattle.command_forms.specs.Steps.{ReadsAs};
ghost use Rattle.program_commands.specs.Programs.{program_limit, front_in, front_from};

use command_forms::{Fault, StepRefusal, read_file};
use compile_pipe::{Front, FrontFault, front};
use port_store::Store;
use refusals::Refusal;
use std::alloc::Global;

/// The most bytes of a program text.
const PROGRAM_LIMIT: u64 = 1 << 20;

/// The program and the circuit in a text.
fn front_in(alloc: Global, text: &[u8]) -> Result<Front, Refusal<Fault>>
    requires { length text.now ≤ program_limit }
    ensures front { Gives (λ front. front) result (front_in text.now) }
    ensures checked { IfOk result (λ front. IsChecked front.program) }
    ensures rules { IfOk result (λ front. IsShape front.shape) }
    ensures clear { IfOk result (λ front. CanClear front.program) }
{
    match front(alloc, text) {
        Ok(front) => Ok(front),
        Err(Refusal::Fault(FrontFault::Text(fault))) => Err(Refusal::Fault(Fault::Text(fault))),
        Err(Refusal::Fault(FrontFault::Limit(fault))) => Err(Refusal::Fault(Fault::Limit(fault))),
        Err(Refusal::Fault(FrontFault::Typing(fault))) => Err(Refusal::Fault(Fault::Typing(fault))),
        Err(Refusal::Fault(FrontFault::Range { op, lo, hi })) => {
            Err(Refusal::Fault(Fault::Range { op, lo, hi }))
        }
        Err(Refusal::Memory) => Err(Refusal::Memory),
    }
}

/// The program and the circuit in a file, which is let go once it is read.
pub(crate) fn front_from<S: Store>(
    alloc: Global,
    store: &mut S,
    name: &str,
) -> Result<Front, StepRefusal>
    ensures reads { ReadsAs (name.now ∷ [])
        (store_at S.files S.shown S.read_faults S.write_faults store.old)
        (store_at S.files S.shown S.read_faults S.write_faults store.new)
        (λ front. front) result (front_from name.now) }
    ensures checked { IfOk result (λ front. IsChecked front.program) }
    ensures rules { IfOk result (λ front. IsShape front.shape) }
    ensures clear { IfOk result (λ front. CanClear front.program) }
{
    let text = read_file(alloc, store, name, PROGRAM_LIMIT)?;
    Ok(front_in(alloc, &text)?)
}
