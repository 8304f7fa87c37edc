//! A circuit in a file.

ghost use Rattle.std.specs.Prelude.{◌≤◌, [], ◌∷◌, length, IfOk};
ghost use Rattle.refusals.specs.Reading.{Gives};
ghost use Rattle.noise_model.specs.Circuits.{IsCircuit};
ghost use Rattle.circuit_file.specs.Limits.{circuit_limit};
ghost use Rattle.command_forms.specs.Outside.{store_at};
ghost use Rattle.command_forms.specs.Steps.{ReadsAs};
ghost use Rattle.command_files.specs.Files.{circuit_in, circuit_from};

use circuit_file::read_circuit;
use command_forms::{Fault, StepRefusal, read_file};
use port_store::Store;
use refusals::Refusal;
use std::alloc::Global;
use tfhe_level::Circuit;

/// The most bytes of a circuit text.
pub const CIRCUIT_LIMIT: u64 = 1 << 27;

/// The circuit in a text.
fn circuit_in(alloc: Global, text: &[u8]) -> Result<Circuit, Refusal<Fault>>
    requires { length text.now ≤ circuit_limit }
    ensures circuit { Gives (λ c. c) result (circuit_in text.now) }
    ensures rules { IfOk result IsCircuit }
{
    match read_circuit(alloc, text) {
        Ok(circuit) => Ok(circuit),
        Err(Refusal::Fault(fault)) => Err(Refusal::Fault(Fault::Circuit(fault))),
        Err(Refusal::Memory) => Err(Refusal::Memory),
    }
}

/// The circuit in a file, which is let go once it is read.
pub fn circuit_from<S: Store>(
    alloc: Global,
    store: &mut S,
    name: &str,
) -> Result<Circuit, StepRefusal>
    ensures reads { ReadsAs (name.now ∷ [])
        (store_at S.files S.shown S.read_faults S.write_faults store.old)
        (store_at S.files S.shown S.read_faults S.write_faults store.new)
        (λ c. c) result (circuit_from name.now) }
    ensures rules { IfOk result IsCircuit }
{
    let text = read_file(alloc, store, name, CIRCUIT_LIMIT)?;
    Ok(circuit_in(alloc, &text)?)
}
