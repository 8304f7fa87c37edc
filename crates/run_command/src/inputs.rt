//! The inputs of a run.

ghost use Rattle.std.specs.Prelude.{◌≡◌, [], ◌∷◌, IfOk};
ghost use Rattle.refusals.specs.Reading.{Gives};
ghost use Rattle.noise_model.specs.Circuits.{IsCircuit};
ghost use Rattle.circuit_heads.specs.Heads.{input_head};
ghost use Rattle.cipher_files.specs.CipherFile.{file_of, IsCipherFile};
ghost use Rattle.circuit_run.specs.Steps.{AreInputs};
ghost use Rattle.command_forms.specs.Outside.{store_at};
ghost use Rattle.command_forms.specs.Steps.{ReadsAs};
ghost use Rattle.run_command.specs.Run.{fitting_inputs, inputs_from};

use cipher_files::{CipherHead, head_fits};
use command_files::cipher_from;
use command_forms::{Fault, FileKind, StepRefusal};
use lwe_core::{Big, Lwe};
use port_store::Store;
use refusals::Refusal;
use std::alloc::Global;
use tfhe_level::Circuit;

/// Refuses ciphertexts that are not made for the circuit's inputs.
fn check_inputs(
    circuit: &Circuit,
    wanted: &CipherHead,
    head: &CipherHead,
    list: &[Lwe<Big>],
) -> Result<(), Refusal<Fault>>
    requires circuit { IsCircuit circuit.now }
    requires wanted { wanted.now ≡ input_head circuit.now }
    requires file { IsCipherFile (file_of head.now list.now) }
    ensures exact { Gives (λ x. file_of head.now list.now) result
        (fitting_inputs circuit.now (file_of head.now list.now)) }
    ensures inputs { IfOk result (λ x. AreInputs circuit.now list.now) }
{
    sealed_files::laws::laws();
    match head_fits(wanted, head) {
        Ok(()) => Ok(()),
        Err(Refusal::Fault(fault)) => Err(Refusal::Fault(Fault::File(FileKind::Cipher, fault))),
        Err(Refusal::Memory) => Err(Refusal::Memory),
    }
}

/// The inputs of the circuit in a file.
pub(crate) fn inputs_from<S: Store>(
    alloc: Global,
    store: &mut S,
    circuit: &Circuit,
    wanted: &CipherHead,
    name: &str,
) -> Result<Vec<Lwe<Big>>, StepRefusal>
    requires circuit { IsCircuit circuit.now }
    requires wanted { wanted.now ≡ input_head circuit.now }
    ensures reads { ReadsAs (name.now ∷ [])
        (store_at S.files S.shown S.read_faults S.write_faults store.old)
        (store_at S.files S.shown S.read_faults S.write_faults store.new)
        (λ list. list.items) result (inputs_from circuit.now name.now) }
    ensures inputs { IfOk result (λ list. AreInputs circuit.now list.items) }
{
    let (head, list) = cipher_from(alloc, store, name)?;
    check_inputs(circuit, wanted, &head, &list)?;
    Ok(list)
}
