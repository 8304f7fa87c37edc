//! `run`: the outputs of a circuit on ciphertexts.

ghost use Rattle.std.specs.Prelude.{◌≡◌, ◌+◌, ◌≤◌, true, length, All, Some, IfOk, OnOk};
ghost use Rattle.port_store.specs.Files.{Files};
ghost use Rattle.fhe_params.specs.Params.{big_dimension};
ghost use Rattle.noise_model.specs.Circuits.{IsCircuit};
ghost use Rattle.sealed_files.specs.Limits.{file_limit};
ghost use Rattle.cipher_files.specs.CipherFile.{cipher_bytes, IsCipherFile};
ghost use Rattle.circuit_run.specs.Steps.{HasKeys, AreInputs};
ghost use Rattle.circuit_run.specs.Running.{output_words};
ghost use Rattle.command_forms.specs.Names.{are_distinct};
ghost use Rattle.command_forms.specs.Outside.{MayLeave, outside, store_at};
ghost use Rattle.command_forms.specs.Steps.{ReadsAs};
ghost use Rattle.run_command.specs.Words.{run_view, run_files, read_files};
ghost use Rattle.run_command.specs.Run.{keys_view, output_file, run_output, run_outcome};
ghost use Rattle.run_command.specs.Found.{GaveOutput};
ghost use Rattle.run_command.specs.Headline.{RunHeadline};

use crate::inputs::inputs_from;
use crate::keys::keys_from;
use blind_rotate::BootKey;
use cipher_files::print_cipher;
use circuit_heads::{input_head, output_head};
use circuit_run::{RunRoom, evaluate, outputs};
use command_files::{circuit_from, fits_eval};
use command_forms::{Fault, Status, StepRefusal, write_file};
use key_switch::SwitchKey;
use lwe_core::{Big, Lwe};
use port_store::{Sink, Store};
use std::alloc::{AllocError, Global};
use tfhe_level::Circuit;

/// The words of `run CIRCUIT EVAL CIPHER OUTPUT`.
#[derive(Clone, Copy, Debug)]
pub struct RunNames<'a> {
    pub circuit: &'a str,
    pub eval: &'a str,
    pub cipher: &'a str,
    pub output: &'a str,
}

/// The ciphertexts of the outputs, from those of the inputs.
fn computed(
    alloc: Global,
    circuit: &Circuit,
    keys: &Option<(SwitchKey, BootKey)>,
    inputs: &[Lwe<Big>],
) -> Result<Vec<Lwe<Big>>, AllocError>
    requires circuit { IsCircuit circuit.now }
    requires keys { HasKeys circuit.now (keys_view keys.now) }
    requires inputs { AreInputs circuit.now inputs.now }
    ensures words { IfOk result (λ list. list.items ≡ output_words circuit.now (keys_view keys.now) inputs.now) }
    ensures long { IfOk result (λ list. All (λ row. length row ≡ big_dimension circuit.now.params + 1) list.items) }
{
    let mut room = RunRoom::new(alloc, circuit)?;
    match keys {
        Some((switch, boot)) => evaluate(&mut room, circuit, Some(switch), Some(boot), inputs),
        None => evaluate(&mut room, circuit, None, None, inputs),
    }
    outputs(alloc, circuit, &room)
}

/// The bytes of the file of outputs.
fn output_bytes(
    alloc: Global,
    circuit: &Circuit,
    keys: &Option<(SwitchKey, BootKey)>,
    inputs: &[Lwe<Big>],
) -> Result<Vec<u8>, AllocError>
    requires circuit { IsCircuit circuit.now }
    requires keys { HasKeys circuit.now (keys_view keys.now) }
    requires inputs { AreInputs circuit.now inputs.now }
    ensures spelled { IfOk result (λ bytes.
        bytes.items ≡ cipher_bytes (output_file circuit.now (keys_view keys.now) inputs.now)) }
    ensures valid { OnOk result (IsCipherFile (output_file circuit.now (keys_view keys.now) inputs.now)) }
    ensures size { IfOk result (λ bytes. length bytes.items ≤ file_limit) }
{
    let list = computed(alloc, circuit, keys, inputs)?;
    let head = output_head(alloc, circuit)?;
    circuit_heads::laws::laws();
    print_cipher(alloc, &head, &list)
}

/// The bytes of the file of outputs, out of the files.
fn run_output<S: Store>(
    alloc: Global,
    store: &mut S,
    names: &RunNames<'_>,
) -> Result<Vec<u8>, StepRefusal>
    ensures reads { ReadsAs (read_files (run_view names.now))
        (store_at S.files S.shown S.read_faults S.write_faults store.old)
        (store_at S.files S.shown S.read_faults S.write_faults store.new)
        (λ bytes. bytes.items) result (run_output (run_view names.now)) }
    ensures gave { IfOk result (λ bytes. (files : Files) → S.files store.old ≡ Some files
        → GaveOutput (run_view names.now) files bytes.items) }
{
    let circuit = circuit_from(alloc, store, names.circuit)?;
    if !fits_eval(&circuit, names.eval) {
        return Err(StepRefusal::Fault(Fault::Usage));
    }
    let Ok(wanted) = input_head(alloc, &circuit) else {
        return Err(StepRefusal::Memory);
    };
    let keys = keys_from(alloc, store, &circuit, &wanted.digest, names.eval)?;
    let inputs = inputs_from(alloc, store, &circuit, &wanted, names.cipher)?;
    match output_bytes(alloc, &circuit, &keys, &inputs) {
        Ok(bytes) => Ok(bytes),
        Err(AllocError) => Err(StepRefusal::Memory),
    }
}

/// Writes to OUTPUT the ciphertexts of the outs of the circuit of CIRCUIT, computed from those of its inputs in CIPHER with
/// the evaluation keys of EVAL, which is the word `-` exactly where the circuit has no bootstrap. The sink is not touched.
pub fn run<S: Store, O: Sink>(
    alloc: Global,
    store: &mut S,
    out: &mut O,
    names: &RunNames<'_>,
) -> Status
    requires distinct { are_distinct (run_files (run_view names.now)) ≡ true }
    ensures outcome { MayLeave (run_outcome (run_view names.now)) result
        (outside (store_at S.files S.shown S.read_faults S.write_faults store.old) O.taken O.put_faults out.old)
        (outside (store_at S.files S.shown S.read_faults S.write_faults store.new) O.taken O.put_faults out.new) }
    // The headline: over a store that tells its files, what is written decrypts to the values of the circuit on whole
    // numbers, whatever its inputs stand for.
    ensures headline { RunHeadline (run_view names.now) result
        (outside (store_at S.files S.shown S.read_faults S.write_faults store.old) O.taken O.put_faults out.old)
        (outside (store_at S.files S.shown S.read_faults S.write_faults store.new) O.taken O.put_faults out.new) }
{
    port_store::laws::laws();
    circuit_file::laws::laws();
    cipher_files::laws::laws();
    circuit_heads::laws::laws();
    circuit_run::laws::laws();
    match run_output(alloc, store, names) {
        Ok(bytes) => write_file(store, names.output, &bytes),
        Err(refusal) => Status::from(refusal),
    }
}
