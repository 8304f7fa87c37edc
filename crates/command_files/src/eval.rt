//! Evaluation keys in a file.

ghost use Rattle.std.specs.Prelude.{◌≡◌, ◌<◌, [], ◌∷◌, All, IfOk};
ghost use Rattle.refusals.specs.Reading.{Gives};
ghost use Rattle.ir_core.specs.Placed.{IsPlaced};
ghost use Rattle.fhe_params.specs.Params.{IsParams};
ghost use Rattle.cipher_files.specs.EvalFile.{eval_rows, IsEvalFile};
ghost use Rattle.command_forms.specs.Outside.{store_at};
ghost use Rattle.command_forms.specs.Steps.{ReadsAs};
ghost use Rattle.command_files.specs.Files.{fits_eval, eval_in, eval_from};

use blind_rotate::BootKey;
use cipher_files::{FILE_LIMIT, read_eval};
use command_forms::{Fault, FileKind, StepRefusal, is_no_eval, read_file};
use fhe_params::Params;
use key_switch::SwitchKey;
use noise_model::has_boot;
use port_store::Store;
use refusals::Refusal;
use std::alloc::Global;
use tfhe_level::Circuit;

/// Whether EVAL is the word `-` exactly where the circuit has no bootstrap.
pub fn fits_eval(circuit: &Circuit, eval: &str) -> bool
    requires { IsPlaced circuit.now.shape.graph }
    ensures { result ≡ fits_eval circuit.now eval.now }
{
    if has_boot(&circuit.shape) {
        !is_no_eval(eval)
    } else {
        is_no_eval(eval)
    }
}

/// The evaluation keys of these parameters in the bytes of a file.
fn eval_in(
    alloc: Global,
    digest: &[u8; 32],
    params: &Params,
    bytes: &[u8],
) -> Result<(SwitchKey, BootKey), Refusal<Fault>>
    requires { IsParams params.now }
    ensures keys { Gives (λ read. eval_rows read.0 read.1) result (eval_in digest.now params.now bytes.now) }
    ensures valid { IfOk result (λ read. IsEvalFile params.now (eval_rows read.0 read.1)) }
{
    match read_eval(alloc, bytes, digest, params) {
        Ok(read) => Ok(read),
        Err(Refusal::Fault(fault)) => Err(Refusal::Fault(Fault::File(FileKind::Eval, fault))),
        Err(Refusal::Memory) => Err(Refusal::Memory),
    }
}

/// The evaluation keys of these parameters, whose digest this is, in a file, which is let go once it is read.
pub fn eval_from<S: Store>(
    alloc: Global,
    store: &mut S,
    digest: &[u8; 32],
    params: &Params,
    name: &str,
) -> Result<(SwitchKey, BootKey), StepRefusal>
    requires { IsParams params.now }
    ensures reads { ReadsAs (name.now ∷ [])
        (store_at S.files S.shown S.read_faults S.write_faults store.old)
        (store_at S.files S.shown S.read_faults S.write_faults store.new)
        (λ read. eval_rows read.0 read.1) result (eval_from digest.now params.now name.now) }
    ensures valid { IfOk result (λ read. IsEvalFile params.now (eval_rows read.0 read.1)) }
{
    let bytes = read_file(alloc, store, name, FILE_LIMIT)?;
    Ok(eval_in(alloc, digest, params, &bytes)?)
}
