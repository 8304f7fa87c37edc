//! `keygen`: the keys of a circuit, drawn from a seed.

ghost use Rattle.std.specs.Prelude.{◌≡◌, ◌≤◌, ◌^◌, [], ◌∷◌, true, Some, IfOk, OnOk};
ghost use Rattle.port_store.specs.Files.{Files};
ghost use Rattle.lwe_core.specs.Secret.{HasDimensions};
ghost use Rattle.fhe_params.specs.Params.{IsParams, big_dimension};
ghost use Rattle.fhe_params.specs.Cost.{key_words_of};
ghost use Rattle.noise_model.specs.Circuits.{IsCircuit};
ghost use Rattle.seed_stream.specs.Draws.{stream_key};
ghost use Rattle.key_gen.specs.Seeds.{key_numbers, drawn_switch_key, drawn_boot_key, switch_label, boot_label};
ghost use Rattle.cipher_files.specs.EvalFile.{eval_rows, eval_bytes, IsEvalFile};
ghost use Rattle.command_forms.specs.Names.{are_distinct};
ghost use Rattle.command_forms.specs.Outside.{MayLeave, outside, store_at};
ghost use Rattle.command_forms.specs.Steps.{ReadsAs, WritesAs};
ghost use Rattle.key_commands.specs.Words.{keygen_view, keygen_files};
ghost use Rattle.key_commands.specs.Keygen.{key_files_of, key_view, generated, wrote_keys, keygen_outcome};
ghost use Rattle.key_commands.specs.Found.{AreKeyFiles, GaveKeys};
ghost use Rattle.key_commands.specs.Headline.{KeygenHeadline};

use cipher_files::{print_eval, print_secret};
use circuit_digest::params_digest;
use command_files::{circuit_from, fits_eval};
use command_forms::{Fault, Status, StepRefusal, write_both, write_file};
use fhe_params::Params;
use key_gen::{make_boot_key, make_secret, make_switch_key};
use lwe_core::Secret;
use noise_model::has_boot;
use port_store::{Sink, Store};
use std::alloc::{AllocError, Global};
use tfhe_level::Circuit;

/// The words of `keygen CIRCUIT SEED SECRET EVAL`.
#[derive(Clone, Copy, Debug)]
pub struct KeygenNames<'a> {
    pub circuit: &'a str,
    pub seed: [u8; 32],
    pub secret: &'a str,
    pub eval: &'a str,
}

/// The bytes of the files of keys. There are evaluation keys where the circuit has a bootstrap.
#[derive(Drop)]
pub(crate) struct KeyBytes {
    pub(crate) secret: Vec<u8>,
    pub(crate) eval: Option<Vec<u8>>,
}

/// The bytes of the file of evaluation keys.
fn eval_bytes_of(
    alloc: Global,
    params: &Params,
    digest: &[u8; 32],
    secret: &Secret,
    seed: &[u8; 32],
) -> Result<Vec<u8>, AllocError>
    requires params { IsParams params.now }
    requires dimensions { HasDimensions (big_dimension params.now) params.now.lwe.n secret.now.big secret.now.small }
    requires words { key_words_of params.now ≤ 2 ^ 25 }
    ensures spelled { IfOk result (λ bytes. bytes.items ≡ eval_bytes digest.now params.now (eval_rows
        (drawn_switch_key (stream_key seed.now switch_label) params.now.switch.base params.now.switch.level
        params.now.lwe.error secret.now.big secret.now.small)
        (drawn_boot_key (stream_key seed.now boot_label) (key_numbers params.now) secret.now.big secret.now.small))) }
    ensures valid { OnOk result (IsEvalFile params.now (eval_rows
        (drawn_switch_key (stream_key seed.now switch_label) params.now.switch.base params.now.switch.level
        params.now.lwe.error secret.now.big secret.now.small)
        (drawn_boot_key (stream_key seed.now boot_label) (key_numbers params.now) secret.now.big secret.now.small))) }
{
    let switch = make_switch_key(alloc, params, secret, seed)?;
    let boot = make_boot_key(alloc, params, secret, seed)?;
    switch.known();
    boot.known();
    print_eval(alloc, digest, params, &switch, &boot)
}

/// The bytes of all keys.
fn key_bytes(alloc: Global, circuit: &Circuit, seed: &[u8; 32]) -> Result<KeyBytes, AllocError>
    requires { IsCircuit circuit.now }
    ensures spelled { IfOk result (λ keys. key_view keys ≡ key_files_of circuit.now seed.now) }
    // So the files are such as are read again.
    ensures valid { OnOk result (AreKeyFiles circuit.now seed.now) }
{
    circuit_heads::laws::laws();
    let params = &circuit.params;
    let digest = params_digest(alloc, params)?;
    let drawn = make_secret(alloc, params, seed)?;
    let secret = print_secret(alloc, &digest, &drawn)?;
    let eval = if has_boot(&circuit.shape) {
        Some(eval_bytes_of(alloc, params, &digest, &drawn, seed)?)
    } else {
        None
    };
    Ok(KeyBytes { secret, eval })
}

/// The bytes of all keys, for the circuit in a file.
fn generated<S: Store>(
    alloc: Global,
    store: &mut S,
    names: &KeygenNames<'_>,
) -> Result<KeyBytes, StepRefusal>
    ensures reads { ReadsAs (names.now.circuit.now ∷ [])
        (store_at S.files S.shown S.read_faults S.write_faults store.old)
        (store_at S.files S.shown S.read_faults S.write_faults store.new)
        key_view result (generated (keygen_view names.now)) }
    ensures gave { OnOk result ((files : Files) → S.files store.old ≡ Some files
        → GaveKeys (keygen_view names.now) files) }
{
    let circuit = circuit_from(alloc, store, names.circuit)?;
    if !fits_eval(&circuit, names.eval) {
        return Err(StepRefusal::Fault(Fault::Usage));
    }
    match key_bytes(alloc, &circuit, &names.seed) {
        Ok(bytes) => Ok(bytes),
        Err(AllocError) => Err(StepRefusal::Memory),
    }
}

/// Writes SECRET, and then EVAL where there are evaluation keys.
fn write_keys<S: Store>(store: &mut S, names: &KeygenNames<'_>, keys: &KeyBytes) -> Status
    ensures { WritesAs (wrote_keys (keygen_view names.now) (key_view keys.now)) result
        (store_at S.files S.shown S.read_faults S.write_faults store.old)
        (store_at S.files S.shown S.read_faults S.write_faults store.new) }
{
    match &keys.eval {
        Some(eval) => write_both(store, names.secret, &keys.secret, names.eval, eval),
        None => write_file(store, names.secret, &keys.secret),
    }
}

/// Writes to SECRET the secret keys that the seed gives for the circuit of CIRCUIT, and to EVAL its evaluation keys,
/// where the circuit has a bootstrap. The sink is not touched.
pub fn keygen<S: Store, O: Sink>(
    alloc: Global,
    store: &mut S,
    out: &mut O,
    names: &KeygenNames<'_>,
) -> Status
    requires distinct { are_distinct (keygen_files (keygen_view names.now)) ≡ true }
    ensures outcome { MayLeave (keygen_outcome (keygen_view names.now)) result
        (outside (store_at S.files S.shown S.read_faults S.write_faults store.old) O.taken O.put_faults out.old)
        (outside (store_at S.files S.shown S.read_faults S.write_faults store.new) O.taken O.put_faults out.new) }
    // The headline: over a store that tells its files, the keys of the seed are read from what is written.
    ensures headline { KeygenHeadline (keygen_view names.now) result
        (outside (store_at S.files S.shown S.read_faults S.write_faults store.old) O.taken O.put_faults out.old)
        (outside (store_at S.files S.shown S.read_faults S.write_faults store.new) O.taken O.put_faults out.new) }
{
    port_store::laws::laws();
    cipher_files::laws::laws();
    match generated(alloc, store, names) {
        Ok(keys) => write_keys(store, names, &keys),
        Err(refusal) => Status::from(refusal),
    }
}
