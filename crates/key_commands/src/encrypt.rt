//! `encrypt`: fresh ciphertexts of the values of a file.

ghost use Rattle.std.specs.Prelude.{◌≡◌, [], ◌∷◌, true, length, Some, IfOk, OnOk};
ghost use Rattle.port_store.specs.Files.{Files};
ghost use Rattle.refusals.specs.Reading.{Gives};
ghost use Rattle.forms.specs.Forms.{AreIn};
ghost use Rattle.fhe_params.specs.Params.{big_dimension};
ghost use Rattle.noise_model.specs.Circuits.{IsCircuit};
ghost use Rattle.tfhe_level.specs.Nodes.{nodes_of};
ghost use Rattle.tfhe_level.specs.Laws.{input_ranges};
ghost use Rattle.circuit_heads.specs.Heads.{input_head};
ghost use Rattle.cipher_files.specs.SecretFile.{secret_file, IsSecretFile};
ghost use Rattle.cipher_files.specs.CipherFile.{cipher_bytes, IsCipherFile};
ghost use Rattle.command_forms.specs.Names.{are_distinct};
ghost use Rattle.command_forms.specs.Outside.{MayLeave, outside, store_at};
ghost use Rattle.command_forms.specs.Steps.{ReadsAs};
ghost use Rattle.key_commands.specs.Words.{encrypt_view, encrypt_files};
ghost use Rattle.key_commands.specs.Encrypt.{input_file, fitting_secret, encrypted, encrypt_outcome};
ghost use Rattle.key_commands.specs.Found.{GaveInputs};
ghost use Rattle.key_commands.specs.Headline.{EncryptHeadline};

use crate::inputs::draw_inputs;
use cipher_files::{CipherHead, print_cipher, secret_fits};
use circuit_digest::params_digest;
use circuit_heads::input_head;
use command_files::{circuit_from, secret_from, values_from};
use command_forms::{Fault, FileKind, Status, StepRefusal, write_file};
use lwe_core::{Big, LweKey, Secret};
use port_store::{Sink, Store};
use refusals::Refusal;
use std::alloc::{AllocError, Global};
use tfhe_level::Circuit;

/// The words of `encrypt CIRCUIT SECRET SEED VALUES CIPHER`.
#[derive(Clone, Copy, Debug)]
pub struct EncryptNames<'a> {
    pub circuit: &'a str,
    pub secret: &'a str,
    pub seed: [u8; 32],
    pub values: &'a str,
    pub cipher: &'a str,
}

/// Refuses secret keys that are not those of the circuit's parameters.
fn check_secret(
    alloc: Global,
    circuit: &Circuit,
    digest: &[u8; 32],
    secret: &Secret,
) -> Result<(), Refusal<Fault>>
    requires { IsCircuit circuit.now }
    ensures exact { Gives (λ x. secret_file digest.now secret.now.small secret.now.big) result
        (fitting_secret circuit.now (secret_file digest.now secret.now.small secret.now.big)) }
    ensures long { OnOk result (length secret.now.big ≡ big_dimension circuit.now.params) }
{
    sealed_files::laws::laws();
    let wanted = params_digest(alloc, &circuit.params)?;
    match secret_fits(&wanted, &circuit.params, digest, secret) {
        Ok(()) => Ok(()),
        Err(Refusal::Fault(fault)) => Err(Refusal::Fault(Fault::File(FileKind::Secret, fault))),
        Err(Refusal::Memory) => Err(Refusal::Memory),
    }
}

/// The bytes of the file of inputs.
fn input_bytes(
    alloc: Global,
    circuit: &Circuit,
    head: &CipherHead,
    big: &LweKey<Big>,
    seed: &[u8; 32],
    values: &[i64],
) -> Result<Vec<u8>, AllocError>
    requires circuit { IsCircuit circuit.now }
    requires head { head.now ≡ input_head circuit.now }
    requires long { length big.now ≡ big_dimension circuit.now.params }
    requires within { AreIn (input_ranges (nodes_of circuit.now.shape)) values.now }
    ensures spelled { IfOk result (λ bytes.
        bytes.items ≡ cipher_bytes (input_file circuit.now seed.now big.now values.now)) }
    // So the file is one that is read again.
    ensures valid { OnOk result (IsCipherFile (input_file circuit.now seed.now big.now values.now)) }
{
    circuit_heads::laws::laws();
    let list = draw_inputs(
        alloc,
        big,
        seed,
        values,
        circuit.shape.width,
        circuit.params.glwe.error,
    )?;
    print_cipher(alloc, head, &list)
}

/// The bytes of the file of inputs, out of the three files.
fn encrypted<S: Store>(
    alloc: Global,
    store: &mut S,
    names: &EncryptNames<'_>,
) -> Result<Vec<u8>, StepRefusal>
    ensures reads { ReadsAs (names.now.circuit.now ∷ names.now.secret.now ∷ names.now.values.now ∷ [])
        (store_at S.files S.shown S.read_faults S.write_faults store.old)
        (store_at S.files S.shown S.read_faults S.write_faults store.new)
        (λ bytes. bytes.items) result (encrypted (encrypt_view names.now)) }
    ensures gave { OnOk result ((files : Files) → S.files store.old ≡ Some files
        → GaveInputs (encrypt_view names.now) files) }
{
    circuit_heads::laws::laws();
    let circuit = circuit_from(alloc, store, names.circuit)?;
    let (digest, secret) = secret_from(alloc, store, names.secret)?;
    check_secret(alloc, &circuit, &digest, &secret)?;
    let Ok(head) = input_head(alloc, &circuit) else {
        return Err(StepRefusal::Memory);
    };
    let values = values_from(alloc, store, head.ranges.as_slice(), names.values)?;
    match input_bytes(alloc, &circuit, &head, &secret.big, &names.seed, &values) {
        Ok(bytes) => Ok(bytes),
        Err(AllocError) => Err(StepRefusal::Memory),
    }
}

/// Writes to CIPHER fresh ciphertexts of the values of VALUES, one for each input of the circuit of CIRCUIT, under the
/// big key of SECRET, drawn from the seed. The sink is not touched.
pub fn encrypt<S: Store, O: Sink>(
    alloc: Global,
    store: &mut S,
    out: &mut O,
    names: &EncryptNames<'_>,
) -> Status
    requires distinct { are_distinct (encrypt_files (encrypt_view names.now)) ≡ true }
    ensures outcome { MayLeave (encrypt_outcome (encrypt_view names.now)) result
        (outside (store_at S.files S.shown S.read_faults S.write_faults store.old) O.taken O.put_faults out.old)
        (outside (store_at S.files S.shown S.read_faults S.write_faults store.new) O.taken O.put_faults out.new) }
    // The headline: over a store that tells its files, what is written is read as ciphertexts of the values.
    ensures headline { EncryptHeadline (encrypt_view names.now) result
        (outside (store_at S.files S.shown S.read_faults S.write_faults store.old) O.taken O.put_faults out.old)
        (outside (store_at S.files S.shown S.read_faults S.write_faults store.new) O.taken O.put_faults out.new) }
{
    port_store::laws::laws();
    cipher_files::laws::laws();
    match encrypted(alloc, store, names) {
        Ok(bytes) => write_file(store, names.cipher, &bytes),
        Err(refusal) => Status::from(refusal),
    }
}
