//! One operation of a run.

ghost use Rattle.std.specs.Prelude.{◌≡◌, ◌≤◌, length, map};
ghost use Rattle.std.specs.Option.{option_copied};
ghost use Rattle.blind_rotate.specs.BootKey.{glwe_shape};
ghost use Rattle.fhe_params.specs.Params.{IsParams};
ghost use Rattle.circuit_run.specs.Running.{eval_keys};
ghost use Rattle.circuit_run.specs.Steps.{CanStep, stepped};

use crate::room::RunRoom;
use blind_rotate::BootKey;
use fhe_params::dimension;
use key_switch::SwitchKey;
use lwe_core::{Big, Lwe};
use tfhe_level::{Circuit, TfheOp};

/// Computes the ciphertext of an operation, whose operands have theirs.
pub(crate) fn step(
    room: &mut RunRoom,
    circuit: &Circuit,
    switch: Option<&SwitchKey>,
    boot: Option<&BootKey>,
    inputs: &[Lwe<Big>],
    node: u32,
    op: &TfheOp,
)
    requires params { IsParams circuit.now.params }
    requires width { circuit.now.shape.width ≤ 16 }
    requires shape { room.old.shape ≡ glwe_shape circuit.now.params.glwe.k circuit.now.params.glwe.log_n }
    requires can { CanStep circuit.now (eval_keys (option_copied switch) (option_copied boot)) inputs.now room.old
        node op.now }
    ensures room { room.new
        ≡ stepped circuit.now (eval_keys (option_copied switch.entry) (option_copied boot.entry)) inputs.now room.old
        node op.now }
    ensures big { map length room.new.big ≡ map length room.old.big }
    ensures small { map length room.new.small ≡ map length room.old.small }
    ensures shape { room.new.shape ≡ room.old.shape }
{
    let width = circuit.shape.width;
    match op {
        TfheOp::Input { .. } => room.set_input(node, &inputs[node as usize]),
        TfheOp::Lin { constant, terms } => {
            let dim = dimension(&circuit.params) as usize;
            room.set_lin(node, dim, width, *constant, terms.as_slice());
        }
        TfheOp::Switch { source } => match switch {
            Some(key) => room.set_switch(node, key, *source),
            None => unreachable!(),
        },
        TfheOp::Boot { source, entries } => match boot {
            Some(key) => room.set_boot(node, key, width, entries.as_slice(), *source),
            None => unreachable!(),
        },
        TfheOp::Out { source, .. } => room.set_out(node, *source),
    }
}
