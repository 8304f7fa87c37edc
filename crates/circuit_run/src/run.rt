//! A run of a circuit.

ghost use Rattle.std.specs.Prelude.{◌≡◌, ◌≤◌, [], ◌∷◌, length};
ghost use Rattle.std.specs.Option.{option_copied};
ghost use Rattle.ir_core.specs.Placed.{IsPlaced};
ghost use Rattle.tfhe_level.specs.Nodes.{nodes_of};
ghost use Rattle.tfhe_level.specs.Laws.{input_ranges};
ghost use Rattle.noise_model.specs.Circuits.{IsCircuit};
ghost use Rattle.circuit_run.specs.Running.{eval_keys, run_words};
ghost use Rattle.circuit_run.specs.Rooms.{IsRoomOf, words_in};
ghost use Rattle.circuit_run.specs.Steps.{HasKeys, AreInputs};

use crate::room::RunRoom;
use crate::step::step;
use blind_rotate::BootKey;
use key_switch::SwitchKey;
use lwe_core::{Big, Lwe};
use tfhe_level::{Circuit, TfheOp};

/// How many inputs one operation is: one where it is an input, and else none.
fn inputs_in(op: &TfheOp) -> usize
    ensures number { result ≡ length (input_ranges (op.now ∷ [])) }
    ensures most { result ≤ 1 }
{
    match op {
        TfheOp::Input { .. } => 1,
        _ => 0,
    }
}

/// How many inputs a circuit has.
pub fn input_count(circuit: &Circuit) -> usize
    requires { IsPlaced circuit.now.shape.graph }
    ensures { result ≡ length (input_ranges (nodes_of circuit.now.shape)) }
{
    let mut count = 0;
    for number in 0..circuit.shape.node_count() {
        count += inputs_in(circuit.shape.node(number));
    }
    count
}

/// Computes the ciphertexts of all operations of a circuit from those of its inputs, in the circuit's room: inputs and
/// outs are copies, weighted sums go word by word modulo 2^64, and key switches and bootstraps take their keys
/// (Chillotti et al. 2020). A circuit without a bootstrap needs no keys. It takes no memory.
pub fn evaluate(
    room: &mut RunRoom,
    circuit: &Circuit,
    switch: Option<&SwitchKey>,
    boot: Option<&BootKey>,
    inputs: &[Lwe<Big>],
)
    requires rules { IsCircuit circuit.now }
    requires room { IsRoomOf circuit.now room.old }
    requires keys { HasKeys circuit.now (eval_keys (option_copied switch) (option_copied boot)) }
    requires inputs { AreInputs circuit.now inputs.now }
    // The words of all operations, as the definition has them.
    ensures words { words_in circuit.now room.new
        ≡ run_words circuit.now (eval_keys (option_copied switch.entry) (option_copied boot.entry)) inputs.now }
    // It is the circuit's room still, with two ciphertexts for each operation.
    ensures room { IsRoomOf circuit.now room.new }
    ensures big { length room.new.big ≡ length (nodes_of circuit.now.shape) }
    ensures small { length room.new.small ≡ length (nodes_of circuit.now.shape) }
{
    forms::laws::laws();
    tfhe_level::laws::laws();
    noise_laws::laws::laws();
    for number in 0..circuit.shape.node_count() {
        step(
            room,
            circuit,
            switch,
            boot,
            inputs,
            number,
            circuit.shape.node(number),
        );
    }
}
