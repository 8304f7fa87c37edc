//! Circuits with key switches and bootstraps, run with keys of zeros and with keys of a seed.

ghost use Rattle.std.specs.Prelude.{◌≡◌, ◌+◌, ◌<◌, IfOk, Some, length};
ghost use Rattle.fhe_params.specs.Params.{IsParams, big_dimension};
ghost use Rattle.tfhe_level.specs.Nodes.{nodes_of};
ghost use Rattle.tfhe_level.specs.Laws.{input_ranges};
ghost use Rattle.noise_model.specs.Circuits.{IsCircuit};
ghost use Rattle.circuit_run.specs.Rooms.{IsRoomOf};
ghost use Rattle.circuit_run.specs.Steps.{SwitchesFor, BootsFor};

use crate::{RunRoom, evaluate, input_count, laws};
use blind_rotate::BootKey;
use circuit_file::read_circuit;
use fhe_params::{Params, dimension};
use key_switch::SwitchKey;
use lwe_core::{Big, Lwe};
use std::alloc::{AllocError, Global};
use std::process::Abort;
use std::test::Fail;
use tfhe_level::Circuit;

/// Two inputs, a weighted sum of them, two bootstraps on one key switch of it, a weighted sum of these, and four outs,
/// one of them of an input.
const CIRCUIT: &str = "fhec circuit 1
width 3
glwe 1 8 4 1024
lwe 8 2 1048576
boot 8 4
switch 4 6
%0 = input -1 0
%1 = input 0 1
%2 = lin 1 1 %0 2 %1
%3 = switch %2
%4 = boot %3 1 3 0 2
%5 = boot %3 0 1 2 3
%6 = lin 2 1 %4 -1 %5
out %6 -1 5
out %4 0 3
out %5 0 3
out %0 -1 0
end
";

/// The place of 1: messages have three bits.
const STEP: u64 = 1 << 60;

/// The next of a list of words that look like no other list.
fn next(word: u64) -> u64 {
    word.wrapping_mul(6364136223846793005)
        .wrapping_add(1442695040888963407)
}

/// The ciphertext with this body and a mask that is drawn from a word on.
fn drawn(alloc: Global, params: &Params, start: u64, body: u64) -> Result<Lwe<Big>, AllocError>
    requires { IsParams params.now }
    ensures { IfOk result (λ c. length c ≡ big_dimension params.now + 1) }
{
    let dim = dimension(params) as usize;
    let mut c = Lwe::new(alloc, dim)?;
    let mut word = start;
    for at in 0..dim {
        word = next(word);
        c.set(at, word);
    }
    c.set(dim, body);
    Ok(c)
}

/// A switch key of zeros.
fn zero_switch_key(alloc: Global, params: &Params) -> Result<SwitchKey, AllocError>
    requires { IsParams params.now }
    ensures { IfOk result (λ key. SwitchesFor params.now (Some key)) }
{
    let dim = dimension(params) as usize;
    SwitchKey::new(
        alloc,
        dim,
        params.lwe.n as usize,
        params.switch.base,
        params.switch.level,
    )
}

/// A boot key of zeros.
fn zero_boot_key(alloc: Global, params: &Params) -> Result<BootKey, AllocError>
    requires { IsParams params.now }
    ensures { IfOk result (λ key. BootsFor params.now (Some key)) }
{
    BootKey::new(
        alloc,
        params.glwe.k,
        params.glwe.log_n,
        params.lwe.n,
        params.boot.base,
        params.boot.level,
    )
}

/// Asserts that the ciphertext of a node has no mask, and in the body a value without an error.
fn expect_value(rt: &impl Abort, room: &RunRoom, node: u32, value: u64)
    requires { node < length room.now.big }
{
    let words = room.big(node).words();
    assert_eq!(rt; words.len(), 257);
    for at in 0..words.len() {
        let expected = if at == 256 {
            value.wrapping_mul(STEP)
        } else {
            0
        };
        assert_eq!(rt; words[at], expected, "word {at} of {node}");
    }
}

/// Asserts that the words of a node are those of a list.
fn expect_words(rt: &impl Abort, room: &RunRoom, node: u32, words: &[u64])
    requires { node < length room.now.big }
{
    assert_eq!(rt; room.big(node).words(), words, "node {node}");
}

/// Each word of the first sum: that of the one ciphertext and twice that of the other, and 1 at the body.
fn expected_sum(alloc: Global, first: &[u64], second: &[u64]) -> Result<Vec<u64>, AllocError> {
    let mut words = Vec::new(alloc);
    for (at, (x, y)) in first.iter().zip(second).enumerate() {
        let constant = if at == 256 { STEP } else { 0 };
        words.push(x.wrapping_add(y.wrapping_mul(2)).wrapping_add(constant))?;
    }
    Ok(words)
}

/// Runs the circuit on two inputs with these bodies, and asserts the words of all operations, where the keys are 0: a
/// body is then its own phase, and the bootstraps and the second sum have these values.
fn expect_run(
    rt: &(impl Abort + AllocGlobal),
    room: &mut RunRoom,
    circuit: &Circuit,
    keys: (&SwitchKey, &BootKey),
    bodies: (i64, i64),
    values: (u64, u64, u64),
) -> Result<(), Fail>
    requires rules { IsCircuit circuit.now }
    requires room { IsRoomOf circuit.now room.old }
    requires switch { SwitchesFor circuit.now.params (Some keys.0.now) }
    requires boot { BootsFor circuit.now.params (Some keys.1.now) }
    requires inputs { length (input_ranges (nodes_of circuit.now.shape)) ≡ 2 }
    requires nodes { length (nodes_of circuit.now.shape) ≡ 11 }
    ensures { IsRoomOf circuit.now room.new }
{
    let alloc = rt.alloc();
    let inputs = [
        drawn(alloc, &circuit.params, 1, bodies.0.cast_unsigned())?,
        drawn(alloc, &circuit.params, 2, bodies.1.cast_unsigned())?,
    ];
    evaluate(room, circuit, Some(keys.0), Some(keys.1), &inputs);
    expect_words(rt, room, 0, inputs[0].words());
    expect_words(rt, room, 1, inputs[1].words());
    let sum = expected_sum(alloc, inputs[0].words(), inputs[1].words())?;
    expect_words(rt, room, 2, sum.as_slice());
    let switched = room.small(3).words();
    let body = sum.get(256).copied().unwrap_or(0);
    assert_eq!(rt; switched, [0, 0, 0, 0, 0, 0, 0, 0, body].as_slice());
    expect_value(rt, room, 4, values.0);
    expect_value(rt, room, 5, values.1);
    expect_value(rt, room, 6, values.2);
    expect_value(rt, room, 7, values.2);
    expect_value(rt, room, 8, values.0);
    expect_value(rt, room, 9, values.1);
    expect_words(rt, room, 10, inputs[0].words());
    Ok(())
}

#[test]
fn words_with_keys_of_zeros(rt: HostRuntime) -> Result<(), Fail> {
    laws::laws();
    let alloc = rt.alloc();
    let Ok(circuit) = read_circuit(alloc, CIRCUIT.as_bytes()) else {
        panic!(rt; "no circuit");
    };
    assert_eq!(rt; circuit.shape.node_count(), 11);
    assert_eq!(rt; input_count(&circuit), 2);
    let switch = zero_switch_key(alloc, &circuit.params)?;
    let boot = zero_boot_key(alloc, &circuit.params)?;
    let mut room = RunRoom::new(alloc, &circuit)?;
    let keys = (&switch, &boot);
    // -1 or 0 with the error 5, and 0 or 1 with the error -7
    let (minus_1, plus_1) = (5 - (1 << 60), (1 << 60) - 7);
    expect_run(&rt, &mut room, &circuit, keys, (minus_1, -7), (1, 0, 3))?;
    expect_run(&rt, &mut room, &circuit, keys, (5, -7), (3, 1, 4))?;
    expect_run(&rt, &mut room, &circuit, keys, (minus_1, plus_1), (0, 2, 0))?;
    expect_run(&rt, &mut room, &circuit, keys, (5, plus_1), (2, 3, 1))
}
