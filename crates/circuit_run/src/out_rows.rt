//! The outputs of a run.

ghost use Rattle.std.specs.Prelude.{◌≡◌, ◌+◌, ◌<◌, ◌≤◌, [], ◌∷◌, ◌++◌, length, All, IfOk, OnOk};
ghost use Rattle.ir_core.specs.Placed.{IsPlaced};
ghost use Rattle.fhe_params.specs.Params.{big_dimension};
ghost use Rattle.tfhe_level.specs.Nodes.{nodes_of, at_outs};
ghost use Rattle.circuit_run.specs.Rooms.{IsRoomOf, words_in};

use crate::room::RunRoom;
use lwe_core::{Big, Lwe};
use std::alloc::{AllocError, Global};
use tfhe_level::{Circuit, TfheOp};

/// A ciphertext of the same words.
fn copied(alloc: Global, c: &Lwe<Big>) -> Result<Lwe<Big>, AllocError>
    requires { 0 < length c.now }
    ensures { IfOk result (λ copy. copy ≡ c.now) }
{
    let words = c.words().to_vec(alloc)?;
    Ok(Lwe::from_words(words))
}

/// Adds the ciphertext of an out, and nothing for another operation.
fn put_out(
    alloc: Global,
    list: &mut Vec<Lwe<Big>>,
    op: &TfheOp,
    row: &Lwe<Big>,
) -> Result<(), AllocError>
    requires { 0 < length row.now }
    ensures { OnOk result (list.new.items ≡ list.old.items ++ at_outs (op.now ∷ []) (row.now ∷ [])) }
{
    if let TfheOp::Out { .. } = op {
        list.push(copied(alloc, row)?)?;
    }
    Ok(())
}

/// Copies of the ciphertexts of the outs, in order, as `evaluate` left them. It fails only for memory.
pub fn outputs(
    alloc: Global,
    circuit: &Circuit,
    room: &RunRoom,
) -> Result<Vec<Lwe<Big>>, AllocError>
    requires placed { IsPlaced circuit.now.shape.graph }
    requires room { IsRoomOf circuit.now room.now }
    ensures words { IfOk result (λ list.
        list.items ≡ at_outs (nodes_of circuit.now.shape) (words_in circuit.now room.now)) }
    // They have the big key's dimension.
    ensures long { IfOk result (λ list. All (λ row. length row ≡ big_dimension circuit.now.params + 1) list.items) }
{
    let mut list = Vec::new(alloc);
    for number in 0..circuit.shape.node_count() {
        put_out(
            alloc,
            &mut list,
            circuit.shape.node(number),
            room.big(number),
        )?;
    }
    Ok(list)
}
