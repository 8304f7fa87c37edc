//! The operations of a circuit.

ghost use Rattle.tfhe_level.specs.Operations.{operands_of, with_operands, held_of};
ghost use Rattle.tfhe_level.specs.PutOperands.{put_is_read, own_put_is_same, last_put_stays, put_keeps_held};

use forms::terms::set_leaf;
use ir_core::Level;
use lists::List;

/// The key that the ciphertext of an operation's value is under.
#[derive(Clone, Copy, Debug, PartialEq, Eq)]
pub enum Held {
    Big,
    Small,
}

/// An operation of a circuit (Bergerat et al. 2023: dot products, key switches and bootstraps). Each operand is the
/// number of an earlier operation.
#[derive(Debug, Drop)]
pub enum TfheOp {
    /// An input, from `lo` to `hi`.
    Input {
        lo: i64,
        hi: i64,
    },
    /// A constant and the sum of weights times operands: the terms are an operand's number and its weight.
    Lin {
        constant: i64,
        terms: List<(u32, i64)>,
    },
    /// The operand, under the small key.
    Switch {
        source: u32,
    },
    /// The entry at the operand's value, by a bootstrap.
    Boot {
        source: u32,
        entries: List<i64>,
    },
    /// An output: the operand, from `lo` to `hi`.
    Out {
        source: u32,
        lo: i64,
        hi: i64,
    },
}

/// The level of circuits.
pub struct TfheLevel;

impl Level for TfheLevel {
    type Ty = Held;

    type Op = TfheOp;

    ghost operands = { operands_of };

    ghost with_operands = { with_operands };

    ghost type_of = { held_of };

    fn arity(op: &TfheOp) -> usize {
        match op {
            TfheOp::Input { .. } => 0,
            TfheOp::Lin { terms, .. } => terms.len(),
            TfheOp::Switch { .. } | TfheOp::Boot { .. } | TfheOp::Out { .. } => 1,
        }
    }

    fn operand(op: &TfheOp, at: usize) -> u32 {
        match op {
            TfheOp::Input { .. } => 0,
            TfheOp::Lin { terms, .. } => terms.as_slice()[at].0,
            TfheOp::Switch { source } => *source,
            TfheOp::Boot { source, .. } => *source,
            TfheOp::Out { source, .. } => *source,
        }
    }

    fn set_operand(op: &mut TfheOp, at: usize, value: u32) {
        match op {
            TfheOp::Input { .. } => {}
            TfheOp::Lin { terms, .. } => set_leaf(terms, at, value),
            TfheOp::Switch { source } => *source = value,
            TfheOp::Boot { source, .. } => *source = value,
            TfheOp::Out { source, .. } => *source = value,
        }
    }

    fn result(op: &TfheOp) -> Held {
        match op {
            TfheOp::Switch { .. } => Held::Small,
            _ => Held::Big,
        }
    }

    ghost put_is_read = { put_is_read };

    ghost own_put_is_same = { own_put_is_same };

    ghost last_put_stays = { last_put_stays };

    ghost put_keeps_type = { put_keeps_held };
}
