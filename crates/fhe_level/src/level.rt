//! The operations of programs.

ghost use Rattle.fhe_level.specs.Operations.{operands_of, with_operands, type_of};
ghost use Rattle.fhe_level.specs.PutOperands.{put_is_read, own_put_is_same, last_put_stays, put_keeps_type};

use fhe_text::{Entries, OpName, WrittenType};
use ir_core::Level;
use lists::List;

/// An operation of a program.
#[derive(Debug, Drop)]
pub enum FheOp {
    /// An argument.
    Arg {
        ty: WrittenType,
    },
    /// A constant number.
    Int {
        value: i64,
        bits: u32,
    },
    /// A constant table.
    Dense {
        entries: Entries,
        length: u32,
        bits: u32,
    },
    /// An operation on earlier ones, with the type of its result.
    Apply {
        name: OpName,
        operands: List<u32>,
        ty: WrittenType,
    },
}

/// The level of programs.
pub struct FheLevel;

impl Level for FheLevel {
    type Ty = WrittenType;

    type Op = FheOp;

    ghost operands = { operands_of };

    ghost with_operands = { with_operands };

    ghost type_of = { type_of };

    fn arity(op: &FheOp) -> usize {
        match op {
            FheOp::Apply { operands, .. } => operands.len(),
            FheOp::Arg { .. } | FheOp::Int { .. } | FheOp::Dense { .. } => 0,
        }
    }

    fn operand(op: &FheOp, at: usize) -> u32 {
        match op {
            FheOp::Apply { operands, .. } => operands.as_slice()[at],
            FheOp::Arg { .. } | FheOp::Int { .. } | FheOp::Dense { .. } => 0,
        }
    }

    fn set_operand(op: &mut FheOp, at: usize, value: u32) {
        match op {
            FheOp::Apply { operands, .. } => operands.set(at, value),
            FheOp::Arg { .. } | FheOp::Int { .. } | FheOp::Dense { .. } => {}
        }
    }

    fn result(op: &FheOp) -> WrittenType {
        match op {
            FheOp::Arg { ty } => *ty,
            FheOp::Int { bits, .. } => WrittenType::Int(*bits),
            FheOp::Dense { length, bits, .. } => WrittenType::Tensor {
                length: *length,
                bits: *bits,
            },
            FheOp::Apply { ty, .. } => *ty,
        }
    }

    ghost put_is_read = { put_is_read };

    ghost own_put_is_same = { own_put_is_same };

    ghost last_put_stays = { last_put_stays };

    ghost put_keeps_type = { put_keeps_type };
}
