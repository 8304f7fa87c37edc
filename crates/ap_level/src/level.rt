//! The operations of patterns.

ghost use Rattle.std.specs.Prelude.{refl};
ghost use Rattle.ap_level.specs.Operations.{operands_of, with_operands};
ghost use Rattle.ap_level.specs.PutOperands.{put_is_read, own_put_is_same, last_put_stays};

use forms::terms::set_leaf;
use ir_core::Level;
use lists::List;

/// An operation of patterns. A form is a constant and terms, each the number of an earlier argument or look-up and its
/// weight.
#[derive(Debug, Drop)]
pub enum ApOp {
    /// An argument, from `lo` to `hi`.
    Input {
        lo: i64,
        hi: i64,
    },
    /// The entry at the value of a form, counted from 0.
    Look {
        constant: i64,
        terms: List<(u32, i64)>,
        entries: List<i64>,
    },
    /// A result: the value of a form.
    Out {
        constant: i64,
        terms: List<(u32, i64)>,
    },
}

/// The level of patterns.
pub struct ApLevel;

impl Level for ApLevel {
    type Ty = ();

    type Op = ApOp;

    ghost operands = { operands_of };

    ghost with_operands = { with_operands };

    ghost type_of = { λ _. tt };

    fn arity(op: &ApOp) -> usize {
        match op {
            ApOp::Input { .. } => 0,
            ApOp::Look { terms, .. } => terms.len(),
            ApOp::Out { terms, .. } => terms.len(),
        }
    }

    fn operand(op: &ApOp, at: usize) -> u32 {
        match op {
            ApOp::Input { .. } => 0,
            ApOp::Look { terms, .. } => terms.as_slice()[at].0,
            ApOp::Out { terms, .. } => terms.as_slice()[at].0,
        }
    }

    fn set_operand(op: &mut ApOp, at: usize, value: u32) {
        match op {
            ApOp::Input { .. } => {}
            ApOp::Look { terms, .. } => set_leaf(terms, at, value),
            ApOp::Out { terms, .. } => set_leaf(terms, at, value),
        }
    }

    fn result(op: &ApOp) {
        let _ = op;
    }

    ghost put_is_read = { put_is_read };

    ghost own_put_is_same = { own_put_is_same };

    ghost last_put_stays = { last_put_stays };

    ghost put_keeps_type = { λ op list same. refl };
}
