//! The ranges of inputs and of outs, in order.

ghost use Rattle.std.specs.Prelude.{◌≡◌, [], ◌∷◌, ◌++◌, IfOk, OnOk};
ghost use Rattle.ir_core.specs.Placed.{IsPlaced};
ghost use Rattle.tfhe_level.specs.Nodes.{nodes_of};
ghost use Rattle.tfhe_level.specs.Laws.{input_ranges};
ghost use Rattle.circuit_heads.specs.Heads.{out_ranges};

use std::alloc::{AllocError, Global};
use tfhe_level::{Shape, TfheOp};

/// Adds the range of an input, and nothing for another operation.
fn put_input(ranges: &mut Vec<(i64, i64)>, op: &TfheOp) -> Result<(), AllocError>
    ensures { OnOk result (ranges.new.items ≡ ranges.old.items ++ input_ranges (op.now ∷ [])) }
{
    if let TfheOp::Input { lo, hi } = op {
        ranges.push((*lo, *hi))?;
    }
    Ok(())
}

/// Adds the range of an out, and nothing for another operation.
fn put_out(ranges: &mut Vec<(i64, i64)>, op: &TfheOp) -> Result<(), AllocError>
    ensures { OnOk result (ranges.new.items ≡ ranges.old.items ++ out_ranges (op.now ∷ [])) }
{
    if let TfheOp::Out { lo, hi, .. } = op {
        ranges.push((*lo, *hi))?;
    }
    Ok(())
}

/// The ranges of the inputs.
pub(crate) fn input_ranges(alloc: Global, shape: &Shape) -> Result<Vec<(i64, i64)>, AllocError>
    requires { IsPlaced shape.now.graph }
    ensures { IfOk result (λ ranges. ranges.items ≡ input_ranges (nodes_of shape.now)) }
{
    let mut ranges = Vec::new(alloc);
    for number in 0..shape.node_count() {
        put_input(&mut ranges, shape.node(number))?;
    }
    Ok(ranges)
}

/// The ranges of the outs.
pub(crate) fn out_ranges(alloc: Global, shape: &Shape) -> Result<Vec<(i64, i64)>, AllocError>
    requires { IsPlaced shape.now.graph }
    ensures { IfOk result (λ ranges. ranges.items ≡ out_ranges (nodes_of shape.now)) }
{
    let mut ranges = Vec::new(alloc);
    for number in 0..shape.node_count() {
        put_out(&mut ranges, shape.node(number))?;
    }
    Ok(ranges)
}
