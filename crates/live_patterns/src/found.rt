//! What the statements of a program come to, as operations of patterns.

ghost use Rattle.std.specs.Prelude.{◌≡◌, ◌++◌, map, OnOk, IfOk};
ghost use Rattle.live_patterns.specs.Found.{input_op, look_op, out_op, found_patterns};

use crate::patterns::{Look, Patterns};
use ap_level::ApOp;
use linear_forms::Form;
use std::alloc::{AllocError, Global};

/// Adds the arguments.
fn put_inputs(operations: &mut Vec<ApOp>, inputs: &[(i64, i64)]) -> Result<(), AllocError>
    ensures { OnOk result (operations.new.items ≡ operations.old.items ++ map input_op inputs.now) }
{
    for range in inputs {
        let (lo, hi) = *range;
        operations.push(ApOp::Input { lo, hi })?;
    }
    Ok(())
}

/// A look-up as an operation.
fn look_op(look: Look) -> ApOp
    ensures { result ≡ look_op look }
{
    let Look {
        form: Form { constant, terms },
        entries,
    } = look;
    ApOp::Look {
        constant,
        terms,
        entries,
    }
}

/// Adds the look-ups.
fn put_looks(operations: &mut Vec<ApOp>, looks: Vec<Look>) -> Result<(), AllocError>
    ensures { OnOk result (operations.new.items ≡ operations.old.items ++ map look_op looks.items) }
{
    for look in looks {
        operations.push(look_op(look))?;
    }
    Ok(())
}

/// A result as an operation.
fn out_op(form: Form) -> ApOp
    ensures { result ≡ out_op form }
{
    let Form { constant, terms } = form;
    ApOp::Out { constant, terms }
}

/// Adds the results.
fn put_outs(operations: &mut Vec<ApOp>, outs: Vec<Form>) -> Result<(), AllocError>
    ensures { OnOk result (operations.new.items ≡ operations.old.items ++ map out_op outs.items) }
{
    for form in outs {
        operations.push(out_op(form))?;
    }
    Ok(())
}

/// The patterns as operations, in order.
pub(crate) fn found_operations(alloc: Global, patterns: Patterns) -> Result<Vec<ApOp>, AllocError>
    ensures { IfOk result (λ operations. operations.items ≡ found_patterns patterns) }
{
    let Patterns {
        inputs,
        looks,
        outs,
    } = patterns;
    let mut operations = Vec::new(alloc);
    put_inputs(&mut operations, inputs.as_slice())?;
    put_looks(&mut operations, looks.into_vec())?;
    put_outs(&mut operations, outs.into_vec())?;
    Ok(operations)
}
