//! Which patterns stay: arguments, results, and the look-ups that a result hangs on.

ghost use Rattle.std.specs.Prelude.{◌≡◌, ◌<◌, ◌^◌, ◌||◌, ℕ, List, [], length, reverse, All, OnOk, IfOk, slice_index_or, false};
ghost use Rattle.ap_level.specs.Operations.{operands_of};
ghost use Rattle.ap_level.specs.Rules.{is_user_of};
ghost use Rattle.live_patterns.specs.Live.{kept_of, is_live, with_live};
ghost use Rattle.live_patterns.specs.Renumbering.{AreMarks, HaveEarlier};

use ap_level::{ApLevel, ApOp};
use ir_core::Level;
use std::alloc::{AllocError, Global};

/// Marks the operands of an operation.
fn mark(used: &mut Vec<bool>, op: &ApOp)
    requires { All (λ operand. operand < length used.old.items) (operands_of op.now) }
    ensures marks { (number : ℕ) → slice_index_or used.new.items number false
        ≡ (slice_index_or used.old.items number false || is_user_of number op.now) }
    ensures length { length used.new.items ≡ length used.old.items }
{
    for at in 0..ApLevel::arity(op) {
        used[ApLevel::operand(op, at) as usize] = true;
    }
}

/// Whether an operation stays, where those behind it that stay have marked their operands.
fn is_live(used: &[bool], number: usize, op: &ApOp) -> bool
    requires { number < length used.now }
    ensures { (later : List (ℕ × ApOp)) → AreMarks used.now later → result ≡ is_live number op.now later }
{
    match op {
        ApOp::Look { .. } => used[number],
        _ => true,
    }
}

/// Keeps an operation with its number, if it stays, and marks its operands.
fn keep_if_live(
    used: &mut Vec<bool>,
    kept: &mut Vec<(u32, ApOp)>,
    number: u32,
    op: ApOp,
) -> Result<(), AllocError>
    requires marks { AreMarks used.old.items (reverse kept.old.items) }
    requires number { number < length used.old.items }
    requires earlier { All (λ operand. operand < length used.old.items) (operands_of op) }
    ensures kept { OnOk result (reverse kept.new.items ≡ with_live number op (reverse kept.old.items)) }
    ensures marks { OnOk result (AreMarks used.new.items (reverse kept.new.items)) }
    ensures length { length used.new.items ≡ length used.old.items }
{
    if is_live(used, number as usize, &op) {
        mark(used, &op);
        kept.push((number, op))?;
    }
    Ok(())
}

/// The operations that stay, each with its number, the last one first.
pub(crate) fn kept_operations(
    alloc: Global,
    operations: Vec<ApOp>,
) -> Result<Vec<(u32, ApOp)>, AllocError>
    requires earlier { HaveEarlier 0 operations.items }
    requires few { length operations.items < 2 ^ 32 }
    ensures { IfOk result (λ kept. reverse kept.items ≡ kept_of operations.items) }
{
    let mut operations = operations;
    let mut used = vec![in alloc; false; operations.len()]?;
    let mut kept = Vec::new(alloc);
    while let Some(op) = operations.pop() {
        keep_if_live(&mut used, &mut kept, operations.len() as u32, op)?;
    }
    Ok(kept)
}
