//! Circuits that are built operation by operation.

ghost use Rattle.std.specs.Prelude.{IfOk};
ghost use Rattle.ir_core.specs.Placed.{IsPlaced};

use super::*;
use ir_core::Level;
use std::alloc::{AllocError, Global};
use std::process::Abort;
use std::test::Fail;

/// A weighted sum.
fn lin(alloc: Global, constant: i64, terms: &[(u32, i64)]) -> Result<TfheOp, AllocError> {
    let terms = List::from_vec(terms.to_vec(alloc)?);
    Ok(TfheOp::Lin { constant, terms })
}

/// A bootstrap.
fn boot(alloc: Global, source: u32, entries: &[i64]) -> Result<TfheOp, AllocError> {
    let entries = List::from_vec(entries.to_vec(alloc)?);
    Ok(TfheOp::Boot { source, entries })
}

/// Adds an operation, whose operands are there.
fn add(rt: &(impl Abort + AllocGlobal), shape: &mut Shape, op: TfheOp) -> Result<u32, Fail>
    requires { IsPlaced shape.old.graph }
    ensures { IsPlaced shape.new.graph }
{
    let count = shape.node_count();
    assert!(rt; count < 1000);
    let arity = TfheLevel::arity(&op);
    assert!(rt; arity < 1000);
    for at in 0..arity {
        assert!(rt; TfheLevel::operand(&op, at) < count);
    }
    Ok(shape.push(op)?)
}

/// Three arguments, 1 and 2 and 3 times them, and a table of squares modulo 16.
fn squares(rt: &(impl Abort + AllocGlobal)) -> Result<Shape, Fail>
    ensures { IfOk result (λ shape. IsPlaced shape.graph) }
{
    let mut shape = Shape::new(rt.alloc(), 4);
    add(rt, &mut shape, TfheOp::Input { lo: 0, hi: 3 })?;
    add(rt, &mut shape, TfheOp::Input { lo: 0, hi: 3 })?;
    add(rt, &mut shape, TfheOp::Input { lo: 0, hi: 2 })?;
    add(
        rt,
        &mut shape,
        lin(rt.alloc(), 0, &[(0, 1), (1, 2), (2, 3)])?,
    )?;
    add(rt, &mut shape, TfheOp::Switch { source: 3 })?;
    let entries = [0, 1, 4, 9, 0, 9, 4, 1, 0, 1, 4, 9, 0, 9, 4, 1];
    add(rt, &mut shape, boot(rt.alloc(), 4, &entries)?)?;
    add(
        rt,
        &mut shape,
        TfheOp::Out {
            source: 5,
            lo: 0,
            hi: 9,
        },
    )?;
    Ok(shape)
}

#[test]
fn operations_are_counted(rt: HostRuntime) -> Result<(), Fail> {
    let shape = squares(&rt)?;
    assert_eq!(rt; shape.node_count(), 7);
    let found = counts(&shape);
    assert_eq!(rt; (found.switches, found.boots, found.weights), (1, 1, 3));
    let mut shape = Shape::new(rt.alloc(), 1);
    add(&rt, &mut shape, TfheOp::Input { lo: 0, hi: 1 })?;
    add(&rt, &mut shape, lin(rt.alloc(), 0, &[(0, 0)])?)?;
    add(&rt, &mut shape, lin(rt.alloc(), 0, &[(0, 0), (1, -5)])?)?;
    let found = counts(&shape);
    assert_eq!(rt; (found.switches, found.boots, found.weights), (0, 0, 1));
    Ok(())
}

#[test]
fn operands_are_put_and_read(rt: HostRuntime) -> Result<(), Fail> {
    let alloc = rt.alloc();
    let mut sum = lin(alloc, 7, &[(0, 3), (2, -4)])?;
    assert_eq!(rt; TfheLevel::arity(&sum), 2);
    assert_eq!(rt; TfheLevel::operand(&sum, 1), 2);
    TfheLevel::set_operand(&mut sum, 1, 9);
    assert_eq!(rt; TfheLevel::arity(&sum), 2);
    assert_eq!(rt; TfheLevel::operand(&sum, 0), 0);
    assert_eq!(rt; TfheLevel::operand(&sum, 1), 9);
    assert_eq!(rt; TfheLevel::result(&sum), Held::Big);
    let mut switch = TfheOp::Switch { source: 4 };
    TfheLevel::set_operand(&mut switch, 0, 5);
    assert_eq!(rt; TfheLevel::operand(&switch, 0), 5);
    assert_eq!(rt; TfheLevel::result(&switch), Held::Small);
    assert_eq!(rt; TfheLevel::arity(&TfheOp::Input { lo: -1, hi: 1 }), 0);
    assert_eq!(rt; TfheLevel::result(&boot(alloc, 1, &[1, 3])?), Held::Big);
    Ok(())
}
