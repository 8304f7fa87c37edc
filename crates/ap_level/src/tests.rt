//! Programs that are built operation by operation.

ghost use Rattle.ir_core.specs.Placed.{IsPlaced};

use super::*;
use ir_core::Level;
use std::alloc::{AllocError, Global};
use std::process::Abort;
use std::test::Fail;

/// A look-up.
fn look(
    alloc: Global,
    constant: i64,
    terms: &[(u32, i64)],
    entries: &[i64],
) -> Result<ApOp, AllocError> {
    let terms = List::from_vec(terms.to_vec(alloc)?);
    let entries = List::from_vec(entries.to_vec(alloc)?);
    Ok(ApOp::Look {
        constant,
        terms,
        entries,
    })
}

/// A result.
fn out(alloc: Global, constant: i64, terms: &[(u32, i64)]) -> Result<ApOp, AllocError> {
    let terms = List::from_vec(terms.to_vec(alloc)?);
    Ok(ApOp::Out { constant, terms })
}

/// Adds an operation, whose operands are there.
fn add(rt: &(impl Abort + AllocGlobal), program: &mut ApProgram, op: ApOp) -> Result<u32, Fail>
    requires { IsPlaced program.old.graph }
    ensures { IsPlaced program.new.graph }
{
    let count = program.graph.op_count();
    assert!(rt; count < 1000);
    let arity = ApLevel::arity(&op);
    assert!(rt; arity < 1000);
    for at in 0..arity {
        assert!(rt; ApLevel::operand(&op, at) < count);
    }
    Ok(program.graph.append(op)?)
}

#[test]
fn operations_in_their_order(rt: HostRuntime) -> Result<(), Fail> {
    let alloc = rt.alloc();
    let mut program = ApProgram::new(alloc, 2);
    assert_eq!(rt; add(&rt, &mut program, ApOp::Input { lo: 2, hi: 5 })?, 0);
    assert_eq!(rt;
        add(
            &rt,
            &mut program,
            look(alloc, -2, &[(0, 1)], &[5, 6, 7, 1])?
        )?,
        1
    );
    assert_eq!(rt;
        add(&rt, &mut program, out(alloc, 0, &[(0, -1), (1, 2)])?)?,
        2
    );
    assert_eq!(rt; program.graph.op_count(), 3);
    assert_eq!(rt; program.width, 2);
    assert!(rt; 2 < program.graph.op_count());
    assert_eq!(rt; ApLevel::arity(program.graph.op_at(0)), 0);
    assert_eq!(rt; ApLevel::arity(program.graph.op_at(2)), 2);
    Ok(())
}

#[test]
fn operands_are_put_and_read(rt: HostRuntime) -> Result<(), Fail> {
    let alloc = rt.alloc();
    let mut pattern = look(alloc, 7, &[(0, 3), (2, -4)], &[1, 2])?;
    assert_eq!(rt; ApLevel::arity(&pattern), 2);
    assert_eq!(rt; ApLevel::operand(&pattern, 1), 2);
    ApLevel::set_operand(&mut pattern, 1, 9);
    assert_eq!(rt; ApLevel::arity(&pattern), 2);
    assert_eq!(rt; ApLevel::operand(&pattern, 0), 0);
    assert_eq!(rt; ApLevel::operand(&pattern, 1), 9);
    ApLevel::result(&pattern);
    let mut result = out(alloc, 0, &[(1, 2)])?;
    assert_eq!(rt; ApLevel::arity(&result), 1);
    ApLevel::set_operand(&mut result, 0, 4);
    assert_eq!(rt; ApLevel::arity(&result), 1);
    assert_eq!(rt; ApLevel::operand(&result, 0), 4);
    assert_eq!(rt; ApLevel::arity(&ApOp::Input { lo: -1, hi: 1 }), 0);
    Ok(())
}
