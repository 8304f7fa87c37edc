//! Bounds and constraints of worked circuits under worked parameters.

ghost use Rattle.std.specs.Prelude.{IfOk, ◌≡◌, ◌<◌, ◌≤◌, ◌^◌};
ghost use Rattle.ir_core.specs.Placed.{IsPlaced};
ghost use Rattle.fhe_params.specs.Params.{IsParams};
ghost use Rattle.forms.specs.Limits.{most_width};

use super::*;
use fhe_params::{Gadget, GlweChoice, LweChoice, Params};
use ir_core::Level;
use std::alloc::Global;
use std::process::Abort;
use std::test::Fail;
use tfhe_level::{List, Shape, TfheLevel, TfheOp};

/// N 256 and a small key of 8 bits.
fn at_256() -> Params
    ensures { IsParams result }
{
    Params {
        glwe: GlweChoice {
            k: 1,
            log_n: 8,
            ones: 4,
            error: 1024,
        },
        lwe: LweChoice {
            n: 8,
            ones: 2,
            error: 1_048_576,
        },
        boot: Gadget { base: 8, level: 4 },
        switch: Gadget { base: 4, level: 6 },
    }
}

/// The same at N 16.
fn at_16() -> Params
    ensures { IsParams result }
{
    let glwe = GlweChoice {
        k: 1,
        log_n: 4,
        ones: 4,
        error: 1024,
    };
    Params { glwe, ..at_256() }
}

/// N 1024 and a small key of 128 bits.
fn at_1024() -> Params
    ensures { IsParams result }
{
    Params {
        glwe: GlweChoice {
            k: 1,
            log_n: 10,
            ones: 32,
            error: 131_072,
        },
        lwe: LweChoice {
            n: 128,
            ones: 24,
            error: 1_073_741_824,
        },
        boot: Gadget { base: 12, level: 2 },
        switch: Gadget { base: 4, level: 4 },
    }
}

/// With so large errors of fresh ciphertexts.
fn with_error(params: Params, error: u64) -> Params
    requires params { IsParams params }
    requires error { error < 2 ^ 62 }
    ensures { IsParams result }
{
    let glwe = GlweChoice {
        error,
        ..params.glwe
    };
    Params { glwe, ..params }
}

/// With so large errors of the rows of the switch key.
fn with_small_error(params: Params, error: u64) -> Params
    requires params { IsParams params }
    requires error { error < 2 ^ 62 }
    ensures { IsParams result }
{
    let lwe = LweChoice {
        error,
        ..params.lwe
    };
    Params { lwe, ..params }
}

/// Keys of exactly 2^25 words at level 1 of the switch key, and of 2^19 more at level 2.
fn with_keys(level: u32) -> Params
    requires low { 1 ≤ level }
    requires high { level ≤ 2 }
    ensures { IsParams result }
{
    Params {
        glwe: GlweChoice {
            k: 1,
            log_n: 13,
            ones: 0,
            error: 0,
        },
        lwe: LweChoice {
            n: 63,
            ones: 0,
            error: 0,
        },
        boot: Gadget { base: 3, level: 16 },
        switch: Gadget { base: 31, level },
    }
}

/// Adds an operation, whose operands are there.
fn add(rt: &(impl Abort + AllocGlobal), shape: &mut Shape, op: TfheOp) -> Result<u32, Fail>
    requires { IsPlaced shape.old.graph }
    ensures placed { IsPlaced shape.new.graph }
    ensures width { shape.new.width ≡ shape.old.width }
{
    let count = shape.node_count();
    assert!(rt; count < 1000);
    let arity = TfheLevel::arity(&op);
    assert!(rt; arity < 1000);
    for at in 0..arity {
        assert!(rt; TfheLevel::operand(&op, at) < count);
    }
    Ok(shape.push(op)?)
}

/// A weighted sum.
fn lin(alloc: Global, constant: i64, terms: &[(u32, i64)]) -> Result<TfheOp, Fail> {
    let terms = List::from_vec(terms.to_vec(alloc)?);
    Ok(TfheOp::Lin { constant, terms })
}

/// A bootstrap.
fn boot(alloc: Global, source: u32, entries: &[i64]) -> Result<TfheOp, Fail> {
    let entries = List::from_vec(entries.to_vec(alloc)?);
    Ok(TfheOp::Boot { source, entries })
}

/// A look-up of four entries.
fn lookup(rt: &(impl Abort + AllocGlobal), width: u32) -> Result<Shape, Fail>
    ensures { IfOk result (λ shape. IsPlaced shape.graph × (shape.width ≡ width)) }
{
    let mut shape = Shape::new(rt.alloc(), width);
    add(rt, &mut shape, TfheOp::Input { lo: 0, hi: 3 })?;
    add(rt, &mut shape, TfheOp::Switch { source: 0 })?;
    let entries = boot(rt.alloc(), 1, &[1, 3, 0, 2])?;
    add(rt, &mut shape, entries)?;
    add(
        rt,
        &mut shape,
        TfheOp::Out {
            source: 2,
            lo: 0,
            hi: 3,
        },
    )?;
    Ok(shape)
}

/// The squares modulo 16 of a weighted sum of three inputs.
fn squares(rt: &(impl Abort + AllocGlobal)) -> Result<Shape, Fail>
    ensures { IfOk result (λ shape. IsPlaced shape.graph × (shape.width ≡ 4)) }
{
    let mut shape = Shape::new(rt.alloc(), 4);
    add(rt, &mut shape, TfheOp::Input { lo: 0, hi: 3 })?;
    add(rt, &mut shape, TfheOp::Input { lo: 0, hi: 3 })?;
    add(rt, &mut shape, TfheOp::Input { lo: 0, hi: 2 })?;
    let sum = lin(rt.alloc(), 0, &[(0, 1), (1, 2), (2, 3)])?;
    add(rt, &mut shape, sum)?;
    add(rt, &mut shape, TfheOp::Switch { source: 3 })?;
    let entries = [0, 1, 4, 9, 0, 9, 4, 1, 0, 1, 4, 9, 0, 9, 4, 1];
    let table = boot(rt.alloc(), 4, &entries)?;
    add(rt, &mut shape, table)?;
    add(
        rt,
        &mut shape,
        TfheOp::Out {
            source: 5,
            lo: 0,
            hi: 9,
        },
    )?;
    Ok(shape)
}

/// The sum of two inputs.
fn sum(rt: &(impl Abort + AllocGlobal)) -> Result<Shape, Fail>
    ensures { IfOk result (λ shape. IsPlaced shape.graph × (shape.width ≡ 2)) }
{
    let mut shape = Shape::new(rt.alloc(), 2);
    add(rt, &mut shape, TfheOp::Input { lo: 0, hi: 1 })?;
    add(rt, &mut shape, TfheOp::Input { lo: 0, hi: 2 })?;
    let sum = lin(rt.alloc(), 0, &[(0, 1), (1, 1)])?;
    add(rt, &mut shape, sum)?;
    add(
        rt,
        &mut shape,
        TfheOp::Out {
            source: 2,
            lo: 0,
            hi: 3,
        },
    )?;
    Ok(shape)
}

/// The bounds of all operations are these.
fn expect_bounds(
    rt: &(impl Abort + AllocGlobal),
    shape: &Shape,
    params: &Params,
    want: &[u128],
) -> Result<(), Fail>
    requires placed { IsPlaced shape.now.graph }
    requires params { IsParams params.now }
{
    let mut room = BoundRoom::new(rt.alloc(), shape)?;
    edge_bounds(shape, params, &mut room);
    assert_eq!(rt; shape.node_count() as usize, want.len());
    for node in 0..shape.node_count() {
        assert_eq!(rt; room.bound(node), want[node as usize], "node {node}");
    }
    Ok(())
}

/// The first broken constraint is this one.
fn expect_broken(
    rt: &(impl Abort + AllocGlobal),
    shape: &Shape,
    params: &Params,
    want: Option<Broken>,
) -> Result<(), Fail>
    requires placed { IsPlaced shape.now.graph }
    requires params { IsParams params.now }
    requires width { shape.now.width ≤ most_width }
{
    let mut room = BoundRoom::new(rt.alloc(), shape)?;
    assert_eq!(rt; first_broken(shape, params, &mut room), want);
    Ok(())
}

/// A broken constraint.
fn broken(at: Constraint, bound: u128, limit: u128) -> Option<Broken> {
    Some(Broken { at, bound, limit })
}

#[test]
fn bounds_of_worked_circuits(rt: HostRuntime) -> Result<(), Fail> {
    let shape = lookup(&rt, 2)?;
    let want = [1024, 2_211_908_158_464, 23_622_320_128, 23_622_320_128];
    expect_bounds(&rt, &shape, &at_256(), &want)?;
    let want = [1024, 2_199_828_562_944, 21_609_054_208, 21_609_054_208];
    expect_bounds(&rt, &shape, &at_16(), &want)?;
    // Capped at 2^64 where the rows of the switch key have errors of 2^61.
    let want = [1024, 1 << 64, 23_622_320_128, 23_622_320_128];
    expect_bounds(&rt, &shape, &with_small_error(at_256(), 1 << 61), &want)?;
    let want = [
        131_072,
        131_072,
        131_072,
        786_432,
        4_538_784_000_245_760,
        576_144_092_954_624,
        576_144_092_954_624,
    ];
    expect_bounds(&rt, &squares(&rt)?, &at_1024(), &want)
}

#[test]
fn constraints_of_worked_circuits(rt: HostRuntime) -> Result<(), Fail> {
    expect_broken(&rt, &lookup(&rt, 2)?, &at_256(), None)?;
    expect_broken(&rt, &lookup(&rt, 2)?, &at_16(), None)?;
    expect_broken(&rt, &squares(&rt)?, &at_1024(), None)?;
    expect_broken(&rt, &sum(&rt)?, &at_256(), None)?;
    // A bootstrap: 2 messages of three bits are too near at N 16.
    let want = broken(Constraint::Boot(0), 864_693_328_283_698_176, 1 << 59);
    expect_broken(&rt, &lookup(&rt, 3)?, &at_16(), want)?;
    let want = broken(Constraint::Boot(0), 1 << 64, 1 << 60);
    let params = with_small_error(at_256(), 1 << 61);
    expect_broken(&rt, &lookup(&rt, 2)?, &params, want)?;
    // An out, at twice an error of 2^60.
    let want = broken(Constraint::Result(0), 1 << 61, 1 << 60);
    expect_broken(&rt, &sum(&rt)?, &with_error(at_256(), 1 << 60), want)
}

#[test]
fn size_goes_first_and_may_be_its_limit(rt: HostRuntime) -> Result<(), Fail> {
    expect_broken(&rt, &lookup(&rt, 2)?, &with_keys(1), None)?;
    let want = broken(Constraint::Size, (1 << 25) + (1 << 19), 1 << 25);
    expect_broken(&rt, &lookup(&rt, 2)?, &with_keys(2), want)?;
    // The bootstrap is broken too, and goes behind the size and before the out, which is broken as well.
    let params = with_error(with_keys(2), 1 << 61);
    expect_broken(&rt, &lookup(&rt, 2)?, &params, want)?;
    let params = with_error(with_keys(1), 1 << 61);
    let want = broken(Constraint::Boot(0), 2_306_405_959_167_115_264, 1 << 60);
    expect_broken(&rt, &lookup(&rt, 2)?, &params, want)?;
    // Without a bootstrap there are no keys.
    expect_broken(&rt, &sum(&rt)?, &with_keys(2), None)
}

#[test]
fn caps(rt: HostRuntime) -> Result<(), Fail> {
    let most = 1 << 64;
    assert_eq!(rt; cap_add(most - 1, 1), most);
    assert_eq!(rt; cap_add(most, most), most);
    assert_eq!(rt; cap_add(3, 4), 7);
    assert_eq!(rt; cap_mul(most, most), most);
    assert_eq!(rt; cap_mul(most, 0), 0);
    assert_eq!(rt; cap_mul(1 << 32, (1 << 32) - 1), most - (1 << 32));
    Ok(())
}
