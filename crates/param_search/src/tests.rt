//! Searches through worked tables for the least choice for worked circuits.

ghost use Rattle.std.specs.Prelude.{IfOk, ◌≡◌, ◌≤◌};
ghost use Rattle.ir_core.specs.Placed.{IsPlaced};
ghost use Rattle.fhe_params.specs.Table.{IsTable};
ghost use Rattle.forms.specs.Limits.{most_width};

use super::*;
use fhe_params::{Choice, Table, TableRefusal, read_table};
use ir_core::Level;
use noise_model::{Broken, Constraint};
use std::alloc::Global;
use std::process::Abort;
use std::test::Fail;
use tfhe_level::{Shape, TfheLevel, TfheOp};

const COST: &str = "[cost]\nswitch = 1\nboot = 1\nlin = 1\n";

const FREE: &str = "[cost]\nswitch = 0\nboot = 0\nlin = 0\n";

const N_256: &str = "[[glwe]]\nk = 1\nlog_n = 8\nones = 4\nerror = 1024\n";

const N_16: &str = "[[glwe]]\nk = 1\nlog_n = 4\nones = 4\nerror = 1024\n";

const NOISY: &str = "[[glwe]]\nk = 1\nlog_n = 8\nones = 4\nerror = 1152921504606846976\n";

const N_8192: &str = "[[glwe]]\nk = 1\nlog_n = 13\nones = 0\nerror = 0\n";

const LWE: &str = "[[lwe]]\nn = 8\nones = 2\nerror = 1048576\n";

const NOISY_LWE: &str = "[[lwe]]\nn = 8\nones = 2\nerror = 2305843009213693952\n";

const EXACT_LWE: &str = "[[lwe]]\nn = 63\nones = 0\nerror = 0\n";

const BOOT: &str = "[[boot]]\nbase = 8\nlevel = 4\n";

const FINE_BOOT: &str = "[[boot]]\nbase = 3\nlevel = 16\n";

const SWITCH: &str = "[[switch]]\nbase = 4\nlevel = 6\n";

const COARSE_SWITCH: &str = "[[switch]]\nbase = 31\nlevel = 1\n";

const FINE_SWITCH: &str = "[[switch]]\nbase = 31\nlevel = 2\n";

/// A table out of these parts.
fn table(rt: &(impl Abort + AllocGlobal), parts: &[&str]) -> Result<Table, Fail>
    ensures { IfOk result IsTable }
{
    let mut text = Vec::new(rt.alloc());
    for part in parts {
        text.extend_from_slice(part.as_bytes())?;
    }
    match read_table(rt.alloc(), &text) {
        Ok(table) => Ok(table),
        Err(TableRefusal::Fault(_)) => Err(Fail::new("a table that is refused")),
        Err(TableRefusal::Memory) => Err(Fail::new("no memory")),
    }
}

/// Adds an operation, whose operands are there.
fn add(rt: &(impl Abort + AllocGlobal), shape: &mut Shape, op: TfheOp) -> Result<u32, Fail>
    requires { IsPlaced shape.old.graph }
    ensures placed { IsPlaced shape.new.graph }
    ensures width { shape.new.width ≡ shape.old.width }
{
    let count = shape.node_count();
    assert!(rt; count < 1000);
    let arity = TfheLevel::arity(&op);
    assert!(rt; arity < 1000);
    for at in 0..arity {
        assert!(rt; TfheLevel::operand(&op, at) < count);
    }
    Ok(shape.push(op)?)
}

/// A look-up of four entries.
fn lookup(rt: &(impl Abort + AllocGlobal), width: u32) -> Result<Shape, Fail>
    ensures { IfOk result (λ shape. IsPlaced shape.graph × (shape.width ≡ width)) }
{
    let mut shape = Shape::new(rt.alloc(), width);
    add(rt, &mut shape, TfheOp::Input { lo: 0, hi: 3 })?;
    add(rt, &mut shape, TfheOp::Switch { source: 0 })?;
    let entries = List::from_vec([1, 3, 0, 2].to_vec(rt.alloc())?);
    add(rt, &mut shape, TfheOp::Boot { source: 1, entries })?;
    add(
        rt,
        &mut shape,
        TfheOp::Out {
            source: 2,
            lo: 0,
            hi: 3,
        },
    )?;
    Ok(shape)
}

/// The choice with these places.
fn at(glwe: u32, lwe: u32, boot: u32, switch: u32) -> Choice {
    Choice {
        glwe,
        lwe,
        boot,
        switch,
    }
}

/// A refused choice, with its cost and the constraint that it breaks.
fn refused(choice: Choice, cost: u128, at: Constraint, bound: u128, limit: u128) -> Refused {
    let broken = Broken { at, bound, limit };
    Refused {
        choice,
        cost,
        broken,
    }
}

/// The search for a circuit refuses these choices, and chooses this one.
fn expect(
    rt: &(impl Abort + AllocGlobal),
    shape: &Shape,
    parts: &[&str],
    refused: &[Refused],
    chosen: Option<Choice>,
) -> Result<(), Fail>
    requires placed { IsPlaced shape.now.graph }
    requires width { shape.now.width ≤ most_width }
{
    let found = search(rt.alloc(), shape, &table(rt, parts)?)?;
    assert_eq!(rt; found.refused.as_slice(), refused);
    assert_eq!(rt; found.chosen, chosen);
    Ok(())
}

#[test]
fn the_cheapest_that_meets_all_is_chosen(rt: HostRuntime) -> Result<(), Fail> {
    let two = lookup(&rt, 2)?;
    let three = lookup(&rt, 3)?;
    expect(
        &rt,
        &two,
        &[COST, N_256, LWE, BOOT, SWITCH],
        &[],
        Some(at(0, 0, 0, 0)),
    )?;
    // The second is cheaper.
    let parts = [COST, N_256, N_16, LWE, BOOT, SWITCH];
    expect(&rt, &two, &parts, &[], Some(at(1, 0, 0, 0)))?;
    // At width 3 its messages are too near.
    let near = refused(
        at(1, 0, 0, 0),
        9056,
        Constraint::Boot(0),
        864_693_328_283_698_176,
        1 << 59,
    );
    expect(&rt, &three, &parts, &[near], Some(at(0, 0, 0, 0)))?;
    // Where nothing costs anything the places alone order them.
    let parts = [FREE, N_256, N_16, LWE, BOOT, SWITCH];
    expect(&rt, &two, &parts, &[], Some(at(0, 0, 0, 0)))
}

#[test]
fn where_none_meets_all_each_is_refused(rt: HostRuntime) -> Result<(), Fail> {
    let near = refused(
        at(0, 0, 0, 0),
        9056,
        Constraint::Boot(0),
        864_693_328_283_698_176,
        1 << 59,
    );
    expect(
        &rt,
        &lookup(&rt, 3)?,
        &[COST, N_16, LWE, BOOT, SWITCH],
        &[near],
        None,
    )?;
    // The bound is given as 2^64 at most.
    let noisy = refused(
        at(0, 0, 0, 0),
        275_968,
        Constraint::Boot(0),
        1 << 64,
        1 << 60,
    );
    expect(
        &rt,
        &lookup(&rt, 2)?,
        &[COST, N_256, NOISY_LWE, BOOT, SWITCH],
        &[noisy],
        None,
    )
}

#[test]
fn choices_of_one_cost_are_tried_by_their_places(rt: HostRuntime) -> Result<(), Fail> {
    let shape = lookup(&rt, 2)?;
    // The same entry twice.
    let parts = [COST, N_256, N_256, LWE, BOOT, SWITCH];
    expect(&rt, &shape, &parts, &[], Some(at(0, 0, 0, 0)))?;
    // The first of two that cost as much breaks a constraint.
    let noisy = refused(
        at(0, 0, 0, 0),
        275_968,
        Constraint::Boot(0),
        1_206_966_912_043_450_368,
        1 << 60,
    );
    let parts = [COST, NOISY, N_256, LWE, BOOT, SWITCH];
    expect(&rt, &shape, &parts, &[noisy], Some(at(1, 0, 0, 0)))
}

#[test]
fn keys_that_are_too_large_are_refused(rt: HostRuntime) -> Result<(), Fail> {
    // Keys of 2^25 words at the second entry of the switch, and of 2^19 more at the first; nothing costs anything.
    let parts = [
        FREE,
        N_8192,
        EXACT_LWE,
        FINE_BOOT,
        FINE_SWITCH,
        COARSE_SWITCH,
    ];
    let large = refused(
        at(0, 0, 0, 0),
        0,
        Constraint::Size,
        (1 << 25) + (1 << 19),
        1 << 25,
    );
    expect(
        &rt,
        &lookup(&rt, 2)?,
        &parts,
        &[large],
        Some(at(0, 0, 0, 1)),
    )
}

#[test]
fn each_list_is_searched(rt: HostRuntime) -> Result<(), Fail> {
    // In each list but the first the second entry is needed.
    let parts = [COST, N_256, NOISY_LWE, LWE, BOOT, BOOT, SWITCH, SWITCH];
    let most = [
        at(0, 0, 0, 0),
        at(0, 0, 0, 1),
        at(0, 0, 1, 0),
        at(0, 0, 1, 1),
    ];
    let refusal = |choice| refused(choice, 275_968, Constraint::Boot(0), 1 << 64, 1 << 60);
    let refusals = [
        refusal(most[0]),
        refusal(most[1]),
        refusal(most[2]),
        refusal(most[3]),
    ];
    expect(
        &rt,
        &lookup(&rt, 2)?,
        &parts,
        &refusals,
        Some(at(0, 1, 0, 0)),
    )
}
