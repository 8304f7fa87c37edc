//! Worked patterns and the circuits of them.

ghost use Rattle.std.specs.Prelude.{◌≡◌, IfOk};
ghost use Rattle.ap_level.specs.declared.level.ApOp.TheVariants as patterns;
ghost use Rattle.ap_level.specs.Rules.{IsApProgram};
ghost use Rattle.ir_core.specs.Placed.{IsPlaced};

use super::*;
use ap_level::{ApOp, ApProgram};
use std::alloc::Global;
use std::fmt::Write;
use std::process::Abort;
use std::test::Fail;
use tfhe_level::{List, Shape};

/// A look-up on a form.
fn look(alloc: Global, constant: i64, terms: &[(u32, i64)], entries: &[i64]) -> Result<ApOp, Fail>
    ensures { IfOk result (λ op. op ≡ patterns.Look constant terms.now entries.now) }
{
    let terms = List::from_vec(terms.to_vec(alloc)?);
    let entries = List::from_vec(entries.to_vec(alloc)?);
    Ok(ApOp::Look {
        constant,
        terms,
        entries,
    })
}

/// A result of a form.
fn out(alloc: Global, constant: i64, terms: &[(u32, i64)]) -> Result<ApOp, Fail>
    ensures { IfOk result (λ op. op ≡ patterns.Out constant terms.now) }
{
    let terms = List::from_vec(terms.to_vec(alloc)?);
    Ok(ApOp::Out { constant, terms })
}

/// An argument of two bits, and its entry in a table.
fn one_look(alloc: Global) -> Result<ApProgram, Fail>
    ensures { IfOk result IsApProgram }
{
    let mut ap = ApProgram::new(alloc, 2);
    ap.graph.append(ApOp::Input { lo: 0, hi: 3 })?;
    let table = look(alloc, 0, &[(0, 1)], &[1, 3, 0, 2])?;
    ap.graph.append(table)?;
    let entry = out(alloc, 0, &[(1, 1)])?;
    ap.graph.append(entry)?;
    Ok(ap)
}

/// The operations of a circuit, a line each.
fn lines(alloc: Global, shape: &Shape) -> Result<String, Fail>
    requires { IsPlaced shape.now.graph }
{
    let mut text = String::new(alloc);
    for number in 0..shape.node_count() {
        let node = shape.node(number);
        write!(text, "{number} {node:?}\n")?;
    }
    Ok(text)
}

#[test]
fn a_look_up_is_a_key_switch_and_a_bootstrap(rt: HostRuntime) -> Result<(), Fail> {
    let ap = one_look(rt.alloc())?;
    let shape = place(rt.alloc(), &ap)?;
    laws::laws();
    assert_eq!(rt; shape.width, 2);
    let want = "0 Input { lo: 0, hi: 3 }
1 Switch { source: 0 }
2 Boot { source: 1, entries: List { elements: [1, 3, 0, 2] } }
3 Out { source: 2, lo: 0, hi: 3 }
";
    assert_eq!(rt; lines(rt.alloc(), &shape)?.as_str(), want);
    Ok(())
}
