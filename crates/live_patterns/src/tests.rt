//! Worked patterns with look-ups that no result hangs on, and widths.

ghost use Rattle.std.specs.Prelude.{◌≡◌, [], ◌∷◌, pos, ◌≤ℤ◌, IfOk};
ghost use Rattle.ap_level.specs.declared.level.ApOp.TheVariants as patterns;
ghost use Rattle.live_patterns.specs.Found.{look_op, out_op, found_patterns, AreFound};

use super::*;
use crate::renumbering::widened;
use std::alloc::{AllocError, Global};
use std::fmt::Write;
use std::process::Abort;
use std::test::Fail;

/// A leaf alone.
fn leaf(alloc: Global, number: u32) -> Result<Form, AllocError>
    ensures { IfOk result (λ form. out_op form ≡ patterns.Out (pos 0) ((number, pos 1) ∷ [])) }
{
    linear_forms::leaf_form(alloc, number)
}

/// A look-up on a leaf.
fn look(alloc: Global, number: u32, entries: &[i64]) -> Result<Look, AllocError>
    ensures { IfOk result (λ look. look_op look ≡ patterns.Look (pos 0) ((number, pos 1) ∷ []) entries.now) }
{
    Ok(Look {
        form: linear_forms::leaf_form(alloc, number)?,
        entries: List::from_vec(entries.to_vec(alloc)?),
    })
}

/// An argument of two bits, and look-ups on it and on each other: nothing uses the fourth, and the fourth alone uses the
/// first.
fn worked(alloc: Global) -> Result<Patterns, Fail>
    ensures { IfOk result (λ patterns. AreFound (found_patterns patterns)) }
{
    let first = look(alloc, 0, &[1, 3, 0, 2])?;
    let second = look(alloc, 0, &[3, 0, 1, 2])?;
    let third = look(alloc, 2, &[0, 1, 2, 3])?;
    let fourth = look(alloc, 1, &[2, 3, 1, 0])?;
    let fifth = look(alloc, 3, &[5, 0, 0, 4])?;
    let looks = vec![in alloc; first, second, third, fourth, fifth]?;
    let last = leaf(alloc, 5)?;
    let argument = leaf(alloc, 0)?;
    let outs = vec![in alloc; last, argument]?;
    let inputs = vec![in alloc; (0, 3)]?;
    Ok(Patterns {
        inputs: List::from_vec(inputs),
        looks: List::from_vec(looks),
        outs: List::from_vec(outs),
    })
}

#[test]
fn dead_look_ups_are_dropped(rt: HostRuntime) -> Result<(), Fail> {
    let alloc = rt.alloc();
    let patterns = worked(alloc)?;
    let program = kept(alloc, patterns)?;
    let mut text = String::new(alloc);
    for number in 0..program.graph.op_count() {
        let op = program.graph.op_at(number);
        write!(text, "{number} {op:?}\n")?;
    }
    let want = "0 Input { lo: 0, hi: 3 }
1 Look { constant: 0, terms: List { elements: [(0, 1)] }, entries: List { elements: [3, 0, 1, 2] } }
2 Look { constant: 0, terms: List { elements: [(1, 1)] }, entries: List { elements: [0, 1, 2, 3] } }
3 Look { constant: 0, terms: List { elements: [(2, 1)] }, entries: List { elements: [5, 0, 0, 4] } }
4 Out { constant: 0, terms: List { elements: [(3, 1)] } }
5 Out { constant: 0, terms: List { elements: [(0, 1)] } }
";
    assert_eq!(rt; text.as_str(), want);
    assert_eq!(rt; program.width, 3);
    laws::laws();
    Ok(())
}

/// The least width of the range from 0 to a number.
fn width_to(hi: i64) -> u32
    requires low { pos 0 ≤ℤ hi }
    requires high { hi ≤ℤ pos 65535 }
{
    widened(1, (0, i128::from(hi)))
}

#[test]
fn widths_beside_powers_of_two(rt: HostRuntime) -> Result<(), Fail> {
    for (hi, width) in [
        (0, 1),
        (1, 1),
        (2, 2),
        (15, 4),
        (16, 5),
        (32767, 15),
        (32768, 16),
        (65535, 16),
    ] {
        assert!(rt; 0 <= hi && hi <= 65535);
        assert_eq!(rt; width_to(hi), width);
    }
    Ok(())
}
