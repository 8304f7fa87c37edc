//! The patterns that stay, numbered in their order, with the width that holds them.

ghost use Rattle.std.specs.Prelude.{◌≡◌, ◌<◌, ◌≤◌, ◌-◌, ◌^◌, ◌↔◌, ◌++◌, ◌∷◌, ℕ, [], List, length, map, All, OnOk, IfOk, IfSome, IsTrue, option_to_list, slice_set, ℤ, pos, ◌<ℤ◌};
ghost use Rattle.ir_core.specs.Placed.{operations_of, IsPlaced};
ghost use Rattle.forms.specs.Forms.{span_of};
ghost use Rattle.forms.specs.Limits.{most_width};
ghost use Rattle.forms.specs.Ranges.{IsLeastWidth, HoldsRanges};
ghost use Rattle.range_pass.specs.Bounds.{IsWide};
ghost use Rattle.ap_level.specs.Operations.{operands_of};
ghost use Rattle.ap_level.specs.Patterns.{patterns_of, range_of};
ghost use Rattle.ap_level.specs.Rules.{ranges_on, IsApProgram};
ghost use Rattle.live_patterns.specs.Found.{found_patterns, AreFound};
ghost use Rattle.live_patterns.specs.Live.{live_patterns};
ghost use Rattle.live_patterns.specs.Renumbering.{placed_anew, CanRange, CanPut, IsWidened};

use crate::found::found_operations;
use crate::live::kept_operations;
use crate::patterns::Patterns;
use ap_level::{ApLevel, ApOp, ApProgram};
use ir_core::Level;
use range_pass::{range_of, range_of_entries};
use std::alloc::{AllocError, Global};

/// Puts the places of an operation's operands for their numbers.
fn renumber(op: &mut ApOp, places: &[u32])
    requires { All (λ leaf. leaf < length places.now) (operands_of op.old) }
    ensures { op.new ≡ placed_anew places.now op.old }
{
    for at in 0..ApLevel::arity(op) {
        let number = ApLevel::operand(op, at);
        ApLevel::set_operand(op, at, places[number as usize]);
    }
}

/// The range of an operation, from those of the operations before it.
fn range_of_op(op: &ApOp, ranges: &[(i64, i64)]) -> (i64, i64)
    requires { CanRange ranges.now op.now }
    ensures { result ≡ range_of ranges.now op.now }
{
    match op {
        ApOp::Input { lo, hi } => (*lo, *hi),
        ApOp::Look { entries, .. } => range_of_entries(entries.as_slice()),
        ApOp::Out { constant, terms } => {
            let (lo, hi) = range_of(*constant, terms.as_slice(), ranges);
            (lo as i64, hi as i64)
        }
    }
}

/// The range that the width must hold for an operation: that of the form of a look-up or a result.
fn message_range(op: &ApOp, ranges: &[(i64, i64)]) -> Option<(i128, i128)>
    requires { CanRange ranges.now op.now }
    ensures range { option_to_list result ≡ ranges_on ranges.now op.now }
    ensures wide { IfSome result IsWide }
{
    match op {
        ApOp::Input { .. } => None,
        ApOp::Look {
            constant,
            terms,
            ..
        } => Some(range_of(*constant, terms.as_slice(), ranges)),
        ApOp::Out { constant, terms } => Some(range_of(*constant, terms.as_slice(), ranges)),
    }
}

/// Whether a width holds a range.
fn is_held(width: u32, range: (i128, i128)) -> bool
    requires width { width ≤ most_width }
    requires wide { IsWide range }
    ensures { IsTrue result ↔ (span_of range <ℤ pos (2 ^ width)) }
{
    range.1 - range.0 < 1 << width
}

/// The least width from this one on that holds a range.
pub(crate) fn widened(width: u32, range: (i128, i128)) -> u32
    requires width { width ≤ most_width }
    requires wide { IsWide range }
    requires narrow { HoldsRanges most_width (range ∷ []) }
    ensures { IsWidened width (range ∷ []) result }
{
    let mut wide = width;
    while !is_held(wide, range) {
        wide += 1;
    }
    wide
}

/// The least width from this one on that holds an operation.
fn width_with(width: u32, op: &ApOp, ranges: &[(i64, i64)]) -> u32
    requires width { width ≤ most_width }
    requires range { CanRange ranges.now op.now }
    requires narrow { HoldsRanges most_width (ranges_on ranges.now op.now) }
    ensures { IsWidened width (ranges_on ranges.now op.now) result }
{
    match message_range(op, ranges) {
        Some(range) => widened(width, range),
        None => width,
    }
}

/// Puts an operation at the end, and answers its place.
fn append(program: &mut ApProgram, op: ApOp) -> Result<u32, AllocError>
    requires placed { IsPlaced program.old.graph }
    requires earlier { All (λ operand. operand < length (patterns_of program.old)) (operands_of op) }
    requires few { length (operands_of op) < 2 ^ 32 }
    requires numbers_left { length (patterns_of program.old) < 2 ^ 32 - 1 }
    ensures place { IfOk result (λ place. place ≡ length (patterns_of program.old)) }
    ensures patterns { OnOk result (patterns_of program.new ≡ patterns_of program.old ++ op ∷ []) }
    ensures placed { IsPlaced program.new.graph }
    ensures width { program.new.width ≡ program.old.width }
{
    match program.graph.append(op) {
        Ok(place) => Ok(place),
        Err(_returned) => Err(AllocError),
    }
}

/// The patterns that stay, as far as they are numbered anew: with their ranges, and for each number the place of the
/// pattern that had it.
#[derive(Drop)]
struct Renumbering {
    program: ApProgram,
    places: Vec<u32>,
    ranges: Vec<(i64, i64)>,
}

impl Renumbering {
    /// None of so many patterns.
    fn new(alloc: Global, count: usize) -> Result<Renumbering, AllocError>
        ensures placed { IfOk result (λ r. IsPlaced r.program.graph) }
        ensures patterns { IfOk result (λ r. patterns_of r.program ≡ []) }
        ensures width { IfOk result (λ r. r.program.width ≡ 1) }
        ensures places { IfOk result (λ r. length r.places.items ≡ count) }
        ensures ranges { IfOk result (λ r. r.ranges.items ≡ []) }
    {
        Ok(Renumbering {
            program: ApProgram::new(alloc, 1),
            places: vec![in alloc; 0; count]?,
            ranges: Vec::new(alloc),
        })
    }

    /// One operation more, which had this number.
    fn put(&mut self, number: u32, op: ApOp) -> Result<(), AllocError>
        requires placed { IsPlaced self.old.program.graph }
        requires can { CanPut (patterns_of self.old.program) self.old.places.items self.old.ranges.items number op }
        requires width { self.old.program.width ≤ most_width }
        ensures placed { IsPlaced self.new.program.graph }
        ensures patterns { OnOk result (patterns_of self.new.program
            ≡ patterns_of self.old.program ++ placed_anew self.old.places.items op ∷ []) }
        ensures places { OnOk result (self.new.places.items
            ≡ slice_set self.old.places.items number (length (patterns_of self.old.program))) }
        ensures ranges { OnOk result (self.new.ranges.items
            ≡ self.old.ranges.items ++ range_of self.old.ranges.items (placed_anew self.old.places.items op) ∷ []) }
        ensures width { OnOk result (IsWidened self.old.program.width
            (ranges_on self.old.ranges.items (placed_anew self.old.places.items op)) self.new.program.width) }
    {
        let mut op = op;
        renumber(&mut op, &self.places);
        self.program.width = width_with(self.program.width, &op, &self.ranges);
        self.ranges.push(range_of_op(&op, &self.ranges))?;
        self.places[number as usize] = append(&mut self.program, op)?;
        Ok(())
    }
}

/// The patterns that results hang on, in the order in which they were found, with the least width from 1 that holds
/// them and the results. Arguments all stay. It fails only for memory, and takes time in proportion to the weights and
/// the entries.
pub fn kept(alloc: Global, patterns: Patterns) -> Result<ApProgram, AllocError>
    requires { AreFound (found_patterns patterns) }
    ensures program { IfOk result (λ p. patterns_of p ≡ live_patterns (found_patterns patterns)) }
    ensures rules { IfOk result IsApProgram }
{
    let operations = found_operations(alloc, patterns)?;
    let mut renumbering = Renumbering::new(alloc, operations.len())?;
    let mut kept = kept_operations(alloc, operations)?;
    while let Some((number, op)) = kept.pop() {
        renumbering.put(number, op)?;
    }
    Ok(renumbering.program)
}
