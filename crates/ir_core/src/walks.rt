//! Walks over a list of operations, each in one pass.

ghost use Rattle.std.specs.Prelude.{◌≡◌, ◌<◌, ◌≤◌, ◌^◌, ◌++◌, ◌↔◌, nat_eq, length, slice_get, All, IfOk, IsTrue};
ghost use Rattle.std.specs.List.{IsDistinct};
ghost use Rattle.ir_core.specs.Graph.{numbers_of, place_of, renamed_in, renamed_list, uses_from, uses_of};

use crate::Level;
use std::alloc::{AllocError, Global};

/// How many operations stand before the one with that number: all of them where none has it.
///
/// Where operations were only pushed, a number is its place, so that place is tried first.
pub(crate) fn find_place<T>(entries: &[(u32, T)], value: u32) -> usize
    requires { IsDistinct nat_eq (numbers_of entries.now) }
    ensures place { result ≡ place_of entries.now value }
    ensures within { result ≤ length entries.now }
{
    let place = value as usize;
    if has_number_at(entries, place, value) {
        return place;
    }
    scan_for_place(entries, value)
}

/// Whether the operation at a place has that number.
fn has_number_at<T>(entries: &[(u32, T)], at: usize, value: u32) -> bool
    ensures { IsTrue result ↔ (slice_get (numbers_of entries.now) at ≡ Some value) }
{
    match number_at(entries, at) {
        Some(number) => number == value,
        None => false,
    }
}

/// How many operations stand before the one with that number, found by looking at one after the other.
fn scan_for_place<T>(entries: &[(u32, T)], value: u32) -> usize
    ensures place { result ≡ place_of entries.now value }
    ensures within { result ≤ length entries.now }
{
    for (place, entry) in entries.iter().enumerate() {
        if entry.0 == value {
            return place;
        }
    }
    entries.len()
}

/// The number of the operation at a place, or none past the end.
pub(crate) fn number_at<T>(entries: &[(u32, T)], at: usize) -> Option<u32>
    ensures { result ≡ slice_get (numbers_of entries.now) at }
{
    let entry = entries.get(at)?;
    Some(entry.0)
}

/// Puts `to` for `from` in each operand of an operation.
fn rename_in<L: Level>(op: &mut L::Op, from: u32, to: u32)
    ensures { op.new ≡ renamed_in L.operands L.with_operands from to op.old }
{
    for at in 0..L::arity(op) {
        if L::operand(op, at) == from {
            L::set_operand(op, at, to);
        }
    }
}

/// Puts `to` for `from` in each operand of each operation.
pub(crate) fn rename_all<L: Level>(entries: &mut [(u32, L::Op)], from: u32, to: u32)
    ensures { entries.new ≡ renamed_list L.operands L.with_operands from to entries.old }
{
    for entry in entries.iter_mut() {
        rename_in::<L>(&mut entry.1, from, to);
    }
}

/// Adds the uses of a value by one operation.
fn collect_in<L: Level>(
    uses: &mut Vec<(u32, u32)>,
    user: u32,
    op: &L::Op,
    value: u32,
) -> Result<(), AllocError>
    requires { length (L.operands op.now) < 2 ^ 32 }
    ensures { IfOk result (λ _. uses.new.items ≡ uses.old.items ++ uses_from 0 user (L.operands op.now) value) }
{
    for at in 0..L::arity(op) {
        if L::operand(op, at) == value {
            uses.push((user, at as u32))?;
        }
    }
    Ok(())
}

/// The uses of a value, operation after operation.
pub(crate) fn collect_all<L: Level>(
    alloc: Global,
    entries: &[(u32, L::Op)],
    value: u32,
) -> Result<Vec<(u32, u32)>, AllocError>
    requires { All (λ entry. length (L.operands entry.1) < 2 ^ 32) entries.now }
    ensures { IfOk result (λ uses. uses.items ≡ uses_of L.operands entries.now value) }
{
    let mut uses = Vec::new(alloc);
    for entry in entries {
        collect_in::<L>(&mut uses, entry.0, &entry.1, value)?;
    }
    Ok(uses)
}

/// How many operands of one operation hold a value.
fn count_in<L: Level>(op: &L::Op, value: u32) -> usize
    ensures count { result ≡ length (uses_from 0 0 (L.operands op.now) value) }
    ensures within { result ≤ length (L.operands op.now) }
{
    let mut count = 0;
    for at in 0..L::arity(op) {
        if L::operand(op, at) == value {
            count += 1;
        }
    }
    count
}

/// How many operands of all operations hold a value.
pub(crate) fn count_all<L: Level>(entries: &[(u32, L::Op)], value: u32) -> usize
    requires few { All (λ entry. length (L.operands entry.1) < 2 ^ 32) entries.now }
    requires fits { length entries.now < 2 ^ 32 }
    ensures { result ≡ length (uses_of L.operands entries.now value) }
{
    let mut count = 0;
    for entry in entries {
        count += count_in::<L>(&entry.1, value);
    }
    count
}
