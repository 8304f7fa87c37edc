//! One graph of operations for every level of the compiler.
//!
//! A graph is a list of operations, each with a number of its own, in which every operand is the
//! number of an earlier operation. Numbers are given in the order of making and never used again.
#![tactic(auto)]

ghost use Rattle.std.specs.Prelude.{◌≡◌, ◌<◌, ◌+◌, ◌-◌, ◌^◌, ◌↔◌, ℕ, List, [], length, slice_get, slice_index, slice_set, All, IsTrue, IfSome, IfOk, OnOk, OnErr, IfErr};
ghost use Rattle.std.specs.List.Sorted.{IsPermutation};

use std::alloc::{AllocError, AllocFailed, Global};
use std::marker::Model;

mod by_place;
pub mod laws;
#[cfg(test)]
mod tests;
mod walks;

/// A level of the compiler: its operations, and the type of what one gives.
///
/// An operation is a list of operands, each the number of an earlier operation, beside which it
/// holds what else its level needs.
pub trait Level {
    /// The type of what an operation gives.
    type Ty: Drop;

    /// An operation.
    type Op: Drop;

    /// The operands of an operation, in order.
    ghost operands: { Self.Op → List ℕ };

    /// An operation with these operands in place of its own, as many as those.
    ghost with_operands: { Self.Op → List ℕ → Self.Op };

    /// The type of what an operation gives.
    ghost type_of: { Self.Op → Self.Ty };

    /// How many operands an operation has.
    fn arity(op: &Self::Op) -> usize
        ensures { result ≡ length (operands op.now) };

    /// The operand at a place, counted from 0.
    fn operand(op: &Self::Op, at: usize) -> u32
        requires { at < length (operands op.now) }
        ensures { result ≡ slice_index (operands op.now) at };

    /// Puts a value into the operand at a place. All else of the operation stays.
    fn set_operand(op: &mut Self::Op, at: usize, value: u32)
        requires { at < length (operands op.old) }
        ensures { op.new ≡ with_operands op.old (slice_set (operands op.old) at value) };

    /// The type of what an operation gives.
    fn result(op: &Self::Op) -> Self::Ty
        ensures { result ≡ type_of op.now };

    /// The operands that are put are those that are read.
    ghost put_is_read: { (op : Self.Op) (list : List ℕ) → length list ≡ length (operands op)
        → operands (with_operands op list) ≡ list };

    /// To put the operands that are there changes nothing.
    ghost own_put_is_same: { (op : Self.Op) → with_operands op (operands op) ≡ op };

    /// Operands that are put leave nothing of those put before.
    ghost last_put_stays: { (op : Self.Op) (first last : List ℕ) → length first ≡ length (operands op)
        → length last ≡ length (operands op)
        → with_operands (with_operands op first) last ≡ with_operands op last };

    /// The type of what an operation gives does not hang on its operands.
    ghost put_keeps_type: { (op : Self.Op) (list : List ℕ) → length list ≡ length (operands op)
        → type_of (with_operands op list) ≡ type_of op };
}

/// An operation that is handed back, since there was no memory for it.
#[derive(Debug, Drop)]
pub struct Returned<T> {
    pub op: T,
}

/// The operation of an entry for which there was no memory.
fn handed_back<T>(failed: AllocFailed<(u32, T)>) -> Returned<T>
    ensures { result.op ≡ failed.value.1 }
{
    let AllocFailed { value: (_, op) } = failed;
    Returned { op }
}

/// Operations of a level in their order, each with its number.
///
/// It is kept as one vector: a call makes at most one pass over the operations and their operands,
/// and the memory is linear in them.
#[derive(Drop)]
pub struct Graph<L: Level> {
    entries: Vec<(u32, L::Op)>,
    made: u32,
    alloc: Global,
}

impl<L: Level> Model for Graph<L> {
    ghost use Rattle.ir_core.specs.Graph.{Operations, IsGraph};

    ghost Value = { Operations L.Op };

    ghost view = { λ a. record { list = a.entries.items; made = a.made } };

    ghost invariant = { λ a. IsGraph L.operands (record { list = a.entries.items; made = a.made }) };
}

impl<L: Level> Graph<L> {
    ghost use Rattle.ir_core.specs.Graph.{IsGraph, Holds, StandsBefore, numbers_of, place_of, no_operations, pushed, inserted_before, erased, uses_replaced, uses_of, AreSorted};

    /// The graph of no operations.
    pub fn new(alloc: Global) -> Graph<L>
        ensures { result ≡ no_operations }
    {
        Graph {
            entries: Vec::new(alloc),
            made: 0,
            alloc,
        }
    }

    /// Tells a proof what every graph keeps; it does nothing when it runs.
    pub fn known(&self)
        ensures { IsGraph L.operands self.now }
    {
        let _ = &self.entries;
    }

    /// Adds an operation at the end, and answers its number. For want of memory alone it hands the
    /// operation back, and the graph is as it was.
    pub fn push(&mut self, op: L::Op) -> Result<u32, Returned<L::Op>>
        requires there { All (Holds self.old.list) (L.operands op) }
        requires few { length (L.operands op) < 2 ^ 32 }
        requires numbers_left { self.old.made < 2 ^ 32 - 1 }
        ensures number { IfOk result (λ number. number ≡ self.old.made) }
        ensures ok { OnOk result (self.new ≡ pushed self.old op) }
        ensures returned { IfErr result (λ returned. returned.op ≡ op) }
        ensures err { OnErr result (self.new ≡ self.old) }
    {
        let number = self.made;
        match self.entries.push((number, op)) {
            Ok(()) => {
                self.made = number + 1;
                Ok(number)
            }
            Err(failed) => Err(handed_back(failed)),
        }
    }

    /// Adds an operation just before the one with the number `place`, and answers its number. For
    /// want of memory alone it hands the operation back, and the graph is as it was.
    pub fn insert_before(&mut self, place: u32, op: L::Op) -> Result<u32, Returned<L::Op>>
        requires place_there { Holds self.old.list place }
        requires earlier { All (λ value. StandsBefore self.old.list value place) (L.operands op) }
        requires few { length (L.operands op) < 2 ^ 32 }
        requires numbers_left { self.old.made < 2 ^ 32 - 1 }
        ensures number { IfOk result (λ number. number ≡ self.old.made) }
        ensures ok { OnOk result (self.new ≡ inserted_before self.old place op) }
        ensures returned { IfErr result (λ returned. returned.op ≡ op) }
        ensures err { OnErr result (self.new ≡ self.old) }
    {
        let number = self.made;
        let at = walks::find_place(self.entries.as_slice(), place);
        match self.entries.insert(at, (number, op)) {
            Ok(()) => {
                self.made = number + 1;
                Ok(number)
            }
            Err(failed) => Err(handed_back(failed)),
        }
    }

    /// Takes away an operation that has no use, and gives it. Its number is not used again.
    pub fn erase(&mut self, value: u32) -> L::Op
        requires there { Holds self.old.list value }
        requires unused { uses_of L.operands self.old.list value ≡ [] }
        ensures op { slice_get self.old.list (place_of self.old.list value) ≡ Some (value, result) }
        ensures rest { self.new ≡ erased self.old value }
    {
        let at = walks::find_place(self.entries.as_slice(), value);
        let (_, op) = self.entries.remove(at);
        op
    }

    /// Puts `to` for `from` in every operand that holds `from`.
    pub fn replace_uses(&mut self, from: u32, to: u32)
        requires from_there { Holds self.old.list from }
        requires to_there { Holds self.old.list to }
        requires earlier { All (λ use_. StandsBefore self.old.list to use_.0) (uses_of L.operands self.old.list from) }
        ensures { self.new ≡ uses_replaced L.operands L.with_operands self.old from to }
    {
        walks::rename_all::<L>(self.entries.as_mut_slice(), from, to);
    }

    /// The uses of a value: each operation that holds it, with the place among its operands, sorted
    /// by the user's number and then by the place, each once.
    pub fn uses_of(&self, value: u32) -> Result<Vec<(u32, u32)>, AllocError>
        ensures all { IfOk result (λ uses. IsPermutation (uses_of L.operands self.now.list value) uses.items) }
        ensures sorted { IfOk result (λ uses. AreSorted uses.items) }
    {
        let mut uses = walks::collect_all::<L>(self.alloc, self.entries.as_slice(), value)?;
        uses.sort_unstable();
        Ok(uses)
    }

    /// How many operands hold a value.
    pub fn use_count(&self, value: u32) -> usize
        ensures { result ≡ length (uses_of L.operands self.now.list value) }
    {
        walks::count_all::<L>(self.entries.as_slice(), value)
    }

    /// The number of the first operation, or none where there is no operation.
    pub fn first(&self) -> Option<u32>
        ensures number { result ≡ slice_get (numbers_of self.now.list) 0 }
        ensures place { IfSome result (λ first. place_of self.now.list first ≡ 0) }
        ensures there { IfSome result (Holds self.now.list) }
    {
        walks::number_at(self.entries.as_slice(), 0)
    }

    /// The number of the operation that stands next after a value, or none after the last.
    pub fn next(&self, value: u32) -> Option<u32>
        requires { Holds self.now.list value }
        ensures number { result ≡ slice_get (numbers_of self.now.list) (place_of self.now.list value + 1) }
        ensures place { IfSome result (λ next. place_of self.now.list next ≡ place_of self.now.list value + 1) }
        ensures there { IfSome result (Holds self.now.list) }
    {
        let at = walks::find_place(self.entries.as_slice(), value);
        walks::number_at(self.entries.as_slice(), at + 1)
    }

    /// The operation with a number.
    pub fn op(&self, value: u32) -> &L::Op
        requires { Holds self.now.list value }
        ensures { slice_get self.now.list (place_of self.now.list value) ≡ Some (value, result.now) }
    {
        let at = walks::find_place(self.entries.as_slice(), value);
        &self.entries[at].1
    }

    /// Whether an operation with that number is there.
    pub fn holds(&self, value: u32) -> bool
        ensures { IsTrue result ↔ Holds self.now.list value }
    {
        walks::find_place(self.entries.as_slice(), value) < self.entries.len()
    }

    /// Whether one value stands before another.
    pub fn stands_before(&self, a: u32, b: u32) -> bool
        requires a_there { Holds self.now.list a }
        requires b_there { Holds self.now.list b }
        ensures { IsTrue result ↔ StandsBefore self.now.list a b }
    {
        let entries = self.entries.as_slice();
        walks::find_place(entries, a) < walks::find_place(entries, b)
    }

    /// How many numbers were given: the number of the next operation.
    pub fn made(&self) -> u32
        ensures { result ≡ self.now.made }
    {
        self.made
    }
}
