//! The operations so far, each of which keeps its rule, and the test of the next one.

ghost use Rattle.std.specs.Prelude.{◌≡◌, ◌<◌, ◌≤◌, Ok, List, [], ◌∷◌, ◌++◌, length, IsTrue, ◌+ℤ◌, ◌-ℤ◌, pos};
ghost use Rattle.std.specs.List.{list_all};
ghost use Rattle.forms.specs.Limits.{most_width};
ghost use Rattle.refusals.specs.Reading.{Gives};
ghost use Rattle.range_pass.specs.Bounds.{IsWide};
ghost use Rattle.ir_core.specs.Placed.{IsPlaced};
ghost use Rattle.tfhe_level.specs.declared.level.TfheOp.{TfheOp};
ghost use Rattle.tfhe_level.specs.Operations.{is_input, is_switch, is_leaf, is_big_node};
ghost use Rattle.tfhe_level.specs.Nodes.{nodes_of, node_ranges, range_of};
ghost use Rattle.tfhe_level.specs.Rules.{range_on, is_message, message_ranges};
ghost use Rattle.circuit_nodes.specs.Tests.{stands, is_term, keeps_input, keeps_lin, keeps_switch, keeps_boot, keeps_out, keeps_alone, holds_range, is_least_width};
ghost use Rattle.circuit_nodes.specs.Nodes.{AreKept, leaf_range, is_held_at};
ghost use Rattle.circuit_nodes.specs.Walk.{most_operations};

use crate::kinds::{Kinds, is_big_node, is_leaf, is_message, is_switch};
use crate::numbers::{are_numbers, are_rising, holds_range, is_number_range, is_same_range};
use circuit_lines::LineRefusal;
use forms::limits::{MOST_CONSTANT, MOST_INPUTS, MOST_OUTS, MOST_WEIGHT, MOST_WIDTH};
use refusals::Refusal;
use std::alloc::Global;
use std::marker::Model;
use tfhe_level::{MOST_BOOTS, MOST_LINS, MOST_SWITCHES, Shape, TfheOp};

/// Operations that keep their rules one after the other. A clause sees their list.
#[derive(Drop)]
pub struct Nodes {
    shape: Shape,
    ranges: Vec<(i128, i128)>,
    /// The ranges of inputs and bootstraps at their places.
    leaves: Vec<(i64, i64)>,
    kinds: Kinds,
}

impl Model for Nodes {
    ghost Value = { List TfheOp };

    ghost view = { λ nodes. nodes_of nodes.shape };

    ghost invariant = { λ nodes. AreKept nodes.shape nodes.ranges.items nodes.leaves.items nodes.kinds };
}

impl Nodes {
    /// No operations.
    pub fn new(alloc: Global) -> Nodes
        ensures { result ≡ [] }
    {
        Nodes {
            shape: Shape::new(alloc, 0),
            ranges: Vec::new(alloc),
            leaves: Vec::new(alloc),
            kinds: Kinds::none(),
        }
    }

    /// How many operations there are.
    #[tactic(auto, using(crate::proofs::Counting::few_operations))]
    pub fn count(&self) -> u32
        ensures number { result ≡ length self.now }
        ensures most { result ≤ most_operations }
    {
        self.shape.node_count()
    }

    /// Whether an input or a bootstrap stands at a place.
    fn is_leaf_at(&self, place: u32) -> bool
        ensures { result ≡ stands is_leaf self.now place }
    {
        place < self.count() && is_leaf(self.shape.node(place))
    }

    /// Whether an input, a weighted sum or a bootstrap stands at a place.
    fn is_big_node_at(&self, place: u32) -> bool
        ensures { result ≡ stands is_big_node self.now place }
    {
        place < self.count() && is_big_node(self.shape.node(place))
    }

    /// Whether a key switch stands at a place.
    pub(crate) fn is_switch_at(&self, place: u32) -> bool
        ensures { result ≡ stands is_switch self.now place }
    {
        place < self.count() && is_switch(self.shape.node(place))
    }

    /// Whether a key switch or an out stands at a place.
    fn is_message_at(&self, place: u32) -> bool
        ensures { result ≡ stands is_message self.now place }
    {
        place < self.count() && is_message(self.shape.node(place))
    }

    /// The range of the operation at a place.
    #[tactic(auto, using(crate::proofs::Ranges::at_or))]
    fn range_at(&self, place: u32) -> (i128, i128)
        ensures range { result ≡ range_on self.now place }
        ensures wide { IsWide result }
    {
        let range = self.ranges.get(place as usize);
        range.copied().unwrap_or((0, 0))
    }

    /// Whether a term is on an input or a bootstrap, with a weight that is not 0 and within its limit.
    fn is_term(&self, term: (u32, i64)) -> bool
        ensures { result ≡ is_term self.now term }
    {
        self.is_leaf_at(term.0) && term.1 != 0 && term.1.unsigned_abs() <= MOST_WEIGHT
    }

    fn are_terms(&self, terms: &[(u32, i64)]) -> bool
        ensures { result ≡ list_all (is_term self.now) terms.now }
    {
        terms.iter().all(|term| self.is_term(*term))
    }

    fn keeps_input(&self, lo: i64, hi: i64) -> bool
        ensures { result ≡ keeps_input self.now lo hi }
    {
        self.kinds.inputs == self.count() as usize
            && is_number_range(lo, hi)
            && self.kinds.inputs < MOST_INPUTS
    }

    fn keeps_lin(&self, constant: i64, terms: &[(u32, i64)]) -> bool
        ensures { result ≡ keeps_lin self.now constant terms.now }
    {
        constant.unsigned_abs() <= MOST_CONSTANT
            && self.are_terms(terms)
            && are_rising(terms)
            && self.kinds.lins < MOST_LINS
    }

    fn keeps_switch(&self, source: u32) -> bool
        ensures { result ≡ keeps_switch self.now source }
    {
        self.is_big_node_at(source)
            && self.range_at(source).0 == 0
            && self.kinds.switches < MOST_SWITCHES
    }

    fn keeps_boot(&self, source: u32, entries: &[i64]) -> bool
        ensures { result ≡ keeps_boot self.now source entries.now }
    {
        self.is_switch_at(source)
            && entries.len() as i128 == numbers_in(self.range_at(source))
            && are_numbers(entries)
            && self.kinds.boots < MOST_BOOTS
    }

    fn keeps_out(&self, source: u32, lo: i64, hi: i64) -> bool
        ensures { result ≡ keeps_out self.now source lo hi }
    {
        self.is_big_node_at(source)
            && is_same_range(lo, hi, self.range_at(source))
            && is_number_range(lo, hi)
            && self.kinds.outs < MOST_OUTS
    }

    /// The range of an operation that keeps its rule, where this one is what a leaf would have.
    fn range_of(&self, op: &TfheOp, leaf: (i64, i64)) -> (i128, i128)
        requires kept { IsTrue (keeps_alone self.now op.now) }
        requires leaf { leaf ≡ leaf_range op.now }
        ensures range { result ≡ range_of (node_ranges self.now) op.now }
        ensures wide { IsWide result }
    {
        match op {
            TfheOp::Lin { constant, terms } => {
                range_pass::range_of(*constant, terms.as_slice(), self.leaves.as_slice())
            }
            TfheOp::Switch { source } => self.range_at(*source),
            TfheOp::Out { lo, hi, .. } => (i128::from(*lo), i128::from(*hi)),
            TfheOp::Input { .. } | TfheOp::Boot { .. } => {
                (i128::from(leaf.0), i128::from(leaf.1))
            }
        }
    }

    /// These with an operation more, which keeps its rule. It fails only for memory.
    pub fn push(self, op: TfheOp) -> Result<Nodes, LineRefusal>
        requires { IsTrue (keeps_alone self op) }
        ensures { Gives (λ nodes. nodes) result (Ok (self ++ op ∷ [])) }
    {
        let leaf = leaf_range(&op);
        let range = self.range_of(&op, leaf);
        let kinds = self.kinds.with(&op);
        let Nodes {
            mut shape,
            mut ranges,
            mut leaves,
            ..
        } = self;
        ranges.push(range)?;
        leaves.push(leaf)?;
        match shape.push(op) {
            Ok(_) => Ok(Nodes {
                shape,
                ranges,
                leaves,
                kinds,
            }),
            Err(_) => Err(Refusal::Memory),
        }
    }

    /// Whether a width holds the range of the operation at a place, or need not: of key switches and outs alone.
    fn is_held_at(&self, width: u32, place: u32) -> bool
        requires { width ≤ most_width }
        ensures { result ≡ is_held_at self.now width place }
    {
        !self.is_message_at(place) || holds_range(width, self.range_at(place))
    }

    /// Whether a width holds the ranges of all key switches and outs.
    fn holds_messages(&self, width: u32) -> bool
        requires { width ≤ most_width }
        ensures { result ≡ list_all (holds_range width) (message_ranges self.now) }
    {
        for place in 0..self.count() {
            if !self.is_held_at(width, place) {
                return false;
            }
        }
        true
    }

    /// Whether a width is the least from 1, and at most 16, that holds the ranges of all key switches and outs.
    pub fn is_least_width(&self, width: u32) -> bool
        ensures { result ≡ is_least_width (message_ranges self.now) width }
    {
        1 <= width
            && width <= MOST_WIDTH
            && self.holds_messages(width)
            && (width == 1 || !self.holds_messages(width - 1))
    }

    /// The circuit of these operations and this width.
    pub fn into_shape(self, width: u32) -> Shape
        ensures nodes { nodes_of result ≡ self }
        ensures placed { IsPlaced result.graph }
        ensures width { result.width ≡ width }
    {
        let Nodes { shape, .. } = self;
        Shape {
            graph: shape.graph,
            width,
        }
    }

    /// Whether an operation keeps its rule behind these, but for a key switch that no bootstrap is on.
    pub fn keeps_alone(&self, op: &TfheOp) -> bool
        ensures { result ≡ keeps_alone self.now op.now }
    {
        match op {
            TfheOp::Input { lo, hi } => self.keeps_input(*lo, *hi),
            TfheOp::Lin { constant, terms } => self.keeps_lin(*constant, terms.as_slice()),
            TfheOp::Switch { source } => self.keeps_switch(*source),
            TfheOp::Boot { source, entries } => self.keeps_boot(*source, entries.as_slice()),
            TfheOp::Out { source, lo, hi } => self.keeps_out(*source, *lo, *hi),
        }
    }
}

/// The range of an input or of a bootstrap, and only 0 for what is no leaf.
fn leaf_range(op: &TfheOp) -> (i64, i64)
    ensures { result ≡ leaf_range op.now }
{
    match op {
        TfheOp::Input { lo, hi } => (*lo, *hi),
        TfheOp::Boot { entries, .. } => range_pass::range_of_entries(entries.as_slice()),
        _ => (0, 0),
    }
}

/// How many numbers a range has.
fn numbers_in(range: (i128, i128)) -> i128
    requires { IsWide range }
    ensures { result ≡ (range.1 -ℤ range.0) +ℤ pos 1 }
{
    range.1 - range.0 + 1
}
