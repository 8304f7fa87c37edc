//! From patterns to a circuit, operation by operation.

ghost use Rattle.std.specs.Prelude.{◌≡◌, ◌<◌, ◌≤◌, ◌+◌, ◌^◌, [], length, map, take, All, OnOk, IfOk};
ghost use Rattle.ir_core.specs.Placed.{IsPlaced};
ghost use Rattle.ap_level.specs.declared.level.ApOp.TheVariants as patterns;
ghost use Rattle.ap_level.specs.Patterns.{patterns_of};
ghost use Rattle.ap_level.specs.Rules.{IsApProgram};
ghost use Rattle.tfhe_level.specs.Nodes.{nodes_of};
ghost use Rattle.tfhe_level.specs.Rules.{IsShape};
ghost use Rattle.place_pass.specs.Placing.{on_nodes, place_form, place_op, put_boot, nothing_placed, whole_of, placed_nodes};
ghost use Rattle.place_pass.specs.Placements.{placement_of, HasRoom, IsFormThere, CanOut, CanPlace, CanFinish};

use crate::nodes::{put_boot, put_form, put_last, put_switch};
use crate::outlet::Outlet;
use ap_level::{ApOp, ApProgram};
use lists::List;
use range_pass::{range_of, range_of_entries};
use std::alloc::{AllocError, Global};
use tfhe_level::{Shape, TfheOp};

/// The terms on the nodes of their leaves.
fn on_nodes(
    alloc: Global,
    leaves: &[u32],
    terms: &[(u32, i64)],
) -> Result<Vec<(u32, i64)>, AllocError>
    requires { All (λ t. t.0 < length leaves.now) terms.now }
    ensures { IfOk result (λ moved. moved.items ≡ on_nodes leaves.now terms.now) }
{
    let mut moved = Vec::new(alloc);
    for term in terms {
        let (leaf, weight) = *term;
        moved.push((leaves[leaf as usize], weight))?;
    }
    Ok(moved)
}

/// The circuit so far: its nodes, for each argument and look-up its node and its range, and the outs.
#[derive(Drop)]
pub(crate) struct Places {
    shape: Shape,
    leaves: Vec<u32>,
    ranges: Vec<(i64, i64)>,
    outs: Vec<Outlet>,
}

impl Places {
    /// No node yet.
    fn new(alloc: Global, width: u32) -> Places
        ensures graph { IsPlaced result.shape.graph }
        ensures placement { placement_of result ≡ nothing_placed }
        ensures width { result.shape.width ≡ width }
    {
        Places {
            shape: Shape::new(alloc, width),
            leaves: Vec::new(alloc),
            ranges: Vec::new(alloc),
            outs: Vec::new(alloc),
        }
    }

    /// An argument more.
    fn put_input(&mut self, lo: i64, hi: i64) -> Result<(), AllocError>
        requires graph { IsPlaced self.old.shape.graph }
        requires room { HasRoom (placement_of self.old) }
        ensures graph { IsPlaced self.new.shape.graph }
        ensures width { self.new.shape.width ≡ self.old.shape.width }
        ensures placement { OnOk result (placement_of self.new ≡ place_op (placement_of self.old) (patterns.Input lo hi)) }
    {
        let node = put_last(&mut self.shape, TfheOp::Input { lo, hi })?;
        self.leaves.push(node)?;
        self.ranges.push((lo, hi))?;
        Ok(())
    }

    /// The node of a form.
    fn put_form(
        &mut self,
        alloc: Global,
        constant: i64,
        terms: &[(u32, i64)],
    ) -> Result<u32, AllocError>
        requires graph { IsPlaced self.old.shape.graph }
        requires room { HasRoom (placement_of self.old) }
        requires form { IsFormThere (placement_of self.old) terms.now }
        ensures graph { IsPlaced self.new.shape.graph }
        ensures width { self.new.shape.width ≡ self.old.shape.width }
        ensures number { IfOk result (λ number. number ≡ (place_form (placement_of self.old) constant terms.now).number) }
        ensures there { IfOk result (λ number. number < length (nodes_of self.new.shape)) }
        ensures nodes { OnOk result (nodes_of self.new.shape ≡ (place_form (placement_of self.old) constant terms.now).nodes) }
        ensures leaves { self.new.leaves ≡ self.old.leaves }
        ensures ranges { self.new.ranges ≡ self.old.ranges }
        ensures outs { self.new.outs ≡ self.old.outs }
    {
        let terms = on_nodes(alloc, &self.leaves, terms)?;
        put_form(&mut self.shape, constant, terms)
    }

    /// A look-up more.
    fn put_look(
        &mut self,
        alloc: Global,
        constant: i64,
        terms: &[(u32, i64)],
        entries: &[i64],
    ) -> Result<(), AllocError>
        requires graph { IsPlaced self.old.shape.graph }
        requires room { HasRoom (placement_of self.old) }
        requires form { IsFormThere (placement_of self.old) terms.now }
        ensures graph { IsPlaced self.new.shape.graph }
        ensures width { self.new.shape.width ≡ self.old.shape.width }
        ensures placement { OnOk result (placement_of self.new ≡ place_op (placement_of self.old) (patterns.Look constant terms.now entries.now)) }
    {
        let form = self.put_form(alloc, constant, terms)?;
        let switch = put_switch(&mut self.shape, form)?;
        let boot = put_boot(alloc, &mut self.shape, switch, entries)?;
        self.leaves.push(boot)?;
        self.ranges.push(range_of_entries(entries))?;
        Ok(())
    }

    /// A result more.
    fn put_out(
        &mut self,
        alloc: Global,
        constant: i64,
        terms: &[(u32, i64)],
    ) -> Result<(), AllocError>
        requires graph { IsPlaced self.old.shape.graph }
        requires can { CanOut (placement_of self.old) constant terms.now }
        ensures graph { IsPlaced self.new.shape.graph }
        ensures width { self.new.shape.width ≡ self.old.shape.width }
        ensures placement { OnOk result (placement_of self.new ≡ place_op (placement_of self.old) (patterns.Out constant terms.now)) }
    {
        let (lo, hi) = range_of(constant, terms, &self.ranges);
        let source = self.put_form(alloc, constant, terms)?;
        self.outs.push(Outlet {
            source,
            lo: lo as i64,
            hi: hi as i64,
        })?;
        Ok(())
    }

    /// An operation more.
    fn put(&mut self, alloc: Global, op: &ApOp) -> Result<(), AllocError>
        requires graph { IsPlaced self.old.shape.graph }
        requires can { CanPlace (placement_of self.old) op.now }
        ensures graph { IsPlaced self.new.shape.graph }
        ensures width { self.new.shape.width ≡ self.old.shape.width }
        ensures placement { OnOk result (placement_of self.new ≡ place_op (placement_of self.old) op.now) }
    {
        match op {
            ApOp::Input { lo, hi } => self.put_input(*lo, *hi),
            ApOp::Look {
                constant,
                terms,
                entries,
            } => self.put_look(alloc, *constant, terms.as_slice(), entries.as_slice()),
            ApOp::Out { constant, terms } => self.put_out(alloc, *constant, terms.as_slice()),
        }
    }

    /// The whole circuit: the nodes, and then the outs.
    fn put_outs(self) -> Result<Shape, AllocError>
        requires graph { IsPlaced self.shape.graph }
        requires can { CanFinish (placement_of self) }
        ensures graph { IfOk result (λ shape. IsPlaced shape.graph) }
        ensures width { IfOk result (λ shape. shape.width ≡ self.shape.width) }
        ensures nodes { IfOk result (λ shape. nodes_of shape ≡ whole_of (placement_of self)) }
    {
        let Places {
            mut shape,
            outs,
            ..
        } = self;
        for out in &outs {
            let Outlet { source, lo, hi } = *out;
            put_last(&mut shape, TfheOp::Out { source, lo, hi })?;
        }
        Ok(shape)
    }
}

/// The circuit of patterns, without parameters: all arguments in order; for each look-up in order a weighted sum, a key
/// switch and a bootstrap; for each result a weighted sum; and then the outs in order. A form that is one leaf with weight 1
/// and constant 0 has no weighted sum of its own. A weighted sum or a key switch that is there already is used again. It
/// fails only for memory.
pub fn place(alloc: Global, ap: &ApProgram) -> Result<Shape, AllocError>
    requires { IsApProgram ap.now }
    ensures placed { IfOk result (λ shape. IsPlaced shape.graph) }
    ensures nodes { IfOk result (λ shape. nodes_of shape ≡ placed_nodes (patterns_of ap.now)) }
    ensures width { IfOk result (λ shape. shape.width ≡ ap.now.width) }
    ensures shape { IfOk result (λ shape. IsShape shape) }
{
    let mut places = Places::new(alloc, ap.width);
    for number in 0..ap.graph.op_count() {
        places.put(alloc, ap.graph.op_at(number))?;
    }
    places.put_outs()
}
