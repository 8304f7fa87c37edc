//! Putting a node, unless it is there already.

ghost use Rattle.std.specs.Prelude.{◌≡◌, ◌<◌, ◌≤◌, ◌+◌, ◌-◌, ◌^◌, length, map, All, OnOk, IfOk, IfSome};
ghost use Rattle.ir_core.specs.Placed.{IsPlaced};
ghost use Rattle.tfhe_level.specs.declared.level.TfheOp.TheVariants.{Boot};
ghost use Rattle.tfhe_level.specs.Operations.{operands_of};
ghost use Rattle.tfhe_level.specs.Nodes.{nodes_of};
ghost use Rattle.place_pass.specs.Placing.{same_terms, is_sum, is_switch_of, place_where, put_last, put_sum, put_switch, alone, put_form};

use std::alloc::{AllocError, Global};
use tfhe_level::{List, Shape, TfheOp};

/// Whether the terms are the same.
fn same_terms(terms: &[(u32, i64)], others: &[(u32, i64)]) -> bool
    ensures { result ≡ same_terms terms.now others.now }
{
    if terms.len() != others.len() {
        return false;
    }
    for at in 0..terms.len() {
        if terms[at] != others[at] {
            return false;
        }
    }
    true
}

/// Whether a node is this weighted sum.
fn is_sum(constant: i64, terms: &[(u32, i64)], node: &TfheOp) -> bool
    ensures { result ≡ is_sum constant terms.now node.now }
{
    match node {
        TfheOp::Lin {
            constant: other,
            terms: others,
        } => *other == constant && same_terms(others.as_slice(), terms),
        _ => false,
    }
}

/// Whether a node is the key switch of this one.
fn is_switch_of(source: u32, node: &TfheOp) -> bool
    ensures { result ≡ is_switch_of source node.now }
{
    match node {
        TfheOp::Switch { source: other } => *other == source,
        _ => false,
    }
}

/// The number of this weighted sum, where it is there.
fn sum_at(shape: &Shape, constant: i64, terms: &[(u32, i64)]) -> Option<u32>
    requires { IsPlaced shape.now.graph }
    ensures place { result ≡ place_where (is_sum constant terms.now) (nodes_of shape.now) }
    ensures there { IfSome result (λ number. number < length (nodes_of shape.now)) }
{
    for number in 0..shape.node_count() {
        if is_sum(constant, terms, shape.node(number)) {
            return Some(number);
        }
    }
    None
}

/// The number of the key switch of a node, where it is there.
fn switch_at(shape: &Shape, source: u32) -> Option<u32>
    requires { IsPlaced shape.now.graph }
    ensures place { result ≡ place_where (is_switch_of source) (nodes_of shape.now) }
    ensures there { IfSome result (λ number. number < length (nodes_of shape.now)) }
{
    for number in 0..shape.node_count() {
        if is_switch_of(source, shape.node(number)) {
            return Some(number);
        }
    }
    None
}

/// Puts a node at the end, and answers its number.
pub(crate) fn put_last(shape: &mut Shape, node: TfheOp) -> Result<u32, AllocError>
    requires placed { IsPlaced shape.old.graph }
    requires earlier { All (λ operand. operand < length (nodes_of shape.old)) (operands_of node) }
    requires few { length (operands_of node) < 2 ^ 32 }
    requires numbers_left { length (nodes_of shape.old) < 2 ^ 32 - 1 }
    ensures number { IfOk result (λ number. number ≡ (put_last node (nodes_of shape.old)).number) }
    ensures there { IfOk result (λ number. number < length (nodes_of shape.new)) }
    ensures nodes { OnOk result (nodes_of shape.new ≡ (put_last node (nodes_of shape.old)).nodes) }
    ensures placed { IsPlaced shape.new.graph }
    ensures width { shape.new.width ≡ shape.old.width }
{
    match shape.push(node) {
        Ok(number) => Ok(number),
        Err(_returned) => Err(AllocError),
    }
}

/// Puts a weighted sum, unless it is there, and answers its number.
fn put_sum(shape: &mut Shape, constant: i64, terms: Vec<(u32, i64)>) -> Result<u32, AllocError>
    requires placed { IsPlaced shape.old.graph }
    requires earlier { All (λ t. t.0 < length (nodes_of shape.old)) terms.items }
    requires few { length terms.items < 2 ^ 32 }
    requires numbers_left { length (nodes_of shape.old) < 2 ^ 32 - 1 }
    ensures number { IfOk result (λ number. number ≡ (put_sum constant terms.items (nodes_of shape.old)).number) }
    ensures there { IfOk result (λ number. number < length (nodes_of shape.new)) }
    ensures nodes { OnOk result (nodes_of shape.new ≡ (put_sum constant terms.items (nodes_of shape.old)).nodes) }
    ensures placed { IsPlaced shape.new.graph }
    ensures width { shape.new.width ≡ shape.old.width }
{
    if let Some(number) = sum_at(shape, constant, &terms) {
        return Ok(number);
    }
    put_last(
        shape,
        TfheOp::Lin {
            constant,
            terms: List::from_vec(terms),
        },
    )
}

/// Puts the key switch of a node, unless it is there, and answers its number.
pub(crate) fn put_switch(shape: &mut Shape, source: u32) -> Result<u32, AllocError>
    requires placed { IsPlaced shape.old.graph }
    requires earlier { source < length (nodes_of shape.old) }
    requires numbers_left { length (nodes_of shape.old) < 2 ^ 32 - 1 }
    ensures number { IfOk result (λ number. number ≡ (put_switch source (nodes_of shape.old)).number) }
    ensures there { IfOk result (λ number. number < length (nodes_of shape.new)) }
    ensures nodes { OnOk result (nodes_of shape.new ≡ (put_switch source (nodes_of shape.old)).nodes) }
    ensures placed { IsPlaced shape.new.graph }
    ensures width { shape.new.width ≡ shape.old.width }
{
    if let Some(number) = switch_at(shape, source) {
        return Ok(number);
    }
    put_last(shape, TfheOp::Switch { source })
}

/// Puts the bootstrap on a key switch, and answers its number.
pub(crate) fn put_boot(
    alloc: Global,
    shape: &mut Shape,
    source: u32,
    entries: &[i64],
) -> Result<u32, AllocError>
    requires placed { IsPlaced shape.old.graph }
    requires earlier { source < length (nodes_of shape.old) }
    requires numbers_left { length (nodes_of shape.old) < 2 ^ 32 - 1 }
    ensures number { IfOk result (λ number. number ≡ (put_last (Boot source entries.now) (nodes_of shape.old)).number) }
    ensures nodes { OnOk result (nodes_of shape.new ≡ (put_last (Boot source entries.now) (nodes_of shape.old)).nodes) }
    ensures placed { IsPlaced shape.new.graph }
    ensures width { shape.new.width ≡ shape.old.width }
{
    let entries = List::from_vec(entries.to_vec(alloc)?);
    put_last(shape, TfheOp::Boot { source, entries })
}

/// The leaf that a form is, where its constant is 0 and it has one term of weight 1.
fn alone(constant: i64, terms: &[(u32, i64)]) -> Option<u32>
    ensures { result ≡ alone constant terms.now }
{
    if terms.len() == 1 && constant == 0 && terms[0].1 == 1 {
        return Some(terms[0].0);
    }
    None
}

/// Puts the node of a form, unless it is a leaf or there already, and answers its number.
pub(crate) fn put_form(
    shape: &mut Shape,
    constant: i64,
    terms: Vec<(u32, i64)>,
) -> Result<u32, AllocError>
    requires placed { IsPlaced shape.old.graph }
    requires earlier { All (λ t. t.0 < length (nodes_of shape.old)) terms.items }
    requires few { length terms.items < 2 ^ 32 }
    requires numbers_left { length (nodes_of shape.old) < 2 ^ 32 - 1 }
    ensures number { IfOk result (λ number. number ≡ (put_form constant terms.items (nodes_of shape.old)).number) }
    ensures there { IfOk result (λ number. number < length (nodes_of shape.new)) }
    ensures nodes { OnOk result (nodes_of shape.new ≡ (put_form constant terms.items (nodes_of shape.old)).nodes) }
    ensures placed { IsPlaced shape.new.graph }
    ensures width { shape.new.width ≡ shape.old.width }
{
    if let Some(leaf) = alone(constant, &terms) {
        return Ok(leaf);
    }
    put_sum(shape, constant, terms)
}
