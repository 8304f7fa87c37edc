//! The constraints on the parameters of a circuit.

ghost use Rattle.std.specs.Prelude.{◌≡◌, ◌<◌, ◌≤◌, ◌+◌, ◌++◌, ◌^◌, ◌↔◌, length, map, filter_map, find, IsNone, IfSome, OnOk, IfOk, Contains};
ghost use Rattle.std.specs.List.{enumerate_from, list_any};
ghost use Rattle.std.specs.Option.{option_map, option_to_list};
ghost use Rattle.ir_core.specs.Placed.{IsPlaced};
ghost use Rattle.fhe_params.specs.Params.{IsParams};
ghost use Rattle.forms.specs.Limits.{most_width};
ghost use Rattle.tfhe_level.specs.Operations.{operands_of, is_boot};
ghost use Rattle.tfhe_level.specs.Nodes.{nodes_of};
ghost use Rattle.noise_model.specs.Bounds.{noise_bound, noise_bounds, capped};
ghost use Rattle.noise_model.specs.Constraints.{size_constraint, half_step, is_broken, as_broken, noise_constraints, first_broken_of, MeetsAll};
ghost use Rattle.noise_model.specs.Edges.{source_of, added_at, constraint_at, edge_constraint, edge_constraints};

use crate::bounds::{BoundRoom, edge_bounds};
use crate::cap::cap_add;
use crate::noise::modulus_noise;
use fhe_params::{Params, key_words};
use std::alloc::{AllocError, Global};
use tfhe_level::{Shape, TfheOp};

/// The most words of evaluation keys: 256 MiB.
const MOST_KEY_WORDS: u128 = 1 << 25;

/// What a constraint is on.
#[derive(Clone, Copy, Debug, PartialEq, Eq)]
pub enum Constraint {
    /// The size of the evaluation keys.
    Size,
    /// The bootstrap with this number, counted over the bootstraps from 0.
    Boot(u32),
    /// The out with this number, counted over the outs from 0.
    Result(u32),
}

/// A broken constraint: the least of its bound and 2^64, and its limit. For the size both are in words, else in parts
/// of 2^64.
#[derive(Clone, Copy, Debug, PartialEq, Eq)]
pub struct Broken {
    pub at: Constraint,
    pub bound: u128,
    pub limit: u128,
}

/// Where the noise of an operation is compared with half a step.
#[derive(Clone, Copy)]
pub(crate) enum Edge {
    IntoBoot,
    OutOfCircuit,
}

/// The operation whose noise counts where this one is such an edge.
fn source_of(edge: Edge, op: &TfheOp) -> Option<u32>
    ensures value { result ≡ source_of edge op.now }
    ensures operand { IfSome result (Contains (operands_of op.now)) }
{
    match edge {
        Edge::IntoBoot => match op {
            TfheOp::Boot { source, .. } => Some(*source),
            _ => None,
        },
        Edge::OutOfCircuit => match op {
            TfheOp::Out { source, .. } => Some(*source),
            _ => None,
        },
    }
}

/// The constraint on the edge with a number.
fn constraint_at(edge: Edge, count: u32) -> Constraint
    ensures { result ≡ constraint_at edge count }
{
    match edge {
        Edge::IntoBoot => Constraint::Boot(count),
        Edge::OutOfCircuit => Constraint::Result(count),
    }
}

/// What is added to the bound at an edge, or 2^64 where it is larger.
fn added_at(edge: Edge, params: &Params) -> u128
    requires { IsParams params.now }
    ensures value { result ≡ capped (added_at edge params.now) }
    ensures most { result ≤ 2 ^ 64 }
{
    match edge {
        Edge::IntoBoot => modulus_noise(params),
        Edge::OutOfCircuit => 0,
    }
}

/// Half of the distance of two messages.
fn half_step(width: u32) -> u128
    requires { width ≤ most_width }
    ensures value { result ≡ half_step width }
    ensures most { result ≤ 2 ^ 62 }
{
    1 << (62 - width)
}

/// The constraint on the edge with a number, on this operation, as it is compared.
fn edge_constraint(
    edge: Edge,
    count: u32,
    source: u32,
    shape: &Shape,
    params: &Params,
    room: &BoundRoom,
) -> Broken
    requires there { source < length (nodes_of shape.now) }
    requires params { IsParams params.now }
    requires width { shape.now.width ≤ most_width }
    requires room { room.now ≡ map capped (noise_bounds params.now (nodes_of shape.now)) }
    ensures constraint { result ≡ as_broken (edge_constraint edge params.now shape.now (count, source)) }
    ensures bound { result.bound
        ≡ capped (noise_bound params.now (nodes_of shape.now) source + added_at edge params.now) }
    ensures limit { result.limit ≡ half_step shape.now.width }
    ensures small { result.limit ≤ 2 ^ 62 }
{
    Broken {
        at: constraint_at(edge, count),
        bound: cap_add(room.bound(source), added_at(edge, params)),
        limit: half_step(shape.width),
    }
}

/// The first edge of a kind at which the bound is not below half a step.
fn first_edge_over(shape: &Shape, params: &Params, edge: Edge, room: &BoundRoom) -> Option<Broken>
    requires placed { IsPlaced shape.now.graph }
    requires params { IsParams params.now }
    requires width { shape.now.width ≤ most_width }
    requires room { room.now ≡ map capped (noise_bounds params.now (nodes_of shape.now)) }
    ensures { result
        ≡ option_map as_broken (find is_broken (edge_constraints edge params.now shape.now (nodes_of shape.now))) }
{
    let mut count = 0;
    for number in 0..shape.node_count() {
        if let Some(source) = source_of(edge, shape.node(number)) {
            let compared = edge_constraint(edge, count, source, shape, params, room);
            if compared.bound >= compared.limit {
                return Some(compared);
            }
            count += 1;
        }
    }
    None
}

/// Adds the constraints on all edges of a kind.
fn put_edges(
    into: &mut Vec<Broken>,
    shape: &Shape,
    params: &Params,
    edge: Edge,
    room: &BoundRoom,
) -> Result<(), AllocError>
    requires placed { IsPlaced shape.now.graph }
    requires params { IsParams params.now }
    requires width { shape.now.width ≤ most_width }
    requires room { room.now ≡ map capped (noise_bounds params.now (nodes_of shape.now)) }
    ensures { OnOk result (into.new.items
        ≡ into.old.items ++ map as_broken (edge_constraints edge params.now shape.now (nodes_of shape.now))) }
{
    let mut count = 0;
    for number in 0..shape.node_count() {
        if let Some(source) = source_of(edge, shape.node(number)) {
            into.push(edge_constraint(edge, count, source, shape, params, room))?;
            count += 1;
        }
    }
    Ok(())
}

/// The constraints on bootstraps and then those on outs, broken or not, as they are compared: each bound is the least of
/// itself and 2^64. The room has the bounds that `edge_bounds` or `first_broken` left for these parameters. It fails only
/// for memory.
pub fn noise_constraints(
    alloc: Global,
    shape: &Shape,
    params: &Params,
    room: &BoundRoom,
) -> Result<Vec<Broken>, AllocError>
    requires placed { IsPlaced shape.now.graph }
    requires params { IsParams params.now }
    requires width { shape.now.width ≤ most_width }
    requires room { room.now ≡ map capped (noise_bounds params.now (nodes_of shape.now)) }
    ensures { IfOk result (λ list. list.items ≡ map as_broken (noise_constraints params.now shape.now)) }
{
    let mut list = Vec::new(alloc);
    put_edges(&mut list, shape, params, Edge::IntoBoot, room)?;
    put_edges(&mut list, shape, params, Edge::OutOfCircuit, room)?;
    Ok(list)
}

/// Whether an operation is a bootstrap.
fn is_boot(op: &TfheOp) -> bool
    ensures { result ≡ is_boot op.now }
{
    matches!(op, TfheOp::Boot { .. })
}

/// Whether a circuit has a bootstrap.
pub fn has_boot(shape: &Shape) -> bool
    requires { IsPlaced shape.now.graph }
    ensures { result ≡ list_any is_boot (nodes_of shape.now) }
{
    for number in 0..shape.node_count() {
        if is_boot(shape.node(number)) {
            return true;
        }
    }
    false
}

/// The constraint on the size of the keys, broken or not, as it is compared; there is none without a bootstrap.
pub fn size_constraint(shape: &Shape, params: &Params) -> Option<Broken>
    requires placed { IsPlaced shape.now.graph }
    requires params { IsParams params.now }
    ensures { option_to_list result ≡ map as_broken (size_constraint params.now (nodes_of shape.now)) }
{
    if has_boot(shape) {
        Some(Broken {
            at: Constraint::Size,
            bound: u128::from(key_words(params)),
            limit: MOST_KEY_WORDS,
        })
    } else {
        None
    }
}

/// The constraint on the size of the keys, where it is broken.
fn size_over(shape: &Shape, params: &Params) -> Option<Broken>
    requires placed { IsPlaced shape.now.graph }
    requires params { IsParams params.now }
    ensures { result ≡ option_map as_broken (find is_broken (size_constraint params.now (nodes_of shape.now))) }
{
    if !has_boot(shape) {
        return None;
    }
    let words = u128::from(key_words(params));
    if words > MOST_KEY_WORDS {
        return Some(Broken {
            at: Constraint::Size,
            bound: words,
            limit: MOST_KEY_WORDS,
        });
    }
    None
}

/// The first bootstrap or else the first out at which the constraint is broken.
fn edge_over(shape: &Shape, params: &Params, room: &BoundRoom) -> Option<Broken>
    requires placed { IsPlaced shape.now.graph }
    requires params { IsParams params.now }
    requires width { shape.now.width ≤ most_width }
    requires room { room.now ≡ map capped (noise_bounds params.now (nodes_of shape.now)) }
    ensures { result ≡ option_map as_broken (find is_broken (noise_constraints params.now shape.now)) }
{
    match first_edge_over(shape, params, Edge::IntoBoot, room) {
        Some(broken) => Some(broken),
        None => first_edge_over(shape, params, Edge::OutOfCircuit, room),
    }
}

/// The first constraint that is broken, by the bounds of the operations.
fn constraint_over(shape: &Shape, params: &Params, room: &BoundRoom) -> Option<Broken>
    requires placed { IsPlaced shape.now.graph }
    requires params { IsParams params.now }
    requires width { shape.now.width ≤ most_width }
    requires room { room.now ≡ map capped (noise_bounds params.now (nodes_of shape.now)) }
    ensures { result ≡ first_broken_of params.now shape.now }
{
    match size_over(shape, params) {
        Some(broken) => Some(broken),
        None => edge_over(shape, params, room),
    }
}

/// The first constraint that these parameters break: the size of the keys where there is a bootstrap, then each
/// bootstrap and then each out, in order. A bootstrap is kept where the bound of its key switch and of the modulus switch
/// is below half a step, an out where its bound is. It takes no memory and goes once over the terms of the circuit.
pub fn first_broken(shape: &Shape, params: &Params, room: &mut BoundRoom) -> Option<Broken>
    requires placed { IsPlaced shape.now.graph }
    requires params { IsParams params.now }
    requires width { shape.now.width ≤ most_width }
    requires room { length room.old ≡ length (nodes_of shape.now) }
    ensures first { result ≡ first_broken_of params.now shape.now }
    ensures none { IsNone result ↔ MeetsAll params.now shape.now }
    ensures bounds { room.new ≡ map capped (noise_bounds params.now (nodes_of shape.now)) }
    ensures room { length room.new ≡ length (nodes_of shape.now) }
{
    edge_bounds(shape, params, room);
    constraint_over(shape, params, room)
}
