//! Writing a certificate as its text.

ghost use Rattle.std.specs.Prelude.{◌≡◌, ◌++◌, ◌<◌, ◌≤◌, length, OnOk, IfOk, IfSome};
ghost use Rattle.std.specs.String.{string_bytes};
ghost use Rattle.std.specs.List.{flat_map};
ghost use Rattle.std.specs.Option.{option_to_list};
ghost use Rattle.ir_core.specs.Placed.{IsPlaced};
ghost use Rattle.forms.specs.Limits.{most_width};
ghost use Rattle.fhe_params.specs.Params.{IsParams};
ghost use Rattle.fhe_params.specs.Table.{IsTable, IsChoice, params_of};
ghost use Rattle.tfhe_level.specs.Nodes.{nodes_of};
ghost use Rattle.tfhe_level.specs.Rules.{IsShape};
ghost use Rattle.param_search.specs.Search.{found_of};
ghost use Rattle.cost_cert.specs.Limits.{cert_limit};
ghost use Rattle.cost_cert.specs.Certificate.{weights_line, counts_line, choice_text, place_text, constraint_line, refused_line, node_line, nodes_text, bounds_text, chosen_line, chosen_text, certificate_of, certificate_text};

use crate::laws::laws;
use fhe_params::{Choice, CostWeights, Counts, Params, Table, cost};
use noise_model::{BoundRoom, Broken, Constraint, edge_bounds, noise_constraints, size_constraint};
use param_search::{Found, Refused};
use std::alloc::{AllocError, Global};
use std::fmt::Write;
use tfhe_level::{Shape, TfheOp, counts};

fn put_weights(text: &mut String, weights: &CostWeights) -> Result<(), AllocError>
    ensures { OnOk result (string_bytes text.new ≡ string_bytes text.old ++ weights_line weights.now) }
{
    let CostWeights { switch, boot, lin } = *weights;
    write!(text, "weights {switch} {boot} {lin}\n")
}

fn put_counts(text: &mut String, counts: &Counts) -> Result<(), AllocError>
    ensures { OnOk result (string_bytes text.new ≡ string_bytes text.old ++ counts_line counts.now) }
{
    let Counts {
        switches,
        boots,
        weights,
    } = *counts;
    write!(text, "shape {switches} {boots} {weights}\n")
}

/// The places of a choice, and what the circuit costs with it.
fn put_choice(text: &mut String, choice: &Choice, cost: u128) -> Result<(), AllocError>
    ensures { OnOk result (string_bytes text.new ≡ string_bytes text.old ++ choice_text choice.now cost) }
{
    let Choice {
        glwe,
        lwe,
        boot,
        switch,
    } = *choice;
    write!(text, "{glwe} {lwe} {boot} {switch} cost {cost}")
}

/// What a constraint is on.
fn put_place(text: &mut String, at: Constraint) -> Result<(), AllocError>
    ensures { OnOk result (string_bytes text.new ≡ string_bytes text.old ++ place_text at) }
{
    match at {
        Constraint::Size => text.push_str("size"),
        Constraint::Boot(count) => write!(text, "boot {count}"),
        Constraint::Result(count) => write!(text, "result {count}"),
    }
}

/// A constraint with its bound and its limit.
fn put_constraint(text: &mut String, compared: &Broken) -> Result<(), AllocError>
    ensures { OnOk result (string_bytes text.new ≡ string_bytes text.old ++ constraint_line compared.now) }
{
    let Broken { at, bound, limit } = *compared;
    put_place(text, at)?;
    write!(text, " {bound} {limit}\n")
}

fn put_constraints(text: &mut String, list: &[Broken]) -> Result<(), AllocError>
    ensures { OnOk result (string_bytes text.new ≡ string_bytes text.old ++ flat_map constraint_line list.now) }
{
    for compared in list {
        put_constraint(text, compared)?;
    }
    Ok(())
}

/// The size of the keys, where there is a bootstrap.
fn put_size(text: &mut String, size: Option<Broken>) -> Result<(), AllocError>
    ensures { OnOk result
        (string_bytes text.new ≡ string_bytes text.old ++ flat_map constraint_line (option_to_list size)) }
{
    match size {
        Some(compared) => put_constraint(text, &compared),
        None => Ok(()),
    }
}

/// A refused choice.
fn put_refused(text: &mut String, refused: &Refused) -> Result<(), AllocError>
    ensures { OnOk result (string_bytes text.new ≡ string_bytes text.old ++ refused_line refused.now) }
{
    text.push_str("refused ")?;
    put_choice(text, &refused.choice, refused.cost)?;
    text.push_str(" ")?;
    put_constraint(text, &refused.broken)
}

fn put_all_refused(text: &mut String, list: &[Refused]) -> Result<(), AllocError>
    ensures { OnOk result (string_bytes text.new ≡ string_bytes text.old ++ flat_map refused_line list.now) }
{
    for refused in list {
        put_refused(text, refused)?;
    }
    Ok(())
}

/// The bound of a node; of an out there is none.
fn put_node(text: &mut String, number: u32, op: &TfheOp, room: &BoundRoom) -> Result<(), AllocError>
    requires { number < length room.now }
    ensures { OnOk result (string_bytes text.new ≡ string_bytes text.old ++ node_line room.now (number, op.now)) }
{
    match op {
        TfheOp::Out { .. } => Ok(()),
        _ => {
            let bound = room.bound(number);
            write!(text, "node {number} {bound}\n")
        }
    }
}

/// The bounds of all nodes.
fn put_nodes(text: &mut String, shape: &Shape, room: &BoundRoom) -> Result<(), AllocError>
    requires placed { IsPlaced shape.now.graph }
    requires room { length room.now ≡ length (nodes_of shape.now) }
    ensures { OnOk result
        (string_bytes text.new ≡ string_bytes text.old ++ nodes_text room.now (nodes_of shape.now)) }
{
    for number in 0..shape.node_count() {
        put_node(text, number, shape.node(number), room)?;
    }
    Ok(())
}

/// The size of the keys, the bounds of the nodes, and the constraints, under these parameters.
#[tactic(auto, unfolding(crate::specs::Certificate::bounds_text))]
fn put_bounds(
    alloc: Global,
    text: &mut String,
    shape: &Shape,
    params: &Params,
) -> Result<(), AllocError>
    requires placed { IsPlaced shape.now.graph }
    requires width { shape.now.width ≤ most_width }
    requires params { IsParams params.now }
    ensures { OnOk result (string_bytes text.new ≡ string_bytes text.old ++ bounds_text params.now shape.now) }
{
    let mut room = BoundRoom::new(alloc, shape)?;
    edge_bounds(shape, params, &mut room);
    let noise = noise_constraints(alloc, shape, params, &room)?;
    put_size(text, size_constraint(shape, params))?;
    put_nodes(text, shape, &room)?;
    put_constraints(text, &noise)
}

/// The chosen choice with its cost.
fn put_choice_line(
    text: &mut String,
    table: &Table,
    counts: &Counts,
    choice: &Choice,
    params: &Params,
) -> Result<(), AllocError>
    requires table { IsTable table.now }
    requires params { IsParams params.now }
    requires of { params.now ≡ params_of table.now choice.now }
    ensures { OnOk result (string_bytes text.new ≡ string_bytes text.old ++ chosen_line table.now counts.now choice.now) }
{
    text.push_str("chosen ")?;
    put_choice(text, choice, cost(params, &table.weights, counts))?;
    text.push_str("\n")
}

/// The chosen choice with its bounds, or that there is none.
fn put_chosen(
    alloc: Global,
    text: &mut String,
    shape: &Shape,
    table: &Table,
    chosen: &Option<Choice>,
) -> Result<(), AllocError>
    requires placed { IsPlaced shape.now.graph }
    requires width { shape.now.width ≤ most_width }
    requires table { IsTable table.now }
    requires choice { IfSome chosen.now (IsChoice table.now) }
    ensures { OnOk result
        (string_bytes text.new ≡ string_bytes text.old ++ chosen_text table.now shape.now chosen.now) }
{
    match chosen {
        Some(choice) => {
            fhe_params::laws::laws();
            let params = table.params(choice);
            put_choice_line(text, table, &counts(shape), choice, &params)?;
            put_bounds(alloc, text, shape, &params)
        }
        None => text.push_str("none\n"),
    }
}

/// The text of a certificate.
#[tactic(auto, unfolding(crate::specs::Certificate::certificate_of))]
fn text_of(alloc: Global, shape: &Shape, table: &Table, found: &Found) -> Result<String, AllocError>
    requires placed { IsPlaced shape.now.graph }
    requires width { shape.now.width ≤ most_width }
    requires table { IsTable table.now }
    requires choice { IfSome found.now.chosen (IsChoice table.now) }
    ensures { IfOk result (λ text. string_bytes text ≡ certificate_of table.now shape.now found.now) }
{
    let mut text = String::from_str(alloc, "fhec certificate 1\n")?;
    put_weights(&mut text, &table.weights)?;
    put_counts(&mut text, &counts(shape))?;
    let width = shape.width;
    write!(text, "width {width}\n")?;
    put_all_refused(&mut text, found.refused.as_slice())?;
    put_chosen(alloc, &mut text, shape, table, &found.chosen)?;
    text.push_str("end\n")?;
    Ok(text)
}

/// The one certificate of a circuit's shape and a table, out of what the search found: what weighs how much, how much the
/// circuit does, its width, each refused choice with its cost and the first constraint that it breaks, and the chosen one
/// with its cost, the size of its keys, the bound of each node and each constraint with its limit. Bounds are given as 2^64
/// at most. The text has at most 2^24 bytes. It fails only for memory.
pub fn print_cert(
    alloc: Global,
    shape: &Shape,
    table: &Table,
    found: &Found,
) -> Result<Vec<u8>, AllocError>
    requires shape { IsShape shape.now }
    requires table { IsTable table.now }
    requires found { found.now ≡ found_of table.now shape.now }
    ensures spelled { IfOk result (λ text. text.items ≡ certificate_text table.now shape.now) }
    // So it can be read back from a file.
    ensures size { IfOk result (λ text. length text.items ≤ cert_limit) }
{
    param_search::laws::laws();
    laws();
    let text = text_of(alloc, shape, table, found)?;
    Ok(text.into_bytes())
}
