//! Trying choices in order until one meets all constraints.

ghost use Rattle.std.specs.Prelude.{◌≡◌, ◌<◌, ◌≤◌, ◌++◌, length, All, Option, Some, IfOk};
ghost use Rattle.ir_core.specs.Placed.{IsPlaced};
ghost use Rattle.forms.specs.Limits.{most_width};
ghost use Rattle.fhe_params.specs.Table.{IsTable, IsChoice};
ghost use Rattle.tfhe_level.specs.Nodes.{nodes_of};
ghost use Rattle.param_search.specs.Search.{first_feasible, refused_before, found_of};

use crate::choices::{Priced, choices_in_order};
use fhe_params::{Choice, Table};
use lists::List;
use noise_model::{BoundRoom, Broken, first_broken};
use std::alloc::{AllocError, Global};
use tfhe_level::{Shape, counts};

/// A choice that is refused: what the circuit costs with it, and the first constraint that its parameters break.
#[derive(Clone, Copy, Debug, PartialEq, Eq)]
pub struct Refused {
    pub choice: Choice,
    pub cost: u128,
    pub broken: Broken,
}

/// What a search found: the first choice in order whose parameters meet all constraints, and those before it; where none
/// does, all choices.
#[derive(Debug, Drop)]
pub struct Found {
    pub refused: List<Refused>,
    pub chosen: Option<Choice>,
}

/// Tries these choices in their order.
fn first_of(
    alloc: Global,
    shape: &Shape,
    table: &Table,
    choices: &[Priced],
    room: &mut BoundRoom,
) -> Result<Found, AllocError>
    requires placed { IsPlaced shape.now.graph }
    requires width { shape.now.width ≤ most_width }
    requires table { IsTable table.now }
    requires choices { All (λ choice. IsChoice table.now choice.choice) choices.now }
    requires room { length room.old ≡ length (nodes_of shape.now) }
    ensures { IfOk result (λ found. found ≡ record {
      refused = refused_before table.now shape.now choices.now;
      chosen = first_feasible table.now shape.now choices.now;
    }) }
{
    let mut refused = Vec::new(alloc);
    for choice in choices {
        let params = table.params(&choice.choice);
        match first_broken(shape, &params, room) {
            Some(broken) => refused.push(Refused {
                choice: choice.choice,
                cost: choice.cost,
                broken,
            })?,
            None => {
                return Ok(Found {
                    refused: List::from_vec(refused),
                    chosen: Some(choice.choice),
                });
            }
        }
    }
    Ok(Found {
        refused: List::from_vec(refused),
        chosen: None,
    })
}

/// The least choice out of a table whose parameters meet all constraints of a circuit, by cost and then by places, with
/// the choices before it, each refused by the first constraint that it breaks. It computes the cost of each choice, orders
/// them, and tries none after the least one is found. It fails only for memory.
pub fn search(alloc: Global, shape: &Shape, table: &Table) -> Result<Found, AllocError>
    requires placed { IsPlaced shape.now.graph }
    requires width { shape.now.width ≤ most_width }
    requires table { IsTable table.now }
    ensures { IfOk result (λ found. found ≡ found_of table.now shape.now) }
{
    let choices = choices_in_order(alloc, table, &counts(shape))?;
    let mut room = BoundRoom::new(alloc, shape)?;
    first_of(alloc, shape, table, &choices, &mut room)
}
