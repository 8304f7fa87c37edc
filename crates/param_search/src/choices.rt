//! All choices out of a table with their costs, in order.

ghost use Rattle.std.specs.Prelude.{◌≡◌, ◌<◌, ◌≤◌, ◌++◌, length, All, OnOk, IfOk};
ghost use Rattle.fhe_params.specs.Table.{IsTable, IsChoice};
ghost use Rattle.param_search.specs.Choices.{price_of, choice_at, switch_choices, boot_choices, lwe_choices, all_choices, choices_in_order};

use fhe_params::{Choice, Counts, Table, cost};
use std::alloc::{AllocError, Global};

/// A choice and what the circuit costs under its parameters.
#[derive(Clone, Copy, Debug, PartialEq, Eq)]
pub(crate) struct Priced {
    pub(crate) cost: u128,
    pub(crate) choice: Choice,
}

/// A choice with its cost, for a circuit that does so much.
fn price_of(table: &Table, counts: &Counts, choice: Choice) -> Priced
    requires table { IsTable table.now }
    requires choice { IsChoice table.now choice }
    ensures { result ≡ price_of table.now counts.now choice }
{
    fhe_params::laws::laws();
    let params = table.params(&choice);
    Priced {
        cost: cost(&params, &table.weights, counts),
        choice,
    }
}

/// Adds the choices with these places in the first three lists.
fn put_switch_choices(
    choices: &mut Vec<Priced>,
    table: &Table,
    counts: &Counts,
    glwe: u32,
    lwe: u32,
    boot: u32,
) -> Result<(), AllocError>
    requires table { IsTable table.now }
    requires glwe { glwe < length table.now.glwe }
    requires lwe { lwe < length table.now.lwe }
    requires boot { boot < length table.now.boot }
    ensures { OnOk result (choices.new.items ≡ choices.old.items ++ switch_choices table.now counts.now glwe lwe boot) }
{
    for switch in 0..table.switch.len() as u32 {
        let choice = Choice {
            glwe,
            lwe,
            boot,
            switch,
        };
        choices.push(price_of(table, counts, choice))?;
    }
    Ok(())
}

/// Adds the choices with these places in the first two lists.
fn put_boot_choices(
    choices: &mut Vec<Priced>,
    table: &Table,
    counts: &Counts,
    glwe: u32,
    lwe: u32,
) -> Result<(), AllocError>
    requires table { IsTable table.now }
    requires glwe { glwe < length table.now.glwe }
    requires lwe { lwe < length table.now.lwe }
    ensures { OnOk result (choices.new.items ≡ choices.old.items ++ boot_choices table.now counts.now glwe lwe) }
{
    for boot in 0..table.boot.len() as u32 {
        put_switch_choices(choices, table, counts, glwe, lwe, boot)?;
    }
    Ok(())
}

/// Adds the choices with this place in the first list.
fn put_lwe_choices(
    choices: &mut Vec<Priced>,
    table: &Table,
    counts: &Counts,
    glwe: u32,
) -> Result<(), AllocError>
    requires table { IsTable table.now }
    requires glwe { glwe < length table.now.glwe }
    ensures { OnOk result (choices.new.items ≡ choices.old.items ++ lwe_choices table.now counts.now glwe) }
{
    for lwe in 0..table.lwe.len() as u32 {
        put_boot_choices(choices, table, counts, glwe, lwe)?;
    }
    Ok(())
}

/// All choices, ordered by their places.
fn all_choices(alloc: Global, table: &Table, counts: &Counts) -> Result<Vec<Priced>, AllocError>
    requires { IsTable table.now }
    ensures { IfOk result (λ choices. choices.items ≡ all_choices table.now counts.now) }
{
    let mut choices = Vec::new(alloc);
    for glwe in 0..table.glwe.len() as u32 {
        put_lwe_choices(&mut choices, table, counts, glwe)?;
    }
    Ok(choices)
}

/// All choices by cost, and those of one cost by their places. It fails only for memory.
pub(crate) fn choices_in_order(
    alloc: Global,
    table: &Table,
    counts: &Counts,
) -> Result<Vec<Priced>, AllocError>
    requires { IsTable table.now }
    ensures { IfOk result (λ choices. choices.items ≡ choices_in_order table.now counts.now) }
{
    let mut choices = all_choices(alloc, table, counts)?;
    choices.sort_by_key(|choice| choice.cost)?;
    Ok(choices)
}
