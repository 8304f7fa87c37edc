//! Reading a table from its text.

ghost use Rattle.std.specs.Prelude.{IfOk};
ghost use Rattle.toml.specs.View.{view};
ghost use Rattle.refusals.specs.Reading.{Gives};
ghost use Rattle.fhe_params.specs.Table.{IsTable};
ghost use Rattle.fhe_params.specs.TableReading.{document_of, table_of};

use crate::entries::list_of;
use crate::fault::{ListName, TableFault, TableRefusal};
use crate::fields::{check_version, weights_of};
use crate::laws::laws;
use crate::table::Table;
use refusals::Refusal;
use std::alloc::Global;
use toml::Value;

/// The document that bytes spell, where they are UTF-8 and TOML.
fn document_of(alloc: Global, bytes: &[u8]) -> Result<Value, TableRefusal>
    ensures { Gives view result (document_of bytes.now) }
{
    match toml::table_from_slice(alloc, bytes) {
        Ok(table) => Ok(Value::Table(table)),
        Err(error) if error.is_memory() => Err(Refusal::Memory),
        Err(_) => Err(Refusal::Fault(TableFault::Toml)),
    }
}

/// The table that a text of TOML spells, or its first fault: the text's, or that of the first field that is missing, no
/// whole number or outside its limit, in the order of the table's parts.
#[tactic(auto, unfolding(crate::specs::TableReading::table_of))]
pub fn read_table(alloc: Global, bytes: &[u8]) -> Result<Table, TableRefusal>
    ensures exact { Gives (λ table. table) result (table_of bytes.now) }
    // What is read keeps the limits.
    ensures limits { IfOk result IsTable }
{
    laws();
    let document = document_of(alloc, bytes)?;
    check_version(&document)?;
    let weights = weights_of(&document)?;
    let glwe = list_of(alloc, &document, ListName::Glwe)?;
    let lwe = list_of(alloc, &document, ListName::Lwe)?;
    let boot = list_of(alloc, &document, ListName::Boot)?;
    let switch = list_of(alloc, &document, ListName::Switch)?;
    Ok(Table {
        weights,
        glwe,
        lwe,
        boot,
        switch,
    })
}
