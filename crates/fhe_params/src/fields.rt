//! The fields of a table's parts: whole numbers within their limits.

ghost use Rattle.std.specs.Prelude.{◌≡◌, ◌≤◌, IfOk, option_and_then};
ghost use Rattle.toml.specs.Data.{get};
ghost use Rattle.toml.specs.View.{view};
ghost use Rattle.refusals.specs.Reading.{Gives};
ghost use Rattle.fhe_params.specs.Table.{IsCostWeights};
ghost use Rattle.fhe_params.specs.TableReading.{place_of, fault_of, natural_of, number_at, version_of, part_at, weights_of};

use crate::fault::{FieldName, ListName, TableFault, TableRefusal};
use crate::limits::MOST_WEIGHT;
use crate::params::is_between;
use crate::table::CostWeights;
use refusals::Refusal;
use toml::Value;

/// A part of a table, or an entry of one that is a list.
#[derive(Clone, Copy, Debug, PartialEq, Eq)]
pub struct Place {
    pub list: ListName,
    pub entry: u32,
}

impl Place {
    /// A part of a table as a whole.
    pub fn whole(list: ListName) -> Place
        ensures { result ≡ place_of list 0 }
    {
        Place { list, entry: 0 }
    }

    /// The fault of a field there.
    pub fn fault(self, field: FieldName) -> TableFault
        ensures { result ≡ fault_of self field }
    {
        TableFault::Field {
            list: self.list,
            entry: self.entry,
            field,
        }
    }
}

/// The whole number from 0 on at a key of a value.
fn natural_at(value: &Value, key: &str) -> Option<u64>
    ensures { result ≡ option_and_then natural_of (get key.now (view value.now)) }
{
    match value.get(key) {
        Some(Value::Integer(number)) => u64::try_from(*number).ok(),
        _ => None,
    }
}

/// The number at a field, from `least` to `most`.
#[tactic(auto, unfolding(crate::specs::TableReading::number_at))]
pub fn number_at(
    value: &Value,
    place: Place,
    field: FieldName,
    least: u64,
    most: u64,
) -> Result<u64, TableRefusal>
    ensures exact { Gives (λ x. x) result (number_at (view value.now) place field least most) }
    ensures low { IfOk result (λ number. least ≤ number) }
    ensures high { IfOk result (λ number. number ≤ most) }
{
    match natural_at(value, field.name()) {
        Some(number) if is_between(least, most, number) => Ok(number),
        _ => Err(Refusal::Fault(place.fault(field))),
    }
}

/// A version, where there is one, is 1.
#[tactic(auto, unfolding(crate::specs::TableReading::version_of))]
pub fn check_version(document: &Value) -> Result<(), TableRefusal>
    ensures { Gives (λ x. x) result (version_of (view document.now)) }
{
    let list = ListName::Version;
    if document.get(list.name()).is_none() {
        return Ok(());
    }
    number_at(document, Place::whole(list), FieldName::Version, 1, 1)?;
    Ok(())
}

/// The part of the document at a name, which is a table.
#[tactic(auto, unfolding(crate::specs::TableReading::part_at))]
fn part_at(document: &Value, list: ListName) -> Result<&Value, TableRefusal>
    ensures { Gives (λ part. view part.now) result (part_at (view document.now) list) }
{
    match document.get(list.name()) {
        Some(part) if part.is_table() => Ok(part),
        _ => Err(Refusal::Fault(Place::whole(list).fault(FieldName::List))),
    }
}

/// The weights of the cost.
#[tactic(auto, unfolding(crate::specs::TableReading::weights_of))]
pub fn weights_of(document: &Value) -> Result<CostWeights, TableRefusal>
    ensures exact { Gives (λ x. x) result (weights_of (view document.now)) }
    ensures limits { IfOk result IsCostWeights }
{
    let place = Place::whole(ListName::Cost);
    let cost = part_at(document, ListName::Cost)?;
    let switch = number_at(cost, place, FieldName::Switch, 0, MOST_WEIGHT)?;
    let boot = number_at(cost, place, FieldName::Boot, 0, MOST_WEIGHT)?;
    let lin = number_at(cost, place, FieldName::Lin, 0, MOST_WEIGHT)?;
    Ok(CostWeights { switch, boot, lin })
}
