//! The lists of a table: one walk for all of them, over entries that each type reads for itself.

ghost use Rattle.std.specs.Prelude.{◌≡◌, ◌≤◌, IfOk, IfSome, option_map, length, map, Result};
ghost use Rattle.std.specs.List.{list_all};
ghost use Rattle.toml.specs.Data.{Data};
ghost use Rattle.toml.specs.View.{view};
ghost use Rattle.refusals.specs.Reading.{Gives};
ghost use Rattle.fhe_params.specs.declared.fault.TableFault.{TableFault};
ghost use Rattle.fhe_params.specs.declared.fields.Place.{Place};
ghost use Rattle.fhe_params.specs.Limits.{most_entries};
ghost use Rattle.fhe_params.specs.TableReading.{glwe_entry, lwe_entry, gadget_entry, is_table, is_few, are_entries, entries_in, entries_at, entries_from, list_of};

use crate::fault::{FieldName, ListName, TableRefusal};
use crate::fields::{Place, number_at};
use crate::limits::{
    MOST_BASE, MOST_DIGIT_BITS, MOST_ENTRIES, MOST_ERROR, MOST_LOG_N, MOST_POLYNOMIALS,
    MOST_SMALL_DIMENSION,
};
use crate::params::{Gadget, GlweChoice, LweChoice, is_between};
use lists::List;
use refusals::Refusal;
use std::alloc::Global;
use toml::Value;

/// An entry of a list of a table.
pub trait Entry: Drop {
    ghost entry_of: { Place → Data → Result Self TableFault };

    /// The entry that a value is.
    fn entry_of(value: &Value, place: Place) -> Result<Self, TableRefusal>
        ensures { Gives (λ x. x) result (entry_of place (view value.now)) };
}

impl Entry for GlweChoice {
    ghost entry_of = { glwe_entry };

    #[tactic(auto, unfolding(crate::specs::TableReading::glwe_entry))]
    fn entry_of(value: &Value, place: Place) -> Result<GlweChoice, TableRefusal> {
        let k = number_at(value, place, FieldName::K, 1, MOST_POLYNOMIALS)?;
        let log_n = number_at(value, place, FieldName::LogN, 1, MOST_LOG_N)?;
        let ones = number_at(value, place, FieldName::Ones, 0, k * (1 << log_n))?;
        let error = number_at(value, place, FieldName::Error, 0, MOST_ERROR)?;
        Ok(GlweChoice {
            k: k as u32,
            log_n: log_n as u32,
            ones,
            error,
        })
    }
}

impl Entry for LweChoice {
    ghost entry_of = { lwe_entry };

    #[tactic(auto, unfolding(crate::specs::TableReading::lwe_entry))]
    fn entry_of(value: &Value, place: Place) -> Result<LweChoice, TableRefusal> {
        let n = number_at(value, place, FieldName::N, 1, MOST_SMALL_DIMENSION)?;
        let ones = number_at(value, place, FieldName::Ones, 0, n)?;
        let error = number_at(value, place, FieldName::Error, 0, MOST_ERROR)?;
        Ok(LweChoice {
            n: n as u32,
            ones,
            error,
        })
    }
}

impl Entry for Gadget {
    ghost entry_of = { gadget_entry };

    #[tactic(auto, unfolding(crate::specs::TableReading::gadget_entry))]
    fn entry_of(value: &Value, place: Place) -> Result<Gadget, TableRefusal> {
        let base = number_at(value, place, FieldName::Base, 1, MOST_BASE)?;
        let level = number_at(value, place, FieldName::Level, 1, MOST_DIGIT_BITS / base)?;
        Ok(Gadget {
            base: base as u32,
            level: level as u32,
        })
    }
}

/// Whether each of the values is a table.
fn are_tables(values: &[Value]) -> bool
    ensures { result ≡ list_all (λ value. is_table (view value)) values.now }
{
    values.iter().all(|value| value.is_table())
}

/// Whether there are 1 to 12 of them.
fn is_few(number: usize) -> bool
    ensures { result ≡ is_few number }
{
    is_between(1, MOST_ENTRIES, number as u64)
}

/// Whether the values are 1 to 12 tables.
#[tactic(auto, using(crate::proofs::Values::entries_test, crate::proofs::Values::too_many))]
fn are_entries(values: &[Value]) -> bool
    ensures { result ≡ are_entries (map view values.now) }
{
    is_few(values.len()) && are_tables(values)
}

/// The values of an array, where they are 1 to 12 tables.
#[tactic(auto, using(crate::proofs::Values::array_entries, crate::proofs::Values::other_array, crate::proofs::Values::no_array))]
fn entries_in(value: &Value) -> Option<&[Value]>
    ensures exact { option_map (λ values. map view values.now) result ≡ entries_in (view value.now) }
    ensures few { IfSome result (λ values. length values.now ≤ most_entries) }
{
    let values = value.as_array()?.as_slice();
    if are_entries(values) {
        Some(values)
    } else {
        None
    }
}

/// The values of the list at a name, where they are 1 to 12 tables.
#[tactic(auto, unfolding(crate::specs::TableReading::entries_at))]
fn entries_at(document: &Value, list: ListName) -> Result<&[Value], TableRefusal>
    ensures exact { Gives (λ values. map view values.now) result (entries_at (view document.now) list) }
    ensures few { IfOk result (λ values. length values.now ≤ most_entries) }
{
    match document.get(list.name()) {
        Some(value) => match entries_in(value) {
            Some(values) => Ok(values),
            None => Err(Refusal::Fault(Place::whole(list).fault(FieldName::List))),
        },
        None => Err(Refusal::Fault(Place::whole(list).fault(FieldName::List))),
    }
}

/// The entries, read in order.
fn entries_from<E: Entry>(
    alloc: Global,
    values: &[Value],
    list: ListName,
) -> Result<Vec<E>, TableRefusal>
    requires { length values.now ≤ most_entries }
    ensures { Gives (λ x. x.items) result (entries_from E.entry_of list 0 (map view values.now)) }
{
    let mut entries = Vec::with_capacity(alloc, values.len())?;
    for (at, value) in values.iter().enumerate() {
        let place = Place {
            list,
            entry: at as u32,
        };
        entries.push(E::entry_of(value, place)?)?;
    }
    Ok(entries)
}

/// The list at a name, with its entries.
#[tactic(auto, unfolding(crate::specs::TableReading::list_of))]
pub fn list_of<E: Entry>(
    alloc: Global,
    document: &Value,
    list: ListName,
) -> Result<List<E>, TableRefusal>
    ensures { Gives (λ x. x) result (list_of E.entry_of (view document.now) list) }
{
    let values = entries_at(document, list)?;
    let entries = entries_from(alloc, values, list)?;
    Ok(List::from_vec(entries))
}
