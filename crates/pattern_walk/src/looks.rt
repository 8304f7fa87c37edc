//! Patterns, each once, in the order in which they come.

ghost use Rattle.std.specs.Prelude.{◌≡◌, ◌<◌, ◌++◌, ◌∷◌, [], length, IfOk, pos, if◌then◌else◌};
ghost use Rattle.fhe_level.specs.Programs.{entry_of};
ghost use Rattle.pattern_walk.specs.Looking.{entries_from, place_in, is_new};
ghost use Rattle.pattern_walk.specs.Patterns.{look_in};
ghost use Rattle.pattern_walk.specs.Walking.{with_look, with_range};

use fhe_text::Entries;
use indexmap::IndexSet;
use linear_forms::Form;
use lists::List;
use live_patterns::Look;
use std::alloc::{AllocError, Global};
use std::marker::Model;

/// A pattern that is not kept yet: the constant and the terms of its form, and its entries.
#[derive(PartialEq, Eq, Hash, Drop)]
pub(crate) struct Pattern {
    pub constant: i64,
    pub terms: Vec<(u32, i64)>,
    pub entries: Vec<i64>,
}

/// Patterns, no two of which are the same.
#[derive(Drop)]
pub(crate) struct Looks {
    set: IndexSet<Pattern>,
}

impl Model for Looks {
    ghost use Rattle.std.specs.Prelude.{List, map};
    ghost use Rattle.live_patterns.specs.declared.patterns.Look.{Look};
    ghost use Rattle.pattern_walk.specs.Patterns.{look_in};

    ghost Value = { List Look };

    ghost view = { λ looks. map look_in looks.set.keys };
}

/// The look-up of a pattern.
fn look_of(pattern: Pattern) -> Look
    ensures { result ≡ look_in pattern }
{
    let Pattern {
        constant,
        terms,
        entries,
    } = pattern;
    Look {
        form: Form {
            constant,
            terms: List::from_vec(terms),
        },
        entries: List::from_vec(entries),
    }
}

impl Looks {
    /// No pattern.
    pub fn new(alloc: Global) -> Looks
        ensures { result ≡ [] }
    {
        Looks {
            set: IndexSet::new(alloc),
        }
    }

    /// These, with a pattern more unless the same is there; the place of the one that is the same; and whether it is new.
    pub fn share(self, pattern: Pattern) -> Result<(Looks, usize, bool), AllocError>
        ensures looks { IfOk result (λ found. found.0 ≡ with_look self (look_in pattern)) }
        ensures place { IfOk result (λ found. found.1 ≡ place_in self (look_in pattern)) }
        ensures within { IfOk result (λ found. found.1 < length found.0) }
        ensures added { IfOk result (λ found. found.2 ≡ is_new self (look_in pattern)) }
    {
        let Looks { mut set } = self;
        let (place, added) = set.insert_full(pattern)?;
        Ok((Looks { set }, place, added))
    }

    /// The patterns, in order.
    pub fn into_list(self, alloc: Global) -> Result<List<Look>, AllocError>
        ensures { IfOk result (λ looks. looks ≡ self) }
    {
        let Looks { set } = self;
        let looks = set.into_iter().map(look_of).collect(alloc)?;
        Ok(List::from_vec(looks))
    }
}

/// The ranges, with one more where its leaf is new.
pub(crate) fn with_range(
    ranges: Vec<(i64, i64)>,
    new: bool,
    range: (i64, i64),
) -> Result<Vec<(i64, i64)>, AllocError>
    ensures { IfOk result (λ found. found.items ≡ with_range new ranges.items range) }
{
    let mut ranges = ranges;
    if new {
        ranges.push(range)?;
    }
    Ok(ranges)
}

/// The entry at a place, and 0 past the end.
pub(crate) fn entry_at(entries: &Entries, place: u32) -> i64
    ensures { result ≡ entry_of entries.now (pos place) }
{
    match entries {
        Entries::List(list) => list.as_slice().get(place as usize).copied().unwrap_or(0),
        Entries::Splat(value) => *value,
    }
}

/// So many entries from a place on, as far as there are.
pub(crate) fn entries_from(
    alloc: Global,
    entries: &Entries,
    place: usize,
    many: usize,
) -> Result<Vec<i64>, AllocError>
    ensures { IfOk result (λ found. found.items ≡ entries_from entries.now place many) }
{
    match entries {
        Entries::List(list) => {
            let numbers = list.as_slice();
            let from = place.min(numbers.len());
            let behind = &numbers[from..];
            behind[..many.min(behind.len())].to_vec(alloc)
        }
        Entries::Splat(value) => vec![in alloc; *value; many],
    }
}
