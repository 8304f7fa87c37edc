//! The names of the values that are defined so far, each with its number.

ghost use Rattle.std.specs.Prelude.{◌≡◌, ◌<◌, [], ◌∷◌, ◌++◌, length, OnOk, IfSome, false};
ghost use Rattle.std.specs.List.{position};
ghost use Rattle.std.specs.Str.{bytes_eq};
ghost use Rattle.fhe_text.specs.Conditions.{is_among};

use indexmap::IndexSet;
use std::alloc::{AllocFailed, Global};
use std::marker::Model;

/// Names in the order in which they are defined: the number of a value is its name's place.
#[derive(Drop)]
pub(crate) struct Names<'a> {
    set: IndexSet<&'a [u8]>,
}

impl<'a> Model for Names<'a> {
    ghost use Rattle.std.specs.Prelude.{ℕ, List, map};

    ghost Value = { List (List ℕ) };

    ghost view = { λ names. map (λ name. name.now) names.set.keys };
}

impl<'a> Names<'a> {
    /// No name.
    pub fn new(alloc: Global) -> Self
        ensures { result ≡ [] }
    {
        Names {
            set: IndexSet::new(alloc),
        }
    }

    /// How many names are defined.
    pub fn len(&self) -> usize
        ensures { result ≡ length self.now }
    {
        self.set.len()
    }

    /// Whether the name is defined.
    pub fn contains(&self, name: &[u8]) -> bool
        ensures { result ≡ is_among self.now name.now }
    {
        self.set.contains(name)
    }

    /// The number of the value with the name, where it is defined.
    pub fn number(&self, name: &[u8]) -> Option<usize>
        ensures exact { result ≡ position (bytes_eq name.now) self.now }
        ensures within { IfSome result (λ number. number < length self.now) }
    {
        self.set.get_index_of(name)
    }

    /// Defines a name that is new.
    pub fn define(&mut self, name: &'a [u8]) -> Result<(), AllocFailed<&'a [u8]>>
        requires { is_among self.old name.now ≡ false }
        ensures { OnOk result (self.new ≡ self.old ++ name.now ∷ []) }
    {
        self.set.insert(name)?;
        Ok(())
    }
}
