//! The table of the parameters that may be chosen, and what weighs how much in a cost.

ghost use Rattle.std.specs.Prelude.{◌≡◌, ◌↔◌, IsTrue};
ghost use Rattle.fhe_params.specs.Table.{IsChoice, params_of};

use crate::params::{Gadget, GlweChoice, LweChoice, Params};
use lists::List;

/// What counts how much in a cost: a word of the switch key at each switch, a word of the boot key at each level of each
/// boot, and a word of a big ciphertext at each weight.
#[derive(Clone, Copy, Debug, PartialEq, Eq)]
pub struct CostWeights {
    pub switch: u64,
    pub boot: u64,
    pub lin: u64,
}

/// How many switches and boots a circuit has, and how many weights its weighted sums have in all.
#[derive(Clone, Copy, Debug, PartialEq, Eq)]
pub struct Counts {
    pub switches: u64,
    pub boots: u64,
    pub weights: u64,
}

/// The parameters that may be chosen, each part from a list of its own.
#[derive(Debug, Drop)]
pub struct Table {
    pub weights: CostWeights,
    pub glwe: List<GlweChoice>,
    pub lwe: List<LweChoice>,
    pub boot: List<Gadget>,
    pub switch: List<Gadget>,
}

/// A choice out of a table: the place of an entry in each of its lists. Choices are ordered by these places, that of the
/// first list first.
#[derive(Clone, Copy, Debug, PartialEq, Eq, PartialOrd, Ord)]
pub struct Choice {
    pub glwe: u32,
    pub lwe: u32,
    pub boot: u32,
    pub switch: u32,
}

impl Table {
    /// Whether there is an entry at each place of a choice.
    pub fn is_choice(&self, choice: &Choice) -> bool
        ensures { IsTrue result ↔ IsChoice self.now choice.now }
    {
        (choice.glwe as usize) < self.glwe.len()
            && (choice.lwe as usize) < self.lwe.len()
            && (choice.boot as usize) < self.boot.len()
            && (choice.switch as usize) < self.switch.len()
    }

    /// The parameters of a choice: the entries at its places.
    pub fn params(&self, choice: &Choice) -> Params
        requires { IsChoice self.now choice.now }
        ensures { result ≡ params_of self.now choice.now }
    {
        Params {
            glwe: self.glwe.as_slice()[choice.glwe as usize],
            lwe: self.lwe.as_slice()[choice.lwe as usize],
            boot: self.boot.as_slice()[choice.boot as usize],
            switch: self.switch.as_slice()[choice.switch as usize],
        }
    }
}
