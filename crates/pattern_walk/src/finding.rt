//! The patterns of a program.

ghost use Rattle.std.specs.Prelude.{◌≡◌};
ghost use Rattle.refusals.specs.Reading.{Gives};
ghost use Rattle.fhe_level.specs.Checked.{IsChecked};
ghost use Rattle.pattern_walk.specs.Walking.{patterns_found};

use crate::fault::FormRefusal;
use crate::walk::walked;
use fhe_level::Program;
use live_patterns::Patterns;
use std::alloc::Global;

/// The patterns that the statements of a program make, in the order of the text, each once, and the forms of its results.
///
/// The statements are taken in the order of the text, constants too. The first fault is the answer: for each statement
/// first that a number of its form is above 2^40 in size, then that the forms of the statements up to and with this one
/// have more than 2^20 weights, then that the values of its form do not lie in its type.
pub fn patterns_found(alloc: Global, program: &Program) -> Result<Patterns, FormRefusal>
    requires { IsChecked program.now }
    ensures { Gives (λ patterns. patterns) result (patterns_found program.now) }
{
    let walk = walked(alloc, program)?;
    Ok(walk.into_patterns(alloc, program)?)
}
