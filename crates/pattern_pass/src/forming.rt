//! The patterns that results hang on.

ghost use Rattle.std.specs.Prelude.{◌≡◌, IfOk};
ghost use Rattle.refusals.specs.Reading.{Gives};
ghost use Rattle.ap_level.specs.Patterns.{patterns_of};
ghost use Rattle.ap_level.specs.Rules.{IsApProgram};
ghost use Rattle.fhe_level.specs.Checked.{IsChecked};
ghost use Rattle.pattern_pass.specs.Formed.{formed};

use ap_level::ApProgram;
use fhe_level::Program;
use live_patterns::kept;
use pattern_walk::{FormRefusal, patterns_found};
use std::alloc::Global;

/// The patterns that the results of a program hang on, with the least width that holds them.
///
/// The statements are taken in the order of the text, constants too. The first fault is the answer: for each statement
/// first that a number of its form is above 2^40 in size, then that the forms of the statements up to and with this one
/// have more than 2^20 weights, then that the values of its form do not lie in its type. Patterns that no result hangs on
/// are dropped after all checks.
pub fn form(alloc: Global, program: &Program) -> Result<ApProgram, FormRefusal>
    requires { IsChecked program.now }
    ensures patterns { Gives patterns_of result (formed program.now) }
    ensures rules { IfOk result IsApProgram }
{
    linear_forms::laws::laws();
    forms::laws::laws();
    let patterns = patterns_found(alloc, program)?;
    Ok(kept(alloc, patterns)?)
}
