//! What holds of the values of operations, as a contract that a proof may call for.

ghost use Rattle.fhe_level.specs.Laws.{ValueLaws, CheckLaws};

use crate::FheLevel;

/// The value of an operation comes from the values of its operands, wherever it stands in the graph.
#[inline]
pub fn laws()
    ensures { ValueLaws }
{}

/// The program of a source that has a text, is within the limits and keeps the checks of types is as its types ask, and
/// within the limits of programs.
#[inline]
pub fn checked()
    ensures { CheckLaws }
{
    ir_core::laws::laws::<FheLevel>();
}
