//! Tests of what was given.

ghost use Rattle.std.specs.Prelude.{IsTrue, OnOk};
ghost use Rattle.refusals.specs.Reading.{Gives, unless};

use crate::refusal::Refusal;

/// Goes on where the test holds, and refuses with the fault where it fails.
#[inline]
pub fn unless<F: Drop>(test: bool, fault: F) -> Result<(), Refusal<F>>
    ensures exact { Gives (λ x. x) result (unless test fault) }
    // So the code after it may rely on the test.
    ensures held { OnOk result (IsTrue test) }
{
    if test {
        Ok(())
    } else {
        Err(Refusal::Fault(fault))
    }
}
