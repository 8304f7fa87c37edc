//! What holds of sums and multiples of forms, as a contract that a proof may call for.

ghost use Rattle.linear_forms.specs.Laws.{SumLaws};

/// The value of a sum of multiples is that sum of the values, and nothing hangs on leaves that are added.
#[inline]
pub fn laws()
    ensures { SumLaws }
{}
