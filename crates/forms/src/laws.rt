//! What holds of forms, as a contract that a proof may call for.

ghost use Rattle.forms.specs.Laws.{FormLaws};

/// The value of a form lies in its range, whose ends are reached.
#[inline]
pub fn laws()
    ensures { FormLaws }
{}
