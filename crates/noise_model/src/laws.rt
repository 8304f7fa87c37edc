//! The laws of constraints, as a contract that a proof may call for.

ghost use Rattle.noise_model.specs.Laws.{ConstraintLaws};

/// No constraint is broken exactly where all are met.
#[inline]
pub fn laws()
    ensures { ConstraintLaws }
{}
