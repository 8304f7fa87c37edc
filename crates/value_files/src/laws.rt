//! What holds of the values of a file, as a contract that a proof may call for.

ghost use Rattle.value_files.specs.Laws.{ValueLaws};

/// The values that are read lie in their ranges.
#[inline]
pub fn laws()
    ensures { ValueLaws }
{}
