//! What holds of live patterns, as a contract that a proof may call for.

ghost use Rattle.live_patterns.specs.Laws.{LiveLaws};

/// Live patterns have the arguments and the values of all patterns that were found, and keep the rules of patterns.
#[inline]
pub fn laws()
    ensures { LiveLaws }
{}
