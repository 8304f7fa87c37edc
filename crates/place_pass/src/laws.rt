//! What holds of the circuit of patterns, as a contract that a proof may call for.

ghost use Rattle.place_pass.specs.Laws.{PlaceLaws};

/// The circuit of patterns computes what they compute, has their arguments as its inputs, and keeps the rules of circuits
/// at the width of the patterns.
pub fn laws()
    ensures { PlaceLaws }
{}
