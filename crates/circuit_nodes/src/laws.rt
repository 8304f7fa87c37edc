//! What holds of the lines of a circuit's nodes, as a contract that a proof may call for.

ghost use Rattle.circuit_nodes.specs.Laws.{LineLaws, WidthLaws};

/// One walk over the lines finds the first that breaks its rule, and where none does, the rules of circuits are kept; the
/// test of the least width is its rule.
#[inline]
pub fn laws()
    ensures lines { LineLaws }
    ensures width { WidthLaws }
{}
