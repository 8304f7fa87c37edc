//! The laws of the lines of a circuit text, as a contract that a proof may call for.

ghost use Rattle.circuit_lines.specs.Laws.{LineLaws, FrontLaws};

/// The lines that are read are those that the text spells, and lines that are spelled are read; each line that is read
/// stands spelled at the front of the text.
#[inline]
pub fn laws()
    ensures lines { LineLaws }
    ensures fronts { FrontLaws }
{}
