//! What holds of the operations of circuits, as a contract that a proof may call for.

ghost use Rattle.tfhe_level.specs.Laws.{NodeLaws};

/// Each operation has a value and a range, and its value lies in its range.
pub fn laws()
    ensures { NodeLaws }
{
    forms::laws::laws();
}
