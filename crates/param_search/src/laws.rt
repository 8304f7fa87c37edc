//! The laws of choices, as a contract that a proof may call for.

ghost use Rattle.param_search.specs.Laws.{OrderLaws, SearchLaws};

/// All choices out of a table stand in order, and the least one meets all constraints and goes before each other that
/// does.
#[inline]
pub fn laws()
    ensures order { OrderLaws }
    ensures search { SearchLaws }
{
    noise_model::laws::laws();
}
