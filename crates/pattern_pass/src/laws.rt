//! What holds of the patterns of a program, as a contract that a proof may call for.

ghost use Rattle.pattern_pass.specs.Laws.{FormedLaws};

/// The patterns of a program compute what it computes, on the same arguments.
pub fn laws()
    ensures { FormedLaws }
{
    forms::laws::laws();
    linear_forms::laws::laws();
    live_patterns::laws::laws();
    fhe_level::laws::laws();
}
