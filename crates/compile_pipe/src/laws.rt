//! What holds of what a program comes to, as a contract that a proof may call for.

ghost use Rattle.compile_pipe.specs.Laws.{CompileLaws};

/// The circuit of the least choice keeps all rules, and the circuit of a program computes what the program computes, on the same arguments.
pub fn laws()
    ensures { CompileLaws }
{
    pattern_pass::laws::laws();
    place_pass::laws::laws();
    fhe_level::laws::checked();
    fhe_text::laws::laws();
    fhe_params::laws::laws();
    param_search::laws::laws();
}
