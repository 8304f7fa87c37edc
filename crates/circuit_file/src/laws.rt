//! The laws of circuits and of their texts, as a contract that a proof may call for.

ghost use Rattle.circuit_file.specs.Laws.{CircuitTextLaws};

/// The texts that are read are the circuit texts, and each is read as its circuit.
#[inline]
pub fn laws()
    ensures { CircuitTextLaws }
{
    fhe_params::laws::laws();
    forms::laws::laws();
    tfhe_level::laws::laws();
    noise_model::laws::laws();
    circuit_lines::laws::laws();
    circuit_nodes::laws::laws();
}
