//! What the ciphertexts of a circuit's nodes stand for, as a contract that a proof may call for.

ghost use Rattle.circuit_run.specs.Laws.{RowLaws, NoiseLaws};

/// For each secret key that the evaluation keys fit, all values in the input ranges and all inputs that stand for them
/// within the error of fresh ciphertexts, each node stands for its value within its bound, and each output decodes to
/// its value (worst cases, where Bergerat et al. 2023 take variances).
#[inline]
pub fn laws()
    ensures rows { RowLaws }
    ensures noise { NoiseLaws }
{
    word_ring::laws::laws();
    lwe_core::laws::laws();
    key_switch::laws::laws();
    blind_rotate::laws::laws();
    forms::laws::laws();
    tfhe_level::laws::laws();
    noise_laws::laws::laws();
}
