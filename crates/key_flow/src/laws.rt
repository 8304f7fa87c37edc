//! What the commands on keys are for, as a contract that a proof may call for.

ghost use Rattle.key_flow.specs.Laws.{KeyCommandLaws};

/// Keys that are written fit, inputs stand for their values, and what a run gives is decrypted to the circuit's values.
#[inline]
pub fn laws()
    ensures { KeyCommandLaws }
{
    key_gen::laws::laws();
    circuit_run::laws::laws();
    sealed_files::laws::laws();
    circuit_heads::laws::laws();
}
