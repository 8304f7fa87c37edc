//! What holds of the heads of files of ciphertexts, as a contract that a proof may call for.

ghost use Rattle.circuit_heads.specs.Laws.{HeadLaws};

/// The ranges of outs are theirs among those of all operations, and the files of inputs and of outputs keep their limits.
#[inline]
pub fn laws()
    ensures { HeadLaws }
{}
