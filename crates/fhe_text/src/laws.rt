//! The laws of program texts, as a contract that a proof may call for. The call does nothing.

ghost use Rattle.fhe_text.specs.Laws.{TextLaws, PrintLaws};

/// All laws of program texts: the source or the fault that is read of any bytes is the one that the grammar gives, and
/// what is printed of a source is read back as that source.
#[inline]
pub fn laws()
    ensures texts { TextLaws }
    ensures printing { PrintLaws }
{
    mlir_lex::laws::laws();
}
