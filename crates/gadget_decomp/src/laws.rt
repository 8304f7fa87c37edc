//! The laws of digits, as contracts that a proof may call for.

ghost use Rattle.gadget_decomp.specs.Laws.{DecompositionLaws, DigitLaws, PolynomialDigitLaws};

/// All laws of the crate: of the one decomposition, of the digits of words, and of those of polynomials.
#[inline]
pub fn laws()
    ensures decomposition { DecompositionLaws }
    ensures digits { DigitLaws }
    ensures polynomials { PolynomialDigitLaws }
{
    word_ring::laws::laws();
}
