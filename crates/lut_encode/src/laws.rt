//! The laws of test polynomials, as a contract that a proof may call for.

ghost use Rattle.lut_encode.specs.Laws.{LookupLaws};

/// What a rotation brings to coefficient 0 of a test polynomial (Chillotti et al. 2020, programmable bootstrapping).
#[inline]
pub fn laws()
    ensures lookups { LookupLaws }
{
    word_ring::laws::laws();
    negacyclic::laws::laws();
}
