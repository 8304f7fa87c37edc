//! The laws of GLWE ciphertexts, as a contract that a proof may call for.

ghost use Rattle.glwe_core.specs.Laws.{GlweShapeLaws, GlwePhaseLaws, GlweSizeLaws, ExtractionLaws};

/// All laws of GLWE ciphertexts under a key: the phase is linear over the polynomials, and that of an extracted
/// ciphertext under the flat key is its coefficient 0 (Chillotti et al. 2020).
#[inline]
pub fn laws()
    ensures shapes { GlweShapeLaws }
    ensures phases { GlwePhaseLaws }
    ensures sizes { GlweSizeLaws }
    ensures extraction { ExtractionLaws }
{
    word_ring::laws::laws();
    lwe_core::laws::laws();
    negacyclic::laws::laws();
}
