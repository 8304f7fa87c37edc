//! The laws of products with GGSW ciphertexts, as a contract that a proof may call for.

ghost use Rattle.ggsw_core.specs.Ggsw.{ExchangeLaws};
ghost use Rattle.ggsw_core.specs.Noise.{GgswShapeLaws, GgswNoiseLaws};

/// The noise of the external product and of CMux (worst cases, where Bergerat et al. 2023 take variances), and what an
/// exchanged row leaves.
#[inline]
pub fn laws()
    ensures shapes { GgswShapeLaws }
    ensures noise { GgswNoiseLaws }
    ensures exchange { ExchangeLaws }
{
    word_ring::laws::laws();
    negacyclic::laws::laws();
    gadget_decomp::laws::laws();
    glwe_core::laws::laws();
}
