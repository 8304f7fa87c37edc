//! The laws of ciphertexts, as a contract that a proof may call for.

ghost use Rattle.lwe_core.specs.Laws.{PhaseLaws, PhaseSizeLaws, OnesLaws, DecodingLaws, NoiseLaws};

/// All laws of ciphertexts under a key. The phase is linear (Chillotti et al. 2020), and the bounds on noise are
/// worst cases, where Bergerat et al. 2023 take variances.
#[inline]
pub fn laws()
    ensures phases { PhaseLaws }
    ensures sizes { PhaseSizeLaws }
    ensures ones { OnesLaws }
    ensures decoding { DecodingLaws }
    ensures noise { NoiseLaws }
{
    word_ring::laws::laws();
}
