//! The laws of bootstraps, as a contract that a proof may call for.

ghost use Rattle.blind_rotate.specs.Laws.{KeyPolynomialLaws, FittingLaws, SwitchedPhaseLaws, AccumulatorLaws, BootstrapLaws, ExchangeLaws};

/// What a bootstrap does to phases, for all keys that fit: what switching to 2N places leaves of a phase, what each
/// step adds to the accumulator's noise, and what the result stands for (Chillotti et al. 2020; worst cases, where
/// Bergerat et al. 2023 take variances).
#[inline]
pub fn laws()
    ensures keys { KeyPolynomialLaws }
    ensures fitting { FittingLaws }
    ensures switched { SwitchedPhaseLaws }
    ensures accumulator { AccumulatorLaws }
    ensures bootstraps { BootstrapLaws }
    ensures exchange { ExchangeLaws }
{
    word_ring::laws::laws();
    lwe_core::laws::laws();
    negacyclic::laws::laws();
    glwe_core::laws::laws();
    ggsw_core::laws::laws();
    lut_encode::laws::laws();
}
