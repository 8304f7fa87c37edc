//! The laws of switching, as a contract that a proof may call for.

ghost use Rattle.key_switch.specs.Laws.{SwitchLaws, ExchangeLaws};

/// How far a switch moves a phase (worst cases, where Bergerat et al. 2023 take variances), and what an exchanged row
/// leaves.
#[inline]
pub fn laws()
    ensures switching { SwitchLaws }
    ensures exchange { ExchangeLaws }
{
    word_ring::laws::laws();
    gadget_decomp::laws::laws();
    lwe_core::laws::laws();
}
