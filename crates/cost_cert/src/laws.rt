//! The laws of certificates, as a contract that a proof may call for.

ghost use Rattle.cost_cert.specs.Laws.{TextLaws, CheckLaws};

/// A certificate keeps the limit of its bytes, and the check tells the one certificate from all other bytes.
#[inline]
pub fn laws()
    ensures texts { TextLaws }
    ensures check { CheckLaws }
{
    fhe_params::laws::laws();
    param_search::laws::laws();
}
