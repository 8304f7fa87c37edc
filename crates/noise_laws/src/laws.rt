//! That the noise of parameters is that of operations, as a contract that a proof may call for.

ghost use Rattle.noise_laws.specs.Laws.{NoiseLaws, ConstraintLaws};

/// What a circuit's bounds count for a key switch and a bootstrap is what these add (worst cases, where Bergerat et
/// al. 2023 take variances), and a constraint that is met is the premise of looking up.
#[inline]
pub fn laws()
    ensures noise { NoiseLaws }
    ensures constraints { ConstraintLaws }
{}
