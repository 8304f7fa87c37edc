//! The laws of tables, as a contract that a proof may call for.

ghost use Rattle.fhe_params.specs.Laws.{TableLaws, LimitLaws};

/// All laws of tables and of limits: what is read keeps the limits, and so do the parameters of each choice.
#[inline]
pub fn laws()
    ensures tables { TableLaws }
    ensures limits { LimitLaws }
{}
