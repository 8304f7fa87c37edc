//! Why an answer comes, as a contract that a proof may call for.

ghost use Rattle.command_forms.specs.Laws.{AnswerLaws};

/// What follows from what a command may leave: the causes of its answers.
#[inline]
pub fn laws()
    ensures { AnswerLaws }
{}
