//! What the statements of a program come to.

use linear_forms::Form;
use lists::List;

/// A look-up that a program's statements make: a form whose values begin with 0, and an entry for each of them.
#[derive(Debug, Drop)]
pub struct Look {
    pub form: Form,
    pub entries: List<i64>,
}

/// What a program's statements come to. The leaves of forms are numbered: the arguments first, and then the look-ups in
/// the order in which the statements make them, each once.
#[derive(Debug, Drop)]
pub struct Patterns {
    pub inputs: List<(i64, i64)>,
    pub looks: List<Look>,
    pub outs: List<Form>,
}
