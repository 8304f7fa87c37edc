//! Why a call refused: a fault of what it was given, or that memory ran out.
//!
//! A reader's definition gives a value or the first fault, as a `Result`, and knows no memory. The reader itself
//! answers a value or a [`Refusal`], and its clause is `Gives view result read`: the answer, seen by `view`, is what
//! the definition gives, unless memory ran out.
#![tactic(auto)]

mod checks;
mod refusal;

pub use checks::unless;
pub use refusal::Refusal;

#[cfg(test)]
mod tests;
