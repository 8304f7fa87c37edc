//! The patterns that results hang on.
//!
//! `patterns` has what the statements of a program come to, and `found` makes operations of it. Of these `live` keeps
//! the look-ups that a result hangs on, and `renumbering` numbers anew what stays, with the width that holds it.
#![tactic(auto)]

mod found;
pub mod laws;
mod live;
mod patterns;
mod renumbering;

pub use ap_level::{ApOp, ApProgram};
pub use linear_forms::Form;
pub use lists::List;
pub use patterns::{Look, Patterns};
pub use renumbering::kept;

#[cfg(test)]
mod tests;
