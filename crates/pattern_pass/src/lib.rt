//! From a program to its patterns.
//!
//! `pattern_walk` finds the patterns of all statements, and `live_patterns` keeps those that a result hangs on.
#![tactic(auto)]

mod forming;
pub mod laws;

pub use ap_level::{ApOp, ApProgram};
pub use forming::form;
pub use pattern_walk::{FormFault, FormRefusal};
