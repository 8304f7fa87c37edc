//! Running a circuit on ciphertexts, with key switches and bootstraps, and what its nodes stand for then.
//!
//! `room` has the room that a circuit is run in, `node` the ciphertext of a weighted sum, `step` one operation, `run` all
//! of them, and `out_rows` gives copies of those of the outs; `laws` promises what they decrypt to. A run itself takes no
//! memory.
#![tactic(auto)]

pub mod laws;
mod node;
mod out_rows;
mod room;
mod run;
mod step;
#[cfg(test)]
mod tests;

pub use out_rows::outputs;
pub use room::RunRoom;
pub use run::{evaluate, input_count};
