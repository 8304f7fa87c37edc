//! The four commands in a row: keys, inputs, a run and its values, out of files that one after the other wrote.
#![tactic(auto)]

pub mod laws;
