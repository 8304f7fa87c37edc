//! From keys and values to values again: what `keygen`, `encrypt` and `decrypt` promise each other, and a run between.
#![tactic(auto)]

pub mod laws;
