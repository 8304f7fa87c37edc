//! From the text of a program to its printed values: the five commands in a row, out of files that one after the other
//! wrote.
#![tactic(auto)]

pub mod laws;
