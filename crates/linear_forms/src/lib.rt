//! Forms of values: a constant and weights on numbered leaves, with their sums and multiples.
#![tactic(auto)]

mod combining;
pub mod laws;
mod linear;

pub use combining::{WideForm, combined, narrowed, size_of};
pub use linear::{Form, constant_form, copied_terms, leaf_form};

#[cfg(test)]
mod tests;
