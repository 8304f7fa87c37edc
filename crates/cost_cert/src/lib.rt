//! The certificate of a search: what was searched, which choices were refused and why, and what was chosen.
//!
//! `certificate` writes it, and `check` tells whether bytes are it, and for any two texts where they differ.
#![tactic(auto)]

mod certificate;
mod check;
pub mod laws;
mod limits;

pub use certificate::print_cert;
pub use check::{CertRefusal, check_cert, line_apart};
pub use limits::CERT_LIMIT;

#[cfg(test)]
mod tests;
