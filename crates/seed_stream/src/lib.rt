//! The random words of a seed: for each label a stream of draws, which the seed's 32 bytes and the
//! label determine.
//!
//! `stream` has the stream and its draws, `laws` what a list of draws is.
#![tactic(auto)]

pub mod laws;
mod stream;
#[cfg(test)]
mod tests;

pub use stream::Stream;
