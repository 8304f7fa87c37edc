//! Keys from a seed: the secret keys, the evaluation keys and fresh ciphertexts, each word the draw at its place.
//!
//! `rows` draws one ciphertext, `glwe_rows` one of polynomials, `secret` the bits of secret keys, `switch` the rows of
//! a switch key and `boot` those of a boot key; `messages` has what rows stand for, and `laws` promises that what is
//! drawn fits.
#![tactic(auto)]

mod boot;
mod glwe_rows;
pub mod laws;
mod messages;
mod rows;
mod secret;
mod switch;
#[cfg(test)]
mod tests;

pub use boot::make_boot_key;
pub use rows::encrypt_into;
pub use secret::make_secret;
pub use switch::make_switch_key;
