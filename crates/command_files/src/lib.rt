//! The files that commands read, a step each: a circuit, evaluation keys, secret keys, ciphertexts, values.
//!
//! A step reads one whole file under its limit of bytes, and then what it holds. Its statement says what it answers and
//! leaves over every store (`ReadsAs`), and its definition is the reading of the bytes after that of the file.
#![tactic(auto)]

mod cipher;
mod circuit;
mod eval;
mod secret;
mod values;

pub use cipher::cipher_from;
pub use circuit::{CIRCUIT_LIMIT, circuit_from};
pub use eval::{eval_from, fits_eval};
pub use secret::secret_from;
pub use values::values_from;
