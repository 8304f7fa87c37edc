//! The files of secret keys, of evaluation keys and of ciphertexts: reading them, writing them, and comparing what they
//! say with what they are used with.
//!
//! Each is a sealed file (`sealed_files`): the magic of its kind, the digest of the parameters, words, and a seal. The
//! words of a secret file are n, D, and the bits of the small key and of the big one; those of an evaluation file k,
//! log_n, n and two levels, then the rows of the switch key and those of the boot key; those of a ciphertext file D, P,
//! m, then m ranges and m ciphertexts.
#![tactic(auto)]

mod cipher;
mod eval;
mod head;
pub mod laws;
mod matching;
mod rows;
mod secret;

pub use cipher::{print_cipher, read_cipher};
pub use eval::{print_eval, read_eval};
pub use head::CipherHead;
pub use matching::{head_fits, key_fits, secret_fits};
pub use sealed_files::{FILE_LIMIT, FileFault, FileKind, FileRefusal};
pub use secret::{print_secret, read_secret};

#[cfg(test)]
mod tests;
