//! Sealed files: the one form of the files of secret keys, of evaluation keys and of ciphertexts.
//!
//! A file is its magic, 8 bytes; the digest of the parameters, 32 bytes; words of eight bytes each, the lowest first;
//! and the seal, which is the SHA-256 of all bytes before it, 32 bytes. The first words are the header, whose fields
//! keep their limits and say how many words stand behind them. The places of words are counted from 0 behind the digest.
//!
//! `kinds` has the three kinds, `reader` checks a file and gives its words, `printing` spells one, and `matching`
//! compares what a file says with what it is used with.
#![tactic(auto)]

mod fault;
mod kinds;
pub mod laws;
mod limits;
mod matching;
mod printing;
mod reader;

pub use fault::{FileFault, FileRefusal};
pub use kinds::{FileKind, HeaderField, header_of};
pub use limits::FILE_LIMIT;
pub use matching::{padded, same_digest, same_word};
pub use printing::{begin, put_word, put_words, seal};
pub use reader::{check_file, digest_in, word_at};

#[cfg(test)]
mod tests;
