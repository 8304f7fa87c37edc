//! How many bytes the parts of files have.

/// A file that is no text has at most so many bytes.
pub const FILE_LIMIT: u64 = 1 << 29;

/// The bytes of the magic.
pub const MAGIC_SIZE: usize = 8;

/// Where the words begin, right behind the magic and the digest.
pub const WORDS_PLACE: usize = 40;

/// The bytes of a word.
pub const WORD_SIZE: usize = 8;

/// The bytes of the seal.
pub const SEAL_SIZE: usize = 32;
