//! Why a file is refused.

use refusals::Refusal;

/// Why a file was not read.
pub type FileRefusal = Refusal<FileFault>;

/// What is wrong with the bytes of a file, or with what it is used with.
#[derive(Clone, Copy, Debug, PartialEq, Eq)]
pub enum FileFault {
    /// It does not begin with the magic of its kind.
    Magic,
    /// It has `have` bytes: fewer than the least that a file of its kind has, or other than its header says.
    Length { want: u64, have: u64 },
    /// Its last 32 bytes are not the SHA-256 of those before them.
    Digest,
    /// The word at this place, counted from 0 behind the digest of the parameters, is outside its limits.
    Field { place: u32 },
    /// What it is used with has `left` where the file has `right`: a digest, or a word and zeros.
    Mismatch { left: [u8; 32], right: [u8; 32] },
}
