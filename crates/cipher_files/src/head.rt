//! What a file says of its ciphertexts.

use lists::List;

/// What a file says of its ciphertexts, before their words.
#[derive(Debug, Drop)]
pub struct CipherHead {
    /// The digest of the parameters that the ciphertexts were made under.
    pub digest: [u8; 32],
    /// The number of mask words of each ciphertext, D.
    pub dim: u32,
    /// The width in bits, P.
    pub width: u32,
    /// For each ciphertext the least and the greatest number that it may stand for.
    pub ranges: List<(i64, i64)>,
}
