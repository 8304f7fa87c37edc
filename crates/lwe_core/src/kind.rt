//! The two kinds of ciphertexts and keys.

/// Under which of the two keys a ciphertext is. A value of one kind is no value of the other.
pub trait Kind: Drop {}

/// Under the flat key: the coefficients of the ring key's polynomials, in a row.
#[derive(Debug, Drop)]
pub struct Big;

/// Under the small key, which a bootstrap reads.
#[derive(Debug, Drop)]
pub struct Small;

impl Kind for Big {}

impl Kind for Small {}
