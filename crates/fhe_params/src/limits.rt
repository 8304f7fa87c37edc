//! The limits of parameters and of tables.

/// The most mask polynomials of a ciphertext of the ring.
pub const MOST_POLYNOMIALS: u64 = 3;

/// The greatest logarithm of the number of their coefficients.
pub const MOST_LOG_N: u64 = 13;

/// The greatest dimension of big ciphertexts.
pub const MOST_DIMENSION: u64 = MOST_POLYNOMIALS << MOST_LOG_N;

/// The greatest dimension of small ciphertexts.
pub const MOST_SMALL_DIMENSION: u64 = 1024;

/// The greatest size of an error of a fresh ciphertext.
pub const MOST_ERROR: u64 = (1 << 62) - 1;

/// The most bits of a digit.
pub const MOST_BASE: u64 = 31;

/// The most bits of all digits of a word.
pub const MOST_DIGIT_BITS: u64 = 63;

/// The greatest weight of a cost.
pub const MOST_WEIGHT: u64 = 1 << 20;

/// The most entries of a list of a table.
pub const MOST_ENTRIES: u64 = 12;
