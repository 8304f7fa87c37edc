//! The kinds of files.

ghost use Rattle.std.specs.Prelude.{◌≡◌, ◌≤◌, ◌<◌, ◌^◌};
ghost use Rattle.sealed_files.specs.Kinds.{magic_of, header_of, is_within};

use fhe_params::{
    MOST_DIGIT_BITS, MOST_DIMENSION, MOST_LOG_N, MOST_POLYNOMIALS, MOST_SMALL_DIMENSION,
};
use forms::limits::{MOST_INPUTS, MOST_WIDTH};

/// A kind of file.
#[derive(Clone, Copy, Debug, PartialEq, Eq)]
pub enum FileKind {
    /// The two secret keys.
    Secret,
    /// The evaluation keys: a switch key and a boot key.
    Eval,
    /// Ciphertexts, with the ranges of what they stand for.
    Cipher,
}

/// A field of a header: the least and the greatest number that may stand there.
#[derive(Clone, Copy, Debug, PartialEq, Eq)]
pub struct HeaderField {
    pub least: u64,
    pub most: u64,
}

/// The dimension of small ciphertexts, n.
const SMALL_DIMENSION: HeaderField = HeaderField {
    least: 1,
    most: MOST_SMALL_DIMENSION,
};

/// The dimension of big ciphertexts, D.
const BIG_DIMENSION: HeaderField = HeaderField {
    least: 1,
    most: MOST_DIMENSION,
};

/// The mask polynomials of a ciphertext of the ring, k.
const POLYNOMIALS: HeaderField = HeaderField {
    least: 1,
    most: MOST_POLYNOMIALS,
};

/// The logarithm of the number of their coefficients, log_n.
const LOG_DEGREE: HeaderField = HeaderField {
    least: 1,
    most: MOST_LOG_N,
};

/// The digits of a word.
const LEVEL: HeaderField = HeaderField {
    least: 1,
    most: MOST_DIGIT_BITS,
};

/// The bits of a message, P.
const WIDTH: HeaderField = HeaderField {
    least: 1,
    most: MOST_WIDTH as u64,
};

/// The ciphertexts of a file, m.
const CIPHERTEXTS: HeaderField = HeaderField {
    least: 0,
    most: MOST_INPUTS as u64,
};

static SECRET_HEADER: [HeaderField; 2] = [SMALL_DIMENSION, BIG_DIMENSION];

static EVAL_HEADER: [HeaderField; 5] = [POLYNOMIALS, LOG_DEGREE, SMALL_DIMENSION, LEVEL, LEVEL];

static CIPHER_HEADER: [HeaderField; 3] = [BIG_DIMENSION, WIDTH, CIPHERTEXTS];

/// The first bytes of a file of this kind.
pub(crate) fn magic_of(kind: FileKind) -> &'static [u8]
    ensures { result.now ≡ magic_of kind }
{
    match kind {
        FileKind::Secret => b"FHECSEC1",
        FileKind::Eval => b"FHECEVL1",
        FileKind::Cipher => b"FHECCIP1",
    }
}

/// The fields of the header of a file of this kind, in order.
pub fn header_of(kind: FileKind) -> &'static [HeaderField]
    ensures { result.now ≡ header_of kind }
{
    match kind {
        FileKind::Secret => &SECRET_HEADER,
        FileKind::Eval => &EVAL_HEADER,
        FileKind::Cipher => &CIPHER_HEADER,
    }
}

/// Whether a number is within the limits of a field.
pub(crate) fn is_within(field: &HeaderField, number: u64) -> bool
    ensures { result ≡ is_within field.now number }
{
    field.least <= number && number <= field.most
}
