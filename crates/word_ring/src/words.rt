//! Arithmetic on words, modulo 2^64.

ghost use Rattle.std.specs.Prelude.{◌≡◌};
ghost use Rattle.word_ring.specs.Words.{word_sum, word_difference, word_product, word_negation, centred as centred_of};
ghost use Rattle.word_ring.specs.Signed.{word_of as word_of_number};

/// The sum modulo 2^64.
#[inline]
pub fn wadd(a: u64, b: u64) -> u64
    ensures { result ≡ word_sum a b }
{
    a.wrapping_add(b)
}

/// The difference modulo 2^64.
#[inline]
pub fn wsub(a: u64, b: u64) -> u64
    ensures { result ≡ word_difference a b }
{
    a.wrapping_sub(b)
}

/// The product modulo 2^64.
#[inline]
pub fn wmul(a: u64, b: u64) -> u64
    ensures { result ≡ word_product a b }
{
    a.wrapping_mul(b)
}

/// The negation modulo 2^64.
#[inline]
pub fn wneg(a: u64) -> u64
    ensures { result ≡ word_negation a }
{
    0u64.wrapping_sub(a)
}

/// The number congruent to `w` in [-2^63, 2^63).
#[inline]
pub fn centred(w: u64) -> i64
    ensures { result ≡ centred_of w }
{
    w.cast_signed()
}

/// The word that is congruent to a signed number.
#[inline]
pub fn word_of(number: i64) -> u64
    ensures { result ≡ word_of_number number }
{
    number.cast_unsigned()
}
