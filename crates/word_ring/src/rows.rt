//! Arithmetic on rows of words, in place: one plain loop each, for the types that are such rows.

ghost use Rattle.std.specs.Prelude.{◌≡◌, ◌<◌, ◌*◌, All, length, map, replicate};
ghost use Rattle.word_ring.specs.Words.{IsWord, word_negation, word_difference};
ghost use Rattle.word_ring.specs.Rows.{zip_words, row_sum, row_difference, scaled_row, sum_with_scaled};

/// What a row of words is, for proofs alone.
#[inline]
pub fn known(row: &[u64])
    ensures { All IsWord row.now }
{}

/// Sets every word to 0.
#[inline]
pub fn clear(row: &mut [u64])
    ensures { row.new ≡ replicate (length row.old) 0 }
{
    for word in row.iter_mut() {
        *word = 0;
    }
}

/// Sets every word to the negation of that of `other`.
#[inline]
pub fn set_negated(row: &mut [u64], other: &[u64])
    requires { length row.old ≡ length other.now }
    ensures { row.new ≡ map word_negation other.now }
{
    for (i, word) in row.iter_mut().enumerate() {
        *word = 0u64.wrapping_sub(other[i]);
    }
}

/// Adds `other`, word by word.
#[inline]
pub fn add(row: &mut [u64], other: &[u64])
    requires { length row.old ≡ length other.now }
    ensures { row.new ≡ row_sum row.old other.now }
{
    for (i, word) in row.iter_mut().enumerate() {
        *word = word.wrapping_add(other[i]);
    }
}

/// Subtracts `other`, word by word.
#[inline]
pub fn subtract(row: &mut [u64], other: &[u64])
    requires { length row.old ≡ length other.now }
    ensures { row.new ≡ row_difference row.old other.now }
{
    for (i, word) in row.iter_mut().enumerate() {
        *word = word.wrapping_sub(other[i]);
    }
}

/// Multiplies every word by `factor`.
#[inline]
pub fn scale(row: &mut [u64], factor: u64)
    ensures { row.new ≡ scaled_row factor row.old }
{
    for word in row.iter_mut() {
        *word = factor.wrapping_mul(*word);
    }
}

/// Adds `factor` times `other`, word by word.
#[inline]
pub fn add_scaled(row: &mut [u64], other: &[u64], factor: u64)
    requires { length row.old ≡ length other.now }
    ensures { row.new ≡ sum_with_scaled row.old factor other.now }
{
    for (i, word) in row.iter_mut().enumerate() {
        *word = word.wrapping_add(factor.wrapping_mul(other[i]));
    }
}

/// Subtracts `factor` times `other`, word by word.
#[inline]
pub fn subtract_scaled(row: &mut [u64], other: &[u64], factor: u64)
    requires { length row.old ≡ length other.now }
    ensures { row.new ≡ zip_words (λ x y. word_difference x (factor * y)) row.old other.now }
{
    for (i, word) in row.iter_mut().enumerate() {
        *word = word.wrapping_sub(factor.wrapping_mul(other[i]));
    }
}
