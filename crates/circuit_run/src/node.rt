//! Ciphertexts that are copied, and weighted sums of ciphertexts.

ghost use Rattle.std.specs.Prelude.{◌≡◌, ◌+◌, ◌<◌, ◌≤◌, length, take, slice_set, All};
ghost use Rattle.word_ring.specs.Signed.{word_of as word_of_number};
ghost use Rattle.word_ring.specs.Rows.{sum_with_scaled};
ghost use Rattle.circuit_run.specs.Running.{row_at, weighted_row, lin_row};

use lwe_core::{Big, Lwe, encode};
use word_ring::{Lin, wadd, word_of};

/// Sets `out` to the words of another ciphertext of its dimension.
pub(crate) fn copy_into(out: &mut Lwe<Big>, c: &Lwe<Big>)
    requires { length c.now ≡ length out.old }
    ensures { out.new ≡ c.now }
{
    word_ring::laws::laws();
    c.known();
    out.zero_assign();
    out.add_assign(c);
}

/// Adds a term: its weight times its operand, word by word.
fn add_term(out: &mut Lwe<Big>, term: (u32, i64), earlier: &[Lwe<Big>])
    requires there { term.0 < length earlier.now }
    requires fits { length (row_at earlier.now term.0) ≡ length out.old }
    ensures words { out.new ≡ sum_with_scaled out.old (word_of_number term.1) (row_at earlier.now term.0) }
    ensures length { length out.new ≡ length out.old }
{
    let (operand, weight) = term;
    out.add_scaled(&earlier[operand as usize], word_of(weight));
}

/// Sets `out` to the sum of weights times operands.
fn weighted_into(out: &mut Lwe<Big>, terms: &[(u32, i64)], earlier: &[Lwe<Big>])
    requires there { All (λ t. t.0 < length earlier.now) terms.now }
    requires fit { All (λ t. length (row_at earlier.now t.0) ≡ length out.old) terms.now }
    ensures words { out.new ≡ weighted_row (length out.old) terms.now earlier.now }
    ensures length { length out.new ≡ length out.old }
{
    word_ring::laws::laws();
    out.zero_assign();
    for term in terms {
        add_term(out, *term, earlier);
    }
}

/// Sets `out`, of a mask of `dim` words, to a constant and the sum of weights times operands, word by word modulo 2^64
/// (Chillotti et al. 2020, linear combinations of samples). The constant goes to its place in the body.
#[tactic(auto, unfolding(crate::specs::Running::lin_row))]
fn lin_into(
    out: &mut Lwe<Big>,
    dim: usize,
    width: u32,
    constant: i64,
    terms: &[(u32, i64)],
    earlier: &[Lwe<Big>],
)
    requires dim { length out.old ≡ dim + 1 }
    requires width { width ≤ 16 }
    requires there { All (λ t. t.0 < length earlier.now) terms.now }
    requires fit { All (λ t. length (row_at earlier.now t.0) ≡ dim + 1) terms.now }
    ensures words { out.new ≡ lin_row dim width constant terms.now earlier.now }
    ensures length { length out.new ≡ length out.old }
{
    weighted_into(out, terms, earlier);
    let body = wadd(out.word(dim), encode(constant, width));
    out.set(dim, body);
}

/// Sets the ciphertext at a place to the words of an earlier one.
#[tactic(auto, using(crate::proofs::RoomRows::set_in_rest, crate::proofs::RoomRows::read_before))]
pub(crate) fn copy_at(rows: &mut [Lwe<Big>], place: usize, source: usize)
    requires there { place < length rows.old }
    requires earlier { source < place }
    requires fits { length (row_at rows.old source) ≡ length (row_at rows.old place) }
    ensures { rows.new ≡ slice_set rows.old place (row_at rows.old source) }
{
    let (earlier, rest) = rows.split_at_mut(place);
    copy_into(&mut rest[0], &earlier[source]);
}

/// Sets the ciphertext at a place to a weighted sum of earlier ones.
#[tactic(auto, using(crate::proofs::RoomRows::set_in_rest, crate::proofs::RoomRows::read_before))]
pub(crate) fn lin_at(
    rows: &mut [Lwe<Big>],
    place: usize,
    dim: usize,
    width: u32,
    constant: i64,
    terms: &[(u32, i64)],
)
    requires there { place < length rows.old }
    requires width { width ≤ 16 }
    requires dim { length (row_at rows.old place) ≡ dim + 1 }
    requires earlier { All (λ t. t.0 < place) terms.now }
    requires fit { All (λ t. length (row_at rows.old t.0) ≡ dim + 1) terms.now }
    ensures { rows.new ≡ slice_set rows.old place (lin_row dim width constant terms.now (take place rows.old)) }
{
    let (earlier, rest) = rows.split_at_mut(place);
    lin_into(&mut rest[0], dim, width, constant, terms, earlier);
}
