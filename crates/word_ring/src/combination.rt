//! Weighted sums.

ghost use Rattle.std.specs.Prelude.{◌≡◌, ◌<◌, ℕ, All, length, slice_get, IfSome};
ghost use Rattle.word_ring.specs.Rows.{combined, rows_at};

use crate::lin::Lin;

/// Adds to `into` the sum over each index j of `weights[j] * values[places[j]]`, in place.
///
/// This is the linear part of a key switch and of an external product (Chillotti et al. 2020): the
/// digits of a decomposition are the weights, and the rows of a key the values.
pub fn combine<T: Lin>(into: &mut T, weights: &[u64], places: &[usize], values: &[T])
    requires one_weight_each { length weights.now ≡ length places.now }
    requires in_range { All (λ place. place < length values.now) places.now }
    requires fitting { All (λ place.
        IfSome (slice_get values.now place) (λ value. T.shape value ≡ T.shape into.old)) places.now }
    ensures shape { T.shape into.new ≡ T.shape into.old }
    ensures words { T.words into.new ≡ combined (T.words into.old) weights.now (rows_at T.words values.now places.now) }
{
    into.known();
    for (weight, place) in weights.iter().zip(places.iter()) {
        let value = &values[*place];
        value.known();
        into.add_scaled(value, *weight);
    }
}
