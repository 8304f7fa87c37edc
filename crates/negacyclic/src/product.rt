//! The product and the rotation on slices, by their plain sums.

ghost use Rattle.std.specs.Prelude.{◌≡◌, ◌<◌, ◌*◌, length};
ghost use Rattle.word_ring.specs.Rows.{row_sum, sum_with_scaled};
ghost use Rattle.negacyclic.specs.Product.{negacyclic_product, rotation};

use word_ring::rows;

/// Adds the product of `a` and `b`: the sum over i of `a[i]` times X^i times `b`.
pub fn add_product(into: &mut [u64], a: &[u64], b: &[u64])
    requires first { length a.now ≡ length into.old }
    requires second { length b.now ≡ length into.old }
    ensures { into.new ≡ row_sum into.old (negacyclic_product a.now b.now) }
{
    rows::known(into);
    word_ring::laws::laws();
    for (i, factor) in a.iter().enumerate() {
        add_rotated(into, b, i, *factor);
    }
}

/// Adds `factor` times X^by times `b`: the coefficients that go past the end come in at the front with the
/// other sign.
#[inline]
fn add_rotated(into: &mut [u64], b: &[u64], by: usize, factor: u64)
    requires one_length { length b.now ≡ length into.old }
    requires below { by < length into.old }
    ensures { into.new ≡ sum_with_scaled into.old factor (rotation by b.now) }
{
    word_ring::laws::laws();
    let (front, back) = into.split_at_mut(by);
    let (kept, wrapped) = b.split_at(b.len() - by);
    rows::add_scaled(back, kept, factor);
    rows::subtract_scaled(front, wrapped, factor);
}

/// Sets `into` to X^by times `a`.
#[tactic(auto, using(crate::proofs::Rotations::rotation_below, crate::proofs::Rotations::rotation_from))]
pub fn rotate(into: &mut [u64], a: &[u64], by: usize)
    requires one_length { length a.now ≡ length into.old }
    requires below { by < 2 * length into.old }
    ensures { into.new ≡ rotation by a.now }
{
    rows::known(a);
    let n = a.len();
    if by < n {
        let (front, back) = into.split_at_mut(by);
        let (kept, wrapped) = a.split_at(n - by);
        back.copy_from_slice(kept);
        rows::set_negated(front, wrapped);
    } else {
        let (front, back) = into.split_at_mut(by - n);
        let (wrapped, kept) = a.split_at(2 * n - by);
        rows::set_negated(back, wrapped);
        front.copy_from_slice(kept);
    }
}
