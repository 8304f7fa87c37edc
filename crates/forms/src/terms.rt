//! Terms that are put on other leaves.

ghost use Rattle.std.specs.Prelude.{◌≡◌, ◌<◌, length, slice_set};
ghost use Rattle.forms.specs.Terms.{leaves_of, terms_on};

use lists::List;

/// Puts the term at a place on another leaf. Its weight and all other terms stay.
pub fn set_leaf(terms: &mut List<(u32, i64)>, at: usize, leaf: u32)
    requires { at < length terms.old }
    ensures { terms.new ≡ terms_on terms.old (slice_set (leaves_of terms.old) at leaf) }
{
    let weight = terms.as_slice()[at].1;
    terms.set(at, (leaf, weight));
}
