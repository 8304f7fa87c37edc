//! The range of a form: the least and the greatest value that a constant and weighted leaves take where each leaf takes
//! any value of its own range.
#![tactic(auto)]

ghost use Rattle.std.specs.Prelude.{◌≡◌, ◌*◌, ◌≤◌, ◌↔◌, length, All, IsTrue, pos, ◌*ℤ◌, int_lt, unsigned_abs, if◌then◌else◌};
ghost use Rattle.forms.specs.Forms.{least_of_term, greatest_of_term, form_range};
ghost use Rattle.forms.specs.Limits.{most_weight};
ghost use Rattle.forms.specs.Ranges.{range_of_entries};
ghost use Rattle.range_pass.specs.Bounds.{most_end, IsSmallRange, IsSmallTerm, AreSmall, IsWide};

use forms::limits::MOST_WEIGHT;

#[cfg(test)]
mod tests;

/// The most terms of a form.
pub const MOST_TERMS: usize = 4096;

/// The greatest size of an end of a leaf's range.
pub const MOST_END: u64 = 1 << 16;

/// Whether a term is on one of so many leaves, with a weight within its size.
fn is_small_term(term: (u32, i64), leaves: usize) -> bool
    ensures { IsTrue result ↔ IsSmallTerm leaves term }
{
    (term.0 as usize) < leaves && term.1.unsigned_abs() <= MOST_WEIGHT
}

/// Whether the ends of a range are within their size.
fn is_small_range(range: (i64, i64)) -> bool
    ensures { IsTrue result ↔ IsSmallRange range }
{
    range.0.unsigned_abs() <= MOST_END && range.1.unsigned_abs() <= MOST_END
}

/// Whether the terms are few, each on one of the leaves, and all numbers within their sizes: then `range_of` may be
/// called.
pub fn are_small(terms: &[(u32, i64)], ranges: &[(i64, i64)]) -> bool
    ensures { IsTrue result ↔ AreSmall terms.now ranges.now }
{
    terms.len() <= MOST_TERMS
        && terms.iter().all(|term| is_small_term(*term, ranges.len()))
        && ranges.iter().all(|range| is_small_range(*range))
}

/// The least and the greatest value of a term: its weight times an end of its leaf's range. For a weight below 0 the
/// leaf's greatest number gives the term's least.
#[tactic(auto, using(crate::proofs::Products::product_fits, crate::proofs::Products::product_small))]
fn ends_of_term(weight: i64, range: (i64, i64)) -> (i64, i64)
    requires weight { unsigned_abs weight ≤ most_weight }
    requires range { IsSmallRange range }
    ensures least { result.0 ≡ weight *ℤ (if int_lt weight (pos 0) then range.1 else range.0) }
    ensures greatest { result.1 ≡ weight *ℤ (if int_lt weight (pos 0) then range.0 else range.1) }
    ensures least_size { unsigned_abs result.0 ≤ most_weight * most_end }
    ensures greatest_size { unsigned_abs result.1 ≤ most_weight * most_end }
{
    let (lo, hi) = range;
    if weight < 0 {
        (weight * hi, weight * lo)
    } else {
        (weight * lo, weight * hi)
    }
}

/// The least and the greatest value of a term on leaves of these ranges.
fn range_of_term(term: (u32, i64), ranges: &[(i64, i64)]) -> (i64, i64)
    requires term { IsSmallTerm (length ranges.now) term }
    requires ranges { All IsSmallRange ranges.now }
    ensures least { result.0 ≡ least_of_term ranges.now term }
    ensures greatest { result.1 ≡ greatest_of_term ranges.now term }
    ensures least_size { unsigned_abs result.0 ≤ most_weight * most_end }
    ensures greatest_size { unsigned_abs result.1 ≤ most_weight * most_end }
{
    let (leaf, weight) = term;
    ends_of_term(weight, ranges[leaf as usize])
}

/// The range of a form: its constant, and for each term the weight times the end of its leaf's range that the weight's
/// sign calls for. A term is the number of a leaf and its weight; a range is its least and its greatest number, and the
/// number of a leaf is the place of its range.
pub fn range_of(constant: i64, terms: &[(u32, i64)], ranges: &[(i64, i64)]) -> (i128, i128)
    requires { AreSmall terms.now ranges.now }
    ensures range { result ≡ form_range constant terms.now ranges.now }
    // So the ends may be subtracted from each other.
    ensures wide { IsWide result }
{
    let mut least = i128::from(constant);
    let mut greatest = i128::from(constant);
    for term in terms {
        let (at_least, at_most) = range_of_term(*term, ranges);
        least += i128::from(at_least);
        greatest += i128::from(at_most);
    }
    (least, greatest)
}

/// From the least to the greatest of the entries of a table, and 0 alone where there are none.
pub fn range_of_entries(entries: &[i64]) -> (i64, i64)
    ensures { result ≡ range_of_entries entries.now }
{
    let Some((first, others)) = entries.split_first() else {
        return (0, 0);
    };
    let mut least = *first;
    let mut greatest = *first;
    for entry in others {
        least = least.min(*entry);
        greatest = greatest.max(*entry);
    }
    (least, greatest)
}
