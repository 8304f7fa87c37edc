//! Sums and multiples of forms.

ghost use Rattle.std.specs.Prelude.{◌≡◌, ℕ, ◌+◌, ◌^◌, ◌<◌, ◌≤◌, ◌++◌, [], length, drop, IfOk, IfSome, IfNone, ◌+ℤ◌, ◌*ℤ◌, unsigned_abs};
ghost use Rattle.forms.specs.Forms.{AreRising};
ghost use Rattle.forms.specs.Limits.{most_weight};
ghost use Rattle.linear_forms.specs.Forms.{weight_on, term_on, weighted, weights_of, terms_of, combined, size_of};
ghost use Rattle.linear_forms.specs.Sound.{AreBelow, AreSmallWeights, IsSmallForm};
ghost use Rattle.linear_forms.specs.Merging.{is_at, place_past, IsFirst, IsLeast, form_in};

use crate::linear::Form;
use lists::List;
use std::alloc::{AllocError, Global};

/// A form whose numbers are not checked yet: 128 bits hold them.
#[derive(Debug, Drop)]
pub struct WideForm {
    pub constant: i128,
    pub terms: Vec<(u32, i128)>,
}

/// A product.
#[tactic(auto, using(crate::proofs::Sizes::product_fits))]
fn times(factor: i64, number: i64) -> i128
    requires { unsigned_abs number ≤ most_weight }
    ensures product { result ≡ factor *ℤ number }
    ensures size { unsigned_abs result ≤ 2 ^ 103 }
{
    i128::from(factor) * i128::from(number)
}

/// A sum of two products.
fn weighted(factor: i64, number: i64, other_factor: i64, other: i64) -> i128
    requires number { unsigned_abs number ≤ most_weight }
    requires other { unsigned_abs other ≤ most_weight }
    ensures sum { result ≡ weighted factor number other_factor other }
    ensures size { unsigned_abs result ≤ 2 ^ 104 }
{
    times(factor, number) + times(other_factor, other)
}

/// Adds a term, unless its weight is 0.
fn push_term(terms: &mut Vec<(u32, i128)>, leaf: u32, weight: i128) -> Result<(), AllocError>
    ensures { IfOk result (λ _. terms.new.items ≡ terms.old.items ++ term_on leaf weight) }
{
    if weight != 0 {
        terms.push((leaf, weight))?;
    }
    Ok(())
}

/// Whether the term at a place is on this leaf.
fn is_at(terms: &[(u32, i64)], place: usize, leaf: u32) -> bool
    ensures { result ≡ is_at terms.now place leaf }
{
    place < terms.len() && terms[place].0 == leaf
}

/// The weight on a leaf, where the terms from a place on are on this one and greater ones.
fn weight_from(terms: &[(u32, i64)], place: usize, leaf: u32) -> i64
    requires rising { AreRising leaf (drop place terms.now) }
    requires small { AreSmallWeights terms.now }
    ensures weight { result ≡ weight_on (drop place terms.now) leaf }
    ensures size { unsigned_abs result ≤ most_weight }
{
    if is_at(terms, place, leaf) {
        terms[place].1
    } else {
        0
    }
}

/// The place behind the term on a leaf, where the terms from a place on are on this one and greater ones.
fn past(terms: &[(u32, i64)], place: usize, leaf: u32) -> usize
    requires rising { AreRising leaf (drop place terms.now) }
    requires within { place ≤ length terms.now }
    ensures within { result ≤ length terms.now }
    ensures place { result ≡ place_past terms.now place leaf }
    ensures rising { AreRising (leaf + 1) (drop result terms.now) }
    ensures others { (x : ℕ) → leaf < x → weight_on (drop result terms.now) x ≡ weight_on (drop place terms.now) x }
{
    if is_at(terms, place, leaf) {
        place + 1
    } else {
        place
    }
}

/// The first leaf of terms from a place on.
#[tactic(auto, using(crate::proofs::Terms::first_is))]
fn leaf_at(terms: &[(u32, i64)], place: usize) -> Option<u32>
    requires { AreRising 0 (drop place terms.now) }
    ensures some { IfSome result (IsFirst terms.now place) }
    ensures none { IfNone result (length terms.now ≤ place) }
{
    if place < terms.len() {
        Some(terms[place].0)
    } else {
        None
    }
}

/// The least leaf of terms from these places on.
#[tactic(auto, using(crate::proofs::Terms::both_first, crate::proofs::Terms::only_first, crate::proofs::Terms::only_second))]
fn next_leaf(
    terms: &[(u32, i64)],
    place: usize,
    others: &[(u32, i64)],
    other_place: usize,
) -> Option<u32>
    requires rising { AreRising 0 (drop place terms.now) }
    requires other_rising { AreRising 0 (drop other_place others.now) }
    ensures some { IfSome result (IsLeast terms.now place others.now other_place) }
    ensures none { IfNone result (length terms.now ≤ place) }
    ensures other_none { IfNone result (length others.now ≤ other_place) }
{
    match (leaf_at(terms, place), leaf_at(others, other_place)) {
        (Some(leaf), Some(other)) => Some(leaf.min(other)),
        (Some(leaf), None) => Some(leaf),
        (None, Some(other)) => Some(other),
        (None, None) => None,
    }
}

/// The terms of a number times a form and of another times another form, in one pass over both.
fn merged_terms(
    alloc: Global,
    factor: i64,
    terms: &[(u32, i64)],
    other_factor: i64,
    others: &[(u32, i64)],
) -> Result<Vec<(u32, i128)>, AllocError>
    requires rising { AreRising 0 terms.now }
    requires small { AreSmallWeights terms.now }
    requires other_rising { AreRising 0 others.now }
    requires other_small { AreSmallWeights others.now }
    ensures { IfOk result (λ merged. (leaves : ℕ) → AreBelow leaves terms.now → AreBelow leaves others.now
        → merged.items ≡ terms_of leaves (weights_of factor terms.now other_factor others.now)) }
{
    let mut merged = Vec::new(alloc);
    let mut place = 0;
    let mut other_place = 0;
    while let Some(leaf) = next_leaf(terms, place, others, other_place) {
        let own = weight_from(terms, place, leaf);
        let other = weight_from(others, other_place, leaf);
        push_term(
            &mut merged,
            leaf,
            weighted(factor, own, other_factor, other),
        )?;
        place = past(terms, place, leaf);
        other_place = past(others, other_place, leaf);
    }
    Ok(merged)
}

/// A number, and a number times a form, and another times another form. Both forms are small, and their leaves below the
/// number of leaves that the definition is told.
pub fn combined(
    alloc: Global,
    moved: i128,
    factor: i64,
    form: &Form,
    other_factor: i64,
    other: &Form,
) -> Result<WideForm, AllocError>
    requires moved { unsigned_abs moved ≤ 2 ^ 64 }
    requires form { IsSmallForm form.now }
    requires other { IsSmallForm other.now }
    ensures { IfOk result (λ wide. (leaves : ℕ) → AreBelow leaves form.now.terms → AreBelow leaves other.now.terms
        → form_in wide ≡ combined leaves moved factor form.now other_factor other.now) }
{
    let sum = weighted(factor, form.constant, other_factor, other.constant);
    let terms = merged_terms(
        alloc,
        factor,
        form.terms.as_slice(),
        other_factor,
        other.terms.as_slice(),
    )?;
    Ok(WideForm {
        constant: moved + sum,
        terms,
    })
}

/// The greatest size among the constant and the weights of a form.
pub fn size_of(form: &WideForm) -> u128
    ensures { result ≡ size_of (form_in form.now) }
{
    form.terms.as_slice().iter().fold(
        form.constant.unsigned_abs(),
        |most, term| most.max(term.1.unsigned_abs()),
    )
}

/// A form whose numbers are at most 2^40 in size.
pub fn narrowed(alloc: Global, form: &WideForm) -> Result<Form, AllocError>
    requires { size_of (form_in form.now) ≤ most_weight }
    ensures { IfOk result (λ narrow. narrow ≡ form_in form.now) }
{
    let mut terms = Vec::new(alloc);
    for (leaf, weight) in form.terms.as_slice() {
        terms.push((*leaf, *weight as i64))?;
    }
    Ok(Form {
        constant: form.constant as i64,
        terms: List::from_vec(terms),
    })
}
