//! Forms: a constant and weights on leaves.

ghost use Rattle.std.specs.Prelude.{◌≡◌, ◌≤◌, IfOk, unsigned_abs};
ghost use Rattle.forms.specs.Limits.{most_weight};
ghost use Rattle.linear_forms.specs.Forms.{constant_form, leaf_form};
ghost use Rattle.linear_forms.specs.Sound.{IsSmallForm};

use lists::List;
use std::alloc::{AllocError, Global};

/// A form: a constant, and terms, each a leaf and its weight, in the order of the leaves and without weights of 0. Leaves
/// are the arguments, and behind them the patterns, counted from 0.
#[derive(Debug, Drop)]
pub struct Form {
    pub constant: i64,
    pub terms: List<(u32, i64)>,
}

/// The form of a number.
pub fn constant_form(alloc: Global, constant: i64) -> Form
    ensures form { result ≡ constant_form constant }
    ensures small { unsigned_abs constant ≤ most_weight → IsSmallForm result }
{
    Form {
        constant,
        terms: List::from_vec(Vec::new(alloc)),
    }
}

/// The form of a leaf.
pub fn leaf_form(alloc: Global, leaf: u32) -> Result<Form, AllocError>
    ensures form { IfOk result (λ form. form ≡ leaf_form leaf) }
    ensures small { IfOk result IsSmallForm }
{
    let mut terms = Vec::new(alloc);
    terms.push((leaf, 1))?;
    Ok(Form {
        constant: 0,
        terms: List::from_vec(terms),
    })
}

/// The terms of a form, in memory of their own.
pub fn copied_terms(alloc: Global, form: &Form) -> Result<List<(u32, i64)>, AllocError>
    ensures { IfOk result (λ terms. terms ≡ form.now.terms) }
{
    Ok(List::from_vec(form.terms.as_slice().to_vec(alloc)?))
}
