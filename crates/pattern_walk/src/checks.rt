//! The checks of a statement's form.

ghost use Rattle.std.specs.Prelude.{◌≡◌, ◌≤◌, ◌^◌, IfOk, OnOk, IsTrue};
ghost use Rattle.refusals.specs.Reading.{Gives};
ghost use Rattle.forms.specs.Limits.{most_weight};
ghost use Rattle.linear_forms.specs.Forms.{size_of};
ghost use Rattle.linear_forms.specs.Merging.{form_in};
ghost use Rattle.range_pass.specs.Bounds.{IsWide};
ghost use Rattle.fhe_level.specs.Clearing.{HasWidth};
ghost use Rattle.pattern_walk.specs.Walking.{small_form, check_weights, check_range, is_in_type, most_weights};

use crate::fault::{FormFault, FormRefusal};
use fhe_level::{LimitFault, LimitName};
use fhe_text::WrittenType;
use forms::limits::MOST_WEIGHT;
use linear_forms::{Form, WideForm, narrowed, size_of};
use refusals::{Refusal, unless};
use std::alloc::Global;

/// The most non-zero weights over the forms of the statements up to and with one.
pub const MOST_WEIGHTS: u64 = 1 << 20;

/// A form whose numbers are at most 2^40 in size.
pub(crate) fn small_form(alloc: Global, wide: &WideForm) -> Result<Form, FormRefusal>
    ensures form { Gives (λ form. form) result (small_form (form_in wide.now)) }
    ensures same { IfOk result (λ form. form ≡ form_in wide.now) }
    ensures small { OnOk result (size_of (form_in wide.now) ≤ most_weight) }
{
    let size = size_of(wide);
    unless(
        size <= u128::from(MOST_WEIGHT),
        FormFault::Limit(LimitFault {
            what: LimitName::Weight,
            count: size,
            most: u128::from(MOST_WEIGHT),
        }),
    )?;
    Ok(narrowed(alloc, wide)?)
}

/// Refuses more weights than the forms so far may have.
pub(crate) fn check_weights(weights: u64) -> Result<(), FormRefusal>
    ensures exact { Gives (λ x. x) result (check_weights weights) }
    ensures few { OnOk result (weights ≤ most_weights) }
{
    unless(
        weights <= MOST_WEIGHTS,
        FormFault::Limit(LimitFault {
            what: LimitName::Weights,
            count: u128::from(weights),
            most: u128::from(MOST_WEIGHTS),
        }),
    )
}

/// Whether a range lies in an encrypted type.
fn is_in_type(ty: WrittenType, range: (i128, i128)) -> bool
    requires { HasWidth ty }
    ensures { result ≡ is_in_type ty range }
{
    match ty {
        WrittenType::Eint(width) => 0 <= range.0 && range.1 <= (1 << width) - 1,
        WrittenType::Int(_) | WrittenType::Tensor { .. } => true,
    }
}

/// Refuses the range of a statement that does not lie in the statement's type.
pub(crate) fn check_range(op: u32, ty: WrittenType, range: (i128, i128)) -> Result<(), FormRefusal>
    requires { HasWidth ty }
    ensures exact { Gives (λ x. x) result (check_range op ty range) }
    ensures fits { OnOk result (IsTrue (is_in_type ty range)) }
{
    unless(
        is_in_type(ty, range),
        FormFault::Range {
            op,
            lo: range.0,
            hi: range.1,
        },
    )
}
