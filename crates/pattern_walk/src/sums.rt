//! The forms of sums and multiples.

ghost use Rattle.std.specs.Prelude.{◌≡◌, ◌≤◌, ◌^◌, ◌<◌, length, IfOk, All, unsigned_abs};
ghost use Rattle.linear_forms.specs.Forms.{constant_form};
ghost use Rattle.linear_forms.specs.Merging.{form_in};
ghost use Rattle.linear_forms.specs.Sound.{AreBelow, IsSmallForm};
ghost use Rattle.ir_core.specs.Graph.{Holds};
ghost use Rattle.fhe_level.specs.Rows.{row_of};
ghost use Rattle.pattern_walk.specs.Sums.{form_at, multiple, total, sum_form};
ghost use Rattle.pattern_walk.specs.Safe.{AreSmallForms};

use crate::operands::{Forms, constant_with};
use fhe_level::Program;
use fhe_text::OpName;
use linear_forms::{Form, WideForm, combined};
use std::alloc::{AllocError, Global};

/// The form of a number, whose size is not checked yet.
pub(crate) fn wide_constant(alloc: Global, constant: i64) -> WideForm
    ensures { form_in result ≡ constant_form constant }
{
    WideForm {
        constant: i128::from(constant),
        terms: Vec::new(alloc),
    }
}

/// A number, and a number times a form, on so many leaves.
pub(crate) fn multiple(
    alloc: Global,
    leaves: usize,
    moved: i128,
    factor: i64,
    form: &Form,
) -> Result<WideForm, AllocError>
    requires moved { unsigned_abs moved ≤ 2 ^ 64 }
    requires form { IsSmallForm form.now }
    requires below { AreBelow leaves form.now.terms }
    ensures { IfOk result (λ wide. form_in wide ≡ multiple leaves moved factor form.now) }
{
    let none = linear_forms::constant_form(alloc, 0);
    combined(alloc, moved, factor, form, 0, &none)
}

/// A form, and a number times another, on so many leaves.
fn total(
    alloc: Global,
    leaves: usize,
    form: &Form,
    factor: i64,
    other: &Form,
) -> Result<WideForm, AllocError>
    requires form { IsSmallForm form.now }
    requires below { AreBelow leaves form.now.terms }
    requires other { IsSmallForm other.now }
    requires other_below { AreBelow leaves other.now.terms }
    ensures { IfOk result (λ wide. form_in wide ≡ total leaves form.now factor other.now) }
{
    combined(alloc, 0, 1, form, factor, other)
}

/// The form of an operation on these operands that is no look-up, on so many leaves.
pub(crate) fn sum_form(
    alloc: Global,
    leaves: usize,
    program: &Program,
    forms: &Forms,
    name: OpName,
    operands: &[u32],
) -> Result<WideForm, AllocError>
    requires forms { AreSmallForms leaves forms.now }
    requires row { length operands.now ≡ length (row_of name) }
    requires there { All (Holds program.now.graph.list) operands.now }
    ensures { IfOk result (λ wide. form_in wide ≡ sum_form leaves program.now.graph.list forms.now name operands.now) }
{
    match name {
        OpName::AddEint => {
            let other = forms.form(operands[1]);
            total(alloc, leaves, forms.form(operands[0]), 1, other)
        }
        OpName::SubEint => {
            let other = forms.form(operands[1]);
            total(alloc, leaves, forms.form(operands[0]), -1, other)
        }
        OpName::AddEintInt => {
            let moved = i128::from(constant_with(program, operands[1]));
            multiple(alloc, leaves, moved, 1, forms.form(operands[0]))
        }
        OpName::SubEintInt => {
            let moved = -i128::from(constant_with(program, operands[1]));
            multiple(alloc, leaves, moved, 1, forms.form(operands[0]))
        }
        OpName::SubIntEint => {
            let moved = i128::from(constant_with(program, operands[0]));
            multiple(alloc, leaves, moved, -1, forms.form(operands[1]))
        }
        OpName::NegEint => multiple(alloc, leaves, 0, -1, forms.form(operands[0])),
        OpName::MulEintInt => {
            let factor = constant_with(program, operands[1]);
            multiple(alloc, leaves, 0, factor, forms.form(operands[0]))
        }
        OpName::Zero | OpName::ApplyLookupTable => Ok(wide_constant(alloc, 0)),
    }
}
