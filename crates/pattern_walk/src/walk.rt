//! Going over the operations of a program once.

ghost use Rattle.std.specs.Prelude.{◌≡◌, ◌<◌, ◌≤◌, ◌+◌, ◌-◌, ◌^◌, length, map, pos, ◌-ℤ◌, ◌≤ℤ◌, unsigned_abs, All, Ok, Some, IfOk, slice_get};
ghost use Rattle.refusals.specs.Reading.{Gives};
ghost use Rattle.ir_core.specs.Graph.{Holds};
ghost use Rattle.forms.specs.Forms.{range_at, span_of};
ghost use Rattle.forms.specs.Limits.{most_weight};
ghost use Rattle.linear_forms.specs.Forms.{leaf_form};
ghost use Rattle.linear_forms.specs.Merging.{form_in};
ghost use Rattle.linear_forms.specs.Sound.{IsSmallForm};
ghost use Rattle.range_pass.specs.Bounds.{IsWide, AreSmall};
ghost use Rattle.fhe_level.specs.Rows.{row_of};
ghost use Rattle.fhe_level.specs.Clearing.{HasWidth};
ghost use Rattle.fhe_level.specs.Programs.{entry_of};
ghost use Rattle.pattern_walk.specs.Sums.{form_at, table_with, sum_form};
ghost use Rattle.pattern_walk.specs.Looking.{range_on, entries_from, pattern_on, place_in};
ghost use Rattle.pattern_walk.specs.Patterns.{look_in};
ghost use Rattle.fhe_level.specs.Checked.{IsChecked};
ghost use Rattle.pattern_walk.specs.Safe.{AreSmallForms, IsBuilt, IsSafe};
ghost use Rattle.pattern_walk.specs.Walking.{nothing_walked, with_form, with_weights, with_constant, with_leaf, check_small, with_small_form, with_statement, with_look_up, with_operation, step, walk, walked, patterns_in};

use crate::checks::{check_range, check_weights, small_form};
use crate::fault::FormRefusal;
use crate::looks::{Looks, Pattern, entries_from, entry_at, with_range};
use crate::operands::{Forms, op_with};
use crate::sums::{sum_form, wide_constant};
use fhe_level::{FheOp, Program};
use fhe_text::{Entries, OpName, WrittenType};
use linear_forms::{Form, WideForm, copied_terms, leaf_form};
use lists::List;
use live_patterns::Patterns;
use std::alloc::{AllocError, Global};
use std::marker::Model;

/// What the operations so far come to: their forms, the ranges of the leaves, the patterns, how many operations there
/// are, and the weights of their forms.
#[derive(Drop)]
pub(crate) struct Walk {
    forms: Forms,
    ranges: Vec<(i64, i64)>,
    looks: Looks,
    place: u32,
    weights: u64,
}

impl Model for Walk {
    ghost use Rattle.pattern_walk.specs.Walking.{Walked};

    ghost Value = { Walked };

    ghost view = { λ walk. record {
      forms = walk.forms;
      ranges = walk.ranges.items;
      looks = walk.looks;
      place = walk.place;
      weights = walk.weights;
    } };
}

/// The entry at a place of the table with this number, and 0 where there is none.
fn entry_with(program: &Program, number: u32, place: u32) -> i64
    requires { Holds program.now.graph.list number }
    ensures { result ≡ entry_of (table_with program.now.graph.list number) (pos place) }
{
    match op_with(program, number) {
        FheOp::Dense { entries, .. } => entry_at(entries, place),
        FheOp::Arg { .. } | FheOp::Int { .. } | FheOp::Apply { .. } => 0,
    }
}

/// So many entries from a place on of the table with this number.
fn entries_with(
    alloc: Global,
    program: &Program,
    number: u32,
    place: usize,
    many: usize,
) -> Result<Vec<i64>, AllocError>
    requires { Holds program.now.graph.list number }
    ensures { IfOk result (λ found. found.items ≡ entries_from (table_with program.now.graph.list number) place many) }
{
    match op_with(program, number) {
        FheOp::Dense { entries, .. } => entries_from(alloc, entries, place, many),
        FheOp::Arg { .. } | FheOp::Int { .. } | FheOp::Apply { .. } => {
            entries_from(alloc, &Entries::Splat(0), place, many)
        }
    }
}

/// A small number less another.
fn less(number: i64, least: u32) -> i64
    requires number { unsigned_abs number ≤ most_weight }
    requires least { least < 2 ^ 16 }
    ensures { result ≡ number -ℤ pos least }
{
    number - i64::from(least)
}

/// How many numbers a range has.
fn numbers_in(range: (u32, u32)) -> usize
    requires { range.0 ≤ range.1 }
    ensures { result ≡ unsigned_abs (span_of (pos range.0, pos range.1)) + 1 }
{
    (range.1 - range.0) as usize + 1
}

/// A form, in memory of its own.
fn copied_form(alloc: Global, form: &Form) -> Result<Form, AllocError>
    ensures { IfOk result (λ copy. copy ≡ form.now) }
{
    Ok(Form {
        constant: form.constant,
        terms: copied_terms(alloc, form)?,
    })
}

impl Walk {
    /// Before the first operation.
    fn new(alloc: Global, program: &Program) -> Result<Walk, AllocError>
        ensures { IfOk result (λ walk. walk ≡ nothing_walked program.now.args) }
    {
        Ok(Walk {
            forms: Forms::new(alloc),
            ranges: program.args.as_slice().to_vec(alloc)?,
            looks: Looks::new(alloc),
            place: 0,
            weights: 0,
        })
    }

    /// The range of a form.
    fn range_of(&self, form: &Form) -> (i128, i128)
        requires { AreSmall form.now.terms self.now.ranges }
        ensures range { result ≡ range_on self.now.ranges form.now }
        ensures wide { IsWide result }
    {
        range_pass::range_of(form.constant, form.terms.as_slice(), self.ranges.as_slice())
    }

    /// With the form of the operation with this number.
    fn with_form(self, number: u32, form: Form) -> Result<Walk, AllocError>
        requires { self.place < 2 ^ 32 - 1 }
        ensures { IfOk result (λ walk. walk ≡ with_form self number form) }
    {
        let Walk {
            forms,
            ranges,
            looks,
            place,
            weights,
        } = self;
        Ok(Walk {
            forms: forms.put(number, form)?,
            ranges,
            looks,
            place: place + 1,
            weights,
        })
    }

    /// With a constant of the text, which has no form.
    fn with_constant(self) -> Walk
        requires { self.place < 2 ^ 32 - 1 }
        ensures { result ≡ with_constant self }
    {
        let Walk {
            forms,
            ranges,
            looks,
            place,
            weights,
        } = self;
        Walk {
            forms,
            ranges,
            looks,
            place: place + 1,
            weights,
        }
    }

    /// With so many weights more.
    fn with_weights(self, more: usize) -> Walk
        requires { self.weights + more < 2 ^ 64 }
        ensures { result ≡ with_weights self more }
    {
        let Walk {
            forms,
            ranges,
            looks,
            place,
            weights,
        } = self;
        Walk {
            forms,
            ranges,
            looks,
            place,
            weights: weights + more as u64,
        }
    }

    /// With the leaf of a pattern, and the place of that leaf among the patterns.
    fn with_leaf(self, pattern: Pattern) -> Result<(Walk, usize), AllocError>
        ensures walk { IfOk result (λ found. found.0 ≡ with_leaf self (look_in pattern)) }
        ensures place { IfOk result (λ found. found.1 ≡ place_in self.looks (look_in pattern)) }
        ensures within { IfOk result (λ found. found.1 < length found.0.looks) }
    {
        let Walk {
            forms,
            ranges,
            looks,
            place,
            weights,
        } = self;
        let range = range_pass::range_of_entries(pattern.entries.as_slice());
        let (looks, at, added) = looks.share(pattern)?;
        let ranges = with_range(ranges, added, range)?;
        let walk = Walk {
            forms,
            ranges,
            looks,
            place,
            weights,
        };
        Ok((walk, at))
    }

    /// The number of the next operation among the statements, where there are so many arguments before these.
    fn statement(&self, inputs: usize) -> u32
        ensures { result ≡ self.now.place - inputs }
    {
        let place = self.place as usize;
        if place < inputs {
            return 0;
        }
        (place - inputs) as u32
    }

    /// The weights of all forms, with so many more.
    fn weights_with(&self, more: usize) -> u64
        requires { self.now.weights + more < 2 ^ 64 }
        ensures { result ≡ self.now.weights + more }
    {
        self.weights + more as u64
    }

    /// Checks so many weights more, and then a statement's range.
    fn check_small(
        &self,
        inputs: usize,
        ty: WrittenType,
        range: (i128, i128),
        more: usize,
    ) -> Result<(), FormRefusal>
        requires weights { self.now.weights + more < 2 ^ 64 }
        requires ty { HasWidth ty }
        ensures { Gives (λ x. x) result (check_small inputs self.now ty range more) }
    {
        check_weights(self.weights_with(more))?;
        check_range(self.statement(inputs), ty, range)
    }

    /// The form of the operation with this number, and that of 0 where it has none.
    fn form(&self, number: u32) -> &Form
        ensures { result.now ≡ form_at self.now.forms number }
    {
        self.forms.form(number)
    }

    /// How many leaves there are.
    fn leaves(&self) -> usize
        ensures { result ≡ length self.now.ranges }
    {
        self.ranges.len()
    }

    /// The range of a leaf.
    fn leaf_range(&self, leaf: usize) -> (i128, i128)
        requires { leaf < length self.now.ranges }
        ensures { result ≡ range_at self.now.ranges leaf }
    {
        let (least, greatest) = self.ranges[leaf];
        (i128::from(least), i128::from(greatest))
    }

    /// The form of an operation that is no look-up.
    fn wide_sum(
        &self,
        alloc: Global,
        program: &Program,
        name: OpName,
        operands: &[u32],
    ) -> Result<WideForm, AllocError>
        requires forms { AreSmallForms (length self.now.ranges) self.now.forms }
        requires row { length operands.now ≡ length (row_of name) }
        requires there { All (Holds program.now.graph.list) operands.now }
        ensures { IfOk result (λ wide. form_in wide ≡ sum_form (length self.now.ranges) program.now.graph.list self.now.forms name operands.now) }
    {
        sum_form(alloc, self.leaves(), program, &self.forms, name, operands)
    }

    /// With a statement that has a small form of this range.
    fn with_small_form(
        self,
        inputs: usize,
        number: u32,
        ty: WrittenType,
        range: (i128, i128),
        form: Form,
    ) -> Result<Walk, FormRefusal>
        requires place { self.place < 2 ^ 32 - 1 }
        requires weights { self.weights + length form.terms < 2 ^ 64 }
        requires ty { HasWidth ty }
        ensures { Gives (λ walk. walk) result (with_small_form inputs self number ty range form) }
    {
        let more = form.terms.len();
        self.check_small(inputs, ty, range, more)?;
        let walk = self.with_weights(more);
        Ok(walk.with_form(number, form)?)
    }

    /// With a statement that has this form, whose numbers are not checked yet.
    fn with_statement(
        self,
        alloc: Global,
        program: &Program,
        number: u32,
        ty: WrittenType,
        wide: &WideForm,
    ) -> Result<Walk, FormRefusal>
        requires limited { IsChecked program.now }
        requires safe { IsSafe program.now self }
        requires place { self.place < length program.now.graph.list }
        requires ty { HasWidth ty }
        requires built { IsBuilt (length self.ranges) (form_in wide.now) }
        ensures { Gives (λ walk. walk) result (with_statement (length program.now.args) self number ty (form_in wide.now)) }
    {
        linear_forms::laws::laws();
        program.graph.known();
        let form = small_form(alloc, wide)?;
        let range = self.range_of(&form);
        self.with_small_form(program.args.len(), number, ty, range, form)
    }

    /// With a look-up that has this pattern.
    fn with_pattern(
        self,
        alloc: Global,
        program: &Program,
        number: u32,
        ty: WrittenType,
        pattern: Pattern,
    ) -> Result<Walk, FormRefusal>
        requires limited { IsChecked program.now }
        requires safe { IsSafe program.now self }
        requires place { self.place < length program.now.graph.list }
        requires ty { HasWidth ty }
        ensures { Gives (λ walk. walk) result (with_statement (length program.now.args) (with_leaf self (look_in pattern)) number ty
            (leaf_form (length program.now.args + place_in self.looks (look_in pattern)))) }
    {
        program.graph.known();
        let inputs = program.args.len();
        let (walk, place) = self.with_leaf(pattern)?;
        let leaf = inputs + place;
        let range = walk.leaf_range(leaf);
        let form = leaf_form(alloc, leaf as u32)?;
        walk.with_small_form(inputs, number, ty, range, form)
    }

    /// The range of the form of the operation with this number, which has 16 bits.
    fn safe_range(&self, program: &Program, number: u32) -> (i128, i128)
        requires limited { IsChecked program.now }
        requires safe { IsSafe program.now self.now }
        ensures range { result ≡ range_on self.now.ranges (form_at self.now.forms number) }
        ensures low { pos 0 ≤ℤ result.0 }
        ensures rising { result.0 ≤ℤ result.1 }
        ensures high { result.1 ≤ℤ pos (2 ^ 16 - 1) }
    {
        linear_forms::laws::laws();
        self.range_of(self.form(number))
    }

    /// The range of the form of the operation with this number.
    fn input_range(&self, program: &Program, number: u32) -> (u32, u32)
        requires limited { IsChecked program.now }
        requires safe { IsSafe program.now self.now }
        ensures range { (pos result.0, pos result.1) ≡ range_on self.now.ranges (form_at self.now.forms number) }
        ensures rising { result.0 ≤ result.1 }
        ensures high { result.1 < 2 ^ 16 }
    {
        let (least, greatest) = self.safe_range(program, number);
        (least as u32, greatest as u32)
    }

    /// The pattern of a look-up whose input has this range.
    fn pattern_on(
        &self,
        alloc: Global,
        program: &Program,
        range: (u32, u32),
        operands: (u32, u32),
    ) -> Result<Pattern, AllocError>
        requires safe { IsSafe program.now self.now }
        requires rising { range.0 ≤ range.1 }
        requires high { range.1 < 2 ^ 16 }
        requires table { Holds program.now.graph.list operands.1 }
        ensures { IfOk result (λ pattern. look_in pattern ≡ pattern_on (pos range.0, pos range.1) (form_at self.now.forms operands.0) (table_with program.now.graph.list operands.1)) }
    {
        let input = self.form(operands.0);
        let constant = less(input.constant, range.0);
        let terms = input.terms.as_slice().to_vec(alloc)?;
        let many = numbers_in(range);
        let entries = entries_with(alloc, program, operands.1, range.0 as usize, many)?;
        Ok(Pattern {
            constant,
            terms,
            entries,
        })
    }

    /// With a look-up of an operand of this range in a table.
    fn with_look_up_on(
        self,
        alloc: Global,
        program: &Program,
        number: u32,
        operands: (u32, u32),
        ty: WrittenType,
        range: (u32, u32),
    ) -> Result<Walk, FormRefusal>
        requires limited { IsChecked program.now }
        requires safe { IsSafe program.now self }
        requires place { self.place < length program.now.graph.list }
        requires ty { HasWidth ty }
        requires rising { range.0 ≤ range.1 }
        requires high { range.1 < 2 ^ 16 }
        requires table { Holds program.now.graph.list operands.1 }
        ensures { Gives (λ walk. walk) result (with_look_up (length program.now.args) self number ty
            (pos range.0, pos range.1) (form_at self.forms operands.0)
            (table_with program.now.graph.list operands.1)) }
    {
        let (least, greatest) = range;
        if least == greatest {
            let entry = entry_with(program, operands.1, least);
            let wide = wide_constant(alloc, entry);
            return self.with_statement(alloc, program, number, ty, &wide);
        }
        let pattern = self.pattern_on(alloc, program, range, operands)?;
        self.with_pattern(alloc, program, number, ty, pattern)
    }

    /// With a look-up of an operand in a table.
    fn with_look_up(
        self,
        alloc: Global,
        program: &Program,
        number: u32,
        operands: (u32, u32),
        ty: WrittenType,
    ) -> Result<Walk, FormRefusal>
        requires limited { IsChecked program.now }
        requires safe { IsSafe program.now self }
        requires place { self.place < length program.now.graph.list }
        requires ty { HasWidth ty }
        requires table { Holds program.now.graph.list operands.1 }
        ensures { Gives (λ walk. walk) result (with_look_up (length program.now.args) self number ty
            (range_on self.ranges (form_at self.forms operands.0)) (form_at self.forms operands.0)
            (table_with program.now.graph.list operands.1)) }
    {
        let range = self.input_range(program, operands.0);
        self.with_look_up_on(alloc, program, number, operands, ty, range)
    }

    /// With a sum or a multiple of these operands.
    fn with_sum(
        self,
        alloc: Global,
        program: &Program,
        number: u32,
        name: OpName,
        operands: &[u32],
        ty: WrittenType,
    ) -> Result<Walk, FormRefusal>
        requires limited { IsChecked program.now }
        requires safe { IsSafe program.now self }
        requires place { self.place < length program.now.graph.list }
        requires ty { HasWidth ty }
        requires row { length operands.now ≡ length (row_of name) }
        requires there { All (Holds program.now.graph.list) operands.now }
        ensures { Gives (λ walk. walk) result (with_statement (length program.now.args) self number ty
            (sum_form (length self.ranges) program.now.graph.list self.forms name operands.now)) }
    {
        linear_forms::laws::laws();
        let wide = self.wide_sum(alloc, program, name, operands)?;
        self.with_statement(alloc, program, number, ty, &wide)
    }

    /// With an operation on these operands.
    fn with_operation(
        self,
        alloc: Global,
        program: &Program,
        number: u32,
        name: OpName,
        operands: &[u32],
        ty: WrittenType,
    ) -> Result<Walk, FormRefusal>
        requires limited { IsChecked program.now }
        requires safe { IsSafe program.now self }
        requires place { self.place < length program.now.graph.list }
        requires ty { HasWidth ty }
        requires row { length operands.now ≡ length (row_of name) }
        requires there { All (Holds program.now.graph.list) operands.now }
        ensures { Gives (λ walk. walk) result (with_operation (length program.now.args) program.now.graph.list self number name operands.now ty) }
    {
        match name {
            OpName::ApplyLookupTable => {
                self.with_look_up(alloc, program, number, (operands[0], operands[1]), ty)
            }
            OpName::AddEint
            | OpName::AddEintInt
            | OpName::SubEint
            | OpName::SubEintInt
            | OpName::SubIntEint
            | OpName::NegEint
            | OpName::MulEintInt
            | OpName::Zero => self.with_sum(alloc, program, number, name, operands, ty),
        }
    }

    /// With the next operation.
    fn step(
        self,
        alloc: Global,
        program: &Program,
        number: u32,
        op: &FheOp,
    ) -> Result<Walk, FormRefusal>
        requires limited { IsChecked program.now }
        requires safe { IsSafe program.now self }
        requires here { slice_get program.now.graph.list self.place ≡ Some (number, op.now) }
        ensures { Gives (λ walk. walk) result (step (length program.now.args) program.now.graph.list self number op.now) }
    {
        program.graph.known();
        match op {
            FheOp::Arg { .. } => {
                let leaf = self.place;
                Ok(self.with_form(number, leaf_form(alloc, leaf)?)?)
            }
            FheOp::Int { .. } | FheOp::Dense { .. } => Ok(self.with_constant()),
            FheOp::Apply { name, operands, ty } => {
                self.with_operation(alloc, program, number, *name, operands.as_slice(), *ty)
            }
        }
    }

    /// The forms of these results, in memory of their own.
    fn outs(&self, alloc: Global, results: &[u32]) -> Result<List<Form>, AllocError>
        ensures { IfOk result (λ outs. outs ≡ map (form_at self.now.forms) results.now) }
    {
        let mut outs = Vec::new(alloc);
        for number in results {
            outs.push(copied_form(alloc, self.forms.form(*number))?)?;
        }
        Ok(List::from_vec(outs))
    }

    /// The patterns, and the forms of the results.
    pub(crate) fn into_patterns(
        self,
        alloc: Global,
        program: &Program,
    ) -> Result<Patterns, AllocError>
        ensures { IfOk result (λ patterns. patterns ≡ patterns_in program.now self) }
    {
        let inputs = program.args.as_slice().to_vec(alloc)?;
        let outs = self.outs(alloc, program.results.as_slice())?;
        Ok(Patterns {
            inputs: List::from_vec(inputs),
            looks: self.looks.into_list(alloc)?,
            outs,
        })
    }
}

/// What all operations of a program come to.
pub(crate) fn walked(alloc: Global, program: &Program) -> Result<Walk, FormRefusal>
    requires { IsChecked program.now }
    ensures { Gives (λ walk. walk) result (walked program.now) }
{
    forms::laws::laws();
    linear_forms::laws::laws();
    let mut walk = Walk::new(alloc, program)?;
    let mut next = program.graph.first();
    while let Some(number) = next {
        walk = walk.step(alloc, program, number, program.graph.op(number))?;
        next = program.graph.next(number);
    }
    Ok(walk)
}
