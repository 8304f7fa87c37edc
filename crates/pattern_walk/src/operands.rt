//! The forms of operations by their numbers, and the constants of the text.

ghost use Rattle.std.specs.Prelude.{◌≡◌, [], nat_eq, IfOk, Some};
ghost use Rattle.indexmap.specs.IndexMap.{insert_entry};
ghost use Rattle.ir_core.specs.Graph.{Holds};
ghost use Rattle.fhe_level.specs.Clearing.{op_with};
ghost use Rattle.pattern_walk.specs.Sums.{form_at, constant_with};

use fhe_level::{FheOp, Program};
use indexmap::IndexMap;
use linear_forms::{Form, constant_form};
use std::alloc::{AllocError, Global};
use std::marker::Model;

/// The forms of operations, each with the operation's number.
#[derive(Drop)]
pub(crate) struct Forms {
    map: IndexMap<u32, Form>,
    zero: Form,
}

impl Model for Forms {
    ghost use Rattle.std.specs.Prelude.{◌≡◌, ℕ, List, pos};
    ghost use Rattle.linear_forms.specs.declared.linear.Form.{Form};
    ghost use Rattle.linear_forms.specs.Forms.{constant_form};

    ghost Value = { List (ℕ × Form) };

    ghost view = { λ forms. forms.map.entries };

    ghost invariant = { λ forms. forms.zero ≡ constant_form (pos 0) };
}

impl Forms {
    /// No form.
    pub fn new(alloc: Global) -> Forms
        ensures { result ≡ [] }
    {
        Forms {
            map: IndexMap::new(alloc),
            zero: constant_form(alloc, 0),
        }
    }

    /// These forms, with that of the operation with this number.
    pub fn put(self, number: u32, form: Form) -> Result<Forms, AllocError>
        ensures { IfOk result (λ forms. forms ≡ insert_entry nat_eq self number form) }
    {
        let Forms { mut map, zero } = self;
        map.insert(number, form)?;
        Ok(Forms { map, zero })
    }

    /// The form of the operation with this number, and that of 0 where it has none.
    pub fn form(&self, number: u32) -> &Form
        ensures { result.now ≡ form_at self.now number }
    {
        match self.map.get(&number) {
            Some(form) => form,
            None => &self.zero,
        }
    }
}

/// The operation with a number.
pub(crate) fn op_with(program: &Program, number: u32) -> &FheOp
    requires { Holds program.now.graph.list number }
    ensures { op_with program.now.graph.list number ≡ Some result.now }
{
    program.graph.op(number)
}

/// The number of the constant with this number, and 0 where it is none.
pub(crate) fn constant_with(program: &Program, number: u32) -> i64
    requires { Holds program.now.graph.list number }
    ensures { result ≡ constant_with program.now.graph.list number }
{
    match op_with(program, number) {
        FheOp::Int { value, .. } => *value,
        FheOp::Arg { .. } | FheOp::Dense { .. } | FheOp::Apply { .. } => 0,
    }
}
