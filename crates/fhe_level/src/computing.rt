//! What a program computes on whole numbers.

ghost use Rattle.std.specs.Prelude.{◌≡◌, ◌<◌, ℕ, pos, length, map, All, IfOk, Some};
ghost use Rattle.ir_core.specs.Graph.{Holds, place_of};
ghost use Rattle.forms.specs.Forms.{number_at};
ghost use Rattle.fhe_level.specs.Rows.{row_of};
ghost use Rattle.fhe_level.specs.Programs.{number_in, entry_of, entry_in, operand_at, apply, clear_values};
ghost use Rattle.fhe_level.specs.Clearing.{op_with, number_of, IsClear};
ghost use Rattle.fhe_level.specs.Room.{held_value, held_table, HoldsBefore, HoldsAll, AreHeld, IsIndexOf, IsIndexIn, CanApply};

use crate::level::FheOp;
use crate::program::Program;
use fhe_text::{Entries, OpName};
use std::alloc::{AllocError, Global};

/// The entry at a number.
fn entry_at(entries: &Entries, index: i64) -> i64
    requires { IsIndexOf entries.now index }
    ensures { result ≡ entry_of entries.now index }
{
    match entries {
        Entries::List(list) => list.as_slice()[index as usize],
        Entries::Splat(value) => *value,
    }
}

/// The operation with a number.
fn op_with(program: &Program, number: u32) -> &FheOp
    requires { Holds program.now.graph.list number }
    ensures { op_with program.now.graph.list number ≡ Some result.now }
{
    program.graph.op(number)
}

/// The entry at a number of the table with this number.
fn looked_up(program: &Program, table: u32, index: i64) -> i64
    requires there { Holds program.now.graph.list table }
    requires index { IsIndexIn (held_table program.now.graph.list table) index }
    ensures { result ≡ entry_in (held_table program.now.graph.list table) index }
{
    match op_with(program, table) {
        FheOp::Dense { entries, .. } => entry_at(entries, index),
        FheOp::Arg { .. } | FheOp::Int { .. } | FheOp::Apply { .. } => 0,
    }
}

/// The number of the operation with this number.
fn number_at(room: &[i64], number: u32) -> i64
    requires { number < length room.now }
    ensures { result ≡ number_at room.now number }
{
    room[number as usize]
}

/// The number of an operand.
fn operand_number(program: &Program, room: &[i64], operands: &[u32], at: usize) -> i64
    requires at { at < length operands.now }
    requires room { length room.now ≡ program.now.graph.made }
    requires held { AreHeld program.now.graph.list room.now operands.now }
    ensures { result ≡ number_in (operand_at (map (held_value program.now.graph.list room.now) operands.now) at) }
{
    program.graph.known();
    number_at(room, operands[at])
}

/// The number that an operation gives on these operands, whose numbers the room has.
fn applied(program: &Program, room: &[i64], name: OpName, operands: &[u32]) -> i64
    requires row { length operands.now ≡ length (row_of name) }
    requires room { length room.now ≡ program.now.graph.made }
    requires held { AreHeld program.now.graph.list room.now operands.now }
    requires can { CanApply name (map (held_value program.now.graph.list room.now) operands.now) }
    ensures { result ≡ apply name (map (held_value program.now.graph.list room.now) operands.now) }
{
    match name {
        OpName::AddEint | OpName::AddEintInt => {
            operand_number(program, room, operands, 0) + operand_number(program, room, operands, 1)
        }
        OpName::SubEint | OpName::SubEintInt | OpName::SubIntEint => {
            operand_number(program, room, operands, 0) - operand_number(program, room, operands, 1)
        }
        OpName::NegEint => -operand_number(program, room, operands, 0),
        OpName::MulEintInt => {
            operand_number(program, room, operands, 0) * operand_number(program, room, operands, 1)
        }
        OpName::Zero => 0,
        OpName::ApplyLookupTable => {
            let index = operand_number(program, room, operands, 0);
            looked_up(program, operands[1], index)
        }
    }
}

/// The number of the operation that stands at a place, where the room has those of the operations before it.
fn operation_number(
    program: &Program,
    inputs: &[i64],
    room: &[i64],
    place: usize,
    number: u32,
) -> i64
    requires clear { IsClear program.now inputs.now }
    requires there { Holds program.now.graph.list number }
    requires place { place_of program.now.graph.list number ≡ place }
    requires room { length room.now ≡ program.now.graph.made }
    requires before { HoldsBefore program.now inputs.now room.now place }
    ensures { result ≡ number_of program.now inputs.now number }
{
    program.graph.known();
    match program.graph.op(number) {
        FheOp::Arg { .. } => inputs[place],
        FheOp::Int { value, .. } => *value,
        FheOp::Dense { .. } => 0,
        FheOp::Apply { name, operands, .. } => applied(program, room, *name, operands.as_slice()),
    }
}

/// The numbers of all operations, each at the place of the operation's number.
fn operation_numbers(
    alloc: Global,
    program: &Program,
    inputs: &[i64],
) -> Result<Vec<i64>, AllocError>
    requires { IsClear program.now inputs.now }
    ensures room { IfOk result (λ room. length room.items ≡ program.now.graph.made) }
    ensures numbers { IfOk result (λ room. HoldsAll program.now inputs.now room.items) }
{
    program.graph.known();
    let mut room = vec![in alloc; 0; program.graph.made() as usize]?;
    let mut place = 0;
    let mut next = program.graph.first();
    while let Some(number) = next {
        let found = operation_number(program, inputs, room.as_slice(), place, number);
        room[number as usize] = found;
        place += 1;
        next = program.graph.next(number);
    }
    Ok(room)
}

/// The values of the results of a program, in order, where its arguments have these values. Each operation is computed
/// on whole numbers, in the order of the list, and a look-up gives the entry at its index.
pub fn clear(alloc: Global, program: &Program, values: &[i64]) -> Result<Vec<i64>, AllocError>
    requires { IsClear program.now values.now }
    ensures { IfOk result (λ found. found.items ≡ clear_values program.now values.now) }
{
    let room = operation_numbers(alloc, program, values)?;
    let mut found = Vec::new(alloc);
    program.graph.known();
    for number in program.results.as_slice() {
        found.push(number_at(room.as_slice(), *number))?;
    }
    Ok(found)
}
