//! The checks of types, and the program of a source that keeps them.

ghost use Rattle.std.specs.Prelude.{◌≡◌, ◌+◌, ◌-◌, ◌^◌, ◌<◌, ◌≤◌, ◌++◌, [], ◌∷◌, pos, true, length, map, IfOk};
ghost use Rattle.std.specs.List.{list_all, zip};
ghost use Rattle.refusals.specs.Reading.{Gives};
ghost use Rattle.ir_core.specs.Placed.{operations_of, IsPlaced};
ghost use Rattle.fhe_level.specs.Limits.{width_of, widest_arg, limit_fault};
ghost use Rattle.fhe_level.specs.Types.{keeps_declared, argument_range, argument_fault, is_type_of, are_types_of, same_type, same_types, statement_fault, operation_fault, body_fault, return_fault};
ghost use Rattle.fhe_level.specs.Programs.{argument_op, statement_op, operations_in, program_of, checked_program};
ghost use Rattle.fhe_level.specs.Building.{types_in, AddsBody};

use crate::fault::{TypeFault, TypeKind, TypeRefusal};
use crate::level::{FheLevel, FheOp};
use crate::limits::width_of;
use crate::program::Program;
use crate::rows::{fits_table, keeps_row, row_of};
use fhe_text::{Arg, Entries, OpName, Source, Statement, WrittenType};
use ir_core::{Graph, Level};
use lists::List;
use refusals::Refusal;
use std::alloc::{AllocError, Global};

/// The greatest number of an encrypted type.
fn greatest_number(ty: WrittenType) -> i64
    requires { width_of ty ≤ 16 }
    ensures { result ≡ pos (2 ^ width_of ty - 1) }
{
    i64::from((1u32 << width_of(ty)) - 1)
}

/// Whether the range of an argument, where one is declared, has a number and lies in its type's.
fn keeps_declared(arg: Arg) -> bool
    requires { width_of arg.ty ≤ 16 }
    ensures { result ≡ keeps_declared arg }
{
    match arg.declared {
        Some((lo, hi)) => lo <= hi && 0 <= lo && hi <= i128::from(greatest_number(arg.ty)),
        None => true,
    }
}

/// The range of an argument: the declared one, or its type's.
fn argument_range(arg: Arg) -> (i64, i64)
    requires width { width_of arg.ty ≤ 16 }
    requires declared { keeps_declared arg ≡ true }
    ensures { result ≡ argument_range arg }
{
    match arg.declared {
        Some((lo, hi)) => (lo as i64, hi as i64),
        None => (0, greatest_number(arg.ty)),
    }
}

/// The first argument whose range is not in its type.
fn argument_fault(args: &[Arg]) -> Option<TypeFault>
    requires few { length args.now ≤ 64 }
    requires widths { widest_arg args.now ≤ 16 }
    ensures { result ≡ argument_fault 0 args.now }
{
    for (place, arg) in args.iter().enumerate() {
        if !keeps_declared(*arg) {
            return Some(TypeFault {
                place: place as u32,
                kind: TypeKind::Declared,
            });
        }
    }
    None
}

/// Whether a type is that of the value with this number.
fn is_type_of(graph: &Graph<FheLevel>, value: u32, ty: WrittenType) -> bool
    requires { IsPlaced graph.now }
    ensures { result ≡ is_type_of (types_in graph.now) value ty }
{
    value < graph.op_count() && same_type(FheLevel::result(graph.op_at(value)), ty)
}

/// Whether two types are the same.
fn same_type(ty: WrittenType, other: WrittenType) -> bool
    ensures { result ≡ same_type ty other }
{
    ty == other
}

/// Whether each type is that of its value, one by one.
fn each_own(graph: &Graph<FheLevel>, values: &[u32], written: &[WrittenType]) -> bool
    requires { IsPlaced graph.now }
    ensures { result ≡ list_all (λ p. is_type_of (types_in graph.now) p.0 p.1) (zip values.now written.now) }
{
    values
        .iter()
        .zip(written)
        .all(|(value, ty)| is_type_of(graph, *value, *ty))
}

/// Whether there are as many types as values, each the value's own.
fn are_types_of(graph: &Graph<FheLevel>, values: &[u32], written: &[WrittenType]) -> bool
    requires { IsPlaced graph.now }
    ensures { result ≡ are_types_of (types_in graph.now) values.now written.now }
{
    values.len() == written.len() && each_own(graph, values, written)
}

/// Whether each type here is the same as there, one by one.
fn each_same(written: &[WrittenType], others: &[WrittenType]) -> bool
    ensures { result ≡ list_all (λ p. same_type p.0 p.1) (zip written.now others.now) }
{
    written
        .iter()
        .zip(others)
        .all(|(ty, other)| same_type(*ty, *other))
}

/// Whether there are as many types here as there, each the same.
fn same_types(written: &[WrittenType], others: &[WrittenType]) -> bool
    ensures { result ≡ same_types written.now others.now }
{
    written.len() == others.len() && each_same(written, others)
}

/// The first check that an operation breaks, behind these operations.
fn operation_fault(
    graph: &Graph<FheLevel>,
    name: OpName,
    operands: &[u32],
    written: &[WrittenType],
    result_type: WrittenType,
) -> Option<TypeKind>
    requires { IsPlaced graph.now }
    ensures { result ≡ operation_fault (types_in graph.now) name operands.now written.now result_type }
{
    if operands.len() != row_of(name).len() {
        Some(TypeKind::Arity)
    } else if !are_types_of(graph, operands, written) {
        Some(TypeKind::Operand)
    } else if !keeps_row(name, written, result_type) {
        Some(TypeKind::Rule)
    } else if !fits_table(name, written) {
        Some(TypeKind::Table)
    } else {
        None
    }
}

/// The first check that a statement breaks, behind these operations.
fn statement_fault(graph: &Graph<FheLevel>, statement: &Statement) -> Option<TypeKind>
    requires { IsPlaced graph.now }
    ensures { result ≡ statement_fault (types_in graph.now) statement.now }
{
    match statement {
        Statement::Op {
            name,
            operands,
            types,
            result,
        } => operation_fault(graph, *name, operands.as_slice(), types.as_slice(), *result),
        Statement::Int { .. } | Statement::Dense { .. } => None,
    }
}

/// Numbers of values, in memory of their own.
fn copied_numbers(alloc: Global, numbers: &[u32]) -> Result<List<u32>, AllocError>
    ensures { IfOk result (λ copy. copy ≡ numbers.now) }
{
    Ok(List::from_vec(numbers.to_vec(alloc)?))
}

/// The entries of a table, in memory of their own.
fn copied_entries(alloc: Global, entries: &Entries) -> Result<Entries, AllocError>
    ensures { IfOk result (λ copy. copy ≡ entries.now) }
{
    match entries {
        Entries::List(list) => Ok(Entries::List(List::from_vec(list.as_slice().to_vec(alloc)?))),
        Entries::Splat(value) => Ok(Entries::Splat(*value)),
    }
}

/// The operation of a statement.
fn statement_op(alloc: Global, statement: &Statement) -> Result<FheOp, AllocError>
    ensures { IfOk result (λ op. op ≡ statement_op statement.now) }
{
    match statement {
        Statement::Int { value, bits } => Ok(FheOp::Int {
            value: *value,
            bits: *bits,
        }),
        Statement::Dense {
            entries,
            length,
            bits,
        } => Ok(FheOp::Dense {
            entries: copied_entries(alloc, entries)?,
            length: *length,
            bits: *bits,
        }),
        Statement::Op {
            name,
            operands,
            result,
            ..
        } => Ok(FheOp::Apply {
            name: *name,
            operands: copied_numbers(alloc, operands.as_slice())?,
            ty: *result,
        }),
    }
}

/// Adds the operation of a statement, which is the one at this place.
fn add_statement(
    alloc: Global,
    graph: &mut Graph<FheLevel>,
    place: u32,
    statement: &Statement,
) -> Result<(), TypeRefusal>
    requires placed { IsPlaced graph.old }
    requires room { length (operations_of graph.old) < 2 ^ 32 - 1 }
    ensures placed { IsPlaced graph.new }
    ensures added { AddsBody graph.old graph.new place (statement.now ∷ []) result }
{
    if let Some(kind) = statement_fault(graph, statement) {
        return Err(Refusal::Fault(TypeFault { place, kind }));
    }
    match graph.append(statement_op(alloc, statement)?) {
        Ok(_) => Ok(()),
        Err(_) => Err(Refusal::Memory),
    }
}

/// Adds the operations of the statements.
fn add_body(
    alloc: Global,
    graph: &mut Graph<FheLevel>,
    body: &[Statement],
) -> Result<(), TypeRefusal>
    requires placed { IsPlaced graph.old }
    requires room { length (operations_of graph.old) + length body.now < 2 ^ 32 - 1 }
    ensures placed { IsPlaced graph.new }
    ensures added { AddsBody graph.old graph.new 0 body.now result }
{
    for (place, statement) in body.iter().enumerate() {
        add_statement(alloc, graph, place as u32, statement)?;
    }
    Ok(())
}

/// Adds the operation of an argument.
fn append_argument(graph: &mut Graph<FheLevel>, arg: Arg) -> Result<(), AllocError>
    requires placed { IsPlaced graph.old }
    requires room { length (operations_of graph.old) < 2 ^ 32 - 1 }
    ensures placed { IsPlaced graph.new }
    ensures added { IfOk result (λ _. operations_of graph.new ≡ operations_of graph.old ++ argument_op arg ∷ []) }
{
    match graph.append(FheOp::Arg { ty: arg.ty }) {
        Ok(_) => Ok(()),
        Err(_) => Err(AllocError),
    }
}

/// Adds the operations of the arguments.
fn add_arguments(alloc: Global, args: &[Arg]) -> Result<Graph<FheLevel>, AllocError>
    requires { length args.now ≤ 64 }
    ensures placed { IfOk result (λ graph. IsPlaced graph) }
    ensures arguments { IfOk result (λ graph. operations_of graph ≡ map argument_op args.now) }
{
    let mut graph = Graph::new(alloc);
    for arg in args {
        append_argument(&mut graph, *arg)?;
    }
    Ok(graph)
}

/// The fault of what is returned, behind all operations.
fn return_fault(graph: &Graph<FheLevel>, source: &Source) -> Option<TypeFault>
    requires placed { IsPlaced graph.now }
    requires few { length source.now.body < 2 ^ 32 }
    ensures { result ≡ return_fault (types_in graph.now) source.now }
{
    let types = source.returned_types.as_slice();
    if are_types_of(graph, source.returned.as_slice(), types)
        && same_types(types, source.results.as_slice())
    {
        None
    } else {
        Some(TypeFault {
            place: source.body.len() as u32,
            kind: TypeKind::Return,
        })
    }
}

/// The ranges of arguments that keep those of their types.
fn argument_ranges(alloc: Global, args: &[Arg]) -> Result<List<(i64, i64)>, AllocError>
    requires widths { widest_arg args.now ≤ 16 }
    requires declared { argument_fault 0 args.now ≡ None }
    ensures { IfOk result (λ ranges. ranges ≡ map argument_range args.now) }
{
    let mut ranges = Vec::new(alloc);
    for arg in args {
        ranges.push(argument_range(*arg))?;
    }
    Ok(List::from_vec(ranges))
}

/// The program of a source, whose operations these are.
fn program_from(
    alloc: Global,
    graph: Graph<FheLevel>,
    source: &Source,
) -> Result<Program, AllocError>
    requires placed { IsPlaced graph }
    requires operations { operations_of graph ≡ operations_in source.now }
    requires widths { widest_arg source.now.args ≤ 16 }
    requires declared { argument_fault 0 source.now.args ≡ None }
    ensures { IfOk result (λ program. program ≡ program_of source.now) }
{
    let args = argument_ranges(alloc, source.args.as_slice())?;
    let results = copied_numbers(alloc, source.returned.as_slice())?;
    Ok(Program {
        graph,
        args,
        results,
    })
}

/// The program of a source, or the first of its checks of types that fails: each argument in order, then each operation
/// in order, then what is returned.
pub fn check_types(alloc: Global, source: &Source) -> Result<Program, TypeRefusal>
    requires { limit_fault source.now ≡ None }
    ensures { Gives (λ program. program) result (checked_program source.now) }
{
    if let Some(fault) = argument_fault(source.args.as_slice()) {
        return Err(Refusal::Fault(fault));
    }
    let mut graph = add_arguments(alloc, source.args.as_slice())?;
    add_body(alloc, &mut graph, source.body.as_slice())?;
    if let Some(fault) = return_fault(&graph, source) {
        return Err(Refusal::Fault(fault));
    }
    Ok(program_from(alloc, graph, source)?)
}
