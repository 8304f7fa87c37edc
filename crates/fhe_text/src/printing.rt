//! Writing a program as its text.

ghost use Rattle.std.specs.Prelude.{◌≡◌, ◌++◌, ◌+◌, ◌<◌, ◌≤◌, ◌^◌, length, codes, OnOk, IfOk};
ghost use Rattle.std.specs.String.{string_bytes};
ghost use Rattle.std.specs.Fmt.{signed_decimal};
ghost use Rattle.fhe_text.specs.Printing.{comma_before, type_text, value_text, types_text, values_text, numbers_text, entries_text, statement_text, statement_line, statements_text, arg_text, args_text, results_text, program_text};
ghost use Rattle.fhe_text.specs.Faults.{Spells};
ghost use Rattle.fhe_text.specs.Spellable.{IsSpellable};

use crate::laws::laws;
use crate::op_names::op_literal;
use crate::source::{Arg, Entries, Source, Statement, WrittenType};
use std::alloc::{AllocError, Global};
use std::fmt::Write;

/// Writes a type.
fn put_type(text: &mut String, ty: WrittenType) -> Result<(), AllocError>
    ensures { OnOk result (string_bytes text.new ≡ string_bytes text.old ++ type_text ty) }
{
    match ty {
        WrittenType::Eint(width) => write!(text, "!FHE.eint<{width}>"),
        WrittenType::Int(bits) => write!(text, "i{bits}"),
        WrittenType::Tensor { length, bits } => write!(text, "tensor<{length}xi{bits}>"),
    }
}

/// Writes the name of a value: the arguments are numbered first.
fn put_value(text: &mut String, args: usize, value: u32) -> Result<(), AllocError>
    ensures { OnOk result (string_bytes text.new ≡ string_bytes text.old ++ value_text args value) }
{
    let place = value as usize;
    if place < args {
        write!(text, "%arg{place}")
    } else {
        let place = place - args;
        write!(text, "%{place}")
    }
}

/// Writes what stands between entries, before all but the first.
fn put_comma(text: &mut String, place: usize) -> Result<(), AllocError>
    ensures { OnOk result (string_bytes text.new ≡ string_bytes text.old ++ comma_before place) }
{
    if place > 0 {
        text.push_str(", ")
    } else {
        Ok(())
    }
}

/// Writes types, with `, ` between.
fn put_types(text: &mut String, types: &[WrittenType]) -> Result<(), AllocError>
    ensures { OnOk result (string_bytes text.new ≡ string_bytes text.old ++ types_text types.now) }
{
    for (place, ty) in types.iter().enumerate() {
        put_comma(text, place)?;
        put_type(text, *ty)?;
    }
    Ok(())
}

/// Writes the names of values, with `, ` between.
fn put_values(text: &mut String, args: usize, values: &[u32]) -> Result<(), AllocError>
    ensures { OnOk result (string_bytes text.new ≡ string_bytes text.old ++ values_text args values.now) }
{
    for (place, value) in values.iter().enumerate() {
        put_comma(text, place)?;
        put_value(text, args, *value)?;
    }
    Ok(())
}

/// Writes numbers, with `, ` between.
fn put_numbers(text: &mut String, numbers: &[i64]) -> Result<(), AllocError>
    ensures { OnOk result (string_bytes text.new ≡ string_bytes text.old ++ numbers_text numbers.now) }
{
    for (place, number) in numbers.iter().enumerate() {
        put_comma(text, place)?;
        put_number(text, number)?;
    }
    Ok(())
}

/// Writes a number.
fn put_number(text: &mut String, number: &i64) -> Result<(), AllocError>
    ensures { OnOk result (string_bytes text.new ≡ string_bytes text.old ++ signed_decimal number.now) }
{
    let number = *number;
    write!(text, "{number}")
}

/// Writes the entries of a tensor.
fn put_entries(text: &mut String, entries: &Entries) -> Result<(), AllocError>
    ensures { OnOk result (string_bytes text.new ≡ string_bytes text.old ++ entries_text entries.now) }
{
    match entries {
        Entries::List(numbers) => {
            text.push_str("[")?;
            put_numbers(text, numbers.as_slice())?;
            text.push_str("]")
        }
        Entries::Splat(value) => put_number(text, value),
    }
}

/// Writes what a statement computes.
fn put_statement(text: &mut String, args: usize, statement: &Statement) -> Result<(), AllocError>
    ensures { OnOk result (string_bytes text.new ≡ string_bytes text.old ++ statement_text args statement.now) }
{
    match statement {
        Statement::Int { value, bits } => {
            let (value, bits) = (*value, *bits);
            write!(text, "arith.constant {value} : i{bits}")
        }
        Statement::Dense {
            entries,
            length,
            bits,
        } => {
            let (length, bits) = (*length, *bits);
            text.push_str("arith.constant dense<")?;
            put_entries(text, entries)?;
            write!(text, "> : tensor<{length}xi{bits}>")
        }
        Statement::Op {
            name,
            operands,
            types,
            result: ty,
        } => {
            text.push_str(op_literal(*name))?;
            text.push_str("(")?;
            put_values(text, args, operands.as_slice())?;
            text.push_str(") : (")?;
            put_types(text, types.as_slice())?;
            text.push_str(") -> ")?;
            put_type(text, *ty)
        }
    }
}

/// Writes the statements, each on a line of its own.
fn put_statements(text: &mut String, args: usize, body: &[Statement]) -> Result<(), AllocError>
    ensures { OnOk result (string_bytes text.new ≡ string_bytes text.old ++ statements_text args 0 body.now) }
{
    for (place, statement) in body.iter().enumerate() {
        put_statement_line(text, args, place, statement)?;
    }
    Ok(())
}

/// Writes the line of a statement.
fn put_statement_line(
    text: &mut String,
    args: usize,
    place: usize,
    statement: &Statement,
) -> Result<(), AllocError>
    ensures { OnOk result (string_bytes text.new ≡ string_bytes text.old ++ statement_line args place statement.now) }
{
    write!(text, "  %{place} = ")?;
    put_statement(text, args, statement)?;
    text.push_str("\n")
}

/// Writes an argument.
fn put_arg(text: &mut String, place: usize, arg: &Arg) -> Result<(), AllocError>
    ensures { OnOk result (string_bytes text.new ≡ string_bytes text.old ++ arg_text place arg.now) }
{
    write!(text, "%arg{place}: ")?;
    put_type(text, arg.ty)?;
    match arg.declared {
        Some((low, high)) => { write!(text, " {{fhec.range = [{low}, {high}]}}") }
        None => Ok(()),
    }
}

/// Writes the arguments, with `, ` between.
fn put_args(text: &mut String, args: &[Arg]) -> Result<(), AllocError>
    ensures { OnOk result (string_bytes text.new ≡ string_bytes text.old ++ args_text args.now) }
{
    for (place, arg) in args.iter().enumerate() {
        put_comma(text, place)?;
        put_arg(text, place, arg)?;
    }
    Ok(())
}

/// Writes the types of the results: one alone, several in brackets.
fn put_results(text: &mut String, results: &[WrittenType]) -> Result<(), AllocError>
    ensures { OnOk result (string_bytes text.new ≡ string_bytes text.old ++ results_text results.now) }
{
    match results {
        [ty] => put_type(text, *ty),
        _ => {
            text.push_str("(")?;
            put_types(text, results)?;
            text.push_str(")")
        }
    }
}

/// How many values a source has: its lists lie in memory.
fn few_values(args: &[Arg], body: &[Statement])
    ensures { length args.now + length body.now < 2 ^ 65 }
{}

/// A program in its one layout, in which arguments and statements are named by their numbers. It fails only for memory.
///
/// The text spells the source, unless that breaks a rule of sources; none that was read does. So it is read back.
pub fn print_program(alloc: Global, source: &Source) -> Result<Vec<u8>, AllocError>
    ensures text { IfOk result (λ text. text.items ≡ program_text source.now) }
    ensures spells { IfOk result (λ text. IsSpellable source.now → Spells text.items source.now) }
{
    few_values(source.args.as_slice(), source.body.as_slice());
    laws();
    print_text(alloc, source)
}

/// The text of a program.
#[tactic(auto, unfolding(crate::specs::Printing::program_text))]
fn print_text(alloc: Global, source: &Source) -> Result<Vec<u8>, AllocError>
    ensures { IfOk result (λ text. text.items ≡ program_text source.now) }
{
    let args = source.args.len();
    let mut text = String::from_str(alloc, "func.func @main(")?;
    put_args(&mut text, source.args.as_slice())?;
    text.push_str(") -> ")?;
    put_results(&mut text, source.results.as_slice())?;
    text.push_str(" {\n")?;
    put_statements(&mut text, args, source.body.as_slice())?;
    text.push_str("  return ")?;
    put_values(&mut text, args, source.returned.as_slice())?;
    text.push_str(" : ")?;
    put_types(&mut text, source.returned_types.as_slice())?;
    text.push_str("\n}\n")?;
    Ok(text.into_bytes())
}
