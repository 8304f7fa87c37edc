//! Programs and their patterns.

ghost use Rattle.std.specs.Prelude.{◌≡◌, None, IfOk, OnOk};
ghost use Rattle.fhe_text.specs.Spellable.{IsSpellable};
ghost use Rattle.fhe_level.specs.Limits.{limit_fault};
ghost use Rattle.fhe_level.specs.Checked.{IsChecked};

use super::*;
use fhe_level::{FheOp, Program, check_limits, check_types};
use fhe_text::{Entries, OpName, Source, read_program};
use live_patterns::Patterns;
use refusals::Refusal;
use std::alloc::Global;
use std::fmt::Write;
use std::test::Fail;

/// Refuses a source with a count above its limit.
fn counted(source: &Source) -> Result<(), Fail>
    ensures { OnOk result (limit_fault source.now ≡ None) }
{
    match check_limits(source) {
        Some(_) => Err(Fail::from("the counts are within their limits")),
        None => Ok(()),
    }
}

/// The program of a source.
fn typed(alloc: Global, source: &Source) -> Result<Program, Fail>
    requires rules { IsSpellable source.now }
    requires within { limit_fault source.now ≡ None }
    ensures { IfOk result IsChecked }
{
    fhe_level::laws::checked();
    match check_types(alloc, source) {
        Ok(program) => Ok(program),
        Err(_) => Err(Fail::from("the types are right")),
    }
}

/// The program of a text.
fn program_of(alloc: Global, text: &str) -> Result<Program, Fail>
    ensures { IfOk result IsChecked }
{
    if text.len() > 1 << 20 {
        return Err(Fail::from("the text is short"));
    }
    match read_program(alloc, text.as_bytes()) {
        Ok(source) => {
            counted(&source)?;
            typed(alloc, &source)
        }
        Err(_) => Err(Fail::from("the text is read")),
    }
}

/// The arguments, the look-ups and the results, a line each.
fn lines(alloc: Global, patterns: &Patterns) -> Result<String, Fail> {
    let mut text = String::new(alloc);
    for (lo, hi) in patterns.inputs.as_slice() {
        write!(text, "input {lo} {hi}\n")?;
    }
    for look in patterns.looks.as_slice() {
        let (form, entries) = (&look.form, &look.entries);
        write!(text, "look {form:?} {entries:?}\n")?;
    }
    for form in patterns.outs.as_slice() {
        write!(text, "out {form:?}\n")?;
    }
    Ok(text)
}

/// The patterns of a text, or its fault, as lines.
fn formed(alloc: Global, text: &str) -> Result<String, Fail> {
    let program = program_of(alloc, text)?;
    match patterns_found(alloc, &program) {
        Ok(patterns) => lines(alloc, &patterns),
        Err(Refusal::Fault(fault)) => Ok(format!(in alloc; "{fault:?}\n")?),
        Err(Refusal::Memory) => Err(Fail::from("there is memory")),
    }
}

#[test]
fn a_weighted_sum_and_a_table(rt: HostRuntime) -> Result<(), Fail> {
    let text =
        "func.func @main(%a: !FHE.eint<4> {fhec.range = [0, 3]}, %b: !FHE.eint<4> {fhec.range = [0, 3]}, %c: !FHE.eint<4> {fhec.range = [0, 2]}) -> !FHE.eint<4> {
  %c2 = arith.constant 2 : i5
  %c3 = arith.constant 3 : i5
  %0 = \"FHE.mul_eint_int\"(%b, %c2) : (!FHE.eint<4>, i5) -> !FHE.eint<4>
  %1 = \"FHE.mul_eint_int\"(%c, %c3) : (!FHE.eint<4>, i5) -> !FHE.eint<4>
  %2 = \"FHE.add_eint\"(%a, %0) : (!FHE.eint<4>, !FHE.eint<4>) -> !FHE.eint<4>
  %3 = \"FHE.add_eint\"(%2, %1) : (!FHE.eint<4>, !FHE.eint<4>) -> !FHE.eint<4>
  %t = arith.constant dense<[0, 1, 4, 9, 0, 9, 4, 1, 0, 1, 4, 9, 0, 9, 4, 1]> : tensor<16xi64>
  %4 = \"FHE.apply_lookup_table\"(%3, %t) : (!FHE.eint<4>, tensor<16xi64>) -> !FHE.eint<4>
  return %4 : !FHE.eint<4>
}";
    let want = "input 0 3
input 0 3
input 0 2
look Form { constant: 0, terms: List { elements: [(0, 1), (1, 2), (2, 3)] } } List { elements: [0, 1, 4, 9, 0, 9, 4, 1, 0, 1, 4, 9, 0, 9, 4, 1] }
out Form { constant: 0, terms: List { elements: [(3, 1)] } }
";
    assert_eq!(rt; formed(rt.alloc(), text)?.as_str(), want);
    Ok(())
}

/// A function of one argument, with these statements, that returns a value of this type.
fn of_one(
    alloc: Global,
    argument: &str,
    statements: &str,
    returned: &str,
    ty: &str,
) -> Result<String, Fail> {
    let text = format!(in alloc;
        "func.func @f(%x: {argument}) -> {ty} {{\n{statements}\n  return {returned} : {ty}\n}}\n"
    )?;
    formed(alloc, text.as_str())
}

#[test]
fn a_look_up_on_one_number_is_a_constant(rt: HostRuntime) -> Result<(), Fail> {
    let statements = "  %d = \"FHE.sub_eint\"(%x, %x) : (!FHE.eint<2>, !FHE.eint<2>) -> !FHE.eint<2>
  %t = arith.constant dense<[5, 0, 0, 0]> : tensor<4xi64>
  %y = \"FHE.apply_lookup_table\"(%d, %t) : (!FHE.eint<2>, tensor<4xi64>) -> !FHE.eint<3>";
    let want = "input 0 3
out Form { constant: 5, terms: List { elements: [] } }
";
    let found = of_one(rt.alloc(), "!FHE.eint<2>", statements, "%y", "!FHE.eint<3>")?;
    assert_eq!(rt; found.as_str(), want);
    Ok(())
}

#[test]
fn a_look_up_on_a_declared_range(rt: HostRuntime) -> Result<(), Fail> {
    let statements = "  %t = arith.constant dense<[0, 0, 5, 6, 7, 1, 0, 0]> : tensor<8xi64>
  %y = \"FHE.apply_lookup_table\"(%x, %t) : (!FHE.eint<3>, tensor<8xi64>) -> !FHE.eint<3>";
    let want = "input 2 5
look Form { constant: -2, terms: List { elements: [(0, 1)] } } List { elements: [5, 6, 7, 1] }
out Form { constant: 0, terms: List { elements: [(1, 1)] } }
";
    let found = of_one(
        rt.alloc(),
        "!FHE.eint<3> {fhec.range = [2, 5]}",
        statements,
        "%y",
        "!FHE.eint<3>",
    )?;
    assert_eq!(rt; found.as_str(), want);
    Ok(())
}

#[test]
fn equal_patterns_are_one_leaf(rt: HostRuntime) -> Result<(), Fail> {
    // The tables differ past the greatest value of the argument, and the middle one is another pattern.
    let statements = "  %s = arith.constant dense<[1, 3, 0, 2]> : tensor<4xi64>
  %t = arith.constant dense<[0, 1, 2, 3]> : tensor<4xi64>
  %u = arith.constant dense<[1, 3, 0, 9]> : tensor<4xi64>
  %a = \"FHE.apply_lookup_table\"(%x, %s) : (!FHE.eint<2>, tensor<4xi64>) -> !FHE.eint<2>
  %b = \"FHE.apply_lookup_table\"(%x, %t) : (!FHE.eint<2>, tensor<4xi64>) -> !FHE.eint<2>
  %c = \"FHE.apply_lookup_table\"(%x, %u) : (!FHE.eint<2>, tensor<4xi64>) -> !FHE.eint<2>
  %d = \"FHE.sub_eint\"(%a, %c) : (!FHE.eint<2>, !FHE.eint<2>) -> !FHE.eint<2>
  %e = \"FHE.add_eint\"(%d, %b) : (!FHE.eint<2>, !FHE.eint<2>) -> !FHE.eint<2>";
    let want = "input 0 2
look Form { constant: 0, terms: List { elements: [(0, 1)] } } List { elements: [1, 3, 0] }
look Form { constant: 0, terms: List { elements: [(0, 1)] } } List { elements: [0, 1, 2] }
out Form { constant: 0, terms: List { elements: [(2, 1)] } }
";
    let found = of_one(
        rt.alloc(),
        "!FHE.eint<2> {fhec.range = [0, 2]}",
        statements,
        "%e",
        "!FHE.eint<2>",
    )?;
    assert_eq!(rt; found.as_str(), want);
    Ok(())
}

#[test]
fn patterns_differ_by_their_constants(rt: HostRuntime) -> Result<(), Fail> {
    let statements = "  %one = arith.constant 1 : i3
  %s = arith.constant dense<[0, 1, 1, 0]> : tensor<4xi64>
  %m = arith.constant dense<[0, 1, 0, 0]> : tensor<4xi64>
  %p = \"FHE.sub_int_eint\"(%one, %x) : (i3, !FHE.eint<2>) -> !FHE.eint<2>
  %a = \"FHE.apply_lookup_table\"(%x, %s) : (!FHE.eint<2>, tensor<4xi64>) -> !FHE.eint<2>
  %b = \"FHE.apply_lookup_table\"(%p, %m) : (!FHE.eint<2>, tensor<4xi64>) -> !FHE.eint<2>
  %e = \"FHE.add_eint\"(%a, %b) : (!FHE.eint<2>, !FHE.eint<2>) -> !FHE.eint<2>";
    let want = "input 0 1
look Form { constant: 0, terms: List { elements: [(0, 1)] } } List { elements: [0, 1] }
look Form { constant: 1, terms: List { elements: [(0, -1)] } } List { elements: [0, 1] }
out Form { constant: 0, terms: List { elements: [(1, 1), (2, 1)] } }
";
    let found = of_one(
        rt.alloc(),
        "!FHE.eint<2> {fhec.range = [0, 1]}",
        statements,
        "%e",
        "!FHE.eint<2>",
    )?;
    assert_eq!(rt; found.as_str(), want);
    Ok(())
}

#[test]
fn a_dead_statement_is_checked(rt: HostRuntime) -> Result<(), Fail> {
    let statements = "  %t = arith.constant dense<[0, 1, 2, 4]> : tensor<4xi64>
  %dead = \"FHE.apply_lookup_table\"(%x, %t) : (!FHE.eint<2>, tensor<4xi64>) -> !FHE.eint<2>";
    let found = of_one(rt.alloc(), "!FHE.eint<2>", statements, "%x", "!FHE.eint<2>")?;
    assert_eq!(rt; found.as_str(), "Range { op: 1, lo: 0, hi: 4 }\n");
    Ok(())
}

#[test]
fn a_sum_past_its_type(rt: HostRuntime) -> Result<(), Fail> {
    let statements =
        "  %s = \"FHE.add_eint\"(%x, %x) : (!FHE.eint<2>, !FHE.eint<2>) -> !FHE.eint<2>";
    let found = of_one(
        rt.alloc(),
        "!FHE.eint<2> {fhec.range = [0, 2]}",
        statements,
        "%s",
        "!FHE.eint<2>",
    )?;
    assert_eq!(rt; found.as_str(), "Range { op: 0, lo: 0, hi: 4 }\n");
    Ok(())
}

#[test]
fn a_weight_past_its_limit(rt: HostRuntime) -> Result<(), Fail> {
    let statements = "  %c = arith.constant 1048576 : i64
  %a = \"FHE.mul_eint_int\"(%x, %c) : (!FHE.eint<2>, i64) -> !FHE.eint<2>
  %b = \"FHE.mul_eint_int\"(%a, %c) : (!FHE.eint<2>, i64) -> !FHE.eint<2>
  %d = \"FHE.mul_eint_int\"(%b, %c) : (!FHE.eint<2>, i64) -> !FHE.eint<2>";
    let found = of_one(
        rt.alloc(),
        "!FHE.eint<2> {fhec.range = [0, 0]}",
        statements,
        "%d",
        "!FHE.eint<2>",
    )?;
    assert_eq!(rt;
        found.as_str(),
        "Limit(LimitFault { what: Weight, count: 1152921504606846976, most: 1099511627776 })\n"
    );
    Ok(())
}

#[test]
fn an_entry_that_is_a_constant_past_its_limit(rt: HostRuntime) -> Result<(), Fail> {
    let statements = "  %t = arith.constant dense<-1099511627777> : tensor<4xi64>
  %y = \"FHE.apply_lookup_table\"(%x, %t) : (!FHE.eint<2>, tensor<4xi64>) -> !FHE.eint<2>";
    let folded = of_one(
        rt.alloc(),
        "!FHE.eint<2> {fhec.range = [1, 1]}",
        statements,
        "%y",
        "!FHE.eint<2>",
    )?;
    assert_eq!(rt;
        folded.as_str(),
        "Limit(LimitFault { what: Weight, count: 1099511627777, most: 1099511627776 })\n"
    );
    let looked = of_one(rt.alloc(), "!FHE.eint<2>", statements, "%y", "!FHE.eint<2>")?;
    assert_eq!(rt;
        looked.as_str(),
        "Range { op: 1, lo: -1099511627777, hi: -1099511627777 }\n"
    );
    Ok(())
}

#[test]
fn results_that_are_leaves_and_constants(rt: HostRuntime) -> Result<(), Fail> {
    let text = "func.func @f(%x: !FHE.eint<2>) -> (!FHE.eint<2>, !FHE.eint<2>, !FHE.eint<2>) {
  %z = \"FHE.zero\"() : () -> !FHE.eint<2>
  return %x, %z, %x : !FHE.eint<2>, !FHE.eint<2>, !FHE.eint<2>
}";
    let want = "input 0 3
out Form { constant: 0, terms: List { elements: [(0, 1)] } }
out Form { constant: 0, terms: List { elements: [] } }
out Form { constant: 0, terms: List { elements: [(0, 1)] } }
";
    assert_eq!(rt; formed(rt.alloc(), text)?.as_str(), want);
    Ok(())
}

// ---- values, by plain evaluators

/// The number at a place, and 0 past the end.
fn number_at(numbers: &[i64], place: u32) -> i64 {
    numbers.get(place as usize).copied().unwrap_or(0)
}

/// A number as a place, and a place past all lists for every other number.
fn place_of(index: i64) -> u32 {
    u32::try_from(index).unwrap_or(u32::MAX)
}

/// The entry at a number of the table with this number.
fn entry_of(program: &Program, table: u32, index: i64) -> i64 {
    if !program.graph.holds(table) {
        return 0;
    }
    match program.graph.op(table) {
        FheOp::Dense {
            entries: Entries::List(list),
            ..
        } => number_at(list.as_slice(), place_of(index)),
        FheOp::Dense {
            entries: Entries::Splat(value),
            ..
        } => *value,
        FheOp::Arg { .. } | FheOp::Int { .. } | FheOp::Apply { .. } => 0,
    }
}

/// The number that an operation gives.
fn applied(program: &Program, room: &[i64], name: OpName, operands: &[u32]) -> i64 {
    let first = operands.first().copied().unwrap_or(0);
    let last = operands.last().copied().unwrap_or(0);
    let (a, b) = (number_at(room, first), number_at(room, last));
    match name {
        OpName::AddEint | OpName::AddEintInt => a.wrapping_add(b),
        OpName::SubEint | OpName::SubEintInt | OpName::SubIntEint => a.wrapping_sub(b),
        OpName::NegEint => a.wrapping_neg(),
        OpName::MulEintInt => a.wrapping_mul(b),
        OpName::Zero => 0,
        OpName::ApplyLookupTable => entry_of(program, last, a),
    }
}

/// The values of the results of a program.
fn program_values(alloc: Global, program: &Program, inputs: &[i64]) -> Result<Vec<i64>, Fail> {
    let mut room: Vec<i64> = Vec::new(alloc);
    for number in 0..program.graph.made() {
        if program.graph.holds(number) {
            let value = match program.graph.op(number) {
                FheOp::Arg { .. } => number_at(inputs, number),
                FheOp::Int { value, .. } => *value,
                FheOp::Dense { .. } => 0,
                FheOp::Apply { name, operands, .. } => {
                    applied(program, room.as_slice(), *name, operands.as_slice())
                }
            };
            room.push(value)?;
        }
    }
    let mut values = Vec::new(alloc);
    for result in program.results.as_slice() {
        values.push(number_at(room.as_slice(), *result))?;
    }
    Ok(values)
}

/// The value of a form.
fn form_value(constant: i64, terms: &[(u32, i64)], room: &[i64]) -> i64 {
    let mut value = constant;
    for (leaf, weight) in terms {
        value = value.wrapping_add(weight.wrapping_mul(number_at(room, *leaf)));
    }
    value
}

/// The values of the results of patterns.
fn pattern_values(alloc: Global, patterns: &Patterns, inputs: &[i64]) -> Result<Vec<i64>, Fail> {
    let mut room: Vec<i64> = Vec::new(alloc);
    room.extend_from_slice(inputs)?;
    for look in patterns.looks.as_slice() {
        let index = form_value(
            look.form.constant,
            look.form.terms.as_slice(),
            room.as_slice(),
        );
        room.push(number_at(look.entries.as_slice(), place_of(index)))?;
    }
    let mut values = Vec::new(alloc);
    for form in patterns.outs.as_slice() {
        values.push(form_value(form.constant, form.terms.as_slice(), room.as_slice()))?;
    }
    Ok(values)
}

#[test]
fn patterns_have_the_values_of_their_program(rt: HostRuntime) -> Result<(), Fail> {
    let alloc = rt.alloc();
    let text =
        "func.func @f(%x: !FHE.eint<3> {fhec.range = [1, 4]}, %y: !FHE.eint<3> {fhec.range = [0, 3]}) -> (!FHE.eint<3>, !FHE.eint<3>, !FHE.eint<3>) {
  %one = arith.constant 1 : i4
  %two = arith.constant 2 : i4
  %ten = arith.constant 7 : i4
  %t = arith.constant dense<[3, 1, 0, 2, 1, 0, 3, 2]> : tensor<8xi64>
  %u = arith.constant dense<1> : tensor<8xi64>
  %s = \"FHE.add_eint\"(%x, %y) : (!FHE.eint<3>, !FHE.eint<3>) -> !FHE.eint<3>
  %r = \"FHE.sub_int_eint\"(%ten, %s) : (i4, !FHE.eint<3>) -> !FHE.eint<3>
  %a = \"FHE.apply_lookup_table\"(%s, %t) : (!FHE.eint<3>, tensor<8xi64>) -> !FHE.eint<3>
  %dead = \"FHE.apply_lookup_table\"(%y, %t) : (!FHE.eint<3>, tensor<8xi64>) -> !FHE.eint<3>
  %b = \"FHE.apply_lookup_table\"(%r, %t) : (!FHE.eint<3>, tensor<8xi64>) -> !FHE.eint<3>
  %c = \"FHE.mul_eint_int\"(%a, %two) : (!FHE.eint<3>, i4) -> !FHE.eint<3>
  %d = \"FHE.apply_lookup_table\"(%c, %u) : (!FHE.eint<3>, tensor<8xi64>) -> !FHE.eint<3>
  %e = \"FHE.add_eint\"(%b, %d) : (!FHE.eint<3>, !FHE.eint<3>) -> !FHE.eint<3>
  %f = \"FHE.apply_lookup_table\"(%e, %t) : (!FHE.eint<3>, tensor<8xi64>) -> !FHE.eint<3>
  %g = \"FHE.sub_eint_int\"(%x, %one) : (!FHE.eint<3>, i4) -> !FHE.eint<3>
  return %f, %r, %g : !FHE.eint<3>, !FHE.eint<3>, !FHE.eint<3>
}";
    let program = program_of(alloc, text)?;
    let Ok(patterns) = patterns_found(alloc, &program) else {
        return Err(Fail::from("the ranges fit"));
    };
    for x in 1..=4 {
        for y in 0..=3 {
            let inputs = [x, y];
            assert_eq!(rt;
                pattern_values(alloc, &patterns, &inputs)?.as_slice(),
                program_values(alloc, &program, &inputs)?.as_slice()
            );
        }
    }
    Ok(())
}
