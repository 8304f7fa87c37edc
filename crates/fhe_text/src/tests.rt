use super::*;
use TextKind::{Constant, End, Name, Op, Shape, Syntax, Token};
use refusals::Refusal;
use std::alloc::AllocError;
use std::process::Abort;
use std::test::Fail;

/// A text, and the line, the column and the kind of its fault.
type Row = (&'static str, u32, u32, TextKind);

/// Each place was worked out by hand from the productions and the further conditions.
const FAULTS: [Row; 66] = [
    // the function
    ("x", 1, 1, Syntax),
    ("func.func f", 1, 11, Syntax),
    ("func.func @f {", 1, 14, Syntax),
    ("func.func @f(:", 1, 14, Syntax),
    ("func.func @f(%a !FHE.eint<2>", 1, 17, Syntax),
    ("func.func @f(%a: i5", 1, 18, Syntax),
    ("func.func @f(%a: !FHE.eint 2", 1, 28, Syntax),
    (
        "func.func @f(%a: !FHE.esint<2>) -> !FHE.eint<2> { return %a : !FHE.eint<2> }",
        1,
        18,
        Syntax,
    ),
    ("func.func @f(%a: !FHE.eint<0>", 1, 28, Syntax),
    ("func.func @f(%a: !FHE.eint<-2>", 1, 28, Syntax),
    ("func.func @f(%a: !FHE.eint<0000000002>", 1, 28, Syntax),
    ("func.func @f(%a: !FHE.eint<2,", 1, 29, Syntax),
    ("func.func @f(%a: !FHE.eint<2> %b", 1, 31, Syntax),
    ("func.func @f(%a: !FHE.eint<2>, )", 1, 32, Syntax),
    ("func.func @f(%a: !FHE.eint<2>, %a", 1, 32, Name),
    ("func.func @f() {", 1, 16, Syntax),
    ("func.func @f() -> i5", 1, 19, Syntax),
    ("func.func @f() -> ()", 1, 20, Syntax),
    ("func.func @f() -> (!FHE.eint<2>, )", 1, 34, Syntax),
    (
        "func.func @f() -> (!FHE.eint<2> !FHE.eint<2>",
        1,
        33,
        Syntax,
    ),
    ("func.func @f() -> !FHE.eint<2> return", 1, 32, Syntax),
    ("func.func @f() -> !FHE.eint<2> { return", 1, 34, Syntax),
    // dicts and ranges
    ("func.func @f(%a: !FHE.eint<2> {1", 1, 32, Syntax),
    ("func.func @f(%a: !FHE.eint<2> {p 1", 1, 34, Syntax),
    ("func.func @f(%a: !FHE.eint<2> {p = q", 1, 36, Syntax),
    ("func.func @f(%a: !FHE.eint<2> {p = 1 q", 1, 38, Syntax),
    ("func.func @f(%a: !FHE.eint<2> {p = 1 : 1", 1, 40, Syntax),
    ("func.func @f(%a: !FHE.eint<2> {p = 1, }", 1, 39, Syntax),
    ("func.func @f(%a: !FHE.eint<2> {fhec.range [", 1, 43, Syntax),
    (
        "func.func @f(%a: !FHE.eint<2> {fhec.range = 0",
        1,
        45,
        Syntax,
    ),
    (
        "func.func @f(%a: !FHE.eint<2> {fhec.range = []",
        1,
        46,
        Syntax,
    ),
    (
        "func.func @f(%a: !FHE.eint<2> {fhec.range = [0 1",
        1,
        48,
        Syntax,
    ),
    (
        "func.func @f(%a: !FHE.eint<2> {fhec.range = [0, 1 ,",
        1,
        51,
        Syntax,
    ),
    (
        "func.func @f(%a: !FHE.eint<2> {fhec.range = [0, 1], fhec.range",
        1,
        53,
        Syntax,
    ),
    (
        "func.func @f(%a: !FHE.eint<2> {fhec.range = [0, 170141183460469231731687303715884105728]",
        1,
        49,
        Constant,
    ),
    (
        "func.func @f(%a: !FHE.eint<2> {fhec.range = [-170141183460469231731687303715884105729,",
        1,
        46,
        Constant,
    ),
    ("func.func @f(%a: !FHE.eint<2> {} {", 1, 34, Syntax),
    // modules
    ("module func.func", 1, 8, Syntax),
    ("module { }", 1, 10, Syntax),
    ("module { module", 1, 10, Syntax),
    (
        "module { func.func @f(%a: !FHE.eint<2>) -> !FHE.eint<2> { return %a : !FHE.eint<2> } func.func",
        1,
        86,
        Syntax,
    ),
    (
        "module { func.func @f(%a: !FHE.eint<2>) -> !FHE.eint<2> { return %a : !FHE.eint<2> } } }",
        1,
        88,
        Syntax,
    ),
    // where no token starts, and the end
    ("", 1, 1, End),
    ("module", 1, 7, End),
    ("module\n", 2, 1, End),
    ("// a comment", 1, 13, End),
    ("func.func @f(", 1, 14, End),
    (
        "module { func.func @f(%a: !FHE.eint<2>) -> !FHE.eint<2> { return %a : !FHE.eint<2> }\n",
        2,
        1,
        End,
    ),
    ("%", 1, 1, Token),
    ("func.func @f(% $", 1, 14, Token),
    ("x $", 1, 1, Syntax),
    ("module {\n-", 2, 1, Token),
    ("\tx", 1, 2, Syntax),
    ("\r\n x", 2, 2, Syntax),
    ("// any text {\n\n  x", 3, 3, Syntax),
    ("module // {\n x", 2, 2, Syntax),
    (
        "func.func @f(%a: !FHE.eint<2>) -> !FHE.eint<2> { %b = arith.constant 3\n  : i5\n  %b",
        3,
        3,
        Name,
    ),
    // lines that end with CR LF or LF, tabs and comments
    (
        "func.func @f(%a: !FHE.eint<2>) -> !FHE.eint<2> {\r\n\t%b = \"FHE.neg\"",
        2,
        7,
        Op,
    ),
    (
        "module\t{\r\nfunc.func\t@f(%a:!FHE.eint<2>)->(!FHE.eint<2>){\r\n//\r\n\treturn\t%a:i5,$",
        4,
        15,
        Token,
    ),
    (
        "func.func @f(%a: !FHE.eint<2>) -> !FHE.eint<2> {\n  return %a : i5\n} // the end\n{",
        4,
        1,
        Syntax,
    ),
    (
        "func.func @f(%a: !FHE.eint<2>) -> !FHE.eint<2> {\n  return %a : i5\n",
        3,
        1,
        End,
    ),
    (
        "func.func @f(%a: !FHE.eint<2>) -> !FHE.eint<2> { return %a : i5 // }",
        1,
        69,
        End,
    ),
    (
        "func.func @f() -> !FHE.eint<2> {\n  func.return",
        2,
        3,
        Syntax,
    ),
    ("// one\r\n\r\n// two", 3, 7, End),
    (
        "func.func @f(%a: !FHE.eint<2> {fhec.range = [0, 3], p = 1,\n  fhec.range",
        2,
        3,
        Syntax,
    ),
    (
        "func.func @f(%a: !FHE.eint<2> {fhec.range = [-9223372036854775809, 9223372036854775808]},\n%b: !FHE.eint<2>, %a",
        2,
        19,
        Name,
    ),
];

/// The front of a function.
const FRONT: &str = "func.func @f(%a: !FHE.eint<2>) -> !FHE.eint<2> { ";

/// What stands behind the front, and the column and the kind of its fault in line 1, worked out in the same way.
const BODY_FAULTS: [(&str, u32, TextKind); 89] = [
    // the function
    ("}", 50, Syntax),
    ("return %a : !FHE.eint<2> } }", 77, Syntax),
    // names
    ("%a = arith.constant 1 : i5", 50, Name),
    ("%b = arith.constant 1 : i5 %b", 77, Name),
    ("%b = \"FHE.neg_eint\"(%b", 70, Name),
    ("%b = \"FHE.neg_eint\"(%c", 70, Name),
    ("return %b", 57, Name),
    ("return %a, %b", 61, Name),
    // constants
    ("%b :", 53, Syntax),
    ("%b = return", 55, Syntax),
    ("%b = arith.constant %a", 70, Syntax),
    ("%b = arith.constant 9223372036854775808 : i64", 70, Syntax),
    ("%b = arith.constant -9223372036854775809 : i64", 70, Syntax),
    ("%b = arith.constant 1 i5", 72, Syntax),
    ("%b = arith.constant 16 : i5", 75, Constant),
    ("%b = arith.constant -17 : i5", 76, Constant),
    ("%b = arith.constant 1 : i1", 74, Constant),
    ("%b = arith.constant 0 : i0", 74, Syntax),
    ("%b = arith.constant 0 : i65", 74, Syntax),
    ("%b = arith.constant 0 : i05", 74, Syntax),
    ("%b = arith.constant 0 : tensor", 74, Syntax),
    ("%b = arith.constant 0 : !FHE.eint", 74, Syntax),
    // tensors
    ("%b = arith.constant dense [", 76, Syntax),
    ("%b = arith.constant dense<>", 76, Syntax),
    ("%b = arith.constant dense<[]", 77, Syntax),
    ("%b = arith.constant dense<[1 2", 79, Syntax),
    ("%b = arith.constant dense<[1, ]", 80, Syntax),
    (
        "%b = arith.constant dense<[1,9223372036854775808",
        79,
        Syntax,
    ),
    (
        "%b = arith.constant dense<-9223372036854775809>",
        76,
        Syntax,
    ),
    ("%b = arith.constant dense<1> tensor", 79, Syntax),
    ("%b = arith.constant dense<1> : i5", 81, Syntax),
    (
        "%b = arith.constant dense<[1, 2]> : tensor<3xi5>",
        93,
        Shape,
    ),
    (
        "%b = arith.constant dense<[1, 2]> : tensor<1xi5>",
        93,
        Shape,
    ),
    ("%b = arith.constant dense<1> : tensor<0xi5>", 88, Shape),
    ("%b = arith.constant dense<1> : tensor<-0xi5>", 88, Shape),
    (
        "%b = arith.constant dense<1> : tensor<2147483649",
        88,
        Shape,
    ),
    ("%b = arith.constant dense<1> : tensor<xi5>", 88, Syntax),
    ("%b = arith.constant dense<1> : tensor<2i5>", 89, Syntax),
    ("%b = arith.constant dense<1> : tensor<2xi0>", 89, Syntax),
    ("%b = arith.constant dense<[0,1]>:tensor<2xi1", 91, Constant),
    ("%b = arith.constant dense<2> : tensor<4xi2>", 89, Constant),
    ("%b = arith.constant dense<1> : tensor<2xi5 ,", 93, Syntax),
    // operations
    ("%b = \"FHE.neg\"(%a)", 55, Op),
    ("%b = \"\"(%a)", 55, Op),
    ("%b = \"fhe.neg_eint\"(%a)", 55, Op),
    ("%b = \"FHE.neg_eint\" {", 70, Syntax),
    ("%b = \"FHE.neg_eint\"(1", 70, Syntax),
    ("%b = \"FHE.neg_eint\"(%a %a", 73, Syntax),
    ("%b = \"FHE.neg_eint\"(%a, )", 74, Syntax),
    ("%b = \"FHE.neg_eint\"(%a) (", 74, Syntax),
    ("%b = \"FHE.neg_eint\"(%a) {\"", 75, Token),
    ("%b = \"FHE.neg_eint\"(%a) {p = 1} {", 82, Syntax),
    ("%b = \"FHE.neg_eint\"(%a) : !FHE.eint", 76, Syntax),
    ("%b = \"FHE.neg_eint\"(%a) : (x", 77, Syntax),
    ("%b = \"FHE.neg_eint\"(%a) : (!FHE.eint<2> i5", 90, Syntax),
    ("%b = \"FHE.neg_eint\"(%a) : (!FHE.eint<2>, )", 91, Syntax),
    (
        "%b = \"FHE.neg_eint\"(%a) : (!FHE.eint<2>) !FHE",
        91,
        Syntax,
    ),
    ("%b = \"FHE.neg_eint\"(%a) : () -> i0", 82, Syntax),
    ("%b = \"FHE.neg_eint\"(%a) : () -> (i5 ,", 86, Syntax),
    ("%b = \"FHE.neg_eint\"(%a) : (tensor<0xi5>", 84, Shape),
    ("%b = \"FHE.neg_eint\"(%a) : (tensor<4xi65>", 85, Syntax),
    // the return
    ("return :", 57, Syntax),
    ("return %a, :", 61, Syntax),
    ("return %a !FHE.eint", 60, Syntax),
    ("return %a : }", 62, Syntax),
    ("return %a : i5 return", 65, Syntax),
    ("func.return %a : i5, }", 71, Syntax),
    // where no token starts, and the end
    ("return %a : !FHE.eint<2> ", 75, End),
    ("\"", 50, Token),
    ("return %a : !FHE.eint<2> } $", 77, Token),
    ("return %b : !FHE.eint<2> }", 57, Name),
    // later operands and values
    ("%b = \"FHE.add_eint\"(%a, %c", 74, Name),
    (
        "%b = \"FHE.zero\"() : () -> i5 %c = \"FHE.add_eint\"(%b, %d",
        103,
        Name,
    ),
    ("%b = \"FHE.zero\"() : () -> i5 return %b, %c", 90, Name),
    ("%b = \"FHE.add_eint \"", 55, Op),
    (
        "%b = \"FHE.neg_eint\"(%a) {p = 1, q = 2 : ui3, fhec.range [",
        106,
        Syntax,
    ),
    // numbers at their ends
    (
        "%b = arith.constant dense<[0, 1, -9223372036854775809",
        83,
        Syntax,
    ),
    (
        "%b = arith.constant dense<[-3, 1]> : tensor<2xi2",
        95,
        Constant,
    ),
    (
        "%b = arith.constant 9223372036854775807 : i63",
        92,
        Constant,
    ),
    (
        "%b = arith.constant -9223372036854775808 : i64 }",
        97,
        Syntax,
    ),
    (
        "%b = arith.constant dense<1> : tensor<002147483649xi5>",
        88,
        Shape,
    ),
    // written types of results and returned values
    ("%b = \"FHE.zero\"() : (i5, tensor<0xi5>", 82, Shape),
    ("%b = \"FHE.zero\"() : () -> tensor<0xi5>", 83, Shape),
    ("%b = \"FHE.zero\"() : () -> (tensor<2i5>", 85, Syntax),
    ("%b = \"FHE.zero\"() : () -> (i5) )", 81, Syntax),
    ("return %a : tensor<2147483649xi5>", 69, Shape),
    ("return %a : i5, tensor<4xi0>", 74, Syntax),
    ("return %a : !FHE.eint<1000000000>", 72, Syntax),
    ("func.return %a : i5 func.return", 70, Syntax),
];

/// Three arguments, a weighted sum and a table of squares.
const WEIGHTED_SUM: &str = r#"module {
  func.func @main(%arg0: !FHE.eint<4> {fhec.range = [0, 3]}, %arg1: !FHE.eint<4> {fhec.range = [0, 3]}, %arg2: !FHE.eint<4> {fhec.range = [0, 2]}) -> !FHE.eint<4> {
    %c2_i5 = arith.constant 2 : i5
    %c3_i5 = arith.constant 3 : i5
    %0 = "FHE.mul_eint_int"(%arg1, %c2_i5) : (!FHE.eint<4>, i5) -> !FHE.eint<4>
    %1 = "FHE.mul_eint_int"(%arg2, %c3_i5) : (!FHE.eint<4>, i5) -> !FHE.eint<4>
    %2 = "FHE.add_eint"(%arg0, %0) : (!FHE.eint<4>, !FHE.eint<4>) -> !FHE.eint<4>
    %3 = "FHE.add_eint"(%2, %1) : (!FHE.eint<4>, !FHE.eint<4>) -> !FHE.eint<4>
    %cst = arith.constant dense<[0, 1, 4, 9, 0, 9, 4, 1, 0, 1, 4, 9, 0, 9, 4, 1]> : tensor<16xi64>
    %4 = "FHE.apply_lookup_table"(%3, %cst) : (!FHE.eint<4>, tensor<16xi64>) -> !FHE.eint<4>
    return %4 : !FHE.eint<4>
  }
}
"#;

/// It in the layout that is printed.
const PRINTED_SUM: &str =
    r#"func.func @main(%arg0: !FHE.eint<4> {fhec.range = [0, 3]}, %arg1: !FHE.eint<4> {fhec.range = [0, 3]}, %arg2: !FHE.eint<4> {fhec.range = [0, 2]}) -> !FHE.eint<4> {
  %0 = arith.constant 2 : i5
  %1 = arith.constant 3 : i5
  %2 = "FHE.mul_eint_int"(%arg1, %0) : (!FHE.eint<4>, i5) -> !FHE.eint<4>
  %3 = "FHE.mul_eint_int"(%arg2, %1) : (!FHE.eint<4>, i5) -> !FHE.eint<4>
  %4 = "FHE.add_eint"(%arg0, %2) : (!FHE.eint<4>, !FHE.eint<4>) -> !FHE.eint<4>
  %5 = "FHE.add_eint"(%4, %3) : (!FHE.eint<4>, !FHE.eint<4>) -> !FHE.eint<4>
  %6 = arith.constant dense<[0, 1, 4, 9, 0, 9, 4, 1, 0, 1, 4, 9, 0, 9, 4, 1]> : tensor<16xi64>
  %7 = "FHE.apply_lookup_table"(%5, %6) : (!FHE.eint<4>, tensor<16xi64>) -> !FHE.eint<4>
  return %7 : !FHE.eint<4>
}
"#;

/// A program whose text is crowded, in that layout.
const PRINTED_CROWD: &str =
    r#"func.func @main(%arg0: !FHE.eint<4> {fhec.range = [0, 7]}, %arg1: !FHE.eint<3>) -> !FHE.eint<5> {
  return %arg1, %arg0 : i1
}
"#;

/// Constants and operations in that layout.
const PRINTED_CONSTANTS: &str = r#"func.func @main() -> (!FHE.eint<1>, !FHE.eint<2>) {
  %0 = arith.constant -9223372036854775808 : i64
  %1 = arith.constant 0 : i1
  %2 = arith.constant dense<[-1, 0]> : tensor<2xi1>
  %3 = arith.constant dense<-3> : tensor<2147483648xi3>
  %4 = "FHE.zero"() : () -> !FHE.eint<2>
  %5 = "FHE.sub_eint_int"(%4, %1) : (i2, i3) -> i4
  %6 = "FHE.sub_int_eint"() : () -> i3
  %7 = "FHE.add_eint_int"() : () -> i4
  %8 = "FHE.sub_eint"() : () -> i1
  %9 = "FHE.neg_eint"(%5) : () -> i1
  %10 = arith.constant 9223372036854775807 : i64
  return %9, %9 : i5, tensor<16xi64>
}
"#;

/// The fault of a text, where it has one.
fn fault_of(
    rt: &(impl AllocGlobal + Abort),
    bytes: &[u8],
) -> Result<Option<TextFault>, AllocError> {
    assert!(rt; bytes.len() <= 1 << 20);
    match read_program(rt.alloc(), bytes) {
        Ok(_) => Ok(None),
        Err(Refusal::Fault(fault)) => Ok(Some(fault)),
        Err(Refusal::Memory) => Err(AllocError),
    }
}

/// The source of a text.
fn source_of(rt: &(impl AllocGlobal + Abort), text: &[u8]) -> Result<Source, Fail> {
    assert!(rt; text.len() <= 1 << 20);
    Ok(read_program(rt.alloc(), text)?)
}

/// Whether the statement is this number with so many bits.
fn is_int(found: &Statement, number: i64, width: u32) -> bool {
    match found {
        Statement::Int { value, bits } => *value == number && *bits == width,
        _ => false,
    }
}

/// Whether the statement is a tensor of this list.
fn is_list(found: &Statement, wanted: &[i64], width: u32) -> bool {
    match found {
        Statement::Dense {
            entries: Entries::List(numbers),
            length,
            bits,
        } => { numbers.as_slice() == wanted && *length as usize == wanted.len() && *bits == width }
        _ => false,
    }
}

/// Whether the statement is a tensor of so many times this number.
fn is_splat(found: &Statement, number: i64, count: u32, width: u32) -> bool {
    match found {
        Statement::Dense {
            entries: Entries::Splat(value),
            length,
            bits,
        } => *value == number && *length == count && *bits == width,
        _ => false,
    }
}

/// Whether the statement is this operation on these values.
fn is_op(
    found: &Statement,
    op: OpName,
    values: &[u32],
    written: &[WrittenType],
    ty: WrittenType,
) -> bool {
    match found {
        Statement::Op {
            name,
            operands,
            types,
            result,
        } => {
            *name == op
                && operands.as_slice() == values
                && types.as_slice() == written
                && *result == ty
        }
        _ => false,
    }
}

#[test]
fn faults_stand_where_the_rules_put_them(rt: HostRuntime) -> Result<(), Fail> {
    for (text, line, column, kind) in FAULTS {
        let fault = TextFault { line, column, kind };
        assert_eq!(rt; fault_of(&rt, text.as_bytes())?, Some(fault), "in {text:?}");
    }
    Ok(())
}

#[test]
fn faults_of_bodies_stand_where_the_rules_put_them(rt: HostRuntime) -> Result<(), Fail> {
    for (behind, column, kind) in BODY_FAULTS {
        let mut text = String::from_str(rt.alloc(), FRONT)?;
        text.push_str(behind)?;
        let line = 1;
        let fault = TextFault { line, column, kind };
        assert_eq!(rt; fault_of(&rt, text.as_bytes())?, Some(fault), "in {text:?}");
    }
    Ok(())
}

#[test]
fn comments_hold_any_bytes(rt: HostRuntime) -> Result<(), Fail> {
    let fault = TextFault {
        line: 2,
        column: 2,
        kind: Syntax,
    };
    assert_eq!(rt; fault_of(&rt, b"// \xff\x00\"\n x")?, Some(fault));
    Ok(())
}

#[test]
fn a_weighted_sum_is_read(rt: HostRuntime) -> Result<(), Fail> {
    let source = source_of(&rt, WEIGHTED_SUM.as_bytes())?;
    let four = WrittenType::Eint(4);
    let arg = |most| Arg {
        ty: four,
        declared: Some((0, most)),
    };
    assert_eq!(rt; source.args.as_slice(), [arg(3), arg(3), arg(2)].as_slice());
    assert_eq!(rt; source.results.as_slice(), [four].as_slice());
    assert_eq!(rt; source.returned.as_slice(), [10].as_slice());
    assert_eq!(rt; source.returned_types.as_slice(), [four].as_slice());
    let body = source.body.as_slice();
    assert_eq!(rt; body.len(), 8);
    let weighed = [four, WrittenType::Int(5)];
    let squares = [0, 1, 4, 9, 0, 9, 4, 1, 0, 1, 4, 9, 0, 9, 4, 1];
    let looked_up = [
        four,
        WrittenType::Tensor {
            length: 16,
            bits: 64,
        },
    ];
    assert!(rt; body.first().is_some_and(|s| is_int(s, 2, 5)));
    assert!(rt; body.get(1).is_some_and(|s| is_int(s, 3, 5)));
    assert!(rt;
        body.get(2)
            .is_some_and(|s| is_op(s, OpName::MulEintInt, &[1, 3], &weighed, four))
    );
    assert!(rt;
        body.get(3)
            .is_some_and(|s| is_op(s, OpName::MulEintInt, &[2, 4], &weighed, four))
    );
    assert!(rt;
        body.get(4).is_some_and(|s| is_op(s, OpName::AddEint, &[0, 5], &[four, four], four))
    );
    assert!(rt;
        body.get(5).is_some_and(|s| is_op(s, OpName::AddEint, &[7, 6], &[four, four], four))
    );
    assert!(rt; body.get(6).is_some_and(|s| is_list(s, &squares, 64)));
    assert!(rt;
        body.get(7).is_some_and(|s| is_op(s, OpName::ApplyLookupTable, &[8, 9], &looked_up, four))
    );
    Ok(())
}

/// A module without blanks, an entry beside a range, `-0`, zeros before numbers, CR LF and a comment without a LF.
const CROWDED: &str =
    "module{func.func@f(%a:!FHE.eint<004>{p=1,fhec.range=[-0,007]},%-:!FHE.eint<3>{})->(!FHE.eint<5>){return\t%-,%a:i1}}\r\n//";

#[test]
fn blanks_comments_and_entries_change_nothing(rt: HostRuntime) -> Result<(), Fail> {
    let source = source_of(&rt, CROWDED.as_bytes())?;
    let first = Arg {
        ty: WrittenType::Eint(4),
        declared: Some((0, 7)),
    };
    let second = Arg {
        ty: WrittenType::Eint(3),
        declared: None,
    };
    assert_eq!(rt; source.args.as_slice(), [first, second].as_slice());
    assert_eq!(rt;
        source.results.as_slice(),
        [WrittenType::Eint(5)].as_slice()
    );
    assert!(rt; source.body.is_empty());
    assert_eq!(rt; source.returned.as_slice(), [1, 0].as_slice());
    assert_eq!(rt;
        source.returned_types.as_slice(),
        [WrittenType::Int(1)].as_slice()
    );
    Ok(())
}

/// Constants at the ends of their types, and operations in which entries and brackets stand.
const CONSTANTS: &str = r#"func.func @f() -> (!FHE.eint<1>, !FHE.eint<2>) {
  %b = arith.constant -9223372036854775808 : i64
  %c = arith.constant -0 : i1
  %d = arith.constant dense<[-1, 0]> : tensor<2xi1>
  %e = arith.constant dense<-3> : tensor<2147483648xi3> // the longest
  %z = "FHE.zero"() {MANP = 1 : ui1, fhec.range = 2} : () -> (!FHE.eint<2>)
  %1 = "FHE.sub_eint_int"(%z, %c) {} : (i2, i3) -> i4
  %2 = "FHE.sub_int_eint"() : () -> i3
  %3 = "FHE.add_eint_int"() : () -> i4
  %4 = "FHE.sub_eint"() : () -> i1
  %5 = "FHE.neg_eint"(%1) : () -> i1
  %6 = arith.constant 9223372036854775807 : i64
  func.return %5, %5 : i5, tensor<016xi64>
}"#;

#[test]
fn constants_reach_the_ends_of_their_types(rt: HostRuntime) -> Result<(), Fail> {
    let source = source_of(&rt, CONSTANTS.as_bytes())?;
    let body = source.body.as_slice();
    let int = |bits| WrittenType::Int(bits);
    assert_eq!(rt; body.len(), 11);
    assert!(rt; body.first().is_some_and(|s| is_int(s, i64::MIN, 64)));
    assert!(rt; body.get(1).is_some_and(|s| is_int(s, 0, 1)));
    assert!(rt; body.get(2).is_some_and(|s| is_list(s, &[-1, 0], 1)));
    assert!(rt; body.get(3).is_some_and(|s| is_splat(s, -3, 1 << 31, 3)));
    assert!(rt;
        body.get(4)
            .is_some_and(|s| is_op(s, OpName::Zero, &[], &[], WrittenType::Eint(2)))
    );
    assert!(rt;
        body.get(5).is_some_and(|s| is_op(
            s,
            OpName::SubEintInt,
            &[4, 1],
            &[int(2), int(3)],
            int(4)
        ))
    );
    assert!(rt;
        body.get(6)
            .is_some_and(|s| is_op(s, OpName::SubIntEint, &[], &[], int(3)))
    );
    assert!(rt;
        body.get(7)
            .is_some_and(|s| is_op(s, OpName::AddEintInt, &[], &[], int(4)))
    );
    assert!(rt;
        body.get(8)
            .is_some_and(|s| is_op(s, OpName::SubEint, &[], &[], int(1)))
    );
    assert!(rt;
        body.get(9)
            .is_some_and(|s| is_op(s, OpName::NegEint, &[5], &[], int(1)))
    );
    assert!(rt; body.get(10).is_some_and(|s| is_int(s, i64::MAX, 64)));
    let tensor = WrittenType::Tensor {
        length: 16,
        bits: 64,
    };
    assert_eq!(rt;
        source.results.as_slice(),
        [WrittenType::Eint(1), WrittenType::Eint(2)].as_slice()
    );
    assert_eq!(rt; source.returned.as_slice(), [9, 9].as_slice());
    assert_eq!(rt;
        source.returned_types.as_slice(),
        [int(5), tensor].as_slice()
    );
    Ok(())
}

#[test]
fn programs_are_printed_in_one_layout_and_read_back(rt: HostRuntime) -> Result<(), Fail> {
    let layouts = [
        (WEIGHTED_SUM, PRINTED_SUM),
        (CROWDED, PRINTED_CROWD),
        (CONSTANTS, PRINTED_CONSTANTS),
    ];
    for (text, layout) in layouts {
        let once = print_program(rt.alloc(), &source_of(&rt, text.as_bytes())?)?;
        assert_eq!(rt; once.as_slice(), layout.as_bytes());
        let again = print_program(rt.alloc(), &source_of(&rt, once.as_slice())?)?;
        assert_eq!(rt; again.as_slice(), layout.as_bytes());
    }
    Ok(())
}

#[test]
fn the_laws_are_promised() {
    laws::laws();
}
