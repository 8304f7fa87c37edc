//! Sources that are checked for their limits and their types.

ghost use Rattle.std.specs.Prelude.{◌≡◌, ◌<◌, ◌-◌, ◌^◌, ◌∷◌, ◌++◌, [], length, All, IfOk, pos};
ghost use Rattle.ir_core.specs.Placed.{operations_of, IsPlaced};
ghost use Rattle.fhe_level.specs.Operations.{operands_of};
ghost use Rattle.fhe_level.specs.Clearing.{IsClear};

use super::*;
use fhe_text::{Arg, Entries, OpName, Source, Statement, WrittenType};
use ir_core::Graph;
use refusals::Refusal;
use std::alloc::{AllocError, Global};
use std::process::Abort;
use std::test::Fail;

/// A list of these elements.
fn list_of<T: Copy>(alloc: Global, elements: &[T]) -> Result<List<T>, AllocError> {
    Ok(List::from_vec(elements.to_vec(alloc)?))
}

/// An operation.
fn op(
    alloc: Global,
    name: OpName,
    operands: &[u32],
    types: &[WrittenType],
    result_type: WrittenType,
) -> Result<Statement, AllocError> {
    Ok(Statement::Op {
        name,
        operands: list_of(alloc, operands)?,
        types: list_of(alloc, types)?,
        result: result_type,
    })
}

/// A function with these arguments and statements that returns values of one type.
fn function(
    alloc: Global,
    args: &[Arg],
    body: Vec<Statement>,
    returned: &[u32],
    ty: WrittenType,
) -> Result<Source, AllocError> {
    let types = vec![in alloc; ty; returned.len()]?;
    Ok(Source {
        args: list_of(alloc, args)?,
        results: list_of(alloc, types.as_slice())?,
        body: List::from_vec(body),
        returned: list_of(alloc, returned)?,
        returned_types: List::from_vec(types),
    })
}

/// An argument of so many bits, with the whole range of its type.
fn plain(width: u32) -> Arg {
    Arg {
        ty: WrittenType::Eint(width),
        declared: None,
    }
}

/// An argument of so many bits from 0 to a number.
fn up_to(width: u32, high: i128) -> Arg {
    Arg {
        ty: WrittenType::Eint(width),
        declared: Some((0, high)),
    }
}

/// 1, 2 and 3 times three arguments, and a table of so many entries at the sum.
fn weighted_look_up(alloc: Global, length: u32) -> Result<Source, AllocError> {
    let wide = WrittenType::Eint(4);
    let table = WrittenType::Tensor { length, bits: 64 };
    let mut body = Vec::new(alloc);
    body.push(Statement::Int { value: 2, bits: 5 })?;
    body.push(Statement::Int { value: 3, bits: 5 })?;
    body.push(op(
        alloc,
        OpName::MulEintInt,
        &[1, 3],
        &[wide, WrittenType::Int(5)],
        wide,
    )?)?;
    body.push(op(
        alloc,
        OpName::MulEintInt,
        &[2, 4],
        &[wide, WrittenType::Int(5)],
        wide,
    )?)?;
    body.push(op(alloc, OpName::AddEint, &[0, 5], &[wide, wide], wide)?)?;
    body.push(op(alloc, OpName::AddEint, &[7, 6], &[wide, wide], wide)?)?;
    body.push(Statement::Dense {
        entries: Entries::Splat(1),
        length,
        bits: 64,
    })?;
    body.push(op(
        alloc,
        OpName::ApplyLookupTable,
        &[8, 9],
        &[wide, table],
        wide,
    )?)?;
    function(
        alloc,
        &[up_to(4, 3), up_to(4, 3), up_to(4, 2)],
        body,
        &[10],
        wide,
    )
}

/// The fault of the types of a source.
fn type_fault_of(rt: &(impl Abort + AllocGlobal), source: &Source) -> Option<TypeFault> {
    assert!(rt; check_limits(source).is_none());
    match check_types(rt.alloc(), source) {
        Ok(_) => None,
        Err(Refusal::Fault(fault)) => Some(fault),
        Err(Refusal::Memory) => {
            assert!(rt; false, "there is memory");
            None
        }
    }
}

#[test]
fn a_program_has_the_operations_of_its_source(rt: HostRuntime) -> Result<(), Fail> {
    let source = weighted_look_up(rt.alloc(), 16)?;
    assert!(rt; check_limits(&source).is_none());
    let Ok(program) = check_types(rt.alloc(), &source) else {
        return Err(Fail::from("the types are right"));
    };
    assert_eq!(rt;
        program.args.as_slice(),
        [(0, 3), (0, 3), (0, 2)].as_slice()
    );
    assert_eq!(rt; program.results.as_slice(), [10].as_slice());
    assert_eq!(rt; program.graph.made(), 11);
    Ok(())
}

/// An operation on four values: `%0` of four bits, `%1` of three, a number, and tables of 16 and of 15 entries.
struct Row<'a> {
    name: OpName,
    operands: &'a [u32],
    types: &'a [WrittenType],
    result: WrittenType,
}

const WIDE: WrittenType = WrittenType::Eint(4);

const NARROW: WrittenType = WrittenType::Eint(3);

const NUMBER: WrittenType = WrittenType::Int(5);

const SIXTEEN: WrittenType = WrittenType::Tensor {
    length: 16,
    bits: 64,
};

const FIFTEEN: WrittenType = WrittenType::Tensor {
    length: 15,
    bits: 64,
};

/// The function of such an operation, which is its statement 3, where the first argument goes up to a number, and what
/// is returned has a type.
fn function_of_row(
    alloc: Global,
    row: &Row,
    high: i128,
    returned: WrittenType,
) -> Result<Source, AllocError> {
    let mut body = Vec::new(alloc);
    body.push(Statement::Int { value: 3, bits: 5 })?;
    body.push(Statement::Dense {
        entries: Entries::Splat(1),
        length: 16,
        bits: 64,
    })?;
    body.push(Statement::Dense {
        entries: Entries::Splat(1),
        length: 15,
        bits: 64,
    })?;
    body.push(op(alloc, row.name, row.operands, row.types, row.result)?)?;
    function(alloc, &[up_to(4, high), plain(3)], body, &[5], returned)
}

/// Rows that break no check, one of them for each operation.
const WHOLE: [Row<'static>; 10] = [
    Row {
        name: OpName::AddEint,
        operands: &[0, 0],
        types: &[WIDE, WIDE],
        result: WIDE,
    },
    Row {
        name: OpName::AddEintInt,
        operands: &[0, 2],
        types: &[WIDE, NUMBER],
        result: WIDE,
    },
    Row {
        name: OpName::SubEint,
        operands: &[0, 0],
        types: &[WIDE, WIDE],
        result: WIDE,
    },
    Row {
        name: OpName::SubEintInt,
        operands: &[1, 2],
        types: &[NARROW, NUMBER],
        result: NARROW,
    },
    Row {
        name: OpName::SubIntEint,
        operands: &[2, 0],
        types: &[NUMBER, WIDE],
        result: WIDE,
    },
    Row {
        name: OpName::NegEint,
        operands: &[1],
        types: &[NARROW],
        result: NARROW,
    },
    Row {
        name: OpName::MulEintInt,
        operands: &[0, 2],
        types: &[WIDE, NUMBER],
        result: WIDE,
    },
    Row {
        name: OpName::Zero,
        operands: &[],
        types: &[],
        result: NARROW,
    },
    Row {
        name: OpName::ApplyLookupTable,
        operands: &[0, 3],
        types: &[WIDE, SIXTEEN],
        result: WIDE,
    },
    Row {
        name: OpName::ApplyLookupTable,
        operands: &[0, 3],
        types: &[WIDE, SIXTEEN],
        result: NARROW,
    },
];

/// Rows that break a check, or several, with the first of them.
const BROKEN: [(Row<'static>, TypeKind); 16] = [
    // another number of operands, also where types, the row and the table are broken too
    (
        Row {
            name: OpName::AddEint,
            operands: &[0],
            types: &[WIDE],
            result: WIDE,
        },
        TypeKind::Arity,
    ),
    (
        Row {
            name: OpName::Zero,
            operands: &[0],
            types: &[WIDE],
            result: WIDE,
        },
        TypeKind::Arity,
    ),
    (
        Row {
            name: OpName::AddEint,
            operands: &[0],
            types: &[NARROW],
            result: WIDE,
        },
        TypeKind::Arity,
    ),
    (
        Row {
            name: OpName::NegEint,
            operands: &[0, 0],
            types: &[WIDE, WIDE],
            result: NARROW,
        },
        TypeKind::Arity,
    ),
    (
        Row {
            name: OpName::ApplyLookupTable,
            operands: &[0, 4, 4],
            types: &[WIDE, FIFTEEN, FIFTEEN],
            result: WIDE,
        },
        TypeKind::Arity,
    ),
    // too few types, and types that are not the operands' own, also where the row and the table are broken too
    (
        Row {
            name: OpName::AddEint,
            operands: &[0, 0],
            types: &[WIDE],
            result: WIDE,
        },
        TypeKind::Operand,
    ),
    (
        Row {
            name: OpName::AddEint,
            operands: &[0, 1],
            types: &[WIDE, WIDE],
            result: WIDE,
        },
        TypeKind::Operand,
    ),
    (
        Row {
            name: OpName::AddEintInt,
            operands: &[0, 2],
            types: &[WIDE, WrittenType::Int(6)],
            result: WIDE,
        },
        TypeKind::Operand,
    ),
    (
        Row {
            name: OpName::AddEint,
            operands: &[0, 1],
            types: &[WIDE, WIDE],
            result: NARROW,
        },
        TypeKind::Operand,
    ),
    (
        Row {
            name: OpName::ApplyLookupTable,
            operands: &[0, 4],
            types: &[WIDE, SIXTEEN],
            result: WIDE,
        },
        TypeKind::Operand,
    ),
    // types that are not those of the row, also where the table is broken too
    (
        Row {
            name: OpName::AddEint,
            operands: &[0, 1],
            types: &[WIDE, NARROW],
            result: WIDE,
        },
        TypeKind::Rule,
    ),
    (
        Row {
            name: OpName::SubIntEint,
            operands: &[0, 2],
            types: &[WIDE, NUMBER],
            result: WIDE,
        },
        TypeKind::Rule,
    ),
    (
        Row {
            name: OpName::NegEint,
            operands: &[0],
            types: &[WIDE],
            result: NUMBER,
        },
        TypeKind::Rule,
    ),
    (
        Row {
            name: OpName::ApplyLookupTable,
            operands: &[0, 4],
            types: &[WIDE, FIFTEEN],
            result: NUMBER,
        },
        TypeKind::Rule,
    ),
    // tables of another length
    (
        Row {
            name: OpName::ApplyLookupTable,
            operands: &[0, 4],
            types: &[WIDE, FIFTEEN],
            result: WIDE,
        },
        TypeKind::Table,
    ),
    (
        Row {
            name: OpName::ApplyLookupTable,
            operands: &[1, 3],
            types: &[NARROW, SIXTEEN],
            result: WIDE,
        },
        TypeKind::Table,
    ),
];

#[test]
fn operations_that_keep_their_rows(rt: HostRuntime) -> Result<(), Fail> {
    for row in &WHOLE {
        let source = function_of_row(rt.alloc(), row, 15, row.result)?;
        assert_eq!(rt; type_fault_of(&rt, &source), None);
    }
    Ok(())
}

#[test]
fn the_first_check_that_an_operation_breaks(rt: HostRuntime) -> Result<(), Fail> {
    for (row, kind) in &BROKEN {
        let source = function_of_row(rt.alloc(), row, 15, row.result)?;
        let fault = TypeFault {
            place: 3,
            kind: *kind,
        };
        assert_eq!(rt; type_fault_of(&rt, &source), Some(fault));
        // before what is returned,
        let source = function_of_row(rt.alloc(), row, 15, SIXTEEN)?;
        assert_eq!(rt; type_fault_of(&rt, &source), Some(fault));
        // and behind the arguments
        let source = function_of_row(rt.alloc(), row, 16, row.result)?;
        let fault = TypeFault {
            place: 0,
            kind: TypeKind::Declared,
        };
        assert_eq!(rt; type_fault_of(&rt, &source), Some(fault));
    }
    Ok(())
}

#[test]
fn faults_of_arguments_and_of_the_return(rt: HostRuntime) -> Result<(), Fail> {
    let alloc = rt.alloc();
    let empty = function(
        alloc,
        &[plain(3), up_to(2, -1)],
        Vec::new(alloc),
        &[0],
        NARROW,
    )?;
    let fault = TypeFault {
        place: 1,
        kind: TypeKind::Declared,
    };
    assert_eq!(rt; type_fault_of(&rt, &empty), Some(fault));
    let other = function(alloc, &[plain(3)], Vec::new(alloc), &[0], WIDE)?;
    let fault = TypeFault {
        place: 0,
        kind: TypeKind::Return,
    };
    assert_eq!(rt; type_fault_of(&rt, &other), Some(fault));
    let fifteen = weighted_look_up(alloc, 15)?;
    let fault = TypeFault {
        place: 7,
        kind: TypeKind::Table,
    };
    assert_eq!(rt; type_fault_of(&rt, &fifteen), Some(fault));
    Ok(())
}

/// The counts of statements and of look-ups of a function of so many statements, of which so many are look-ups.
fn limit_fault_at(
    alloc: Global,
    statements: usize,
    look_ups: usize,
) -> Result<Option<LimitFault>, AllocError> {
    let mut body = Vec::new(alloc);
    for place in 0..statements {
        let name = if place < look_ups {
            OpName::ApplyLookupTable
        } else {
            OpName::Zero
        };
        body.push(op(alloc, name, &[], &[], WIDE)?)?;
    }
    let source = function(alloc, &[plain(3)], body, &[0], NARROW)?;
    Ok(check_limits(&source))
}

#[test]
fn limits_of_statements_and_look_ups(rt: HostRuntime) -> Result<(), Fail> {
    let alloc = rt.alloc();
    assert_eq!(rt; limit_fault_at(alloc, 4096, 1024)?, None);
    let operations = LimitFault {
        what: LimitName::Operations,
        count: 4097,
        most: 4096,
    };
    assert_eq!(rt; limit_fault_at(alloc, 4097, 1025)?, Some(operations));
    let look_ups = LimitFault {
        what: LimitName::Lookups,
        count: 1025,
        most: 1024,
    };
    assert_eq!(rt; limit_fault_at(alloc, 4096, 1025)?, Some(look_ups));
    let returned = vec![in alloc; 0; 65]?;
    let many = function(
        alloc,
        &[plain(17)],
        Vec::new(alloc),
        returned.as_slice(),
        NARROW,
    )?;
    let results = LimitFault {
        what: LimitName::Results,
        count: 65,
        most: 64,
    };
    assert_eq!(rt; check_limits(&many), Some(results));
    Ok(())
}

#[test]
fn limits_at_their_numbers(rt: HostRuntime) -> Result<(), Fail> {
    let alloc = rt.alloc();
    let args = vec![in alloc; plain(16); 65]?;
    let most = function(
        alloc,
        &args.as_slice()[..64],
        Vec::new(alloc),
        &[0],
        WrittenType::Eint(16),
    )?;
    assert_eq!(rt; check_limits(&most), None);
    let past = function(
        alloc,
        args.as_slice(),
        Vec::new(alloc),
        &[0],
        WrittenType::Eint(17),
    )?;
    let fault = LimitFault {
        what: LimitName::Arguments,
        count: 65,
        most: 64,
    };
    assert_eq!(rt; check_limits(&past), Some(fault));
    let wide = function(
        alloc,
        &[plain(1)],
        Vec::new(alloc),
        &[0],
        WrittenType::Eint(17),
    )?;
    let fault = LimitFault {
        what: LimitName::Width,
        count: 17,
        most: 16,
    };
    assert_eq!(rt; check_limits(&wide), Some(fault));
    Ok(())
}

/// Adds an operation at the end.
fn append(graph: &mut Graph<FheLevel>, op: FheOp) -> Result<(), AllocError>
    requires placed { IsPlaced graph.old }
    requires earlier { All (λ operand. operand < length (operations_of graph.old)) (operands_of op) }
    requires few { length (operands_of op) < 2 ^ 32 }
    requires room { length (operations_of graph.old) < 2 ^ 32 - 1 }
    ensures placed { IsPlaced graph.new }
    ensures added { IfOk result (λ _. operations_of graph.new ≡ operations_of graph.old ++ op ∷ []) }
{
    match graph.append(op) {
        Ok(_) => Ok(()),
        Err(_) => Err(AllocError),
    }
}

/// Numbers of values.
fn numbers_of(alloc: Global, numbers: &[u32]) -> Result<List<u32>, AllocError>
    ensures { IfOk result (λ list. list ≡ numbers.now) }
{
    Ok(List::from_vec(numbers.to_vec(alloc)?))
}

/// The entries of a table.
fn entries_of(alloc: Global, entries: &[i64]) -> Result<Entries, AllocError>
    ensures { IfOk result (λ found. found ≡ Entries.List entries.now) }
{
    Ok(Entries::List(List::from_vec(entries.to_vec(alloc)?)))
}

/// The range of one argument.
fn one_range(alloc: Global, range: (i64, i64)) -> Result<List<(i64, i64)>, AllocError>
    ensures { IfOk result (λ list. list ≡ range ∷ []) }
{
    let mut ranges = Vec::new(alloc);
    ranges.push(range)?;
    Ok(List::from_vec(ranges))
}

/// The entry at twice an argument from 0 to 1.
fn doubled_look_up(alloc: Global) -> Result<Program, AllocError>
    ensures { IfOk result (λ program. IsClear program (pos 1 ∷ [])) }
{
    let ty = WrittenType::Eint(2);
    let mut graph = Graph::new(alloc);
    append(&mut graph, FheOp::Arg { ty })?;
    append(&mut graph, FheOp::Int { value: 2, bits: 5 })?;
    let product = FheOp::Apply {
        name: OpName::MulEintInt,
        operands: numbers_of(alloc, &[0, 1])?,
        ty,
    };
    append(&mut graph, product)?;
    let table = FheOp::Dense {
        entries: entries_of(alloc, &[1, 3, 2, 0])?,
        length: 4,
        bits: 64,
    };
    append(&mut graph, table)?;
    let look_up = FheOp::Apply {
        name: OpName::ApplyLookupTable,
        operands: numbers_of(alloc, &[2, 3])?,
        ty,
    };
    append(&mut graph, look_up)?;
    Ok(Program {
        graph,
        args: one_range(alloc, (0, 1))?,
        results: numbers_of(alloc, &[4])?,
    })
}

#[test]
fn the_entry_at_twice_the_argument(rt: HostRuntime) -> Result<(), Fail> {
    let program = doubled_look_up(rt.alloc())?;
    let values = clear(rt.alloc(), &program, &[1])?;
    assert_eq!(rt; values.as_slice(), [2].as_slice());
    Ok(())
}
