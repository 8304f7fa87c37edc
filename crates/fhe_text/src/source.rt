//! The source of a program: its arguments, its statements and what it returns, without names.

use lists::List;

/// A type as it is written.
#[derive(Clone, Copy, PartialEq, Eq, Debug)]
pub enum WrittenType {
    /// An encrypted number of this many bits, `!FHE.eint<4>`.
    Eint(u32),
    /// A signed number of this many bits, from 1 to 64, `i5`.
    Int(u32),
    /// A tensor of this many such numbers, `tensor<16xi64>`.
    Tensor { length: u32, bits: u32 },
}

/// An argument: its type, and the least and the greatest number of its range where one is declared.
#[derive(Clone, Copy, PartialEq, Eq, Debug)]
pub struct Arg {
    pub ty: WrittenType,
    pub declared: Option<(i128, i128)>,
}

/// An operation.
#[derive(Clone, Copy, PartialEq, Eq, Debug)]
pub enum OpName {
    AddEint,
    AddEintInt,
    SubEint,
    SubEintInt,
    SubIntEint,
    NegEint,
    MulEintInt,
    Zero,
    ApplyLookupTable,
}

/// The entries of a constant tensor.
#[derive(Debug, Drop)]
pub enum Entries {
    /// Each entry, in order.
    List(List<i64>),
    /// The one number that stands for each entry.
    Splat(i64),
}

/// What a statement computes. Values are numbered, the arguments first and then the statements.
#[derive(Debug, Drop)]
pub enum Statement {
    /// A constant number.
    Int {
        value: i64,
        bits: u32,
    },
    /// A constant tensor.
    Dense {
        entries: Entries,
        length: u32,
        bits: u32,
    },
    /// An operation on the values with these numbers, with the types that are written for them and for its result.
    Op {
        name: OpName,
        operands: List<u32>,
        types: List<WrittenType>,
        result: WrittenType,
    },
}

/// A program.
#[derive(Debug, Drop)]
pub struct Source {
    pub args: List<Arg>,
    pub results: List<WrittenType>,
    pub body: List<Statement>,
    pub returned: List<u32>,
    pub returned_types: List<WrittenType>,
}
