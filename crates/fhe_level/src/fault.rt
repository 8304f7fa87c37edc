//! What is wrong with a source.

use refusals::Refusal;

/// What is counted.
#[derive(Clone, Copy, Debug, PartialEq, Eq)]
pub enum LimitName {
    /// The bytes of a file.
    Bytes,
    /// The statements of a program.
    Operations,
    /// The arguments.
    Arguments,
    /// The results.
    Results,
    /// The look-ups.
    Lookups,
    /// The greatest width of an encrypted type.
    Width,
    /// The greatest size among the weights and the constant of a form.
    Weight,
    /// The weights of all forms so far.
    Weights,
}

/// A counted quantity above its limit.
#[derive(Clone, Copy, Debug, PartialEq, Eq)]
pub struct LimitFault {
    pub what: LimitName,
    pub count: u128,
    pub most: u128,
}

/// What is wrong with a type.
#[derive(Clone, Copy, Debug, PartialEq, Eq)]
pub enum TypeKind {
    /// The range of an argument is empty, or leaves its type.
    Declared,
    /// An operation has another number of operands than its row.
    Arity,
    /// The types that are written for the operands are not their own.
    Operand,
    /// The types are not those of the operation's row.
    Rule,
    /// A table has another length than 2^p.
    Table,
    /// What is returned is not what the function promises.
    Return,
}

/// What is wrong, and the number of the argument or of the statement. The return counts as the statement after the
/// last.
#[derive(Clone, Copy, Debug, PartialEq, Eq)]
pub struct TypeFault {
    pub place: u32,
    pub kind: TypeKind,
}

/// Why a source is refused: what is wrong with its types, or that memory ran out.
pub type TypeRefusal = Refusal<TypeFault>;
