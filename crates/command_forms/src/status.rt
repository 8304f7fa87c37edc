//! What a command answers.

ghost use Rattle.std.specs.Prelude.{◌≡◌};
ghost use Rattle.command_forms.specs.Outcome.{answer_of};
ghost use Rattle.command_forms.specs.Refusals.{status_of};

use crate::fault::{CertFile, Fault, StepRefusal};
use circuit_file::CircuitFault;
use fhe_level::{LimitFault, TypeKind};
use fhe_params::TableFault;
use fhe_text::TextKind;
use sealed_files::{FileFault, FileKind};
use value_files::ValueKind;

/// What a command answers.
#[derive(Clone, Copy, Debug, PartialEq, Eq)]
pub enum Status {
    /// The command was done.
    Ok,
    /// The words are no command, two of its files have one name, or EVAL does not fit the circuit.
    Usage,
    /// The program file is no program text: the place of a byte, its line and column counted from 1, and why.
    Text {
        line: u32,
        column: u32,
        kind: TextKind,
    },
    /// The types of the program break a rule at an argument or a statement, counted from 0.
    Typing {
        place: u32,
        kind: TypeKind,
    },
    /// The form of a statement, counted from 0, leaves its type: its least value and its greatest.
    Range {
        op: u32,
        lo: i128,
        hi: i128,
    },
    /// Every choice of parameters breaks a constraint.
    NoChoice,
    /// The table file is no table.
    Table(TableFault),
    /// The circuit file is no circuit text.
    Circuit(CircuitFault),
    /// A key or ciphertext file breaks its format, or differs from what it is used with.
    File(FileKind, FileFault),
    /// A line of the value file, counted from 1, is no value that is asked for; or a result, counted from 1, decodes
    /// to none.
    Value {
        line: u32,
        kind: ValueKind,
    },
    /// A counted quantity is above its limit.
    Limit(LimitFault),
    /// A file could not be read.
    Read,
    /// A file or standard output could not be written.
    Write,
    /// Memory ran out.
    Memory,
    /// A file differs from the one that `compile` writes: the first line that does, counted from 1.
    Certificate {
        file: CertFile,
        line: u32,
    },
}

impl From<Fault> for Status {
    ghost from_gives = { λ fault answer. answer ≡ answer_of fault };

    fn from(fault: Fault) -> Status {
        match fault {
            Fault::Usage => Status::Usage,
            Fault::Text(fault) => Status::Text {
                line: fault.line,
                column: fault.column,
                kind: fault.kind,
            },
            Fault::Typing(fault) => Status::Typing {
                place: fault.place,
                kind: fault.kind,
            },
            Fault::Range { op, lo, hi } => Status::Range { op, lo, hi },
            Fault::NoChoice => Status::NoChoice,
            Fault::Table(fault) => Status::Table(fault),
            Fault::Circuit(fault) => Status::Circuit(fault),
            Fault::File(kind, fault) => Status::File(kind, fault),
            Fault::Value(fault) => Status::Value {
                line: fault.line,
                kind: fault.kind,
            },
            Fault::Limit(fault) => Status::Limit(fault),
            Fault::Certificate { file, line } => Status::Certificate { file, line },
            Fault::Missing => Status::Read,
        }
    }
}

impl From<StepRefusal> for Status {
    ghost from_gives = { λ refusal answer. answer ≡ status_of refusal };

    fn from(refusal: StepRefusal) -> Status {
        match refusal {
            StepRefusal::Fault(fault) => Status::from(fault),
            StepRefusal::Failure => Status::Read,
            StepRefusal::Memory => Status::Memory,
        }
    }
}
