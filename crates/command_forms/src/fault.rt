//! Why a command refuses before it writes or puts anything.

ghost use Rattle.std.specs.Prelude.{◌≡◌};
ghost use Rattle.command_forms.specs.Refusals.{step_refusal_of};

use circuit_file::CircuitFault;
use fhe_level::{LimitFault, TypeFault};
use fhe_params::TableFault;
use fhe_text::TextFault;
use refusals::Refusal;
use sealed_files::{FileFault, FileKind};
use value_files::ValueFault;

/// What is wrong with the words or the files of a command.
#[derive(Clone, Copy, Debug, PartialEq, Eq)]
pub enum Fault {
    /// EVAL does not fit the circuit.
    Usage,
    /// The program file is no program text.
    Text(TextFault),
    /// The types of the program break a rule.
    Typing(TypeFault),
    /// The form of a statement, counted from 0, leaves its type: its least value and its greatest.
    Range { op: u32, lo: i128, hi: i128 },
    /// Every choice of parameters breaks a constraint.
    NoChoice,
    /// The table file is no table.
    Table(TableFault),
    /// The circuit file is no circuit text.
    Circuit(CircuitFault),
    /// A key or ciphertext file breaks its format, or differs from what it is used with.
    File(FileKind, FileFault),
    /// The value file is not of the values that are asked for, or a result decodes to none.
    Value(ValueFault),
    /// A counted quantity is above its limit.
    Limit(LimitFault),
    /// A file differs from the one that `compile` writes: the first line that does, counted from 1.
    Certificate { file: CertFile, line: u32 },
    /// A file is missing.
    Missing,
}

/// Which file `check` refuses.
#[derive(Clone, Copy, Debug, PartialEq, Eq)]
pub enum CertFile {
    /// The certificate.
    Cert,
    /// The circuit.
    Circuit,
}

/// Why a step that reads files gave no value. None writes, so none refuses as a write does.
#[derive(Clone, Copy, Debug, PartialEq, Eq)]
pub enum StepRefusal {
    /// What was read has this fault.
    Fault(Fault),
    /// A call of the store failed: its count of faults rose, or it tells its files and the name is missing.
    Failure,
    /// Memory ran out.
    Memory,
}

impl From<Refusal<Fault>> for StepRefusal {
    ghost from_gives = { λ refusal step. step ≡ step_refusal_of refusal };

    fn from(refusal: Refusal<Fault>) -> StepRefusal {
        match refusal {
            Refusal::Fault(fault) => StepRefusal::Fault(fault),
            Refusal::Memory => StepRefusal::Memory,
        }
    }
}
