//! What is wrong with a program.

ghost use Rattle.std.specs.Prelude.{◌≡◌};
ghost use Rattle.compile_pipe.specs.Front.{form_fault_of};

use fhe_level::{LimitFault, TypeFault};
use fhe_text::TextFault;
use pattern_pass::FormFault;
use refusals::Refusal;

/// What is wrong with a program.
#[derive(Clone, Copy, Debug, PartialEq, Eq)]
pub enum FrontFault {
    /// The bytes are no program text.
    Text(TextFault),
    /// A counted quantity, a number of a form or the weights of all forms so far are above their limit.
    Limit(LimitFault),
    /// The types break a rule.
    Typing(TypeFault),
    /// The values of a statement do not lie in its type: the number of the statement, counted from 0, and the least and
    /// the greatest value of its form.
    Range { op: u32, lo: i128, hi: i128 },
}

/// Why a program has no circuit: what is wrong with it, or that memory ran out.
pub type FrontRefusal = Refusal<FrontFault>;

impl From<FormFault> for FrontFault {
    ghost from_gives = { λ fault front. front ≡ form_fault_of fault };

    fn from(fault: FormFault) -> FrontFault {
        match fault {
            FormFault::Range { op, lo, hi } => FrontFault::Range { op, lo, hi },
            FormFault::Limit(fault) => FrontFault::Limit(fault),
        }
    }
}
