//! What is wrong with the numbers of a program.

use fhe_level::LimitFault;
use refusals::Refusal;

/// What is wrong with a statement.
#[derive(Clone, Copy, Debug, PartialEq, Eq)]
pub enum FormFault {
    /// The values of a statement do not lie in its type: the number of the statement, counted from 0, and the least and
    /// the greatest value of its form.
    Range { op: u32, lo: i128, hi: i128 },
    /// A number of a form, or the weights of all forms so far, are above their limit.
    Limit(LimitFault),
}

/// Why a program has no patterns: what is wrong with a statement, or that memory ran out.
pub type FormRefusal = Refusal<FormFault>;
