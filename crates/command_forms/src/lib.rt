//! What any command answers and leaves: its status, what it may do with the files of a store and with a sink, and the
//! steps that it is made of.
//!
//! What a command does is one function of the files as they are when it begins: its answer, the files that it writes,
//! in order, and what it puts (`Outcome`). One relation says what may be left of it whatever the store and the sink do
//! (`MayLeave`). A step that reads has one statement (`ReadsAs`), and so have one that writes (`WritesAs`) and one that
//! puts (`PutsAs`); lemmas bind steps to what a command may leave.
#![tactic(auto)]

mod fault;
mod files;
pub mod laws;
mod names;
mod status;
mod status_line;

pub use circuit_file::{CircuitFault, CircuitKind};
pub use fault::{CertFile, Fault, StepRefusal};
pub use fhe_level::{LimitFault, LimitName, TypeFault, TypeKind};
pub use fhe_params::{FieldName, ListName, TableFault};
pub use fhe_text::{TextFault, TextKind};
pub use files::{put_all, read_file, write_both, write_file};
pub use names::{are_distinct, is_no_eval};
pub use sealed_files::{FileFault, FileKind};
pub use status::Status;
pub use value_files::{ValueFault, ValueKind};

#[cfg(test)]
mod tests;
