//! From the bytes of a program to its circuit without parameters, and from there, with the bytes of a table, to the
//! certificate and the circuit with the parameters of the least cost.
//!
//! `front` reads and checks a program, finds its patterns and places them; `back` reads a table, searches it, and prints.
#![tactic(auto)]

mod fault;
pub mod laws;
mod parts;
mod programs;
mod tables;

pub use fault::{FrontFault, FrontRefusal};
pub use fhe_level::{LimitFault, LimitName, Program, TypeFault};
pub use fhe_params::{Choice, Table, TableFault};
pub use fhe_text::TextFault;
pub use parts::{Compiled, Front};
pub use programs::front;
pub use tables::{BackRefusal, back};
pub use tfhe_level::{Circuit, Shape};
