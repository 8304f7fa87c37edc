//! What programs and tables come to.

use fhe_level::Program;
use tfhe_level::{Circuit, Shape};

/// A program, and its circuit without parameters.
#[derive(Drop)]
pub struct Front {
    pub program: Program,
    pub shape: Shape,
}

/// The text of a certificate, and the circuit with its text: none where every choice of the table breaks a constraint.
#[derive(Drop)]
pub struct Compiled {
    pub cert: Vec<u8>,
    pub circuit: Option<(Circuit, Vec<u8>)>,
}
