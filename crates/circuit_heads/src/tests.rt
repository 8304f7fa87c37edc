//! The heads of the worked sum.

use super::*;
use circuit_file::read_circuit;
use std::test::Fail;

/// The circuit that adds an input from 0 to 1 and one from 0 to 2.
const CIRCUIT: &str = "fhec circuit 1
width 2
glwe 1 1 1 3
lwe 1 0 0
boot 1 1
switch 1 1
%0 = input 0 1
%1 = input 0 2
%2 = lin 0 1 %0 1 %1
out %2 0 3
end
";

#[test]
fn heads_are_those_of_the_circuit(rt: HostRuntime) -> Result<(), Fail> {
    let alloc = rt.alloc();
    let Ok(circuit) = read_circuit(alloc, CIRCUIT.as_bytes()) else {
        panic!(rt; "a circuit");
    };
    let inputs = input_head(alloc, &circuit)?;
    assert_eq!(rt; (inputs.dim, inputs.width), (2, 2));
    assert_eq!(rt; inputs.ranges.as_slice(), [(0, 1), (0, 2)].as_slice());
    // the SHA-256 of the four parameter lines, by Python's hashlib
    assert!(rt; inputs.digest.as_slice().starts_with(&[236, 183, 102, 5]));
    let outputs = output_head(alloc, &circuit)?;
    assert_eq!(rt; (outputs.dim, outputs.width), (2, 2));
    assert_eq!(rt; outputs.ranges.as_slice(), [(0, 3)].as_slice());
    Ok(())
}
