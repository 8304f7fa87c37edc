ghost use Rattle.std.specs.Prelude.{◌<◌, ◌^◌, IfOk};
ghost use Rattle.noise_model.specs.Circuits.{IsCircuit};

use super::*;
use std::alloc::{AllocError, Global};
use std::fmt::Write;
use std::process::Abort;
use std::test::*;
use tfhe_level::Circuit;

// The circuit of two weighted inputs.
const SUM: &str =
    "fhec circuit 1\nwidth 2\nglwe 1 1 1 3\nlwe 1 0 0\nboot 1 1\nswitch 1 1\n%0 = input 0 1\n%1 = input 0 2\n\
    %2 = lin 0 1 %0 1 %1\nout %2 0 3\nend\n";

// The circuit of a look-up.
const LOOKUP: &str =
    "fhec circuit 1\nwidth 2\nglwe 1 8 4 1024\nlwe 8 2 1048576\nboot 8 4\nswitch 4 6\n%0 = input 0 3\n\
    %1 = switch %0\n%2 = boot %1 1 3 0 2\nout %2 0 3\nend\n";

#[test]
fn circuits_are_printed_as_they_are_read(rt: HostRuntime) -> Result<(), Fail> {
    let table = [
        SUM,
        LOOKUP,
        // a constant, and an input that is put out twice
        "fhec circuit 1\nwidth 2\nglwe 1 1 1 3\nlwe 1 0 0\nboot 1 1\nswitch 1 1\n%0 = input -1 2\n%1 = lin -7\n\
            out %0 -1 2\nout %1 -7 -7\nout %0 -1 2\nend\n",
        // two bootstraps on one key switch, and a weighted sum of both
        "fhec circuit 1\nwidth 3\nglwe 1 10 4 16\nlwe 8 2 1048576\nboot 8 4\nswitch 4 6\n%0 = input 0 3\n\
            %1 = switch %0\n%2 = boot %1 1 3 0 2\n%3 = boot %1 0 -1 -1 0\n%4 = lin 1 2 %2 -1 %3\nout %4 1 8\nend\n",
        // the greatest error with which the sum's constraint is met
        "fhec circuit 1\nwidth 2\nglwe 1 1 1 576460752303423487\nlwe 1 0 0\nboot 1 1\nswitch 1 1\n%0 = input 0 1\n\
            %1 = input 0 2\n%2 = lin 0 1 %0 1 %1\nout %2 0 3\nend\n",
    ];
    for text in table {
        let circuit = read(&rt, text.as_bytes())?;
        let printed = print_circuit(rt.alloc(), &circuit)?;
        assert_eq!(rt; printed.as_slice(), text.as_bytes(), "{text}");
    }
    Ok(())
}

/// The text with the part in place of the one that stands there once.
fn changed(alloc: Global, text: &str, old: &str, new: &str) -> Result<String, AllocError> {
    text.replacen(alloc, old, new, 1)
}

/// The circuit of a text, whose length is known where it is a worked one.
fn read(rt: &(impl Abort + AllocGlobal), text: &[u8]) -> Result<Circuit, CircuitRefusal>
    ensures { IfOk result IsCircuit }
{
    assert!(rt; text.len() < 1 << 20);
    read_circuit(rt.alloc(), text)
}

fn constraint(bound: u128, limit: u128) -> CircuitKind {
    CircuitKind::Constraint { bound, limit }
}

#[test]
fn the_first_fault(rt: HostRuntime) -> Result<(), Fail> {
    let sum = [
        (SUM, "", 1, CircuitKind::Spelling),
        ("end\n", "end", 11, CircuitKind::Spelling),
        ("end\n", "end\n%0 = input 0 1\n", 12, CircuitKind::Spelling),
        ("width 2", "width 02", 2, CircuitKind::Spelling),
        ("1 1 1 3", "1 1 3 3", 3, CircuitKind::Params),
        ("1 %0 1 %1", "1 %1 1 %0", 9, CircuitKind::Node),
        ("1 %0 1 %1", "1 %0 0 %1", 9, CircuitKind::Node),
        ("1 %0 1 %1", "1 %0 1 %2", 9, CircuitKind::Node),
        ("out %2 0 3", "out %2 0 4", 10, CircuitKind::Node),
        ("out %2 0 3\n", "", 10, CircuitKind::Node),
        ("width 2", "width 3", 2, CircuitKind::Width),
        ("width 2", "width 1", 2, CircuitKind::Width),
        ("width 2", "width -2", 2, CircuitKind::Width),
        ("width 2", "width 4294967298", 2, CircuitKind::Width),
        (
            "1 1 1 3",
            "1 1 1 576460752303423488",
            10,
            constraint(1 << 60, 1 << 60),
        ),
        // parameters: each limit broken once
        ("glwe 1", "glwe 0", 3, CircuitKind::Params),
        ("glwe 1", "glwe 4294967297", 3, CircuitKind::Params),
        ("glwe 1 1 1 3", "glwe 1 14 1 3", 3, CircuitKind::Params),
        (
            "glwe 1 1 1 3",
            "glwe 1 1 1 4611686018427387904",
            3,
            CircuitKind::Params,
        ),
        ("glwe 1 1 1 3", "glwe 1 1 1 -3", 3, CircuitKind::Params),
        ("lwe 1 0 0\n", "lwe 1025 0 0\n", 4, CircuitKind::Params),
        ("lwe 1 0 0\n", "lwe 1 2 0\n", 4, CircuitKind::Params),
        ("boot 1 1", "boot 32 1", 5, CircuitKind::Params),
        ("switch 1 1", "switch 8 8", 6, CircuitKind::Params),
        // the earlier kind wins, even at a later line
        (
            "1 1 1 3\nlwe 1 0 0\nboot 1 1\nswitch 1 1\n%0 = input 0 1",
            "4 1 1 3\nlwe 1 0 0\nboot 1 1\nswitch 1 1\n%0 =input 0 1",
            7,
            CircuitKind::Spelling,
        ),
        (
            "width 2\nglwe 1 1 1 3\nlwe 1",
            "width 3\nglwe 1 1 1 3\nlwe 0",
            4,
            CircuitKind::Params,
        ),
        (
            "width 2\nglwe 1 1 1 3\nlwe 1 0 0\nboot 1 1\nswitch 1 1\n%0 = input 0 1",
            "width 3\nglwe 1 1 1 3\nlwe 1 0 0\nboot 1 1\nswitch 1 1\n%0 = input 1 0",
            7,
            CircuitKind::Node,
        ),
        (
            "width 2\nglwe 1 1 1 3",
            "width 3\nglwe 1 1 1 576460752303423488",
            2,
            CircuitKind::Width,
        ),
        // numbers of 38 and of 39 digits
        (
            "%2 = lin 0",
            "%2 = lin 99999999999999999999999999999999999999",
            9,
            CircuitKind::Node,
        ),
        (
            "%2 = lin 0",
            "%2 = lin 100000000000000000000000000000000000000",
            9,
            CircuitKind::Spelling,
        ),
        ("%2 = lin 0", "%2 = lin -0", 9, CircuitKind::Spelling),
    ];
    for (old, new, line, kind) in sum {
        let text = changed(rt.alloc(), SUM, old, new)?;
        let fault = CircuitFault { line, kind };
        match read(&rt, text.as_bytes()) {
            Err(CircuitRefusal::Fault(found)) => assert_eq!(rt; found, fault, "{old} {new}"),
            _ => assert!(rt; false, "no fault: {old} {new}"),
        }
    }
    let lookup = [
        ("%1 = switch %0", "%1 = switch %1", 8, CircuitKind::Node),
        ("1 3 0 2", "1 3 0", 9, CircuitKind::Node),
        ("boot %1 1 3 0 2", "boot %0 1 3 0 2", 8, CircuitKind::Node),
        // a key switch that no bootstrap is on
        (
            "%2 = boot %1 1 3 0 2\nout %2 0 3",
            "out %0 0 3",
            8,
            CircuitKind::Node,
        ),
        // 24,576 * 6 * 1,025 words of the switch key and 1,024 * 16 * 4 * 8,192 of the boot key
        (
            "1 8 4 1024\nlwe 8 2",
            "3 13 4 1024\nlwe 1024 2",
            3,
            constraint(688_013_312, 33_554_432),
        ),
        // the modulus switch alone adds 3 * 2^(62 - 1), which is not below 2^60
        (
            "glwe 1 8 4",
            "glwe 1 1 2",
            9,
            constraint(6_917_530_127_253_373_952, 1_152_921_504_606_846_976),
        ),
    ];
    for (old, new, line, kind) in lookup {
        let text = changed(rt.alloc(), LOOKUP, old, new)?;
        let fault = CircuitFault { line, kind };
        match read(&rt, text.as_bytes()) {
            Err(CircuitRefusal::Fault(found)) => assert_eq!(rt; found, fault, "{old} {new}"),
            _ => assert!(rt; false, "no fault: {old} {new}"),
        }
    }
    Ok(())
}

/// The text of a circuit of 64 inputs, so many weighted sums of one input each, 1,024 key switches, a bootstrap on each, and
/// 64 outs.
fn greatest(alloc: Global, sums: u32) -> Result<String, AllocError>
    requires { sums < 2 ^ 16 }
{
    let mut text = format!(in alloc;
        "fhec circuit 1\nwidth 1\n{}",
        "glwe 1 8 4 16\nlwe 8 2 1048576\nboot 8 4\nswitch 4 6\n"
    )?;
    for number in 0..64u32 {
        write!(text, "%{number} = input 0 1\n")?;
    }
    for index in 0..sums {
        let number = 64 + index;
        let input = index % 64;
        write!(text, "%{number} = lin 0 1 %{input}\n")?;
    }
    for index in 0..1024u32 {
        let number = 64 + sums + index;
        let source = 64 + index;
        write!(text, "%{number} = switch %{source}\n")?;
    }
    for index in 0..1024u32 {
        let number = 1088 + sums + index;
        let source = 64 + sums + index;
        write!(text, "%{number} = boot %{source} 1 0\n")?;
    }
    for index in 0..64u32 {
        let source = 1088 + sums + index;
        write!(text, "out %{source} 0 1\n")?;
    }
    text.push_str("end\n")?;
    Ok(text)
}

#[test]
fn the_greatest_numbers_of_nodes(rt: HostRuntime) -> Result<(), Fail> {
    let text = greatest(rt.alloc(), 1088)?;
    let circuit = read(&rt, text.as_bytes())?;
    let printed = print_circuit(rt.alloc(), &circuit)?;
    assert_eq!(rt; printed.as_slice(), text.as_bytes());
    // the sum with the number 1,088, counted from 0, is one too many: its line is 7 + 64 + 1,088
    let text = greatest(rt.alloc(), 1089)?;
    let fault = CircuitFault {
        line: 1159,
        kind: CircuitKind::Node,
    };
    match read(&rt, text.as_bytes()) {
        Err(CircuitRefusal::Fault(found)) => assert_eq!(rt; found, fault),
        _ => assert!(rt; false, "no fault"),
    }
    Ok(())
}
