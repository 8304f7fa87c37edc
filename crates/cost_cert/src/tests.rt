//! Certificates of worked circuits and tables, byte for byte, and what is not one.

ghost use Rattle.std.specs.Prelude.{IfOk, ◌≤◌};
ghost use Rattle.fhe_params.specs.Table.{IsTable};
ghost use Rattle.tfhe_level.specs.Rules.{IsShape};
ghost use Rattle.cost_cert.specs.Check.{file_limit};

use super::*;
use circuit_file::{CircuitRefusal, read_circuit};
use fhe_params::{Choice, Table, TableRefusal, read_table};
use param_search::search;
use std::alloc::Global;
use std::process::Abort;
use std::test::Fail;
use tfhe_level::{Circuit, Shape};

const COST: &str = "[cost]\nswitch = 1\nboot = 1\nlin = 1\n";

const N_2: &str = "[[glwe]]\nk = 1\nlog_n = 1\nones = 1\nerror = 1024\n";

const N_256: &str = "[[glwe]]\nk = 1\nlog_n = 8\nones = 4\nerror = 1024\n";

const N_16: &str = "[[glwe]]\nk = 1\nlog_n = 4\nones = 4\nerror = 1024\n";

const LWE: &str = "[[lwe]]\nn = 8\nones = 2\nerror = 1048576\n";

const BOOT: &str = "[[boot]]\nbase = 8\nlevel = 4\n";

const SWITCH: &str = "[[switch]]\nbase = 4\nlevel = 6\n";

/// A look-up of width 2, with parameters that play no part here.
const LOOKUP_2: &str =
    "fhec circuit 1\nwidth 2\nglwe 1 8 4 1024\nlwe 8 2 1048576\nboot 8 4\nswitch 4 6\n%0 = input 0 3\n\
    %1 = switch %0\n%2 = boot %1 1 3 0 2\nout %2 0 3\nend\n";

/// One of width 3.
const LOOKUP_3: &str =
    "fhec circuit 1\nwidth 3\nglwe 1 8 4 1024\nlwe 8 2 1048576\nboot 8 4\nswitch 4 6\n%0 = input 0 7\n\
    %1 = switch %0\n%2 = boot %1 1 3 0 2 7 5 6 4\nout %2 0 7\nend\n";

/// The sum of two inputs.
const TWO_INPUTS: &str =
    "fhec circuit 1\nwidth 2\nglwe 1 1 1 3\nlwe 1 0 0\nboot 1 1\nswitch 1 1\n%0 = input 0 1\n%1 = input 0 2\n\
    %2 = lin 0 1 %0 1 %1\nout %2 0 3\nend\n";

/// The look-up of width 2, and the one choice of a table.
const CHOSEN: &str = "fhec certificate 1
weights 1 1 1
shape 1 1 0
width 2
chosen 0 0 0 0 cost 275968
size 46592 33554432
node 0 1024
node 1 2211908158464
node 2 23622320128
boot 0 54045407436604416 1152921504606846976
result 0 23622320128 1152921504606846976
end
";

/// The look-up of width 3, and a table in which none meets all constraints.
const NONE: &str = "fhec certificate 1
weights 1 1 1
shape 1 1 0
width 3
refused 0 0 0 0 cost 9056 boot 0 864693328283698176 576460752303423488
none
end
";

/// The same look-up, and a table whose second choice is cheaper and breaks a constraint. Its chosen part is that of the
/// first at another width.
const REFUSED: &str = "fhec certificate 1
weights 1 1 1
shape 1 1 0
width 3
refused 1 0 0 0 cost 9056 boot 0 864693328283698176 576460752303423488
chosen 0 0 0 0 cost 275968
size 46592 33554432
node 0 1024
node 1 2211908158464
node 2 23622320128
boot 0 54045407436604416 576460752303423488
result 0 23622320128 576460752303423488
end
";

/// The sum, which has no keys.
const SUM: &str = "fhec certificate 1
weights 1 1 1
shape 0 0 2
width 2
chosen 0 0 0 0 cost 6
node 0 1024
node 1 1024
node 2 2048
result 0 2048 1152921504606846976
end
";

/// A table out of these parts.
fn table(rt: &(impl Abort + AllocGlobal), parts: &[&str]) -> Result<Table, Fail>
    ensures { IfOk result IsTable }
{
    let mut text = Vec::new(rt.alloc());
    for part in parts {
        text.extend_from_slice(part.as_bytes())?;
    }
    match read_table(rt.alloc(), &text) {
        Ok(table) => Ok(table),
        Err(TableRefusal::Fault(_)) => Err(Fail::new("a table that is refused")),
        Err(TableRefusal::Memory) => Err(Fail::new("no memory")),
    }
}

/// The shape of the circuit that a text spells.
fn shape_of(rt: &(impl Abort + AllocGlobal), text: &str) -> Result<Shape, Fail>
    ensures { IfOk result IsShape }
{
    assert!(rt; text.len() < 1000);
    match read_circuit(rt.alloc(), text.as_bytes()) {
        Ok(Circuit { shape, .. }) => Ok(shape),
        Err(CircuitRefusal::Fault(_)) => Err(Fail::new("a circuit that is refused")),
        Err(CircuitRefusal::Memory) => Err(Fail::new("no memory")),
    }
}

/// The certificate of a circuit and a table is this text, and only this text passes the check.
fn expect(
    rt: &(impl Abort + AllocGlobal),
    shape: &Shape,
    parts: &[&str],
    text: &str,
    chosen: Option<Choice>,
) -> Result<(), Fail>
    requires { IsShape shape.now }
{
    let table = table(rt, parts)?;
    let found = search(rt.alloc(), shape, &table)?;
    let bytes = print_cert(rt.alloc(), shape, &table, &found)?;
    assert_eq!(rt; bytes.as_slice(), text.as_bytes());
    let checked = check_cert(rt.alloc(), shape, &table, &bytes);
    assert_eq!(rt; checked, Ok(chosen));
    Ok(())
}

/// The first line in which these bytes differ from the certificate.
fn expect_line(
    rt: &(impl Abort + AllocGlobal),
    shape: &Shape,
    parts: &[&str],
    bytes: &[u8],
    line: u32,
) -> Result<(), Fail>
    requires { IsShape shape.now }
{
    assert!(rt; bytes.len() < 1000);
    let checked = check_cert(rt.alloc(), shape, &table(rt, parts)?, bytes);
    assert_eq!(rt; checked, Err(CertRefusal::Line(line)));
    Ok(())
}

/// The first choice with this place in the first list.
fn at(glwe: u32) -> Choice {
    Choice {
        glwe,
        lwe: 0,
        boot: 0,
        switch: 0,
    }
}

#[test]
fn certificates_of_worked_circuits(rt: HostRuntime) -> Result<(), Fail> {
    let parts = [COST, N_256, LWE, BOOT, SWITCH];
    expect(&rt, &shape_of(&rt, LOOKUP_2)?, &parts, CHOSEN, Some(at(0)))?;
    let parts = [COST, N_16, LWE, BOOT, SWITCH];
    expect(&rt, &shape_of(&rt, LOOKUP_3)?, &parts, NONE, None)?;
    let parts = [COST, N_256, N_16, LWE, BOOT, SWITCH];
    expect(&rt, &shape_of(&rt, LOOKUP_3)?, &parts, REFUSED, Some(at(0)))?;
    let parts = [COST, N_2, LWE, BOOT, SWITCH];
    expect(&rt, &shape_of(&rt, TWO_INPUTS)?, &parts, SUM, Some(at(0)))
}

#[test]
fn the_first_line_that_differs_is_told(rt: HostRuntime) -> Result<(), Fail> {
    let parts = [COST, N_256, LWE, BOOT, SWITCH];
    let shape = shape_of(&rt, LOOKUP_2)?;
    // Nothing, the last line feed cut, a line more.
    expect_line(&rt, &shape, &parts, b"", 1)?;
    let text = CHOSEN.as_bytes();
    assert!(rt; text.len() == 242);
    expect_line(&rt, &shape, &parts, &text[..241], 12)?;
    let mut longer = text.to_vec(rt.alloc())?;
    longer.push(b'\n')?;
    expect_line(&rt, &shape, &parts, &longer, 13)?;
    // Another certificate: the width differs first.
    expect_line(&rt, &shape, &parts, NONE.as_bytes(), 4)?;
    // One byte more in the line of the size.
    let more =
        "fhec certificate 1\nweights 1 1 1\nshape 1 1 0\nwidth 2\nchosen 0 0 0 0 cost 275968\nsize 046592";
    expect_line(&rt, &shape, &parts, more.as_bytes(), 6)?;
    // The lines of the refused and of the chosen one exchanged.
    let parts = [COST, N_256, N_16, LWE, BOOT, SWITCH];
    let exchanged =
        "fhec certificate 1\nweights 1 1 1\nshape 1 1 0\nwidth 3\nchosen 0 0 0 0 cost 275968\n\
        refused 1 0 0 0 cost 9056 boot 0 864693328283698176 576460752303423488\n";
    expect_line(
        &rt,
        &shape_of(&rt, LOOKUP_3)?,
        &parts,
        exchanged.as_bytes(),
        5,
    )
}

#[test]
fn lines_of_any_two_texts(rt: HostRuntime) -> Result<(), Fail> {
    let table = [
        ("", "", None),
        ("", "\n", Some(1)),
        ("one\ntwo\n", "one\ntwo\n", None),
        ("one\ntwo\n", "one\ntwo", Some(2)),
        ("one\ntwo\n", "one\ntwo\nthree", Some(3)),
        ("one\ntwo\n", "One\ntwo\n", Some(1)),
        ("one\n\ntwo\n", "one\ntwo\n", Some(2)),
    ];
    for (text, other, line) in table {
        assert!(rt; other.len() < 1000);
        assert_eq!(rt;
            line_apart(text.as_bytes(), other.as_bytes()),
            line,
            "{text} {other}"
        );
    }
    Ok(())
}
