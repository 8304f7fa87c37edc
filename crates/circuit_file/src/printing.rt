//! Writing a circuit as its text.

ghost use Rattle.std.specs.Prelude.{◌≡◌, ◌++◌, ◌+◌, ◌<◌, ◌≤◌, ◌^◌, length, map, pos, OnOk, IfOk};
ghost use Rattle.std.specs.String.{string_bytes};
ghost use Rattle.std.specs.List.{flat_map};
ghost use Rattle.ir_core.specs.Placed.{IsPlaced};
ghost use Rattle.tfhe_level.specs.Nodes.{nodes_of};
ghost use Rattle.circuit_lines.specs.Lines.{glwe_line, lwe_line, gadget_line, term_text, entry_text, line_text};
ghost use Rattle.circuit_file.specs.Limits.{circuit_limit};
ghost use Rattle.noise_model.specs.Circuits.{IsCircuit};
ghost use Rattle.circuit_file.specs.Text.{glwe_numbers, lwe_numbers, gadget_numbers, params_text, line_of_op, ops_text, circuit_text};

use crate::laws::laws;
use fhe_params::{Gadget, GlweChoice, LweChoice, Params};
use std::alloc::{AllocError, Global};
use std::fmt::Write;
use tfhe_level::{Circuit, Shape, TfheOp};

fn put_glwe(text: &mut String, glwe: GlweChoice) -> Result<(), AllocError>
    ensures { OnOk result (string_bytes text.new ≡ string_bytes text.old ++ glwe_line (glwe_numbers glwe)) }
{
    let GlweChoice {
        k,
        log_n,
        ones,
        error,
    } = glwe;
    write!(text, "glwe {k} {log_n} {ones} {error}\n")
}

fn put_lwe(text: &mut String, lwe: LweChoice) -> Result<(), AllocError>
    ensures { OnOk result (string_bytes text.new ≡ string_bytes text.old ++ lwe_line (lwe_numbers lwe)) }
{
    let LweChoice { n, ones, error } = lwe;
    write!(text, "lwe {n} {ones} {error}\n")
}

fn put_gadget(text: &mut String, name: &str, gadget: Gadget) -> Result<(), AllocError>
    ensures { OnOk result (string_bytes text.new ≡ string_bytes text.old ++ gadget_line name.now (gadget_numbers gadget)) }
{
    let Gadget { base, level } = gadget;
    write!(text, "{name}{base} {level}\n")
}

#[tactic(auto, unfolding(crate::specs::Text::params_text))]
fn put_params(text: &mut String, params: &Params) -> Result<(), AllocError>
    ensures { OnOk result (string_bytes text.new ≡ string_bytes text.old ++ params_text params.now) }
{
    put_glwe(text, params.glwe)?;
    put_lwe(text, params.lwe)?;
    put_gadget(text, "boot ", params.boot)?;
    put_gadget(text, "switch ", params.switch)
}

/// A term: its weight, and the number of its operand.
fn put_term(text: &mut String, term: (u32, i64)) -> Result<(), AllocError>
    ensures { OnOk result (string_bytes text.new ≡ string_bytes text.old ++ term_text (pos term.0, term.1)) }
{
    let (operand, weight) = term;
    write!(text, " {weight} %{operand}")
}

fn put_terms(text: &mut String, terms: &[(u32, i64)]) -> Result<(), AllocError>
    ensures { OnOk result
        (string_bytes text.new ≡ string_bytes text.old ++ flat_map term_text (map (λ t. (pos t.0, t.1)) terms.now)) }
{
    for term in terms {
        put_term(text, *term)?;
    }
    Ok(())
}

fn put_entry(text: &mut String, entry: i64) -> Result<(), AllocError>
    ensures { OnOk result (string_bytes text.new ≡ string_bytes text.old ++ entry_text entry) }
{
    write!(text, " {entry}")
}

fn put_entries(text: &mut String, entries: &[i64]) -> Result<(), AllocError>
    ensures { OnOk result (string_bytes text.new ≡ string_bytes text.old ++ flat_map entry_text entries.now) }
{
    for entry in entries {
        put_entry(text, *entry)?;
    }
    Ok(())
}

/// The line of an operation with this number.
fn put_op(text: &mut String, number: u32, op: &TfheOp) -> Result<(), AllocError>
    ensures { OnOk result (string_bytes text.new ≡ string_bytes text.old ++ line_text (line_of_op number op.now)) }
{
    match op {
        TfheOp::Input { lo, hi } => write!(text, "%{number} = input {lo} {hi}\n"),
        TfheOp::Lin { constant, terms } => {
            write!(text, "%{number} = lin {constant}")?;
            put_terms(text, terms.as_slice())?;
            text.push_str("\n")
        }
        TfheOp::Switch { source } => write!(text, "%{number} = switch %{source}\n"),
        TfheOp::Boot { source, entries } => {
            write!(text, "%{number} = boot %{source}")?;
            put_entries(text, entries.as_slice())?;
            text.push_str("\n")
        }
        TfheOp::Out { source, lo, hi } => write!(text, "out %{source} {lo} {hi}\n"),
    }
}

/// The lines of all operations.
fn put_ops(text: &mut String, shape: &Shape) -> Result<(), AllocError>
    requires { IsPlaced shape.now.graph }
    ensures { OnOk result (string_bytes text.new ≡ string_bytes text.old ++ ops_text 0 (nodes_of shape.now)) }
{
    for number in 0..shape.node_count() {
        put_op(text, number, shape.node(number))?;
    }
    Ok(())
}

/// The four parameter lines, whose SHA-256 ties a file to its parameters. It fails only for memory.
pub fn print_params(alloc: Global, params: &Params) -> Result<String, AllocError>
    ensures { IfOk result (λ text. string_bytes text ≡ params_text params.now) }
{
    let mut text = String::new(alloc);
    put_params(&mut text, params)?;
    Ok(text)
}

/// The text of a circuit.
#[tactic(auto, unfolding(crate::specs::Text::circuit_text, crate::specs::Text::params_text))]
pub(crate) fn text_of(alloc: Global, circuit: &Circuit) -> Result<String, AllocError>
    requires { IsPlaced circuit.now.shape.graph }
    ensures { IfOk result (λ text. string_bytes text ≡ circuit_text circuit.now) }
{
    let mut text = String::from_str(alloc, "fhec circuit 1\n")?;
    let width = circuit.shape.width;
    write!(text, "width {width}\n")?;
    put_params(&mut text, &circuit.params)?;
    put_ops(&mut text, &circuit.shape)?;
    text.push_str("end\n")?;
    Ok(text)
}

/// The one text of a circuit, which has at most 2^27 bytes. It fails only for memory.
pub fn print_circuit(alloc: Global, circuit: &Circuit) -> Result<Vec<u8>, AllocError>
    requires { IsCircuit circuit.now }
    ensures spelled { IfOk result (λ text. text.items ≡ circuit_text circuit.now) }
    // So it can be read back from a file.
    ensures size { IfOk result (λ text. length text.items ≤ circuit_limit) }
{
    laws();
    let text = text_of(alloc, circuit)?;
    Ok(text.into_bytes())
}
