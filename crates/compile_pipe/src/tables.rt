//! A circuit without parameters to its certificate, and to the circuit with the parameters of the least cost.

ghost use Rattle.std.specs.Prelude.{◌≡◌, ◌≤◌, length, IfOk, IfSome};
ghost use Rattle.std.specs.Option.{option_map};
ghost use Rattle.refusals.specs.Reading.{Gives};
ghost use Rattle.fhe_params.specs.Table.{IsTable};
ghost use Rattle.tfhe_level.specs.Rules.{IsShape};
ghost use Rattle.noise_model.specs.Circuits.{IsCircuit};
ghost use Rattle.circuit_file.specs.Limits.{circuit_limit};
ghost use Rattle.circuit_file.specs.Text.{circuit_text};
ghost use Rattle.param_search.specs.Search.{least_choice};
ghost use Rattle.cost_cert.specs.Limits.{cert_limit};
ghost use Rattle.cost_cert.specs.Certificate.{certificate_text};
ghost use Rattle.compile_pipe.specs.Back.{compiled, compiled_view, circuit_with, back_of};

use crate::laws::laws;
use crate::parts::Compiled;
use circuit_file::print_circuit;
use cost_cert::print_cert;
use fhe_params::{Choice, Table, TableRefusal, read_table};
use param_search::search;
use std::alloc::{AllocError, Global};
use tfhe_level::{Circuit, Shape};

/// Why a table gives no certificate: what is wrong with it, or that memory ran out.
pub type BackRefusal = TableRefusal;

/// The circuit with the parameters of the least choice, and its text.
fn circuit_of(
    alloc: Global,
    shape: Shape,
    table: &Table,
    choice: &Choice,
) -> Result<(Circuit, Vec<u8>), AllocError>
    requires shape { IsShape shape }
    requires table { IsTable table.now }
    requires chosen { least_choice table.now shape ≡ Some choice.now }
    ensures circuit { IfOk result (λ found. found.0 ≡ circuit_with shape table.now choice.now) }
    ensures text { IfOk result (λ found. found.1.items ≡ circuit_text found.0) }
    ensures rules { IfOk result (λ found. IsCircuit found.0) }
    ensures size { IfOk result (λ found. length found.1.items ≤ circuit_limit) }
{
    param_search::laws::laws();
    laws();
    let params = table.params(choice);
    let circuit = Circuit { shape, params };
    let text = print_circuit(alloc, &circuit)?;
    Ok((circuit, text))
}

/// What a circuit and a table come to.
fn searched(alloc: Global, shape: Shape, table: &Table) -> Result<Compiled, AllocError>
    requires shape { IsShape shape }
    requires table { IsTable table.now }
    ensures exact { IfOk result (λ found. compiled_view found ≡ compiled table.now shape) }
    ensures rules { IfOk result (λ found. IfSome found.circuit (λ circuit. IsCircuit circuit.0)) }
    ensures cert_size { IfOk result (λ found. length found.cert.items ≤ cert_limit) }
    ensures circuit_size { IfOk result (λ found. IfSome found.circuit (λ circuit. length circuit.1.items ≤ circuit_limit)) }
{
    let found = search(alloc, &shape, table)?;
    let cert = print_cert(alloc, &shape, table, &found)?;
    let circuit = match &found.chosen {
        Some(choice) => Some(circuit_of(alloc, shape, table, choice)?),
        None => None,
    };
    Ok(Compiled { cert, circuit })
}

/// The certificate of a circuit and of the table that a text spells, and the circuit with the parameters of the least
/// cost among those that meet all constraints. The circuit takes the shape over. It refuses a text that is no table, and
/// else fails only for memory.
#[tactic(auto, unfolding(crate::specs::Back::back_of))]
pub fn back(alloc: Global, shape: Shape, table: &[u8]) -> Result<Compiled, BackRefusal>
    requires { IsShape shape }
    ensures exact { Gives compiled_view result (back_of shape table.now) }
    // The circuit keeps all rules, and meets all constraints.
    ensures rules { IfOk result (λ found. IfSome found.circuit (λ circuit. IsCircuit circuit.0)) }
    // Both texts can be read back from files.
    ensures cert_size { IfOk result (λ found. length found.cert.items ≤ cert_limit) }
    ensures circuit_size { IfOk result (λ found. IfSome found.circuit (λ circuit. length circuit.1.items ≤ circuit_limit)) }
{
    let table = read_table(alloc, table)?;
    Ok(searched(alloc, shape, &table)?)
}
