//! What the files of ciphertexts say of a circuit's inputs and of its outputs: the digest of the parameters, the big
//! dimension, the width, and the ranges in order.
#![tactic(auto)]

ghost use Rattle.std.specs.Prelude.{◌≡◌, IfOk};
ghost use Rattle.ir_core.specs.Placed.{IsPlaced};
ghost use Rattle.fhe_params.specs.Params.{IsGlwe};
ghost use Rattle.circuit_heads.specs.Heads.{head_with, input_head, output_head};

pub mod laws;
mod ranges;

use cipher_files::CipherHead;
use circuit_digest::params_digest;
use fhe_params::dimension;
use lists::List;
use ranges::{input_ranges, out_ranges};
use std::alloc::{AllocError, Global};
use tfhe_level::Circuit;

/// What a circuit's parameters and width say, with these ranges.
fn head_with(
    alloc: Global,
    circuit: &Circuit,
    ranges: Vec<(i64, i64)>,
) -> Result<CipherHead, AllocError>
    requires { IsGlwe circuit.now.params.glwe }
    ensures { IfOk result (λ head. head ≡ head_with circuit.now ranges.items) }
{
    Ok(CipherHead {
        digest: params_digest(alloc, &circuit.params)?,
        dim: dimension(&circuit.params),
        width: circuit.shape.width,
        ranges: List::from_vec(ranges),
    })
}

/// The head of the file of a circuit's inputs.
pub fn input_head(alloc: Global, circuit: &Circuit) -> Result<CipherHead, AllocError>
    requires placed { IsPlaced circuit.now.shape.graph }
    requires glwe { IsGlwe circuit.now.params.glwe }
    ensures { IfOk result (λ head. head ≡ input_head circuit.now) }
{
    let ranges = input_ranges(alloc, &circuit.shape)?;
    head_with(alloc, circuit, ranges)
}

/// The head of the file of a circuit's outputs.
pub fn output_head(alloc: Global, circuit: &Circuit) -> Result<CipherHead, AllocError>
    requires placed { IsPlaced circuit.now.shape.graph }
    requires glwe { IsGlwe circuit.now.params.glwe }
    ensures { IfOk result (λ head. head ≡ output_head circuit.now) }
{
    let ranges = out_ranges(alloc, &circuit.shape)?;
    head_with(alloc, circuit, ranges)
}

#[cfg(test)]
mod tests;
