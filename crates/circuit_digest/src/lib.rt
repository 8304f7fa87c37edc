//! The digest of parameters, which ties the files of keys and of ciphertexts to circuits.
#![tactic(auto)]

ghost use Rattle.std.specs.Prelude.{◌≡◌, IfOk};
ghost use Rattle.circuit_digest.specs.ParamsDigest.{params_digest};

use circuit_file::print_params;
use fhe_params::Params;
use sha2::{Digest, Sha256};
use std::alloc::{AllocError, Global};

/// The SHA-256 of the four parameter lines of a circuit text, each with its LF. It fails only for memory.
pub fn params_digest(alloc: Global, params: &Params) -> Result<[u8; 32], AllocError>
    ensures { IfOk result (λ digest. digest ≡ params_digest params.now) }
{
    let text = print_params(alloc, params)?;
    Ok(Sha256::digest(text.as_bytes()))
}

#[cfg(test)]
mod tests;
