//! The parameter lines.

ghost use Rattle.std.specs.Prelude.{◌≡◌, ◌≤◌, ◌<◌, ◌^◌, IfOk, Some, None, if◌then◌else◌};
ghost use Rattle.refusals.specs.Reading.{Gives};
ghost use Rattle.fhe_params.specs.Params.{IsParams};
ghost use Rattle.circuit_file.specs.Params.{glwe_choice, is_glwe_line, lwe_choice, is_lwe_line, gadget, is_gadget_line, on_line, params_of};
ghost use Rattle.circuit_file.specs.Fitting.{fits_bits, fits_glwe, fits_lwe, fits_gadget};

use crate::fault::{CircuitFault, CircuitKind, CircuitRefusal};
use circuit_lines::{GadgetNumbers, GlweNumbers, Head, LweNumbers};
use fhe_params::{Gadget, GlweChoice, LweChoice, Params, is_gadget, is_glwe, is_lwe};
use refusals::Refusal;

/// Whether a number is not below 0, and so many bits hold it.
fn fits_bits(bits: u32, number: i128) -> bool
    requires { bits ≤ 64 }
    ensures { result ≡ fits_bits bits number }
{
    0 <= number && number < 1 << bits
}

fn fits_glwe(numbers: &GlweNumbers) -> bool
    ensures { result ≡ fits_glwe numbers.now }
{
    fits_bits(32, numbers.k)
        && fits_bits(32, numbers.log_n)
        && fits_bits(63, numbers.ones)
        && fits_bits(63, numbers.error)
}

fn fits_lwe(numbers: &LweNumbers) -> bool
    ensures { result ≡ fits_lwe numbers.now }
{
    fits_bits(32, numbers.n) && fits_bits(63, numbers.ones) && fits_bits(63, numbers.error)
}

fn fits_gadget(numbers: &GadgetNumbers) -> bool
    ensures { result ≡ fits_gadget numbers.now }
{
    fits_bits(32, numbers.base) && fits_bits(32, numbers.level)
}

/// The parameters of the ring, where they are within their limits.
#[tactic(auto, using(crate::proofs::Limits::glwe_by_fit))]
fn glwe_of(numbers: &GlweNumbers) -> Option<GlweChoice>
    ensures { result ≡ (if is_glwe_line numbers.now then Some (glwe_choice numbers.now) else None) }
{
    if !fits_glwe(numbers) {
        return None;
    }
    let glwe = GlweChoice {
        k: numbers.k as u32,
        log_n: numbers.log_n as u32,
        ones: numbers.ones as u64,
        error: numbers.error as u64,
    };
    if is_glwe(&glwe) { Some(glwe) } else { None }
}

/// The parameters of small ciphertexts, where they are within their limits.
#[tactic(auto, using(crate::proofs::Limits::lwe_by_fit))]
fn lwe_of(numbers: &LweNumbers) -> Option<LweChoice>
    ensures { result ≡ (if is_lwe_line numbers.now then Some (lwe_choice numbers.now) else None) }
{
    if !fits_lwe(numbers) {
        return None;
    }
    let lwe = LweChoice {
        n: numbers.n as u32,
        ones: numbers.ones as u64,
        error: numbers.error as u64,
    };
    if is_lwe(&lwe) { Some(lwe) } else { None }
}

/// A cut into digits, where it is within its limits.
#[tactic(auto, using(crate::proofs::Limits::gadget_by_fit))]
fn gadget_of(numbers: &GadgetNumbers) -> Option<Gadget>
    ensures { result ≡ (if is_gadget_line numbers.now then Some (gadget numbers.now) else None) }
{
    if !fits_gadget(numbers) {
        return None;
    }
    let gadget = Gadget {
        base: numbers.base as u32,
        level: numbers.level as u32,
    };
    if is_gadget(&gadget) {
        Some(gadget)
    } else {
        None
    }
}

/// What stands on a parameter line, or the fault of the line.
fn on_line<T>(line: u32, found: Option<T>) -> Result<T, CircuitRefusal>
    ensures { Gives (λ x. x) result (on_line line found) }
{
    match found {
        Some(value) => Ok(value),
        None => Err(Refusal::Fault(CircuitFault {
            line,
            kind: CircuitKind::Params,
        })),
    }
}

#[tactic(auto, unfolding(crate::specs::Params::params_of))]
fn params_in(head: &Head) -> Result<Params, CircuitRefusal>
    ensures { Gives (λ x. x) result (params_of head.now) }
{
    let glwe = on_line(3, glwe_of(&head.glwe))?;
    let lwe = on_line(4, lwe_of(&head.lwe))?;
    let boot = on_line(5, gadget_of(&head.boot))?;
    let switch = on_line(6, gadget_of(&head.switch))?;
    Ok(Params {
        glwe,
        lwe,
        boot,
        switch,
    })
}

/// The parameters of the four lines, which keep their limits.
pub(crate) fn params_of(head: &Head) -> Result<Params, CircuitRefusal>
    ensures exact { Gives (λ x. x) result (params_of head.now) }
    ensures limits { IfOk result IsParams }
{
    fhe_params::laws::laws();
    params_in(head)
}
