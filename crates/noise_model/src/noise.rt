//! What each kind of operation adds to the noise, in parts of 2^64.

ghost use Rattle.std.specs.Prelude.{◌≡◌, ◌≤◌, ◌+◌, ◌-◌, ◌*◌, ◌^◌};
ghost use Rattle.fhe_params.specs.Params.{IsParams, IsGadget, coefficients, big_dimension};
ghost use Rattle.noise_model.specs.Bounds.{switch_noise, rows_noise, digits_noise, boot_noise, capped};
ghost use Rattle.noise_model.specs.Constraints.{modulus_noise};

use crate::cap::cap;
use fhe_params::{Gadget, GlweChoice, Params, dimension};

/// The greatest size of a digit.
fn greatest_digit(gadget: Gadget) -> u128
    requires { IsGadget gadget }
    ensures value { result ≡ 2 ^ (gadget.base - 1) }
    ensures most { result ≤ 2 ^ 30 }
{
    1 << (gadget.base - 1)
}

/// Half the weight of a word's last digit.
fn half_last_place(gadget: Gadget) -> u128
    requires { IsGadget gadget }
    ensures value { result ≡ 2 ^ (63 - gadget.base * gadget.level) }
    ensures most { result ≤ 2 ^ 62 }
{
    1 << (63 - gadget.base * gadget.level)
}

/// What a key switch adds at most.
fn switch_noise(params: &Params) -> u128
    requires { IsParams params.now }
    ensures { result ≡ switch_noise params.now }
{
    let rows = u128::from(dimension(params)) * u128::from(params.switch.level);
    let errors = rows * greatest_digit(params.switch) * u128::from(params.lwe.error);
    let rounding = u128::from(params.glwe.ones) * half_last_place(params.switch);
    errors + rounding
}

/// What one product with a bit of the small key adds at most by the errors of its rows.
fn rows_noise(params: &Params) -> u128
    requires { IsParams params.now }
    ensures value { result ≡ rows_noise params.now }
    ensures most { result ≤ 2 ^ 113 }
{
    let rows = u128::from(params.glwe.k + 1) * u128::from(params.boot.level);
    rows * coefficients(params.glwe) * greatest_digit(params.boot) * u128::from(params.glwe.error)
}

/// What such a product adds at most by rounding to digits, where the bit is 1.
fn digits_noise(params: &Params) -> u128
    requires { IsParams params.now }
    ensures value { result ≡ digits_noise params.now }
    ensures most { result ≤ 2 ^ 78 }
{
    u128::from(1 + params.glwe.ones) * half_last_place(params.boot)
}

/// What a bootstrap leaves at most.
fn boot_noise(params: &Params) -> u128
    requires { IsParams params.now }
    ensures { result ≡ boot_noise params.now }
{
    u128::from(params.lwe.n) * rows_noise(params)
        + u128::from(params.lwe.ones) * digits_noise(params)
}

/// The coefficients of a polynomial.
fn coefficients(glwe: GlweChoice) -> u128
    requires { glwe.log_n ≤ 13 }
    ensures value { result ≡ coefficients glwe }
    ensures most { result ≤ 2 ^ 13 }
{
    1 << glwe.log_n
}

/// The least of 2^64 and what the modulus switch of a bootstrap adds at most.
pub(crate) fn modulus_noise(params: &Params) -> u128
    requires { IsParams params.now }
    ensures value { result ≡ capped (modulus_noise params.now) }
    ensures most { result ≤ 2 ^ 64 }
{
    let half_place: u128 = 1 << (62 - params.glwe.log_n);
    cap(u128::from(1 + params.lwe.ones) * half_place)
}

/// What the operations of a circuit add to the noise under its parameters, at most 2^64 each.
#[derive(Clone, Copy)]
pub(crate) struct Noise {
    pub input: u128,
    pub switch: u128,
    pub boot: u128,
}

/// What they add under these parameters.
pub(crate) fn noise_of(params: &Params) -> Noise
    requires { IsParams params.now }
    ensures input { result.input ≡ capped params.now.glwe.error }
    ensures switch { result.switch ≡ capped (switch_noise params.now) }
    ensures boot { result.boot ≡ capped (boot_noise params.now) }
{
    Noise {
        input: cap(u128::from(params.glwe.error)),
        switch: cap(switch_noise(params)),
        boot: cap(boot_noise(params)),
    }
}
