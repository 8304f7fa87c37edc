//! The parameters of a circuit.

ghost use Rattle.std.specs.Prelude.{◌≡◌, ◌^◌, ◌≤◌};
ghost use Rattle.fhe_params.specs.Limits.{most_log_n, most_dimension, most_digit_bits};
ghost use Rattle.fhe_params.specs.Params.{IsGlwe, IsGadget, is_between, is_glwe, is_lwe, is_gadget, is_params, coefficients, big_dimension};

use crate::limits::{
    MOST_BASE, MOST_DIGIT_BITS, MOST_ERROR, MOST_LOG_N, MOST_POLYNOMIALS, MOST_SMALL_DIMENSION,
};

/// The parameters of the ring: `k` mask polynomials of `2^log_n` coefficients, at most `ones` ones in the big key, and
/// errors of at most `error` in size.
#[derive(Clone, Copy, Debug, PartialEq, Eq)]
pub struct GlweChoice {
    pub k: u32,
    pub log_n: u32,
    pub ones: u64,
    pub error: u64,
}

/// The parameters of small ciphertexts: dimension `n`, at most `ones` ones in the small key, and errors of at most
/// `error` in size.
#[derive(Clone, Copy, Debug, PartialEq, Eq)]
pub struct LweChoice {
    pub n: u32,
    pub ones: u64,
    pub error: u64,
}

/// How a word is cut into digits: `level` digits of `base` bits each.
#[derive(Clone, Copy, Debug, PartialEq, Eq)]
pub struct Gadget {
    pub base: u32,
    pub level: u32,
}

/// The parameters of a circuit.
#[derive(Clone, Copy, Debug, PartialEq, Eq)]
pub struct Params {
    pub glwe: GlweChoice,
    pub lwe: LweChoice,
    pub boot: Gadget,
    pub switch: Gadget,
}

/// Whether a number lies between these two.
pub(crate) fn is_between(least: u64, most: u64, number: u64) -> bool
    ensures { result ≡ is_between least most number }
{
    least <= number && number <= most
}

/// Whether the parameters of the ring keep their limits.
pub fn is_glwe(glwe: &GlweChoice) -> bool
    ensures { result ≡ is_glwe glwe.now }
{
    let (k, log_n) = (u64::from(glwe.k), u64::from(glwe.log_n));
    let is_ring = is_between(1, MOST_POLYNOMIALS, k) && is_between(1, MOST_LOG_N, log_n);
    is_ring && is_between(0, k * (1 << log_n), glwe.ones) && is_between(0, MOST_ERROR, glwe.error)
}

/// Whether the parameters of small ciphertexts keep their limits.
pub fn is_lwe(lwe: &LweChoice) -> bool
    ensures { result ≡ is_lwe lwe.now }
{
    let n = u64::from(lwe.n);
    is_between(1, MOST_SMALL_DIMENSION, n)
        && is_between(0, n, lwe.ones)
        && is_between(0, MOST_ERROR, lwe.error)
}

/// Whether a cut into digits keeps its limits.
pub fn is_gadget(gadget: &Gadget) -> bool
    ensures { result ≡ is_gadget gadget.now }
{
    let (base, level) = (u64::from(gadget.base), u64::from(gadget.level));
    is_between(1, MOST_BASE, base) && is_between(1, MOST_DIGIT_BITS / base, level)
}

/// Whether all parameters keep their limits.
pub fn is_params(params: &Params) -> bool
    ensures { result ≡ is_params params.now }
{
    is_glwe(&params.glwe)
        && is_lwe(&params.lwe)
        && is_gadget(&params.boot)
        && is_gadget(&params.switch)
}

/// How many digits a word is cut into.
#[tactic(auto, using(crate::proofs::KeySizes::level_small))]
pub(crate) fn level(gadget: &Gadget) -> u64
    requires { IsGadget gadget.now }
    ensures number { result ≡ gadget.now.level }
    ensures most { result ≤ most_digit_bits }
{
    u64::from(gadget.level)
}

/// The number of coefficients of a polynomial.
pub(crate) fn coefficients(glwe: &GlweChoice) -> u32
    requires { IsGlwe glwe.now }
    ensures number { result ≡ coefficients glwe.now }
    ensures most { result ≤ 2 ^ most_log_n }
{
    1 << glwe.log_n
}

/// The dimension of big ciphertexts: the number of coefficients of the `k` mask polynomials.
pub fn dimension(params: &Params) -> u32
    requires { IsGlwe params.now.glwe }
    ensures number { result ≡ big_dimension params.now }
    ensures most { result ≤ most_dimension }
{
    params.glwe.k * coefficients(&params.glwe)
}
