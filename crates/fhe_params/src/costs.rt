//! How large the keys of parameters are, and what a circuit under them costs.

ghost use Rattle.std.specs.Prelude.{◌≡◌, ◌*◌, ◌^◌, ◌<◌, ◌≤◌};
ghost use Rattle.fhe_params.specs.Limits.{most_weight};
ghost use Rattle.fhe_params.specs.Params.{IsParams};
ghost use Rattle.fhe_params.specs.Table.{IsCostWeights};
ghost use Rattle.fhe_params.specs.Cost.{switch_key_words, boot_key_words, key_words_of, cost_of};

use crate::params::{Params, coefficients, dimension, level};
use crate::table::{CostWeights, Counts};

/// The words of a switch key.
#[tactic(auto, using(crate::proofs::KeySizes::switch_digits, crate::proofs::KeySizes::switch_words))]
fn switch_key_words(params: &Params) -> u64
    requires { IsParams params.now }
    ensures words { result ≡ switch_key_words params.now }
    ensures few { result < 2 ^ 31 }
{
    u64::from(dimension(params)) * level(&params.switch) * u64::from(params.lwe.n + 1)
}

/// The words of a boot key.
#[tactic(auto, using(crate::proofs::KeySizes::boot_rows, crate::proofs::KeySizes::boot_words))]
fn boot_key_words(params: &Params) -> u64
    requires { IsParams params.now }
    ensures words { result ≡ boot_key_words params.now }
    ensures few { result < 2 ^ 33 }
{
    let parts = u64::from(params.glwe.k + 1);
    let rows = u64::from(params.lwe.n) * (parts * parts) * level(&params.boot);
    rows * u64::from(coefficients(&params.glwe))
}

/// The words of both keys.
pub fn key_words(params: &Params) -> u64
    requires { IsParams params.now }
    ensures { result ≡ key_words_of params.now }
{
    switch_key_words(params) + boot_key_words(params)
}

/// A weight times so many passes over so many words.
#[tactic(auto, using(crate::proofs::KeySizes::part_small))]
fn part(weight: u64, count: u64, words: u64) -> u128
    requires weight { weight ≤ most_weight }
    requires words { words < 2 ^ 37 }
    ensures product { result ≡ weight * count * words }
    ensures most { result ≤ 2 ^ 121 }
{
    u128::from(weight) * u128::from(count) * u128::from(words)
}

/// What a circuit with these counts costs under these parameters. Each switch passes over its key, each boot `log_n`
/// times over its own, and each weight over a big ciphertext.
pub fn cost(params: &Params, weights: &CostWeights, counts: &Counts) -> u128
    requires params { IsParams params.now }
    requires weights { IsCostWeights weights.now }
    ensures { result ≡ cost_of params.now weights.now counts.now }
{
    let boot_words = boot_key_words(params) * u64::from(params.glwe.log_n);
    let big_words = u64::from(dimension(params)) + 1;
    part(weights.switch, counts.switches, switch_key_words(params))
        + part(weights.boot, counts.boots, boot_words)
        + part(weights.lin, counts.weights, big_words)
}
