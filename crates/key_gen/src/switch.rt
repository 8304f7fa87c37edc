//! The switch key of a seed.

ghost use Rattle.std.specs.Prelude.{◌≡◌, ◌≤◌, ◌<◌, ◌+◌, ◌*◌, ◌/◌, ◌%◌, ◌^◌, IfOk, length};
ghost use Rattle.seed_stream.specs.Draws.{stream_key, stream_at};
ghost use Rattle.lwe_core.specs.Secret.{HasDimensions, bit_word};
ghost use Rattle.gadget_decomp.specs.Decomposition.{place_weight};
ghost use Rattle.fhe_params.specs.Params.{IsParams, big_dimension};
ghost use Rattle.key_switch.specs.Key.{message_of};
ghost use Rattle.key_gen.specs.Seeds.{drawn_switch_key, drawn_switch_row, switch_label};

use crate::messages::weighted_bit;
use crate::rows::draw_row;
use fhe_params::{Params, dimension};
use key_switch::SwitchKey;
use lwe_core::{Big, Lwe, LweKey, Secret};
use seed_stream::Stream;
use std::alloc::{AllocError, Global};

/// The switch key of a seed, from the big secret key to the small one: its rows are drawn in order, bit by bit and
/// place by place, each a mask and then an error (Chillotti et al. 2020, key switching keys).
pub fn make_switch_key(
    alloc: Global,
    params: &Params,
    secret: &Secret,
    seed: &[u8; 32],
) -> Result<SwitchKey, AllocError>
    requires params { IsParams params.now }
    requires dimensions { HasDimensions (big_dimension params.now) params.now.lwe.n secret.now.big secret.now.small }
    ensures { IfOk result (λ key. key ≡ drawn_switch_key (stream_key seed.now switch_label)
        params.now.switch.base params.now.switch.level params.now.lwe.error secret.now.big secret.now.small) }
{
    seed_stream::laws::laws();
    let level = params.switch.level;
    let n = params.lwe.n as usize;
    let mut key = SwitchKey::new(alloc, secret.big.len(), n, params.switch.base, level)?;
    let mut row = Lwe::new(alloc, n)?;
    let mut stream = Stream::of(seed, "fhec switch");
    for r in 0..dimension(params) * level {
        let i = (r / level) as usize;
        let t = r % level + 1;
        let message = weighted_bit(secret.big.bit(i), params.switch.base, t);
        draw_row(
            &mut row,
            &secret.small,
            &mut stream,
            message,
            params.lwe.error,
        );
        key.known();
        key.swap_row(i, t, &mut row);
    }
    Ok(key)
}
