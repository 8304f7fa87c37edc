//! The secret keys of a seed.

ghost use Rattle.std.specs.Prelude.{◌≡◌, ◌≤◌, ◌<◌, ◌^◌, IfOk};
ghost use Rattle.seed_stream.specs.Draws.{stream_key};
ghost use Rattle.fhe_params.specs.Params.{IsParams, big_dimension};
ghost use Rattle.key_gen.specs.Seeds.{drawn_bits, big_label, small_label};

use fhe_params::{Params, dimension};
use lwe_core::{Kind, LweKey, Secret};
use seed_stream::Stream;
use std::alloc::{AllocError, Global};

/// The key of `dim` bits of which each of `ones` draws sets one to 1.
fn draw_key<K: Kind>(
    alloc: Global,
    mut stream: Stream,
    dim: u32,
    ones: u64,
) -> Result<LweKey<K>, AllocError>
    requires some { 1 ≤ dim }
    requires start { stream.place ≡ 0 }
    ensures { IfOk result (λ key. key ≡ drawn_bits stream.key dim ones) }
{
    seed_stream::laws::laws();
    stream.known();
    let mut bits = vec![in alloc; false; dim as usize]?;
    for _ in 0..ones {
        let place = stream.next_below(u64::from(dim));
        bits[place as usize] = true;
    }
    Ok(LweKey::from_bits(bits))
}

/// The secret keys of a seed: of each key `ones` draws set a bit to 1, and all others are 0.
pub fn make_secret(alloc: Global, params: &Params, seed: &[u8; 32]) -> Result<Secret, AllocError>
    requires { IsParams params.now }
    ensures big { IfOk result (λ secret. secret.big
        ≡ drawn_bits (stream_key seed.now big_label) (big_dimension params.now) params.now.glwe.ones) }
    ensures small { IfOk result (λ secret. secret.small
        ≡ drawn_bits (stream_key seed.now small_label) params.now.lwe.n params.now.lwe.ones) }
{
    let big = draw_key(
        alloc,
        Stream::of(seed, "fhec big"),
        dimension(params),
        params.glwe.ones,
    )?;
    let small = draw_key(
        alloc,
        Stream::of(seed, "fhec small"),
        params.lwe.n,
        params.lwe.ones,
    )?;
    Ok(Secret { big, small })
}
