//! The boot key of a seed.

ghost use Rattle.std.specs.Prelude.{◌≡◌, IfOk};
ghost use Rattle.seed_stream.specs.Draws.{stream_key};
ghost use Rattle.lwe_core.specs.Secret.{HasDimensions};
ghost use Rattle.fhe_params.specs.Params.{IsParams, big_dimension};
ghost use Rattle.key_gen.specs.Seeds.{drawn_boot_key, boot_label, key_numbers};

use crate::glwe_rows::draw_glwe_row;
use crate::messages::{set_message, weighted_bit};
use blind_rotate::BootKey;
use fhe_params::Params;
use glwe_core::{Glwe, GlweKey};
use lwe_core::Secret;
use negacyclic::{Poly, Scratch};
use seed_stream::Stream;
use std::alloc::{AllocError, Global};

/// The boot key of a seed, under the big secret key: for each bit of the small one its rows are drawn in order, part by
/// part and place by place, each the mask by polynomial and then its errors (Chillotti et al. 2020, bootstrapping keys).
pub fn make_boot_key(
    alloc: Global,
    params: &Params,
    secret: &Secret,
    seed: &[u8; 32],
) -> Result<BootKey, AllocError>
    requires params { IsParams params.now }
    requires dimensions { HasDimensions (big_dimension params.now) params.now.lwe.n secret.now.big secret.now.small }
    ensures { IfOk result (λ key. key ≡ drawn_boot_key (stream_key seed.now boot_label) (key_numbers params.now)
        secret.now.big secret.now.small) }
{
    let (k, log_n, n) = (params.glwe.k, params.glwe.log_n, params.lwe.n);
    let (base, level) = (params.boot.base, params.boot.level);
    let mut key = BootKey::new(alloc, k, log_n, n, base, level)?;
    let big = GlweKey::new(alloc, k, log_n, &secret.big)?;
    let mut row = Glwe::new(alloc, k, log_n)?;
    let mut message = Poly::new(alloc, log_n)?;
    let mut drawn = vec![in alloc; 0i64; 1 << log_n]?;
    let errors = drawn.as_mut_slice();
    let mut scratch = Scratch::new(alloc, log_n)?;
    let mut stream = Stream::of(seed, "fhec boot");
    seed_stream::laws::laws();
    word_ring::laws::laws();
    blind_rotate::laws::laws();
    key.known();
    let rows = (k + 1) * level;
    for r in 0..n * rows {
        let (i, j, t) = (r / rows, r / level % (k + 1), r % level + 1);
        let factor = weighted_bit(secret.small.bit(i as usize), base, t);
        set_message(&mut message, &secret.big, k, j, factor);
        draw_glwe_row(
            &mut row,
            &big,
            &mut stream,
            &message,
            errors,
            params.glwe.error,
            &mut scratch,
        );
        key.swap_row(i, j, t, &mut row);
    }
    Ok(key)
}
