//! Fresh ciphertexts of values, drawn from a seed.

ghost use Rattle.std.specs.Prelude.{◌≡◌, ◌+◌, ◌<◌, ◌≤◌, ◌^◌, length, All, IfOk};
ghost use Rattle.forms.specs.Forms.{number_at};
ghost use Rattle.lwe_core.specs.Decoding.{encoded};
ghost use Rattle.seed_stream.specs.Draws.{stream_key};
ghost use Rattle.key_gen.specs.Seeds.{input_label};
ghost use Rattle.key_commands.specs.Encrypt.{drawn_inputs};

use key_gen::encrypt_into;
use lwe_core::{Big, Lwe, LweKey, encode};
use seed_stream::Stream;
use std::alloc::{AllocError, Global};

/// The message of value i.
fn message_of(values: &[i64], i: usize, width: u32) -> u64
    requires there { i < length values.now }
    requires width { width ≤ 16 }
    ensures { result ≡ encoded width (number_at values.now i) }
{
    encode(values[i], width)
}

/// Ciphertexts of the values under the big key, drawn from one stream in order: of each its mask, and then an error of
/// at most `bound` in size.
pub(crate) fn draw_inputs(
    alloc: Global,
    key: &LweKey<Big>,
    seed: &[u8; 32],
    values: &[i64],
    width: u32,
    bound: u64,
) -> Result<Vec<Lwe<Big>>, AllocError>
    requires width { width ≤ 16 }
    requires bound { bound < 2 ^ 62 }
    requires dim { length key.now ≤ 24576 }
    requires few { length values.now ≤ 64 }
    ensures words { IfOk result (λ list. list.items
        ≡ drawn_inputs (stream_key seed.now input_label) key.now width bound values.now) }
    ensures long { IfOk result (λ list. All (λ words. length words ≡ length key.now + 1) list.items) }
{
    seed_stream::laws::laws();
    let mut stream = Stream::of(seed, "fhec input");
    let mut list = Vec::with_capacity(alloc, values.len())?;
    for i in 0..values.len() {
        let mut input = Lwe::new(alloc, key.len())?;
        let message = message_of(values, i, width);
        encrypt_into(&mut input, key, &mut stream, message, bound);
        list.push(input)?;
    }
    Ok(list)
}
