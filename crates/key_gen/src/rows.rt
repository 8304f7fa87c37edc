//! Fresh ciphertexts of a stream.

ghost use Rattle.std.specs.Prelude.{◌≡◌, ◌+◌, ◌-◌, ◌<◌, ◌≤◌, ◌^◌, length, take};
ghost use Rattle.word_ring.specs.Words.{word_sum};
ghost use Rattle.word_ring.specs.Signed.{word_of};
ghost use Rattle.lwe_core.specs.Phase.{FitsKey};
ghost use Rattle.seed_stream.specs.Draws.{stream_at, error_of, draw};
ghost use Rattle.key_gen.specs.Seeds.{draws_at, drawn_row};

use lwe_core::{Big, Kind, Lwe, LweKey, seal};
use seed_stream::Stream;

/// Draws the words of the mask, in order.
fn draw_mask<K: Kind>(c: &mut Lwe<K>, stream: &mut Stream)
    ensures mask { take (length c.old - 1) c.new ≡ draws_at stream.old.key stream.old.place (length c.old - 1) }
    ensures length { length c.new ≡ length c.old }
    ensures stream { stream.new ≡ stream_at stream.old.key (stream.old.place + (length c.old - 1)) }
{
    seed_stream::laws::laws();
    stream.known();
    for at in 0..c.dim() {
        c.set(at, stream.next_u64());
    }
}

/// Draws a ciphertext of a message: the mask and then an error of at most `bound` in size.
pub(crate) fn draw_row<K: Kind>(
    c: &mut Lwe<K>,
    key: &LweKey<K>,
    stream: &mut Stream,
    message: u64,
    bound: u64,
)
    requires dimension { FitsKey key.now c.old }
    requires bound { bound < 2 ^ 62 }
    ensures words { c.new ≡ drawn_row stream.old.key stream.old.place key.now message bound }
    ensures fits { FitsKey key.now c.new }
    ensures stream { stream.new ≡ stream_at stream.old.key (stream.old.place + (length key.now + 1)) }
{
    seed_stream::laws::laws();
    draw_mask(c, stream);
    let error = stream.next_error(bound);
    seal(key, c, message, error);
}

/// Draws a ciphertext of a message under the big key: its mask, and then an error of at most `bound` in size (Chillotti
/// et al. 2020, TLWE samples; the errors here are uniform in their bound).
pub fn encrypt_into(
    c: &mut Lwe<Big>,
    key: &LweKey<Big>,
    stream: &mut Stream,
    message: u64,
    bound: u64,
)
    requires dimension { FitsKey key.now c.old }
    requires bound { bound < 2 ^ 62 }
    ensures words { c.new ≡ drawn_row stream.old.key stream.old.place key.now message bound }
    ensures fits { FitsKey key.now c.new }
    ensures stream { stream.new ≡ stream_at stream.old.key (stream.old.place + (length key.now + 1)) }
{
    draw_row(c, key, stream, message, bound);
}
