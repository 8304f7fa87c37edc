//! Fresh GLWE ciphertexts of a stream.

ghost use Rattle.std.specs.Prelude.{◌≡◌, ◌<◌, ◌≤◌, ◌+◌, ◌*◌, ◌^◌, All, length, replicate, slice_set, take};
ghost use Rattle.seed_stream.specs.Draws.{stream_at};
ghost use Rattle.glwe_core.specs.Glwe.{lengths_of};
ghost use Rattle.key_gen.specs.Seeds.{draws_at, masks_at, errors_at, drawn_glwe_row};

use glwe_core::{Glwe, GlweKey, seal_glwe};
use negacyclic::{Poly, Scratch};
use seed_stream::Stream;

/// Draws the n words of mask polynomial j, in order.
fn draw_polynomial(c: &mut Glwe, k: u32, n: usize, j: u32, stream: &mut Stream)
    requires part { j ≤ k }
    requires shape { lengths_of c.old ≡ replicate (k + 1) n }
    ensures parts { c.new ≡ slice_set c.old j (draws_at stream.old.key stream.old.place n) }
    ensures shape { lengths_of c.new ≡ lengths_of c.old }
    ensures stream { stream.new ≡ stream_at stream.old.key (stream.old.place + n) }
{
    seed_stream::laws::laws();
    stream.known();
    for place in 0..n {
        c.set(j, place, stream.next_u64());
    }
}

/// Draws the k mask polynomials of n words each, one after another.
fn draw_masks(c: &mut Glwe, k: u32, n: usize, stream: &mut Stream)
    requires shape { lengths_of c.old ≡ replicate (k + 1) n }
    ensures masks { take k c.new ≡ masks_at stream.old.key stream.old.place k n }
    ensures shape { lengths_of c.new ≡ lengths_of c.old }
    ensures stream { stream.new ≡ stream_at stream.old.key (stream.old.place + k * n) }
{
    seed_stream::laws::laws();
    stream.known();
    for j in 0..k {
        draw_polynomial(c, k, n, j, stream);
    }
}

/// Draws errors of at most `bound` in size, in order.
fn draw_errors(errors: &mut [i64], stream: &mut Stream, bound: u64)
    requires { bound < 2 ^ 62 }
    ensures errors { errors.new ≡ errors_at stream.old.key stream.old.place (length errors.old) bound }
    ensures stream { stream.new ≡ stream_at stream.old.key (stream.old.place + length errors.old) }
{
    seed_stream::laws::laws();
    stream.known();
    for at in 0..errors.len() {
        errors[at] = stream.next_error(bound);
    }
}

/// Draws a GLWE ciphertext of a message: its masks, and then an error of at most `bound` in size for each coefficient.
/// The errors are left in `errors`.
pub(crate) fn draw_glwe_row(
    c: &mut Glwe,
    key: &GlweKey,
    stream: &mut Stream,
    message: &Poly,
    errors: &mut [i64],
    bound: u64,
    scratch: &mut Scratch,
)
    requires shape { lengths_of c.old ≡ replicate (length key.now + 1) (length message.now) }
    requires bits { All (λ bits. length bits ≡ length message.now) key.now }
    requires errors { length errors.old ≡ length message.now }
    requires room { length message.now ≡ 2 ^ scratch.old }
    requires bound { bound < 2 ^ 62 }
    ensures words { c.new
        ≡ drawn_glwe_row stream.old.key stream.old.place (length message.now) key.now message.now bound }
    ensures shape { lengths_of c.new ≡ lengths_of c.old }
    ensures stream { stream.new
        ≡ stream_at stream.old.key (stream.old.place + (length key.now + 1) * length message.now) }
    ensures room_stays { scratch.new ≡ scratch.old }
{
    seed_stream::laws::laws();
    let k = c.k();
    let n = message.coeffs().len();
    draw_masks(c, k, n, stream);
    draw_errors(errors, stream, bound);
    seal_glwe(key, c, message, errors, scratch);
}
