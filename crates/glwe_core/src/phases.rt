//! Phases.

ghost use Rattle.std.specs.Prelude.{◌≡◌, ◌<◌, ◌≤◌, ◌-◌, ◌^◌, All, length, map, slice_set};
ghost use Rattle.word_ring.specs.Rows.{row_sum, row_difference, AllOfLength};
ghost use Rattle.word_ring.specs.Signed.{word_of as word_of_number};
ghost use Rattle.glwe_core.specs.Glwe.{lengths_of, degree_of, FitsGlweKey, mask_sum, glwe_phase, trivial_glwe, sealed_glwe};

use crate::glwe::Glwe;
use crate::key::GlweKey;
use crate::{laws, parts};
use negacyclic::{Poly, Scratch, mul_add};
use word_ring::{Lin, wadd, word_of};

/// Sets `out` to the sum of each mask polynomial times that of the key.
fn mask_sum_into(out: &mut Poly, key: &GlweKey, mask: &[Poly], scratch: &mut Scratch)
    requires number { length key.now ≤ length mask.now }
    requires lengths { AllOfLength (length out.old) mask.now }
    requires bits { All (λ bits. length bits ≡ length out.old) key.now }
    requires room { length out.old ≡ 2 ^ scratch.old }
    ensures sum { out.new ≡ mask_sum (length out.old) key.now mask.now }
    ensures length { length out.new ≡ length out.old }
    ensures room_stays { scratch.new ≡ scratch.old }
{
    let polys = key.polys();
    out.zero_assign();
    for j in 0..polys.len() {
        mul_add(out, &mask[j], &polys[j], scratch);
    }
}

/// Sets a polynomial to another minus it.
fn subtract_from(poly: &mut Poly, other: &Poly)
    requires { length other.now ≡ length poly.old }
    ensures { poly.new ≡ row_difference other.now poly.old }
{
    poly.scale_assign(u64::MAX);
    poly.add_assign(other);
}

/// Sets `out` to what the key reads in a ciphertext: the body minus the sum of each mask polynomial times that of
/// the key (Chillotti et al. 2020, the phase of a TRLWE sample).
pub fn phase_into(out: &mut Poly, key: &GlweKey, c: &Glwe, scratch: &mut Scratch)
    requires fits { FitsGlweKey (degree_of c.now) key.now c.now }
    requires degree { length out.old ≡ degree_of c.now }
    requires room { degree_of c.now ≡ 2 ^ scratch.old }
    ensures phase { out.new ≡ glwe_phase key.now c.now }
    ensures room_stays { scratch.new ≡ scratch.old }
{
    mask_sum_into(out, key, c.parts.as_slice(), scratch);
    subtract_from(out, c.part(c.k()));
}

/// Adds an error to each coefficient.
fn add_errors(poly: &mut Poly, errors: &[i64])
    requires { length errors.now ≡ length poly.old }
    ensures sum { poly.new ≡ row_sum poly.old (map word_of_number errors.now) }
    ensures length { length poly.new ≡ length poly.old }
{
    for i in 0..errors.len() {
        let word = wadd(poly.coeffs()[i], word_of(errors[i]));
        poly.set(i, word);
    }
}

/// Sets the body behind a mask so that the phase is message plus errors.
fn seal_body(
    body: &mut Poly,
    key: &GlweKey,
    mask: &[Poly],
    message: &Poly,
    errors: &[i64],
    scratch: &mut Scratch,
)
    requires number { length key.now ≤ length mask.now }
    requires lengths { AllOfLength (length body.old) mask.now }
    requires bits { All (λ bits. length bits ≡ length body.old) key.now }
    requires message { length message.now ≡ length body.old }
    requires errors { length errors.now ≡ length body.old }
    requires room { length body.old ≡ 2 ^ scratch.old }
    ensures body { body.new
        ≡ row_sum (row_sum message.now (map word_of_number errors.now)) (mask_sum (length body.old) key.now mask.now) }
    ensures length { length body.new ≡ length body.old }
    ensures room_stays { scratch.new ≡ scratch.old }
{
    mask_sum_into(body, key, mask, scratch);
    body.add_assign(message);
    add_errors(body, errors);
}

/// The same for the parts of a ciphertext.
fn seal_parts(
    parts: &mut [Poly],
    key: &GlweKey,
    message: &Poly,
    errors: &[i64],
    scratch: &mut Scratch,
)
    requires fits { FitsGlweKey (length message.now) key.now parts.old }
    requires errors { length errors.now ≡ length message.now }
    requires room { length message.now ≡ 2 ^ scratch.old }
    ensures parts { parts.new ≡ sealed_glwe key.now parts.old (row_sum message.now (map word_of_number errors.now)) }
    ensures shape { lengths_of parts.new ≡ lengths_of parts.old }
    ensures room_stays { scratch.new ≡ scratch.old }
{
    let k = parts.len() - 1;
    let (mask, body) = parts.split_at_mut(k);
    seal_body(&mut body[0], key, mask, message, errors, scratch);
}

/// Keeps the mask and sets the body so that the phase is message plus errors (Chillotti et al. 2020, TRLWE samples
/// of a message).
pub fn seal_glwe(key: &GlweKey, c: &mut Glwe, message: &Poly, errors: &[i64], scratch: &mut Scratch)
    requires fits { FitsGlweKey (degree_of c.old) key.now c.old }
    requires message { length message.now ≡ degree_of c.old }
    requires errors { length errors.now ≡ degree_of c.old }
    requires room { degree_of c.old ≡ 2 ^ scratch.old }
    ensures parts { c.new ≡ sealed_glwe key.now c.old (row_sum message.now (map word_of_number errors.now)) }
    ensures phase { glwe_phase key.now c.new ≡ row_sum message.now (map word_of_number errors.now) }
    ensures shape { lengths_of c.new ≡ lengths_of c.old }
    ensures room_stays { scratch.new ≡ scratch.old }
{
    seal_parts(c.parts.as_mut_slice(), key, message, errors, scratch);
    laws::laws();
}

/// Sets `c` to the ciphertext with mask 0 and this body (Chillotti et al. 2020, trivial TRLWE samples).
pub fn trivial_into(c: &mut Glwe, body: &Poly)
    requires { length body.now ≡ degree_of c.old }
    ensures parts { c.new ≡ trivial_glwe (length c.old - 1) body.now }
    ensures shape { lengths_of c.new ≡ lengths_of c.old }
{
    parts::make_trivial(c.parts.as_mut_slice(), body);
}
