//! What goes part by part, in place.

ghost use Rattle.std.specs.Prelude.{◌≡◌, ◌<◌, ◌-◌, ◌*◌, ◌^◌, All, length, map, replicate};
ghost use Rattle.std.specs.List.{concat};
ghost use Rattle.word_ring.specs.Words.{IsWord};
ghost use Rattle.word_ring.specs.Rows.{row_sum, row_difference, scaled_row, sum_with_scaled, zip_rows, AllOfLength};
ghost use Rattle.glwe_core.specs.Glwe.{lengths_of, plus_product, rotated, trivial_glwe};

use negacyclic::{Poly, Scratch, mul_add, rotate_into};
use word_ring::{Lin, rows};

/// What parts are, for proofs alone.
#[inline]
pub fn known(parts: &[Poly])
    ensures { All (All IsWord) parts.now }
{
    for i in 0..parts.len() {
        rows::known(parts[i].coeffs());
    }
}

/// Sets every word to 0.
pub fn clear(parts: &mut [Poly])
    ensures parts { parts.new ≡ map (λ part. replicate (length part) 0) parts.old }
    ensures shape { lengths_of parts.new ≡ lengths_of parts.old }
    ensures words { concat parts.new ≡ replicate (length (concat parts.old)) 0 }
{
    for i in 0..parts.len() {
        parts[i].zero_assign();
    }
}

/// Adds `others`.
pub fn add(parts: &mut [Poly], others: &[Poly])
    requires { lengths_of parts.old ≡ lengths_of others.now }
    ensures parts { parts.new ≡ zip_rows row_sum parts.old others.now }
    ensures shape { lengths_of parts.new ≡ lengths_of parts.old }
    ensures words { concat parts.new ≡ row_sum (concat parts.old) (concat others.now) }
{
    for i in 0..parts.len() {
        parts[i].add_assign(&others[i]);
    }
}

/// Subtracts `others`.
pub fn subtract(parts: &mut [Poly], others: &[Poly])
    requires { lengths_of parts.old ≡ lengths_of others.now }
    ensures parts { parts.new ≡ zip_rows row_difference parts.old others.now }
    ensures shape { lengths_of parts.new ≡ lengths_of parts.old }
    ensures words { concat parts.new ≡ row_difference (concat parts.old) (concat others.now) }
{
    for i in 0..parts.len() {
        parts[i].sub_assign(&others[i]);
    }
}

/// Multiplies every word by `factor`.
pub fn scale(parts: &mut [Poly], factor: u64)
    ensures parts { parts.new ≡ map (scaled_row factor) parts.old }
    ensures shape { lengths_of parts.new ≡ lengths_of parts.old }
    ensures words { concat parts.new ≡ scaled_row factor (concat parts.old) }
{
    for i in 0..parts.len() {
        parts[i].scale_assign(factor);
    }
}

/// Adds `factor` times `others`.
pub fn add_scaled(parts: &mut [Poly], others: &[Poly], factor: u64)
    requires { lengths_of parts.old ≡ lengths_of others.now }
    ensures parts { parts.new ≡ zip_rows (λ x y. sum_with_scaled x factor y) parts.old others.now }
    ensures shape { lengths_of parts.new ≡ lengths_of parts.old }
    ensures words { concat parts.new ≡ sum_with_scaled (concat parts.old) factor (concat others.now) }
{
    for i in 0..parts.len() {
        parts[i].add_scaled(&others[i], factor);
    }
}

/// Adds `p` times `others`.
pub fn add_products(parts: &mut [Poly], p: &Poly, others: &[Poly], scratch: &mut Scratch)
    requires shape { lengths_of parts.old ≡ lengths_of others.now }
    requires degree { AllOfLength (length p.now) parts.old }
    requires room { length p.now ≡ 2 ^ scratch.old }
    ensures parts { parts.new ≡ plus_product parts.old p.now others.now }
    ensures shape { lengths_of parts.new ≡ lengths_of parts.old }
    ensures room_stays { scratch.new ≡ scratch.old }
{
    for i in 0..parts.len() {
        mul_add(&mut parts[i], p, &others[i], scratch);
    }
    negacyclic::laws::laws();
}

/// Sets the parts to X^by times `others`.
pub fn rotate(parts: &mut [Poly], others: &[Poly], by: u32)
    requires shape { lengths_of parts.old ≡ lengths_of others.now }
    requires below { All (λ part. by < 2 * length part) parts.old }
    ensures parts { parts.new ≡ rotated by others.now }
    ensures shape { lengths_of parts.new ≡ lengths_of parts.old }
{
    for i in 0..parts.len() {
        rotate_into(&mut parts[i], &others[i], by);
    }
    negacyclic::laws::laws();
}

/// Sets the last part to a polynomial, and every word of the others to 0.
pub fn make_trivial(parts: &mut [Poly], body: &Poly)
    requires some { 0 < length parts.old }
    requires degree { AllOfLength (length body.now) parts.old }
    ensures parts { parts.new ≡ trivial_glwe (length parts.old - 1) body.now }
    ensures shape { lengths_of parts.new ≡ lengths_of parts.old }
{
    rows::known(body.coeffs());
    clear(parts);
    let last = parts.len() - 1;
    parts[last].add_assign(body);
}
