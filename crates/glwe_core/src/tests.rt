ghost use Rattle.std.specs.Prelude.{◌≡◌, ◌≤◌, ◌+◌, ◌*◌, IfOk, length, replicate};
ghost use Rattle.glwe_core.specs.Glwe.{lengths_of};

use crate::{
    Glwe, GlweKey, Lin, add_product, extract_into, flat_key, laws, phase_into, rotate_glwe_into,
    seal_glwe, trivial_into,
};
use lwe_core::{Big, Lwe, LweKey, phase};
use negacyclic::{Poly, Scratch};
use std::alloc::{AllocError, Global};
use std::process::Abort;
use std::test::Fail;

/// The words of -1, -2, -4, -5 and -7.
const MINUS_1: u64 = 18446744073709551615;

const MINUS_2: u64 = 18446744073709551614;

const MINUS_4: u64 = 18446744073709551612;

const MINUS_5: u64 = 18446744073709551611;

const MINUS_7: u64 = 18446744073709551609;

/// The polynomial of these two coefficients.
fn poly(alloc: Global, words: [u64; 2]) -> Result<Poly, AllocError>
    ensures { IfOk result (λ p. length p ≡ 2) }
{
    let mut p = Poly::new(alloc, 1)?;
    p.set(0, words[0]);
    p.set(1, words[1]);
    Ok(p)
}

/// The ciphertext of k mask polynomials and a body of two coefficients, these in order.
fn ciphertext(alloc: Global, k: u32, words: &[u64]) -> Result<Glwe, AllocError>
    requires some { 1 ≤ k }
    requires few { k ≤ 3 }
    ensures { IfOk result (λ c. lengths_of c ≡ replicate (k + 1) 2) }
{
    let mut c = Glwe::new(alloc, k, 1)?;
    for at in 0..k + 1 {
        let first = 2 * at as usize;
        c.set(at, 0, words.get(first).copied().unwrap_or(0));
        c.set(at, 1, words.get(first + 1).copied().unwrap_or(0));
    }
    Ok(c)
}

/// Whether the parts of a ciphertext hold these words, in order.
fn holds(c: &Glwe, words: &[u64]) -> bool {
    let mut at = 0usize;
    for part in c.parts.iter() {
        for word in part.coeffs() {
            if words.get(at) != Some(word) {
                return false;
            }
            at = at.saturating_add(1);
        }
    }
    at == words.len()
}

/// What a key of k polynomials reads in a ciphertext with these words, the same of its extraction, and of the
/// ciphertext when it is sealed with a message and without a mask.
fn reads(
    rt: &impl Abort,
    alloc: Global,
    bits: &[bool],
    words: &[u64],
    k: u32,
    expected: (u64, u64),
    extracted: &[u64],
) -> Result<(), AllocError>
    requires some { 1 ≤ k }
    requires few { k ≤ 3 }
    requires bits { length bits.now ≡ k * 2 }
{
    let flat = LweKey::<Big>::from_bits(bits.to_vec(alloc)?);
    let key = GlweKey::new(alloc, k, 1, &flat)?;
    let mut c = ciphertext(alloc, k, words)?;
    let mut scratch = Scratch::new(alloc, 1)?;
    let mut out = Poly::new(alloc, 1)?;
    phase_into(&mut out, &key, &c, &mut scratch);
    assert_eq!(rt; out.coeffs(), [expected.0, expected.1].as_slice());

    let mut lwe = Lwe::<Big>::new(alloc, 2 * k as usize)?;
    extract_into(&mut lwe, &c);
    assert_eq!(rt; lwe.words(), extracted);
    let again = flat_key(alloc, &key)?;
    assert_eq!(rt; again.len(), flat.len());
    assert_eq!(rt; phase(&again, &lwe), expected.0);

    let message = poly(alloc, [3, MINUS_1])?;
    seal_glwe(&key, &mut c, &message, &[1, -2], &mut scratch);
    let mut sealed = Poly::new(alloc, 1)?;
    phase_into(&mut sealed, &key, &c, &mut scratch);
    assert_eq!(rt; sealed.coeffs(), [4, 18446744073709551613].as_slice());
    trivial_into(&mut c, &message);
    let mut body = Poly::new(alloc, 1)?;
    phase_into(&mut body, &key, &c, &mut scratch);
    assert_eq!(rt; body.coeffs(), [3, MINUS_1].as_slice());
    Ok(())
}

#[test]
fn operations_go_word_by_word(rt: HostRuntime) -> Result<(), Fail> {
    let mut c = ciphertext(rt.alloc(), 1, &[5, 7, 9, 1])?;
    let d = ciphertext(rt.alloc(), 1, &[MINUS_1, 0, 2, 3])?;
    assert_eq!(rt; c.k(), 1);
    assert!(rt; c.fits(&d));
    c.known();
    c.add_assign(&d);
    assert!(rt; holds(&c, &[4, 7, 11, 4]));
    c.sub_assign(&d);
    c.sub_assign(&d);
    assert!(rt; holds(&c, &[6, 7, 7, MINUS_2]));
    c.scale_assign(MINUS_1);
    assert!(rt; holds(&c, &[18446744073709551610, MINUS_7, MINUS_7, 2]));
    c.add_scaled(&d, 2);
    assert!(rt;
        holds(
            &c,
            &[18446744073709551608, MINUS_7, 18446744073709551613, 8]
        )
    );
    c.zero_assign();
    assert!(rt; holds(&c, &[0, 0, 0, 0]));
    let longer = Glwe::new(rt.alloc(), 1, 2)?;
    let more = Glwe::new(rt.alloc(), 2, 1)?;
    assert!(rt; !c.fits(&longer) && !c.fits(&more));
    Ok(())
}

#[test]
fn products_and_rotations_go_part_by_part(rt: HostRuntime) -> Result<(), Fail> {
    let mut scratch = Scratch::new(rt.alloc(), 1)?;
    // 1 + X times 5 + 7X is -2 + 12X, and times 9 + X it is 8 + 10X
    let factor = poly(rt.alloc(), [1, 1])?;
    let c = ciphertext(rt.alloc(), 1, &[5, 7, 9, 1])?;
    let mut into = ciphertext(rt.alloc(), 1, &[1, 1, 0, 2])?;
    add_product(&mut into, &factor, &c, &mut scratch);
    assert!(rt; holds(&into, &[MINUS_1, 13, 8, 12]));
    // X^3 is -X
    let d = ciphertext(rt.alloc(), 1, &[1, 2, 0, 1])?;
    rotate_glwe_into(&mut into, &d, 3);
    assert!(rt; holds(&into, &[2, MINUS_1, 1, 0]));
    Ok(())
}

#[test]
fn phases_of_one_two_and_three_masks(rt: HostRuntime) -> Result<(), Fail> {
    let alloc = rt.alloc();
    // 9 + X minus X times 5 + 7X
    reads(
        &rt,
        alloc,
        &[false, true],
        &[5, 7, 9, 1],
        1,
        (16, MINUS_4),
        &[5, MINUS_7, 9],
    )?;
    // 4 minus 1 + 2X, and minus 1 + X times 3
    let bits = [true, false, true, true];
    reads(
        &rt,
        alloc,
        &bits,
        &[1, 2, 3, 0, 4, 0],
        2,
        (0, MINUS_5),
        &[1, MINUS_2, 3, 0, 4],
    )?;
    // X minus 1 + X times 1, X times X and 1 + X times X
    let bits = [true, true, false, true, false, true];
    let words = [1, 0, 0, 1, 1, 1, 0, 1];
    reads(
        &rt,
        alloc,
        &bits,
        &words,
        3,
        (1, MINUS_1),
        &[1, 0, 0, MINUS_1, 1, MINUS_1, 0],
    )?;
    Ok(())
}

#[test]
fn laws_are_free() {
    laws::laws();
}
