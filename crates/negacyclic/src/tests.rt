ghost use Rattle.std.specs.Prelude.{◌≡◌, ◌≤◌, ◌^◌, IfOk, length};

use super::*;
use std::alloc::{AllocError, Global};
use std::test::Fail;

/// The words of -1 to -4.
const MINUS_1: u64 = 18446744073709551615;

const MINUS_2: u64 = 18446744073709551614;

const MINUS_3: u64 = 18446744073709551613;

const MINUS_4: u64 = 18446744073709551612;

/// The polynomial of 2^log_n coefficients that begins with these, the rest 0.
fn of_words(alloc: Global, log_n: u32, words: &[u64]) -> Result<Poly, AllocError>
    requires one_or_more { 1 ≤ log_n }
    requires thirteen_or_less { log_n ≤ 13 }
    ensures { IfOk result (λ p. length p ≡ 2 ^ log_n) }
{
    let mut poly = Poly::new(alloc, log_n)?;
    for (i, word) in words.iter().enumerate() {
        if i < poly.coeffs().len() {
            poly.set(i, *word);
        }
    }
    Ok(poly)
}

#[test]
fn sizes(rt: HostRuntime) -> Result<(), Fail> {
    let least = Poly::new(rt.alloc(), 1)?;
    assert_eq!(rt; least.log_n(), 1);
    assert_eq!(rt; least.coeffs(), [0, 0].as_slice());
    let greatest = Poly::new(rt.alloc(), 13)?;
    assert_eq!(rt; greatest.log_n(), 13);
    assert_eq!(rt; greatest.coeffs().len(), 8192);
    Ok(())
}

#[test]
fn set_changes_one_coefficient(rt: HostRuntime) -> Result<(), Fail> {
    let mut poly = Poly::new(rt.alloc(), 2)?;
    poly.set(3, MINUS_1);
    assert_eq!(rt; poly.coeffs(), [0, 0, 0, MINUS_1].as_slice());
    Ok(())
}

#[test]
fn products_of_two(rt: HostRuntime) -> Result<(), Fail> {
    let mut scratch = Scratch::new(rt.alloc(), 1)?;
    // p, q, p * q
    for (p, q, product) in [
        ([1, 2], [3, 4], [18446744073709551611, 10]),
        ([1, 2], [0, 0], [0, 0]),
        ([1, 2], [0, 1], [MINUS_2, 1]),
        ([MINUS_1, MINUS_1], [MINUS_1, MINUS_1], [0, 2]),
    ] {
        let mut into = Poly::new(rt.alloc(), 1)?;
        let p = of_words(rt.alloc(), 1, &p)?;
        let q = of_words(rt.alloc(), 1, &q)?;
        mul_add(&mut into, &p, &q, &mut scratch);
        assert_eq!(rt; into.coeffs(), product.as_slice(), "{p:?} * {q:?}");
    }
    Ok(())
}

#[test]
fn products_of_four_are_added(rt: HostRuntime) -> Result<(), Fail> {
    let mut scratch = Scratch::new(rt.alloc(), 2)?;
    // p, q, (10, 20, 30, 40) + p * q
    for (p, q, sum) in [
        // 5 - 61, 16 - 52, 34 - 32, 60
        (
            [1, 2, 3, 4],
            [5, 6, 7, 8],
            [18446744073709551570, 18446744073709551600, 32, 100],
        ),
        ([1, 2, 3, 4], [0, 0, 0, 0], [10, 20, 30, 40]),
        ([1, 2, 3, 4], [1, 0, 0, 0], [11, 22, 33, 44]),
        ([1, 2, 3, 4], [0, 0, 0, 1], [8, 17, 26, 41]),
        // -2, 0, 2, 4
        (
            [MINUS_1, MINUS_1, MINUS_1, MINUS_1],
            [MINUS_1, MINUS_1, MINUS_1, MINUS_1],
            [8, 20, 32, 44],
        ),
    ] {
        let mut into = of_words(rt.alloc(), 2, &[10, 20, 30, 40])?;
        let p = of_words(rt.alloc(), 2, &p)?;
        let q = of_words(rt.alloc(), 2, &q)?;
        mul_add(&mut into, &p, &q, &mut scratch);
        assert_eq!(rt; into.coeffs(), sum.as_slice(), "{p:?} * {q:?}");
    }
    Ok(())
}

#[test]
fn product_of_ones(rt: HostRuntime) -> Result<(), Fail> {
    let ones = of_words(rt.alloc(), 5, &[1; 32])?;
    let mut scratch = Scratch::new(rt.alloc(), 5)?;
    let mut into = Poly::new(rt.alloc(), 5)?;
    mul_add(&mut into, &ones, &ones, &mut scratch);
    // coefficient c is c + 1 - (31 - c)
    let expected = (0..32u64)
        .map(|c| (2 * c).wrapping_sub(30))
        .collect::<Vec<u64>>(rt.alloc())?;
    assert_eq!(rt; into.coeffs(), expected.as_slice());
    assert_eq!(rt; into.coeffs().first(), Some(&18446744073709551586));
    Ok(())
}

/// A polynomial of 2^log_n coefficients, each made of the one before by a linear congruence.
fn drawn(alloc: Global, log_n: u32, start: u64) -> Result<Poly, AllocError>
    requires one_or_more { 1 ≤ log_n }
    requires thirteen_or_less { log_n ≤ 13 }
    ensures { IfOk result (λ p. length p ≡ 2 ^ log_n) }
{
    let mut poly = Poly::new(alloc, log_n)?;
    let mut word = start;
    for i in 0..poly.coeffs().len() {
        word = word
            .wrapping_mul(6364136223846793005)
            .wrapping_add(1442695040888963407);
        poly.set(i, word);
    }
    Ok(poly)
}

/// Whether both calls add one product.
fn products_agree(alloc: Global, log_n: u32) -> Result<bool, AllocError>
    requires one_or_more { 1 ≤ log_n }
    requires thirteen_or_less { log_n ≤ 13 }
{
    let a = drawn(alloc, log_n, 1)?;
    let b = drawn(alloc, log_n, 2)?;
    let mut split = drawn(alloc, log_n, 3)?;
    let mut plain = drawn(alloc, log_n, 3)?;
    let mut scratch = Scratch::new(alloc, log_n)?;
    mul_add(&mut split, &a, &b, &mut scratch);
    mul_add_plain(&mut plain, &a, &b);
    Ok(split.coeffs() == plain.coeffs())
}

#[test]
fn products_are_one_product(rt: HostRuntime) -> Result<(), Fail> {
    for log_n in [1, 2, 3, 4, 5, 9, 10] {
        assert!(rt; 1 <= log_n && log_n <= 13);
        assert!(rt; products_agree(rt.alloc(), log_n)?, "log_n {log_n}");
    }
    Ok(())
}

#[test]
fn rotations_of_two(rt: HostRuntime) -> Result<(), Fail> {
    let p = of_words(rt.alloc(), 1, &[1, 2])?;
    for (by, rotated) in [
        (0, [1, 2]),
        (1, [MINUS_2, 1]),
        (2, [MINUS_1, MINUS_2]),
        (3, [2, MINUS_1]),
    ] {
        assert!(rt; by < 4);
        let mut into = of_words(rt.alloc(), 1, &[7, 7])?;
        rotate_into(&mut into, &p, by);
        assert_eq!(rt; into.coeffs(), rotated.as_slice(), "X^{by}");
    }
    Ok(())
}

#[test]
fn rotations_of_four(rt: HostRuntime) -> Result<(), Fail> {
    let p = of_words(rt.alloc(), 2, &[1, 2, 3, 4])?;
    for (by, rotated) in [
        (0, [1, 2, 3, 4]),
        (1, [MINUS_4, 1, 2, 3]),
        (2, [MINUS_3, MINUS_4, 1, 2]),
        (3, [MINUS_2, MINUS_3, MINUS_4, 1]),
        (4, [MINUS_1, MINUS_2, MINUS_3, MINUS_4]),
        (5, [4, MINUS_1, MINUS_2, MINUS_3]),
        (6, [3, 4, MINUS_1, MINUS_2]),
        (7, [2, 3, 4, MINUS_1]),
    ] {
        assert!(rt; by < 8);
        let mut into = of_words(rt.alloc(), 2, &[7, 7, 7, 7])?;
        rotate_into(&mut into, &p, by);
        assert_eq!(rt; into.coeffs(), rotated.as_slice(), "X^{by}");
    }
    Ok(())
}

#[test]
fn polynomials_are_rows(rt: HostRuntime) -> Result<(), Fail> {
    let mut p = of_words(rt.alloc(), 1, &[5, 6])?;
    let q = of_words(rt.alloc(), 1, &[MINUS_1, 2])?;
    let longer = of_words(rt.alloc(), 2, &[5, 6])?;
    p.known();
    assert!(rt; p.fits(&q));
    assert!(rt; !p.fits(&longer));
    p.add_assign(&q);
    assert_eq!(rt; p.coeffs(), [4, 8].as_slice());
    p.sub_assign(&q);
    assert_eq!(rt; p.coeffs(), [5, 6].as_slice());
    p.scale_assign(MINUS_1);
    assert_eq!(rt;
        p.coeffs(),
        [18446744073709551611, 18446744073709551610].as_slice()
    );
    p.add_scaled(&q, 3);
    assert_eq!(rt; p.coeffs(), [18446744073709551608, 0].as_slice());
    p.zero_assign();
    assert_eq!(rt; p.coeffs(), [0, 0].as_slice());
    Ok(())
}

#[test]
fn laws_are_free() {
    laws::laws();
}
