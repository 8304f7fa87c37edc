use crate::laws::laws;
use crate::{digits_into, poly_digit_into};
use negacyclic::Poly;
use std::test::Fail;

/// The word of -1.
const MINUS_ONE: u64 = 0xffff_ffff_ffff_ffff;

#[test]
fn digits_of_words(rt: HostRuntime) -> Result<(), Fail> {
    // word, base, digits
    for (word, base, digits) in [
        (0, 4, [0].as_slice()),
        (9223372036854775808, 4, &[-8]),
        (576460752303423487, 4, &[0]),
        (576460752303423488, 4, &[1]),
        (8646911284551352320, 4, &[-8]),
        (1729382256910270464, 4, &[2, -8]),
        (MINUS_ONE, 4, &[0, 0]),
        // one bit: -1 and 0 alone
        (4611686018427387903, 1, &[0]),
        (4611686018427387904, 1, &[-1]),
        (13835058055282163711, 1, &[-1]),
        (13835058055282163712, 1, &[0]),
        (4611686018427387904, 1, &[-1, -1]),
        // one digit of 63 bits
        (MINUS_ONE, 63, &[0]),
        (1, 63, &[1]),
        (9223372036854775806, 63, &[4611686018427387903]),
        (9223372036854775807, 63, &[-4611686018427387904]),
        // two digits of 31 bits
        (1, 31, &[0, 0]),
        (2, 31, &[0, 1]),
        (4294967292, 31, &[0, 1073741823]),
        (4294967296, 31, &[1, -1073741824]),
        (18446744073709551614, 31, &[0, 0]),
        (18446744073709551613, 31, &[0, -1]),
        (9223372036854775808, 31, &[-1073741824, 0]),
    ] {
        assert!(rt; 1 <= base && base <= 63 && 1 <= digits.len() && digits.len() <= 63);
        let level = digits.len() as u32;
        assert!(rt; base * level <= 63);
        let mut out = vec![in rt.alloc(); 7i64; digits.len()]?;
        digits_into(word, base, level, &mut out);
        assert_eq!(rt; out.as_slice(), digits, "{word} {base}");
    }
    Ok(())
}

#[test]
fn as_many_digits_as_can_be(rt: HostRuntime) -> Result<(), Fail> {
    let mut out = vec![in rt.alloc(); 7i64; 63]?;
    digits_into(MINUS_ONE, 1, 63, &mut out);
    assert!(rt; out.iter().all(|digit| *digit == 0));
    // 6, the nearest of two even words that is above, is -(2^63 + .. + 2^3) - 2 modulo 2^64
    digits_into(5, 1, 63, &mut out);
    assert!(rt; out.iter().take(61).all(|digit| *digit == -1));
    assert_eq!(rt; out[61], 0);
    assert_eq!(rt; out[62], -1);
    Ok(())
}

#[test]
fn digits_of_polynomials(rt: HostRuntime) -> Result<(), Fail> {
    let mut source = Poly::new(rt.alloc(), 1)?;
    source.set(0, 1729382256910270464);
    source.set(1, 9223372036854775808);
    let mut out = Poly::new(rt.alloc(), 1)?;
    poly_digit_into(&mut out, &source, 4, 2, 1);
    assert_eq!(rt; out.coeffs(), [2, 18446744073709551608].as_slice());
    poly_digit_into(&mut out, &source, 4, 2, 2);
    assert_eq!(rt; out.coeffs(), [18446744073709551608, 0].as_slice());
    Ok(())
}

#[test]
fn laws_are_free() {
    laws();
}
