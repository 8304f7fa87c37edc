use super::*;
use negacyclic::Poly;
use std::test::Fail;

// 2^61, the place of 1 at width 2.
const STEP: u64 = 2_305_843_009_213_693_952;

#[test]
fn worked_tables(rt: HostRuntime) -> Result<(), Fail> {
    // Two bits and eight coefficients: boxes of two, which begin one early. Entries 1, 3, 0, 2.
    let mut poly = Poly::new(rt.alloc(), 3)?;
    test_poly_into(&mut poly, &[1, 3, 0, 2], 2);
    let want = [
        STEP,
        6_917_529_027_641_081_856,
        6_917_529_027_641_081_856,
        0,
        0,
        4_611_686_018_427_387_904,
        4_611_686_018_427_387_904,
        16_140_901_064_495_857_664,
    ];
    assert_eq!(rt; poly.coeffs(), want.as_slice());
    // One entry of four: the others are 0. A negative entry -1 stands at 2^64 - 2^61, and its minus at 2^61.
    test_poly_into(&mut poly, &[-1], 2);
    let want = [16_140_901_064_495_857_664, 0, 0, 0, 0, 0, 0, STEP];
    assert_eq!(rt; poly.coeffs(), want.as_slice());
    // One bit: boxes of four, which begin two early. Entries 0, 1, at places 0 and 2^62.
    test_poly_into(&mut poly, &[0, 1], 1);
    let one = 4_611_686_018_427_387_904;
    let want = [0, 0, one, one, one, one, 0, 0];
    assert_eq!(rt; poly.coeffs(), want.as_slice());
    Ok(())
}

#[test]
fn laws_are_free() {
    laws::laws();
}
