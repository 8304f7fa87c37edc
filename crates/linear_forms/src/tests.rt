//! Sums and multiples of forms.

use super::*;
use std::test::Fail;

#[test]
fn a_sum_of_multiples(rt: HostRuntime) -> Result<(), Fail> {
    let alloc = rt.alloc();
    let first = leaf_form(alloc, 0)?;
    let third = leaf_form(alloc, 2)?;
    let sum = combined(alloc, 5, -3, &third, 2, &first)?;
    assert_eq!(rt; sum.constant, 5);
    assert_eq!(rt; sum.terms.as_slice(), [(0, 2), (2, -3)].as_slice());
    let size = size_of(&sum);
    assert_eq!(rt; size, 5);
    let form = narrowed(alloc, &sum)?;
    assert_eq!(rt; form.constant, 5);
    let terms = copied_terms(alloc, &form)?;
    assert_eq!(rt; terms.as_slice(), [(0, 2), (2, -3)].as_slice());
    Ok(())
}

#[test]
fn weights_that_add_up_to_0(rt: HostRuntime) -> Result<(), Fail> {
    let alloc = rt.alloc();
    let leaf = leaf_form(alloc, 7)?;
    let none = combined(alloc, 0, 4, &leaf, -4, &leaf)?;
    assert_eq!(rt; none.terms.len(), 0);
    let number = constant_form(alloc, 9);
    let moved = combined(alloc, 1, 1, &leaf, 2, &number)?;
    assert_eq!(rt; moved.constant, 19);
    assert_eq!(rt; moved.terms.as_slice(), [(7, 1)].as_slice());
    Ok(())
}
