//! Terms on other leaves.

use crate::terms::set_leaf;
use lists::List;
use std::test::Fail;

#[test]
fn terms_are_put_on_other_leaves(rt: HostRuntime) -> Result<(), Fail> {
    let mut terms = List::from_vec([(0, 3), (2, -4)].to_vec(rt.alloc())?);
    assert_eq!(rt; terms.len(), 2);
    set_leaf(&mut terms, 1, 9);
    assert_eq!(rt; terms.as_slice(), [(0, 3), (9, -4)].as_slice());
    Ok(())
}
