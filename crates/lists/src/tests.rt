use super::*;
use std::test::Fail;

#[test]
fn keeps_its_elements(rt: HostRuntime) -> Result<(), Fail> {
    for elements in [[].as_slice(), [7u64].as_slice(), [3, 1, 2].as_slice()] {
        let list = List::from_vec(elements.to_vec(rt.alloc())?);
        assert_eq!(rt; list.as_slice(), elements);
        assert_eq!(rt; list.len(), elements.len());
        assert_eq!(rt; list.is_empty(), elements.is_empty());
        assert_eq!(rt; list.into_vec().as_slice(), elements);
    }
    let mut list = List::from_vec(vec![in rt.alloc(); 3, 1, 2]?);
    assert_eq!(rt; list.len(), 3);
    list.set(1, 5);
    assert_eq!(rt; list.as_slice(), [3, 5, 2].as_slice());
    let pairs = List::from_vec(vec![in rt.alloc(); (-1i64, 2i64)]?);
    assert_eq!(rt; pairs.as_slice(), [(-1i64, 2i64)].as_slice());
    Ok(())
}
