//! Ranges of worked forms, and of small forms against all values of their leaves.

use super::*;
use std::process::Abort;
use std::test::Fail;

/// The range of a form whose numbers are small.
fn small_range_of(
    rt: &impl Abort,
    constant: i64,
    terms: &[(u32, i64)],
    ranges: &[(i64, i64)],
) -> (i128, i128) {
    assert!(rt; are_small(terms, ranges));
    range_of(constant, terms, ranges)
}

#[test]
fn worked_forms(rt: HostRuntime) -> Result<(), Fail> {
    let table: [(i64, &[(u32, i64)], &[(i64, i64)], (i128, i128)); 7] = [
        (
            0,
            &[(0, 1), (1, 2), (2, 3)],
            &[(0, 3), (0, 3), (0, 2)],
            (0, 15),
        ),
        (-3, &[(0, -1), (1, 1)], &[(0, 1), (0, 2)], (-4, -1)),
        (-2, &[(0, 1)], &[(2, 5)], (0, 3)),
        (5, &[], &[(0, 3)], (5, 5)),
        (0, &[(1, -2)], &[(9, 9), (-4, 3)], (-6, 8)),
        (
            i64::MAX,
            &[(0, 1)],
            &[(-1, 1)],
            (9223372036854775806, 9223372036854775808),
        ),
        (
            i64::MIN,
            &[(0, -1099511627776), (1, 1099511627776)],
            &[(65535, 65536), (-65536, 65536)],
            (-9367487224930631680, -9223370937343148032),
        ),
    ];
    for (constant, terms, ranges, range) in table {
        assert_eq!(rt;
            small_range_of(&rt, constant, terms, ranges),
            range,
            "{terms:?}"
        );
    }
    Ok(())
}

#[test]
fn small_numbers(rt: HostRuntime) -> Result<(), Fail> {
    let table: [(bool, &[(u32, i64)], &[(i64, i64)]); 6] = [
        (true, &[(0, 1099511627776)], &[(-65536, 65536)]),
        (false, &[(0, 1099511627777)], &[(0, 0)]),
        (false, &[(0, -1099511627777)], &[(0, 0)]),
        (false, &[(1, 1)], &[(0, 0)]),
        (false, &[], &[(-65537, 0)]),
        (false, &[], &[(0, 65537)]),
    ];
    for (small, terms, ranges) in table {
        assert_eq!(rt; are_small(terms, ranges), small, "{terms:?} {ranges:?}");
    }
    Ok(())
}

/// The least and the greatest value of a form of two leaves, by trying all their values.
fn tried_range(
    constant: i64,
    weights: (i64, i64),
    first: (i64, i64),
    last: (i64, i64),
) -> (i64, i64) {
    let mut range = (i64::MAX, i64::MIN);
    for x in first.0..=first.1 {
        for y in last.0..=last.1 {
            let terms = weights
                .0
                .wrapping_mul(x)
                .wrapping_add(weights.1.wrapping_mul(y));
            let value = constant.wrapping_add(terms);
            range = (range.0.min(value), range.1.max(value));
        }
    }
    range
}

#[test]
fn ranges_are_reached(rt: HostRuntime) -> Result<(), Fail> {
    let ranges = [(0, 3), (-2, 1), (2, 2)];
    for first in ranges {
        for last in ranges {
            for weights in [(1, 1), (-1, 2), (3, -2), (-5, -1), (0, 4)] {
                let terms = [(0, weights.0), (1, weights.1)];
                let (least, greatest) = tried_range(-7, weights, first, last);
                assert_eq!(rt;
                    small_range_of(&rt, -7, &terms, &[first, last]),
                    (i128::from(least), i128::from(greatest))
                );
            }
        }
    }
    Ok(())
}
