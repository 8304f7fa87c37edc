//! Tests of numbers, ranges and terms.

ghost use Rattle.std.specs.Prelude.{◌≡◌, ◌≤◌};
ghost use Rattle.std.specs.List.{list_all};
ghost use Rattle.forms.specs.Limits.{most_width};
ghost use Rattle.range_pass.specs.Bounds.{IsWide};
ghost use Rattle.circuit_nodes.specs.Tests.{is_number, is_number_range, is_same_range, are_rising, holds_range};

use forms::limits::{LEAST_NUMBER, MOST_NUMBER};

/// Whether an input, an entry or an out may have the number.
pub(crate) fn is_number(number: i64) -> bool
    ensures { result ≡ is_number number }
{
    LEAST_NUMBER <= number && number <= MOST_NUMBER
}

/// Whether there is at least one number in a range, and each of them may stand.
pub(crate) fn is_number_range(lo: i64, hi: i64) -> bool
    ensures { result ≡ is_number_range lo hi }
{
    LEAST_NUMBER <= lo && lo <= hi && hi <= MOST_NUMBER
}

/// Whether all entries may stand.
pub(crate) fn are_numbers(entries: &[i64]) -> bool
    ensures { result ≡ list_all is_number entries.now }
{
    entries.iter().all(|entry| is_number(*entry))
}

/// Whether a range is the one from `lo` to `hi`.
pub(crate) fn is_same_range(lo: i64, hi: i64, range: (i128, i128)) -> bool
    ensures { result ≡ is_same_range (lo, hi) range }
{
    i128::from(lo) == range.0 && i128::from(hi) == range.1
}

/// Whether terms rise in their operands.
pub(crate) fn are_rising(terms: &[(u32, i64)]) -> bool
    ensures { result ≡ are_rising 0 terms.now }
{
    let mut low = 0;
    for term in terms {
        if u64::from(term.0) < low {
            return false;
        }
        low = u64::from(term.0) + 1;
    }
    true
}

/// Whether a width holds a range.
pub(crate) fn holds_range(width: u32, range: (i128, i128)) -> bool
    requires width { width ≤ most_width }
    requires range { IsWide range }
    ensures { result ≡ holds_range width range }
{
    range.1 - range.0 < 1 << width
}
