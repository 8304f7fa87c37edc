//! The test polynomial of a table.

ghost use Rattle.std.specs.Prelude.{◌≡◌, ◌<◌, ◌≤◌, ◌^◌, length};
ghost use Rattle.lwe_core.specs.Decoding.{encoded};
ghost use Rattle.lut_encode.specs.TestPolynomial.{box_of, half_box, entry_at, test_coefficient, test_polynomial};

use lwe_core::encode;
use negacyclic::Poly;
use word_ring::wneg;

/// Entry v of a table, which is 0 past its end.
#[inline]
fn entry_at(entries: &[i64], v: usize) -> i64
    ensures { result ≡ entry_at entries.now v }
{
    match entries.get(v) {
        Some(entry) => *entry,
        None => 0,
    }
}

/// The box: how many of n coefficients stand for one value.
#[inline]
fn box_of(n: usize, width: u32) -> usize
    requires { 2 ^ width ≤ n }
    ensures size { result ≡ box_of n width }
    ensures some { 1 ≤ result }
    ensures few_bits { width < 64 }
{
    n >> width
}

/// Coefficient j of n of the test polynomial.
#[inline]
fn test_coefficient(entries: &[i64], n: usize, width: u32, j: usize) -> u64
    requires { 2 ^ width ≤ n }
    ensures { result ≡ test_coefficient entries.now n width j }
{
    let size = box_of(n, width);
    let half = size / 2;
    if j < n - half {
        encode(entry_at(entries, (j + half) / size), width)
    } else {
        wneg(encode(entry_at(entries, 0), width))
    }
}

/// Sets `out`, of N = 2^log_n coefficients, to the test polynomial of a table whose values have `width` bits. With
/// `box = N / 2^width`, coefficient j below `N - box/2` is entry `(j + box/2) / box` at its place in the phases,
/// `entry * 2^(63-width)` modulo 2^64, and from there on it is minus that of entry 0. Entries past the given ones are 0
/// (Chillotti et al. 2020). It takes no memory.
pub fn test_poly_into(out: &mut Poly, entries: &[i64], width: u32)
    requires some_bits { 1 ≤ width }
    requires within { 2 ^ width < length out.old }
    requires some { 1 ≤ length entries.now }
    requires few { length entries.now ≤ 2 ^ width }
    ensures { out.new ≡ test_polynomial entries.now (length out.old) width }
{
    let n = out.coeffs().len();
    for j in 0..n {
        out.set(j, test_coefficient(entries, n, width, j));
    }
}
