//! The product by Karatsuba's method: that of two polynomials in halves by three products of halves.

ghost use Rattle.std.specs.Prelude.{[], ◌∷◌, ◌≡◌, ◌≤◌, ◌+◌, ◌*◌, ◌%◌, ◌^◌, length};
ghost use Rattle.word_ring.specs.Rows.{row_sum};
ghost use Rattle.negacyclic.specs.Product.{negacyclic_product};
ghost use Rattle.negacyclic.specs.FullProduct.{full_product, second_quarter, third_quarter};

use word_ring::rows;

/// The logarithm to base 2 of the number of coefficients from which a polynomial is split no further.
pub const LEAF_LOG_N: u32 = 3;

/// A word and four products.
#[inline(always)]
fn four_sum(x: u64, f0: u64, f1: u64, f2: u64, f3: u64, y0: u64, y1: u64, y2: u64, y3: u64) -> u64
    ensures { result ≡ (x + f0 * y0 + f1 * y1 + f2 * y2 + f3 * y3) % 2 ^ 64 }
{
    x.wrapping_add(f0.wrapping_mul(y0))
        .wrapping_add(f1.wrapping_mul(y1))
        .wrapping_add(f2.wrapping_mul(y2))
        .wrapping_add(f3.wrapping_mul(y3))
}

/// Sets a row of four words.
#[inline(always)]
fn set_four(row: &mut [u64], x0: u64, x1: u64, x2: u64, x3: u64)
    requires { length row.old ≡ 4 }
    ensures { row.new ≡ x0 ∷ x1 ∷ x2 ∷ x3 ∷ [] }
{
    row[0] = x0;
    row[1] = x1;
    row[2] = x2;
    row[3] = x3;
}

/// The product of two polynomials of eight words.
fn set_product_of_eight(out: &mut [u64], a: &[u64], b: &[u64])
    requires first { length a.now ≡ 8 }
    requires second { length b.now ≡ 8 }
    requires room { length out.old ≡ 16 }
    ensures { out.new ≡ full_product a.now b.now }
{
    let (first, rest) = out.split_at_mut(4);
    let (second, rest) = rest.split_at_mut(4);
    let (third, fourth) = rest.split_at_mut(4);
    let f0 = a[0];
    let f1 = a[1];
    let f2 = a[2];
    let f3 = a[3];
    let g0 = b[0];
    let g1 = b[1];
    let g2 = b[2];
    let g3 = b[3];
    let x0 = four_sum(0, f0, f1, f2, f3, g0, 0, 0, 0);
    let x1 = four_sum(0, f0, f1, f2, f3, g1, g0, 0, 0);
    let x2 = four_sum(0, f0, f1, f2, f3, g2, g1, g0, 0);
    let x3 = four_sum(0, f0, f1, f2, f3, g3, g2, g1, g0);
    set_four(first, x0, x1, x2, x3);
    let g4 = b[4];
    let g5 = b[5];
    let g6 = b[6];
    let g7 = b[7];
    let x4 = four_sum(0, f0, f1, f2, f3, g4, g3, g2, g1);
    let x5 = four_sum(0, f0, f1, f2, f3, g5, g4, g3, g2);
    let x6 = four_sum(0, f0, f1, f2, f3, g6, g5, g4, g3);
    let x7 = four_sum(0, f0, f1, f2, f3, g7, g6, g5, g4);
    let f4 = a[4];
    let f5 = a[5];
    let f6 = a[6];
    let f7 = a[7];
    let x4 = four_sum(x4, f4, f5, f6, f7, g0, 0, 0, 0);
    let x5 = four_sum(x5, f4, f5, f6, f7, g1, g0, 0, 0);
    let x6 = four_sum(x6, f4, f5, f6, f7, g2, g1, g0, 0);
    let x7 = four_sum(x7, f4, f5, f6, f7, g3, g2, g1, g0);
    set_four(second, x4, x5, x6, x7);
    let x8 = four_sum(0, f0, f1, f2, f3, 0, g7, g6, g5);
    let x9 = four_sum(0, f0, f1, f2, f3, 0, 0, g7, g6);
    let x10 = four_sum(0, f0, f1, f2, f3, 0, 0, 0, g7);
    let x8 = four_sum(x8, f4, f5, f6, f7, g4, g3, g2, g1);
    let x9 = four_sum(x9, f4, f5, f6, f7, g5, g4, g3, g2);
    let x10 = four_sum(x10, f4, f5, f6, f7, g6, g5, g4, g3);
    let x11 = four_sum(0, f4, f5, f6, f7, g7, g6, g5, g4);
    set_four(third, x8, x9, x10, x11);
    let x12 = four_sum(0, f4, f5, f6, f7, 0, g7, g6, g5);
    let x13 = four_sum(0, f4, f5, f6, f7, 0, 0, g7, g6);
    let x14 = four_sum(0, f4, f5, f6, f7, 0, 0, 0, g7);
    set_four(fourth, x12, x13, x14, 0);
}

/// Sets `into` to the sum of two rows.
fn set_sum(into: &mut [u64], a: &[u64], b: &[u64])
    requires first { length a.now ≡ length into.old }
    requires second { length b.now ≡ length into.old }
    ensures { into.new ≡ row_sum a.now b.now }
{
    word_ring::laws::laws();
    for (i, word) in into.iter_mut().enumerate() {
        *word = a[i].wrapping_add(b[i]);
    }
}

/// Makes the second and third quarter of a product of the quarters of the halves' products, one after the
/// other, and the halves of the product of their sums.
fn join(
    first: &[u64],
    second: &mut [u64],
    third: &mut [u64],
    fourth: &[u64],
    mid_front: &[u64],
    mid_back: &[u64],
)
    requires one { length first.now ≡ length second.old }
    requires three { length third.old ≡ length second.old }
    requires four { length fourth.now ≡ length second.old }
    requires front { length mid_front.now ≡ length second.old }
    requires back { length mid_back.now ≡ length second.old }
    ensures second { second.new ≡ second_quarter first.now second.old third.old mid_front.now }
    ensures third { third.new ≡ third_quarter second.old third.old fourth.now mid_back.now }
{
    for i in 0..second.len() {
        let difference = second[i].wrapping_sub(third[i]);
        second[i] = difference.wrapping_add(mid_front[i]).wrapping_sub(first[i]);
        third[i] = mid_back[i].wrapping_sub(difference).wrapping_sub(fourth[i]);
    }
    word_ring::laws::laws();
}

/// Sets `out` to the product with no reduction, of which the quarters come from three products of halves.
fn set_full_product(out: &mut [u64], a: &[u64], b: &[u64], work: &mut [u64], levels: u32)
    requires first { length a.now ≡ 8 * 2 ^ levels }
    requires second { length b.now ≡ length a.now }
    requires double { length out.old ≡ 2 * length a.now }
    requires room { 4 * length a.now ≤ length work.old }
    ensures { out.new ≡ full_product a.now b.now }
{
    if levels == 0 {
        set_product_of_eight(out, a, b);
        return;
    }
    word_ring::laws::laws();
    let h = a.len() / 2;
    let (a_front, a_back) = a.split_at(h);
    let (b_front, b_back) = b.split_at(h);
    let (a_sum, rest) = work.split_at_mut(h);
    let (b_sum, rest) = rest.split_at_mut(h);
    let (mid, rest) = rest.split_at_mut(2 * h);
    let (low, high) = out.split_at_mut(2 * h);
    set_sum(a_sum, a_front, a_back);
    set_sum(b_sum, b_front, b_back);
    set_full_product(low, a_front, b_front, rest, levels - 1);
    set_full_product(high, a_back, b_back, rest, levels - 1);
    set_full_product(mid, a_sum, b_sum, rest, levels - 1);
    let (first, second) = low.split_at_mut(h);
    let (third, fourth) = high.split_at_mut(h);
    let (mid_front, mid_back) = mid.split_at(h);
    join(first, second, third, fourth, mid_front, mid_back);
}

/// Adds the product of `a` and `b` modulo X^N + 1, N at least 8.
pub fn add_product(into: &mut [u64], a: &[u64], b: &[u64], work: &mut [u64], levels: u32)
    requires size { length a.now ≡ 8 * 2 ^ levels }
    requires first { length a.now ≡ length into.old }
    requires second { length b.now ≡ length into.old }
    requires room { length work.old ≡ 6 * length into.old }
    ensures { into.new ≡ row_sum into.old (negacyclic_product a.now b.now) }
{
    word_ring::laws::laws();
    let n = a.len();
    let (product, rest) = work.split_at_mut(2 * n);
    set_full_product(product, a, b, rest, levels);
    let (front, back) = product.split_at(n);
    rows::add(into, front);
    rows::subtract(into, back);
}
