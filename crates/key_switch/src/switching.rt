//! The switch itself.

ghost use Rattle.std.specs.Prelude.{◌≡◌, ◌+◌, length, map};
ghost use Rattle.word_ring.specs.Rows.{row_difference, sum_of_rows, scaled_rows, AllOfLength};
ghost use Rattle.word_ring.specs.Signed.{word_of};
ghost use Rattle.key_switch.specs.Switching.{switched};
ghost use Rattle.key_switch.specs.Laws.{KeepsPhase};

use crate::key::SwitchKey;
use crate::laws::laws;
use gadget_decomp::digits_into;
use lwe_core::{Big, Lwe, Small};
use word_ring::{Lin, wneg, word_of};

/// The most digits that a word can have.
const MOST_DIGITS: usize = 63;

/// Subtracts from `out` each row times its digit.
#[inline]
fn subtract_rows(out: &mut Lwe<Small>, digits: &[i64], rows: &[Lwe<Small>])
    requires one_each { length digits.now ≡ length rows.now }
    requires fitting { AllOfLength (length out.old) rows.now }
    ensures length { length out.new ≡ length out.old }
    ensures words { out.new ≡ row_difference out.old
        (sum_of_rows (length out.old) (scaled_rows (map word_of digits.now) rows.now)) }
{
    out.known();
    word_ring::laws::laws();
    for (t, row) in rows.iter().enumerate() {
        out.add_scaled(row, wneg(word_of(digits[t])));
    }
}

/// Sets `out` to what the key makes of a ciphertext under the big key: the body, minus each digit of each mask word
/// times its row (Chillotti et al. 2020, key switching). It takes no memory.
///
/// Under each small key that the rows fit, the phase is that of the ciphertext, but for a noise that the rows' errors
/// and the rounding bound.
pub fn switch_into(out: &mut Lwe<Small>, key: &SwitchKey, c: &Lwe<Big>)
    requires big { length c.now ≡ key.now.big_dim + 1 }
    requires small { length out.old ≡ key.now.small_dim + 1 }
    ensures words { out.new ≡ switched key.now c.now }
    ensures noise { KeepsPhase key.now c.now out.new }
{
    key.known();
    laws();
    word_ring::laws::laws();
    gadget_decomp::laws::laws();
    out.zero_assign();
    out.set(key.small_dim(), c.word(key.big_dim()));
    out.known();
    let mut room = [0; MOST_DIGITS];
    let digits = &mut room[..key.level() as usize];
    for i in 0..key.big_dim() {
        digits_into(c.word(i), key.base(), key.level(), digits);
        subtract_rows(out, digits, key.rows_of(i));
    }
}
