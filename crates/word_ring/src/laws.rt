//! The laws of words, as contracts that a proof may call for.

ghost use Rattle.word_ring.specs.Words.{RingLaws, ResidueLaws, SizeLaws, CentredLaws};
ghost use Rattle.word_ring.specs.Signed.{SignedLaws};
ghost use Rattle.word_ring.specs.Rounding.{RoundingLaws, SwitchingLaws};
ghost use Rattle.word_ring.specs.Rows.{RowLaws};
ghost use Rattle.word_ring.specs.RowLaws.{RowRingLaws, RowSizeLaws, RowTotalLaws, CombinedLaws};

use crate::rounding::{rounding_laws, switching_laws};

/// All laws of the crate: of words, of rounding, of rows and of their sums.
#[inline]
pub fn laws()
    ensures ring { RingLaws }
    ensures residues { ResidueLaws }
    ensures sizes { SizeLaws }
    ensures centred { CentredLaws }
    ensures signed { SignedLaws }
    ensures rounding { RoundingLaws }
    ensures switching { SwitchingLaws }
    ensures rows { RowLaws }
    ensures row_ring { RowRingLaws }
    ensures row_sizes { RowSizeLaws }
    ensures row_totals { RowTotalLaws }
    ensures combined { CombinedLaws }
{
    ring_laws();
    residue_laws();
    size_laws();
    centred_laws();
    signed_laws();
    rounding_laws();
    switching_laws();
    row_laws();
}

/// Words are a commutative ring.
#[inline]
fn ring_laws()
    ensures { RingLaws }
{}

/// The operations see their arguments modulo 2^64.
#[inline]
fn residue_laws()
    ensures { ResidueLaws }
{}

/// How the operations change the distance to 0, on which every bound on noise stands.
#[inline]
fn size_laws()
    ensures { SizeLaws }
{}

/// The centred number is the one congruent to the word in [-2^63, 2^63).
#[inline]
fn centred_laws()
    ensures { CentredLaws }
{}

/// Taking signed numbers to their words keeps sums, differences and products.
#[inline]
fn signed_laws()
    ensures { SignedLaws }
{}

/// Rows go word by word, and weighted sums of them term by term.
#[inline]
fn row_laws()
    ensures { RowLaws }
{}
