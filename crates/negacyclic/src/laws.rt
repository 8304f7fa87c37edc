//! The laws of polynomials, as contracts that a proof may call for.

ghost use Rattle.negacyclic.specs.Laws.{ProductLaws, RotationLaws, SumLaws, ProductSizeLaws};

/// All laws of polynomials.
#[inline]
pub fn laws()
    ensures products { ProductLaws }
    ensures rotations { RotationLaws }
    ensures sums { SumLaws }
    ensures sizes { ProductSizeLaws }
{
    product_laws();
    rotation_laws();
    product_size_laws();
}

/// Polynomials are a commutative ring.
#[inline]
fn product_laws()
    ensures { ProductLaws }
{
    word_ring::laws::laws();
}

/// A rotation moves coefficients and turns signs.
#[inline]
fn rotation_laws()
    ensures { RotationLaws }
{
    word_ring::laws::laws();
}

/// How products and rotations change the distances to 0, on which every bound on noise stands.
#[inline]
fn product_size_laws()
    ensures { ProductSizeLaws }
{
    word_ring::laws::laws();
}
