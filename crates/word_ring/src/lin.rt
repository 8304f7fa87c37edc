//! Values that are rows of words.

ghost use Rattle.std.specs.Prelude.{◌≡◌, ◌<◌, ◌^◌, ◌↔◌, ℕ, List, [], ◌∷◌, IsTrue, All, length, replicate};
ghost use Rattle.word_ring.specs.Words.{IsWord};
ghost use Rattle.word_ring.specs.Rows.{row_sum, row_difference, scaled_row, sum_with_scaled};

/// A row of words under some shape: a module over the words, whose operations work in place, take no
/// memory and always answer. Those on two values ask for one shape.
pub trait Lin {
    /// Holds of the values of the type. A law ranges over more.
    ghost is_value: { Self → Type 0 };

    /// The words, in order.
    ghost words: { Self → List ℕ };

    /// The dimensions.
    ghost shape: { Self → List ℕ };

    /// What a value of the type is, for proofs alone.
    fn known(&self)
        ensures { is_value self.now };

    /// Whether the two have one shape.
    fn fits(&self, other: &Self) -> bool
        ensures { IsTrue result ↔ (shape self.now ≡ shape other.now) };

    /// Sets every word to 0.
    fn zero_assign(&mut self)
        ensures shape { shape self.new ≡ shape self.old }
        ensures words { words self.new ≡ replicate (length (words self.old)) 0 };

    /// Adds `other`, word by word.
    fn add_assign(&mut self, other: &Self)
        requires { shape self.old ≡ shape other.now }
        ensures shape { shape self.new ≡ shape self.old }
        ensures words { words self.new ≡ row_sum (words self.old) (words other.now) };

    /// Subtracts `other`, word by word.
    fn sub_assign(&mut self, other: &Self)
        requires { shape self.old ≡ shape other.now }
        ensures shape { shape self.new ≡ shape self.old }
        ensures words { words self.new ≡ row_difference (words self.old) (words other.now) };

    /// Multiplies every word by `factor`.
    fn scale_assign(&mut self, factor: u64)
        ensures shape { shape self.new ≡ shape self.old }
        ensures words { words self.new ≡ scaled_row factor (words self.old) };

    /// Adds `factor` times `other`, word by word.
    fn add_scaled(&mut self, other: &Self, factor: u64)
        requires { shape self.old ≡ shape other.now }
        ensures shape { shape self.new ≡ shape self.old }
        ensures words { words self.new ≡ sum_with_scaled (words self.old) factor (words other.now) };

    /// Each word of a value fits 64 bits.
    ghost words_fit: { (x : Self) → is_value x → All IsWord (words x) };

    /// Values of one shape have as many words as each other.
    ghost same_length: { (x y : Self) → is_value x → is_value y → shape x ≡ shape y
        → length (words x) ≡ length (words y) };
}

impl Lin for u64 {
    ghost is_value = { λ w. w < 2 ^ 64 };

    ghost words = { λ w. w ∷ [] };

    ghost shape = { λ _. [] };

    #[inline]
    fn known(&self) {
        let _value = *self;
    }

    #[inline]
    fn fits(&self, _other: &Self) -> bool {
        true
    }

    #[inline]
    fn zero_assign(&mut self) {
        *self = 0;
    }

    #[inline]
    fn add_assign(&mut self, other: &Self) {
        *self = self.wrapping_add(*other);
    }

    #[inline]
    fn sub_assign(&mut self, other: &Self) {
        *self = self.wrapping_sub(*other);
    }

    #[inline]
    fn scale_assign(&mut self, factor: u64) {
        *self = factor.wrapping_mul(*self);
    }

    #[inline]
    fn add_scaled(&mut self, other: &Self, factor: u64) {
        *self = self.wrapping_add(factor.wrapping_mul(*other));
    }

    ghost use Rattle.std.proofs.lemmas.List.Elements.{All-cons};
    ghost use Rattle.std.proofs.Common.{rules, refl};

    ghost words_fit = { λ w fits. All-cons IsWord w [] fits (Prim.search rules) };

    ghost same_length = { λ x y p q e. refl };
}
