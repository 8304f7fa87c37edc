//! LWE ciphertexts.

ghost use Rattle.std.specs.Prelude.{◌≡◌, ◌<◌, ◌≤◌, ◌+◌, ◌↔◌, ℕ, List, [], ◌∷◌, IsTrue, IfOk, All, length, replicate, slice_index, slice_set};
ghost use Rattle.word_ring.specs.Words.{IsWord};

use crate::kind::Kind;
use std::alloc::{AllocError, Global};
use std::marker::{Model, PhantomData};
use word_ring::{Lin, rows};

/// An LWE ciphertext of a kind: the words of the mask, and then the body. A clause sees it as that
/// list, which has at least the body.
#[derive(Debug, Drop)]
pub struct Lwe<K: Kind> {
    words: Vec<u64>,
    kind: PhantomData<K>,
}

impl<K: Kind> Model for Lwe<K> {
    ghost Value = { List ℕ };

    ghost view = { λ c. c.words.items };

    ghost invariant = { λ c. 0 < length c.words.items };
}

impl<K: Kind> Lwe<K> {
    /// A ciphertext with a mask of `dim` words, all of them and the body 0. It fails only for memory.
    pub fn new(alloc: Global, dim: usize) -> Result<Lwe<K>, AllocError>
        requires { dim + 1 ≤ usize.MAX }
        ensures { IfOk result (λ c. c ≡ replicate (dim + 1) 0) }
    {
        Ok(Lwe {
            words: vec![in alloc; 0; dim + 1]?,
            kind: PhantomData,
        })
    }

    /// The ciphertext with these words, the body last.
    pub fn from_words(words: Vec<u64>) -> Lwe<K>
        requires { 0 < length words.items }
        ensures { result ≡ words.items }
    {
        Lwe {
            words,
            kind: PhantomData,
        }
    }

    /// The words of the mask, and then the body.
    #[inline]
    pub fn words(&self) -> &[u64]
        ensures { result.now ≡ self.now }
    {
        self.words.as_slice()
    }

    /// The number of words of the mask.
    #[inline]
    pub fn dim(&self) -> usize
        ensures { length self.now ≡ result + 1 }
    {
        self.words.len() - 1
    }

    /// The word of the mask at a place, or at place `dim` the body.
    #[inline]
    pub fn word(&self, at: usize) -> u64
        requires { at < length self.now }
        ensures { result ≡ slice_index self.now at }
    {
        self.words[at]
    }

    /// Sets the word of the mask at a place, or at place `dim` the body.
    #[inline]
    pub fn set(&mut self, at: usize, word: u64)
        requires { at < length self.old }
        ensures { self.new ≡ slice_set self.old at word }
    {
        self.words[at] = word;
    }
}

impl<K: Kind> Lin for Lwe<K> {
    ghost is_value = { All IsWord };

    ghost words = { λ c. c };

    ghost shape = { λ c. length c ∷ [] };

    #[inline]
    fn known(&self) {
        rows::known(self.words.as_slice());
    }

    #[inline]
    fn fits(&self, other: &Self) -> bool {
        self.words.len() == other.words.len()
    }

    #[inline]
    fn zero_assign(&mut self) {
        rows::clear(self.words.as_mut_slice());
    }

    #[inline]
    fn add_assign(&mut self, other: &Self) {
        rows::add(self.words.as_mut_slice(), other.words.as_slice());
    }

    #[inline]
    fn sub_assign(&mut self, other: &Self) {
        rows::subtract(self.words.as_mut_slice(), other.words.as_slice());
    }

    #[inline]
    fn scale_assign(&mut self, factor: u64) {
        rows::scale(self.words.as_mut_slice(), factor);
    }

    #[inline]
    fn add_scaled(&mut self, other: &Self, factor: u64) {
        rows::add_scaled(self.words.as_mut_slice(), other.words.as_slice(), factor);
    }

    ghost use Rattle.std.proofs.Common.{rules, ap};

    ghost words_fit = { λ c fits. fits };

    ghost same_length = { λ c d _ _ shapes. ap (λ s. slice_index s 0) shapes };
}
