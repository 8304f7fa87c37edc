//! Secret keys.

ghost use Rattle.std.specs.Prelude.{◌≡◌, ◌<◌, List, Bool, false, length};
ghost use Rattle.std.specs.List.{slice_index_or};
ghost use Rattle.lwe_core.specs.Secret.{ones_of};

use crate::kind::{Big, Kind, Small};
use std::marker::{Model, PhantomData};

/// A secret key of a kind: its bits, in order (Chillotti et al. 2020, keys of TLWE samples). A clause
/// sees it as that list.
#[derive(Drop)]
pub struct LweKey<K: Kind> {
    bits: Vec<bool>,
    kind: PhantomData<K>,
}

impl<K: Kind> Model for LweKey<K> {
    ghost Value = { List Bool };

    ghost view = { λ key. key.bits.items };
}

impl<K: Kind> LweKey<K> {
    /// The key with these bits.
    pub fn from_bits(bits: Vec<bool>) -> LweKey<K>
        ensures { result ≡ bits.items }
    {
        LweKey {
            bits,
            kind: PhantomData,
        }
    }

    /// The number of bits: the dimension of the key.
    #[inline]
    pub fn len(&self) -> usize
        ensures { result ≡ length self.now }
    {
        self.bits.len()
    }

    /// The bit at a place.
    #[inline]
    pub fn bit(&self, at: usize) -> bool
        requires { at < length self.now }
        ensures { result ≡ slice_index_or self.now at false }
    {
        self.bits[at]
    }

    /// The number of bits that are 1, on which bounds on noise stand.
    pub fn ones(&self) -> usize
        ensures { result ≡ ones_of self.now }
    {
        let mut count = 0;
        for bit in self.bits.iter() {
            if *bit {
                count += 1;
            }
        }
        count
    }
}

/// The two keys of a secret.
#[derive(Drop)]
pub struct Secret {
    pub big: LweKey<Big>,
    pub small: LweKey<Small>,
}
