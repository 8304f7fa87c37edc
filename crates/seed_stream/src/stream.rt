ghost use Rattle.std.specs.Prelude.{◌≡◌, pos, ◌%◌, ◌^◌, ◌<◌, ◌≤◌, unsigned_abs};
ghost use Rattle.seed_stream.specs.Draws.{stream_key, stream_at, next_draw, after_draw, error_of};

use rand_chacha::ChaCha20Rng;
use rand_core::SeedableRng;
use rand_core::utils::NextWord;
use sha2::{Digest, Sha256};
use std::marker::Model;

/// The draws of a seed under one label: the key stream of ChaCha20 (RFC 8439, with a 64-bit counter
/// and stream number 0), whose key is the SHA-256 of the seed and then the label.
///
/// Streams of other labels are independent as far as SHA-256 and ChaCha20 are: nothing here proves
/// that the words are random.
///
/// The key stream begins again after 2^67 draws, and no command comes near that: the longest list is
/// that of a bootstrapping key, at most 1,024 GGSW ciphertexts of 4 * 63 rows of 4 * 8,192 words,
/// fewer than 2^33.
#[derive(Debug, Drop)]
pub struct Stream {
    words: ChaCha20Rng,
}

impl Model for Stream {
    ghost use Rattle.std.specs.Prelude.{◌≡◌, ◌/◌, ◌%◌, ◌^◌, ◌<◌};
    ghost use Rattle.seed_stream.specs.Draws.{KeyStream};

    ghost Value = { KeyStream };

    ghost view = { λ s. record { key = s.words.key; place = s.words.word_pos / 2 } };

    // Whole draws alone were taken.
    ghost invariant = { λ s. (s.words.stream ≡ 0) × (s.words.word_pos % 2 ≡ 0) × (s.words.word_pos < 2 ^ 68) };
}

impl Stream {
    /// The stream of a seed under a label, before its first draw.
    pub fn of(seed: &[u8; 32], label: &str) -> Stream
        ensures { result ≡ stream_at (stream_key seed.now label.now) 0 }
    {
        let mut hasher = Sha256::new();
        hasher.update(seed.as_slice());
        hasher.update(label.as_bytes());
        Stream {
            words: ChaCha20Rng::from_seed(hasher.finalize()),
        }
    }

    /// What a stream is, for proofs alone: it has made some number of draws, namely its place.
    #[inline]
    pub fn known(&self)
        ensures { self.now ≡ stream_at self.now.key self.now.place }
    {
        let _words = &self.words;
    }

    /// The next draw: the next word of 32 bits, plus 2^32 times the one after it.
    #[inline]
    pub fn next_u64(&mut self) -> u64
        ensures value { result ≡ next_draw self.old }
        ensures next { self.new ≡ after_draw self.old }
    {
        let low = self.words.next_word();
        let high = self.words.next_word();
        u64::from(low) + (u64::from(high) << 32)
    }

    /// An error in [-bound, bound]: one draw modulo 2 * bound + 1, less `bound`.
    #[inline]
    pub fn next_error(&mut self, bound: u64) -> i64
        requires { bound < 2 ^ 62 }
        ensures value { result ≡ error_of (next_draw self.old) bound }
        ensures within { unsigned_abs result ≤ bound }
        ensures zero { bound ≡ 0 → result ≡ pos 0 }
        ensures next { self.new ≡ after_draw self.old }
    {
        error_from(self.next_u64(), bound)
    }

    /// A number below `m`: one draw modulo `m`.
    #[inline]
    pub fn next_below(&mut self, m: u64) -> u64
        requires { 1 ≤ m }
        ensures value { result ≡ next_draw self.old % m }
        ensures below { result < m }
        ensures next { self.new ≡ after_draw self.old }
    {
        self.next_u64() % m
    }
}

/// The error in [-bound, bound] that a draw gives.
#[inline]
pub(crate) fn error_from(draw: u64, bound: u64) -> i64
    requires { bound < 2 ^ 62 }
    ensures { result ≡ error_of draw bound }
{
    (draw % (2 * bound + 1)) as i64 - bound as i64
}
