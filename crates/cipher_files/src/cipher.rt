//! Files of ciphertexts.

ghost use Rattle.std.specs.Prelude.{◌≡◌, ◌+◌, ◌*◌, ◌<◌, ◌≤◌, ◌^◌, ◌++◌, length, All, IfOk, OnOk};
ghost use Rattle.std.specs.List.{flat_map};
ghost use Rattle.refusals.specs.Reading.{Gives};
ghost use Rattle.word_ring.specs.Words.{IsWord};
ghost use Rattle.sealed_files.specs.Limits.{words_place, word_size, file_limit};
ghost use Rattle.sealed_files.specs.Frame.{words_bytes};
ghost use Rattle.sealed_files.specs.FrameReading.{word_at};
ghost use Rattle.cipher_files.specs.CipherFile.{file_of, range_words, cipher_bytes, HasCipherLimits, IsCipherFile, is_number_range, range_at, ranges_at, rows_at, cipher_in, cipher_of};

use crate::head::CipherHead;
use crate::laws::laws;
use crate::rows::{known_digest, read_row};
use forms::limits::{LEAST_NUMBER, MOST_NUMBER};
use lists::List;
use lwe_core::{Big, Lwe};
use refusals::unless;
use sealed_files::{
    FileFault, FileKind, FileRefusal, begin, check_file, digest_in, put_word, put_words, seal,
    word_at,
};
use std::alloc::{AllocError, Global};
use word_ring::{centred, rows, word_of};

/// Whether the numbers from `lo` to `hi`, at least one, lie in -2^15 .. 2^16 - 1.
fn is_number_range(lo: i64, hi: i64) -> bool
    ensures { result ≡ is_number_range lo hi }
{
    LEAST_NUMBER <= lo && lo <= hi && hi <= MOST_NUMBER
}

/// The range at a place.
#[tactic(auto, unfolding(crate::specs::CipherFile::range_at))]
fn range_at(bytes: &[u8], place: usize) -> Result<(i64, i64), FileRefusal>
    requires room { words_place + word_size * (place + 2) ≤ length bytes.now }
    requires few { place < 2 ^ 32 }
    ensures { Gives (λ range. range) result (range_at bytes.now place) }
{
    let lo = centred(word_at(bytes, place));
    let hi = centred(word_at(bytes, place + 1));
    unless(
        is_number_range(lo, hi),
        FileFault::Field {
            place: place as u32,
        },
    )?;
    Ok((lo, hi))
}

/// So many ranges, from a place on.
fn ranges_at(
    alloc: Global,
    bytes: &[u8],
    place: usize,
    count: usize,
) -> Result<Vec<(i64, i64)>, FileRefusal>
    requires room { words_place + word_size * (place + 2 * count) ≤ length bytes.now }
    requires few { place + 2 * count < 2 ^ 32 }
    ensures { Gives (λ ranges. ranges.items) result (ranges_at bytes.now place count) }
{
    let mut ranges = Vec::with_capacity(alloc, count)?;
    for i in 0..count {
        ranges.push(range_at(bytes, place + 2 * i)?)?;
    }
    Ok(ranges)
}

/// So many ciphertexts, from a place on.
fn ciphertexts_at(
    alloc: Global,
    bytes: &[u8],
    place: usize,
    dim: usize,
    count: usize,
) -> Result<Vec<Lwe<Big>>, AllocError>
    requires dim { dim ≤ 24576 }
    requires count { count ≤ 64 }
    requires room { words_place + word_size * (place + count * (dim + 1)) ≤ length bytes.now }
    ensures { IfOk result (λ list. list.items ≡ rows_at bytes.now place (dim + 1) count) }
{
    let mut list = Vec::with_capacity(alloc, count)?;
    for i in 0..count {
        let mut ciphertext = Lwe::new(alloc, dim)?;
        read_row(&mut ciphertext, bytes, place + i * (dim + 1));
        list.push(ciphertext)?;
    }
    Ok(list)
}

/// The ranges, and then the ciphertexts.
#[tactic(auto, unfolding(crate::specs::CipherFile::cipher_in))]
fn cipher_in(alloc: Global, bytes: &[u8]) -> Result<(CipherHead, Vec<Lwe<Big>>), FileRefusal>
    requires dim { word_at bytes.now 0 ≤ 24576 }
    requires width { word_at bytes.now 1 ≤ 16 }
    requires number { word_at bytes.now 2 ≤ 64 }
    requires room { words_place + word_size * (3 + (2 * word_at bytes.now 2
        + word_at bytes.now 2 * (word_at bytes.now 0 + 1))) ≤ length bytes.now }
    ensures { Gives (λ read. file_of read.0 read.1.items) result (cipher_in bytes.now) }
{
    let dim = word_at(bytes, 0) as u32;
    let width = word_at(bytes, 1) as u32;
    let number = word_at(bytes, 2) as usize;
    let ranges = ranges_at(alloc, bytes, 3, number)?;
    let list = ciphertexts_at(alloc, bytes, 3 + 2 * number, dim as usize, number)?;
    let head = CipherHead {
        digest: digest_in(bytes),
        dim,
        width,
        ranges: List::from_vec(ranges),
    };
    Ok((head, list))
}

#[tactic(auto, unfolding(crate::specs::CipherFile::cipher_of))]
fn checked_cipher(alloc: Global, bytes: &[u8]) -> Result<(CipherHead, Vec<Lwe<Big>>), FileRefusal>
    ensures { Gives (λ read. file_of read.0 read.1.items) result (cipher_of bytes.now) }
{
    sealed_files::laws::laws();
    check_file(FileKind::Cipher, bytes)?;
    cipher_in(alloc, bytes)
}

/// The ciphertexts that the bytes hold, all of the bytes, and what the file says of them.
///
/// The checks are those of a sealed file, and then that each range rises within -2^15 .. 2^16 - 1. The bytes are
/// checked before any memory is taken, and the ranges before there is any for the words.
pub fn read_cipher(alloc: Global, bytes: &[u8]) -> Result<(CipherHead, Vec<Lwe<Big>>), FileRefusal>
    ensures exact { Gives (λ read. file_of read.0 read.1.items) result (cipher_of bytes.now) }
    // So it can be printed again.
    ensures valid { IfOk result (λ read. IsCipherFile (file_of read.0 read.1.items)) }
{
    laws();
    checked_cipher(alloc, bytes)
}

fn put_range(out: &mut Vec<u8>, range: &(i64, i64)) -> Result<(), AllocError>
    ensures { OnOk result (out.new.items ≡ out.old.items ++ words_bytes (range_words range.now)) }
{
    put_word(out, word_of(range.0))?;
    put_word(out, word_of(range.1))
}

fn put_ranges(out: &mut Vec<u8>, ranges: &[(i64, i64)]) -> Result<(), AllocError>
    ensures { OnOk result (out.new.items ≡ out.old.items ++ words_bytes (flat_map range_words ranges.now)) }
{
    for range in ranges {
        put_range(out, range)?;
    }
    Ok(())
}

fn put_ciphertexts(out: &mut Vec<u8>, list: &[Lwe<Big>]) -> Result<(), AllocError>
    ensures ok { OnOk result (out.new.items ≡ out.old.items ++ words_bytes (flat_map (λ words. words) list.now)) }
    ensures words { OnOk result (All (All IsWord) list.now) }
{
    for ciphertext in list {
        rows::known(ciphertext.words());
        put_words(out, ciphertext.words())?;
    }
    Ok(())
}

fn spelled_cipher(
    alloc: Global,
    head: &CipherHead,
    list: &[Lwe<Big>],
) -> Result<Vec<u8>, AllocError>
    ensures spelled { IfOk result (λ out. out.items ≡ cipher_bytes (file_of head.now list.now)) }
    ensures words { OnOk result (All (All IsWord) list.now) }
{
    let mut out = begin(alloc, FileKind::Cipher, &head.digest, 0)?;
    put_word(&mut out, u64::from(head.dim))?;
    put_word(&mut out, u64::from(head.width))?;
    put_word(&mut out, head.ranges.len() as u64)?;
    put_ranges(&mut out, head.ranges.as_slice())?;
    put_ciphertexts(&mut out, list)?;
    seal(&mut out)?;
    Ok(out)
}

/// The bytes of the file of this head and these ciphertexts, in order. It fails only where memory runs out.
pub fn print_cipher(
    alloc: Global,
    head: &CipherHead,
    list: &[Lwe<Big>],
) -> Result<Vec<u8>, AllocError>
    requires { HasCipherLimits (file_of head.now list.now) }
    ensures spelled { IfOk result (λ out. out.items ≡ cipher_bytes (file_of head.now list.now)) }
    // Its bytes and words fit their types, so the file is one that is read again.
    ensures valid { OnOk result (IsCipherFile (file_of head.now list.now)) }
    ensures size { IfOk result (λ out. length out.items ≤ file_limit) }
{
    laws();
    known_digest(&head.digest);
    let out = spelled_cipher(alloc, head, list)?;
    Ok(out)
}
