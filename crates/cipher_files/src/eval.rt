//! Files of evaluation keys.

ghost use Rattle.std.specs.Prelude.{◌≡◌, ◌+◌, ◌*◌, ◌<◌, ◌≤◌, ◌^◌, ◌++◌, length, All, IfOk, OnOk, replicate, slice_set};
ghost use Rattle.std.specs.List.{flat_map};
ghost use Rattle.refusals.specs.Reading.{Gives};
ghost use Rattle.word_ring.specs.Words.{IsWord};
ghost use Rattle.glwe_core.specs.Glwe.{lengths_of};
ghost use Rattle.ggsw_core.specs.Ggsw.{row_lengths};
ghost use Rattle.fhe_params.specs.Limits.{most_polynomials};
ghost use Rattle.fhe_params.specs.Params.{IsParams};
ghost use Rattle.fhe_params.specs.Cost.{switch_key_words, boot_key_words, key_words_of};
ghost use Rattle.sealed_files.specs.Limits.{words_place, word_size, file_limit};
ghost use Rattle.sealed_files.specs.Kinds.{file_size};
ghost use Rattle.sealed_files.specs.Frame.{words_bytes};
ghost use Rattle.sealed_files.specs.FrameReading.{words_at};
ghost use Rattle.cipher_files.specs.EvalFile.{eval_rows, eval_header, eval_bytes, glwe_words, ggsw_words, IsSwitchOf, IsBootOf, AreSwitchWords, AreBootWords, IsEvalFile, eval_fits, switch_place, boot_place, rows_of_bit, row_words, boot_row_at, glwe_at, switch_in, boot_in, eval_of};

use crate::laws::laws;
use crate::rows::{known_digest, put_row, read_row};
use blind_rotate::BootKey;
use fhe_params::{Params, dimension, key_words};
use ggsw_core::Ggsw;
use glwe_core::Glwe;
use key_switch::SwitchKey;
use lwe_core::Lwe;
use sealed_files::{
    FileKind, FileRefusal, begin, check_file, digest_in, put_word, same_digest, same_word, seal,
    word_at,
};
use std::alloc::{AllocError, Global};
use word_ring::Lin;

/// Where the rows of the switch key begin, right behind the header.
const SWITCH_PLACE: usize = 5;

/// Compares a file to the parameters, whose digest this is: the digest, and then each field of the header.
#[tactic(auto, unfolding(crate::specs::EvalFile::eval_fits))]
fn eval_fits(digest: &[u8; 32], params: &Params, bytes: &[u8]) -> Result<(), FileRefusal>
    requires { file_size 5 ≤ length bytes.now }
    ensures { Gives (λ x. x) result (eval_fits digest.now params.now bytes.now) }
{
    same_digest(digest, &digest_in(bytes))?;
    same_word(u64::from(params.glwe.k), word_at(bytes, 0))?;
    same_word(u64::from(params.glwe.log_n), word_at(bytes, 1))?;
    same_word(u64::from(params.lwe.n), word_at(bytes, 2))?;
    same_word(u64::from(params.boot.level), word_at(bytes, 3))?;
    same_word(u64::from(params.switch.level), word_at(bytes, 4))
}

/// Where the rows of the boot key begin.
#[tactic(auto, using(crate::proofs::Places::switch_few, crate::proofs::Places::level_small))]
fn boot_place(params: &Params) -> usize
    requires { IsParams params.now }
    ensures place { result ≡ boot_place params.now }
    ensures few { result < 2 ^ 32 }
{
    let rows = dimension(params) as usize * params.switch.level as usize;
    SWITCH_PLACE + rows * (params.lwe.n as usize + 1)
}

/// The switch key, row by row.
fn switch_in(alloc: Global, params: &Params, bytes: &[u8]) -> Result<SwitchKey, AllocError>
    requires params { IsParams params.now }
    requires room { words_place + word_size * (switch_place + switch_key_words params.now) ≤ length bytes.now }
    ensures { IfOk result (λ key. key ≡ switch_in params.now bytes.now) }
{
    let level = params.switch.level;
    let n = params.lwe.n as usize;
    let dim = dimension(params);
    let mut key = SwitchKey::new(alloc, dim as usize, n, params.switch.base, level)?;
    let mut row = Lwe::new(alloc, n)?;
    for r in 0..dim * level {
        read_row(&mut row, bytes, SWITCH_PLACE + r as usize * (n + 1));
        key.known();
        key.swap_row((r / level) as usize, r % level + 1, &mut row);
    }
    Ok(key)
}

/// Sets the n words of part j of a row to those from a place on.
fn read_part(row: &mut Glwe, k: u32, n: usize, j: u32, bytes: &[u8], place: usize)
    requires part { j ≤ k }
    requires shape { lengths_of row.old ≡ replicate (k + 1) n }
    requires room { words_place + word_size * (place + n) ≤ length bytes.now }
    ensures parts { row.new ≡ slice_set row.old j (words_at bytes.now place n) }
    ensures shape { lengths_of row.new ≡ lengths_of row.old }
{
    for i in 0..n {
        row.set(j, i, word_at(bytes, place + i));
    }
}

/// Sets the k + 1 parts of a row to the words from a place on, n for each.
fn read_glwe(row: &mut Glwe, k: u32, n: usize, bytes: &[u8], place: usize)
    requires few { k ≤ most_polynomials }
    requires shape { lengths_of row.old ≡ replicate (k + 1) n }
    requires room { words_place + word_size * (place + (k + 1) * n) ≤ length bytes.now }
    ensures parts { row.new ≡ glwe_at bytes.now k n place }
    ensures shape { lengths_of row.new ≡ lengths_of row.old }
{
    for j in 0..k + 1 {
        read_part(row, k, n, j, bytes, place + j as usize * n);
    }
}

/// The words of a row of the boot key: those of k + 1 polynomials.
#[tactic(auto, using(crate::proofs::Places::boot_row_small))]
fn row_words(params: &Params) -> usize
    requires { IsParams params.now }
    ensures words { result ≡ row_words params.now }
    ensures few { result ≤ 2 ^ 15 }
{
    (params.glwe.k as usize + 1) << params.glwe.log_n
}

/// Where row r of the boot key begins.
fn boot_row_place(params: &Params, start: usize, r: u32) -> usize
    requires params { IsParams params.now }
    requires start { start ≡ boot_place params.now }
    requires few { start < 2 ^ 32 }
    requires row { r < params.now.lwe.n * rows_of_bit params.now }
    ensures place { result ≡ boot_row_at params.now r }
    ensures inside { result + row_words params.now ≤ boot_place params.now + boot_key_words params.now }
{
    let words = row_words(params);
    start + r as usize * words
}

/// The boot key, row by row.
fn boot_in(alloc: Global, params: &Params, bytes: &[u8]) -> Result<BootKey, AllocError>
    requires params { IsParams params.now }
    requires room { words_place + word_size * (boot_place params.now + boot_key_words params.now) ≤ length bytes.now }
    ensures { IfOk result (λ key. key ≡ boot_in params.now bytes.now) }
{
    let (k, log_n, n) = (params.glwe.k, params.glwe.log_n, params.lwe.n);
    let (base, level) = (params.boot.base, params.boot.level);
    let mut key = BootKey::new(alloc, k, log_n, n, base, level)?;
    let mut row = Glwe::new(alloc, k, log_n)?;
    blind_rotate::laws::laws();
    key.known();
    let start = boot_place(params);
    let rows = (k + 1) * level;
    for r in 0..n * rows {
        let (i, j, t) = (r / rows, r / level % (k + 1), r % level + 1);
        let place = boot_row_place(params, start, r);
        read_glwe(&mut row, k, 1 << log_n, bytes, place);
        key.swap_row(i, j, t, &mut row);
    }
    Ok(key)
}

#[tactic(auto, unfolding(crate::specs::EvalFile::eval_of))]
fn checked_eval(
    alloc: Global,
    bytes: &[u8],
    digest: &[u8; 32],
    params: &Params,
) -> Result<(SwitchKey, BootKey), FileRefusal>
    requires { IsParams params.now }
    ensures { Gives (λ read. eval_rows read.0 read.1) result (eval_of digest.now params.now bytes.now) }
{
    sealed_files::laws::laws();
    check_file(FileKind::Eval, bytes)?;
    eval_fits(digest, params, bytes)?;
    let switch = switch_in(alloc, params, bytes)?;
    let boot = boot_in(alloc, params, bytes)?;
    Ok((switch, boot))
}

/// The evaluation keys that the bytes hold, all of the bytes, as those of the parameters, whose digest this is.
///
/// The checks are those of a sealed file, and then the digest of the parameters and the header against the parameters.
/// The bytes are read row by row into the keys: beside both there is memory for one row.
pub fn read_eval(
    alloc: Global,
    bytes: &[u8],
    digest: &[u8; 32],
    params: &Params,
) -> Result<(SwitchKey, BootKey), FileRefusal>
    requires { IsParams params.now }
    ensures exact { Gives (λ read. eval_rows read.0 read.1) result (eval_of digest.now params.now bytes.now) }
    // So they can be printed again.
    ensures valid { IfOk result (λ read. IsEvalFile params.now (eval_rows read.0 read.1)) }
{
    laws();
    checked_eval(alloc, bytes, digest, params)
}

/// Puts the rows of a switch key.
fn put_switch(out: &mut Vec<u8>, key: &SwitchKey) -> Result<(), AllocError>
    requires few { key.now.big_dim * key.now.level < 2 ^ 32 }
    ensures ok { OnOk result (out.new.items ≡ out.old.items ++ words_bytes (flat_map (λ row. row) key.now.rows)) }
    ensures words { OnOk result (AreSwitchWords key.now) }
{
    key.known();
    let level = key.level();
    for r in 0..key.big_dim() * level as usize {
        let (i, t) = (r / level as usize, (r % level as usize) as u32 + 1);
        put_row(out, key.row(i, t).words())?;
    }
    Ok(())
}

/// Puts the parts of a row of a boot key.
fn put_glwe(out: &mut Vec<u8>, row: &Glwe) -> Result<(), AllocError>
    ensures ok { OnOk result (out.new.items ≡ out.old.items ++ words_bytes (glwe_words row.now)) }
    ensures words { OnOk result (All (All IsWord) row.now) }
{
    row.known();
    for j in 0..row.k() + 1 {
        put_row(out, row.part(j).coeffs())?;
    }
    Ok(())
}

/// Puts the rows of a GGSW ciphertext of so many parts.
fn put_ggsw(out: &mut Vec<u8>, g: &Ggsw, parts: u32) -> Result<(), AllocError>
    requires parts { length (row_lengths g.now) ≡ parts }
    requires few { parts ≤ 4 }
    requires level { g.now.level ≤ 63 }
    ensures ok { OnOk result (out.new.items ≡ out.old.items ++ words_bytes (ggsw_words g.now)) }
    ensures words { OnOk result (All (All (All IsWord)) g.now.rows) }
{
    g.known();
    let level = g.level();
    for r in 0..parts * level {
        put_glwe(out, g.row(r / level, r % level + 1))?;
    }
    Ok(())
}

/// Puts the rows of a boot key of so many GGSW ciphertexts.
fn put_boot(out: &mut Vec<u8>, key: &BootKey, n: u32) -> Result<(), AllocError>
    requires number { length key.now.ggsws ≡ n }
    requires few { key.now.shape.k ≤ most_polynomials }
    requires level { key.now.level ≤ 63 }
    ensures ok { OnOk result (out.new.items ≡ out.old.items ++ words_bytes (flat_map ggsw_words key.now.ggsws)) }
    ensures words { OnOk result (AreBootWords key.now) }
{
    key.known();
    let parts = key.k() + 1;
    for i in 0..n {
        put_ggsw(out, key.ggsw(i), parts)?;
    }
    Ok(())
}

/// Puts the header of the parameters.
fn put_header(out: &mut Vec<u8>, params: &Params) -> Result<(), AllocError>
    ensures { OnOk result (out.new.items ≡ out.old.items ++ words_bytes (eval_header params.now)) }
{
    put_word(out, u64::from(params.glwe.k))?;
    put_word(out, u64::from(params.glwe.log_n))?;
    put_word(out, u64::from(params.lwe.n))?;
    put_word(out, u64::from(params.boot.level))?;
    put_word(out, u64::from(params.switch.level))
}

#[tactic(auto, using(crate::proofs::Places::level_small))]
fn spelled_eval(
    alloc: Global,
    digest: &[u8; 32],
    params: &Params,
    switch: &SwitchKey,
    boot: &BootKey,
) -> Result<Vec<u8>, AllocError>
    requires params { IsParams params.now }
    requires switch { IsSwitchOf params.now switch.now }
    requires boot { IsBootOf params.now boot.now }
    requires words { key_words_of params.now ≤ 2 ^ 25 }
    ensures spelled { IfOk result (λ out. out.items ≡ eval_bytes digest.now params.now (eval_rows switch.now boot.now)) }
    ensures switch_words { OnOk result (AreSwitchWords switch.now) }
    ensures boot_words { OnOk result (AreBootWords boot.now) }
{
    let room = 112 + 8 * key_words(params) as usize;
    let mut out = begin(alloc, FileKind::Eval, digest, room)?;
    put_header(&mut out, params)?;
    put_switch(&mut out, switch)?;
    put_boot(&mut out, boot, params.lwe.n)?;
    seal(&mut out)?;
    Ok(out)
}

/// The bytes of the file of these evaluation keys, in order, with the digest of the parameters. It fails only where
/// memory runs out.
pub fn print_eval(
    alloc: Global,
    digest: &[u8; 32],
    params: &Params,
    switch: &SwitchKey,
    boot: &BootKey,
) -> Result<Vec<u8>, AllocError>
    requires params { IsParams params.now }
    requires switch { IsSwitchOf params.now switch.now }
    requires boot { IsBootOf params.now boot.now }
    requires words { key_words_of params.now ≤ 2 ^ 25 }
    ensures spelled { IfOk result (λ out. out.items ≡ eval_bytes digest.now params.now (eval_rows switch.now boot.now)) }
    // Its words fit their type, so the file is one that is read again.
    ensures valid { OnOk result (IsEvalFile params.now (eval_rows switch.now boot.now)) }
    ensures size { IfOk result (λ out. length out.items ≤ file_limit) }
{
    laws();
    known_digest(digest);
    let out = spelled_eval(alloc, digest, params, switch, boot)?;
    Ok(out)
}
