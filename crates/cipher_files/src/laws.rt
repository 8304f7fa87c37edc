//! The laws of the files of keys and of ciphertexts, as a contract that a proof may call for.

ghost use Rattle.cipher_files.specs.Laws.{SecretFileLaws, CipherFileLaws, EvalFileLaws};

/// All laws of these files: each has one spelling, what is spelled is read, and no file is too long to be read.
#[inline]
pub fn laws()
    ensures secrets { SecretFileLaws }
    ensures ciphers { CipherFileLaws }
    ensures evals { EvalFileLaws }
{
    sealed_files::laws::laws();
    word_ring::laws::laws();
}
