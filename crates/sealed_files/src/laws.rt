//! The laws of files, as a contract that a proof may call for.

ghost use Rattle.sealed_files.specs.Laws.{FrameLaws, ReadLaws, MatchLaws};

/// All laws of sealed files. What is spelled is read, and each file has one spelling.
#[inline]
pub fn laws()
    ensures frames { FrameLaws }
    ensures reading { ReadLaws }
    ensures matching { MatchLaws }
{}
