//! The laws of files, as a contract that a proof may call for.

ghost use Rattle.port_store.specs.Laws.{FilesLaws};

/// What holds of the files of a store.
#[inline]
pub fn laws()
    ensures { FilesLaws }
{}
