//! The laws of draws, as a contract that a proof may call for.

ghost use Rattle.seed_stream.specs.Draws.{DrawLaws};

/// What a stream gives is a function of its key: the calls give draw 0, 1, 2 and so on.
#[inline]
pub fn laws()
    ensures { DrawLaws }
{}
