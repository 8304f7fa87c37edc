//! What is drawn fits, as a contract that a proof may call for.

ghost use Rattle.key_gen.specs.Laws.{KeyLaws, BootKeyLaws};

/// The keys of a seed fit each other and their errors keep their bounds, whatever the seed.
#[inline]
pub fn laws()
    ensures keys { KeyLaws }
    ensures boot_keys { BootKeyLaws }
{
    word_ring::laws::laws();
    seed_stream::laws::laws();
    lwe_core::laws::laws();
    negacyclic::laws::laws();
    glwe_core::laws::laws();
    blind_rotate::laws::laws();
}
