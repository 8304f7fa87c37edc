//! The seed of keys and of inputs on a command line.

ghost use Rattle.std.specs.Prelude.{◌≡◌};
ghost use Rattle.std.specs.List.{list_any};
ghost use Rattle.fhec_cmd.specs.Seed.{is_upper, seed_of};

/// Whether a letter stands in upper case.
fn has_upper(word: &[u8]) -> bool
    ensures { result ≡ list_any is_upper word.now }
{
    match word {
        [] => false,
        [byte, rest @ ..] => byte.is_ascii_uppercase() || has_upper(rest),
    }
}

/// The 32 bytes that a word of 64 hexadecimal digits spells, letters in lower case; none for another word.
pub(crate) fn seed_of(word: &str) -> Option<[u8; 32]>
    ensures { result ≡ seed_of word.now }
{
    if word.len() != 64 || has_upper(word.as_bytes()) {
        return None;
    }
    let mut seed = [0; 32];
    match hex::decode_to_slice(word.as_bytes(), &mut seed) {
        Ok(()) => Some(seed),
        Err(_) => None,
    }
}
