//! The names of files on a command line.

ghost use Rattle.std.specs.Prelude.{◌≡◌, map};
ghost use Rattle.std.specs.List.{list_any};
ghost use Rattle.std.specs.Str.{bytes_eq};
ghost use Rattle.command_forms.specs.Names.{is_no_eval, are_distinct};

/// Whether EVAL is the word that stands for no evaluation keys.
pub fn is_no_eval(word: &str) -> bool
    ensures { result ≡ is_no_eval word.now }
{
    word == "-"
}

/// Whether no name stands twice.
pub fn are_distinct(names: &[&str]) -> bool
    ensures { result ≡ are_distinct (map (λ name. name.now) names.now) }
{
    match names {
        [] => true,
        [name, others @ ..] => !stands_in(name, others) && are_distinct(others),
    }
}

/// Whether the name is one of these.
fn stands_in(name: &str, names: &[&str]) -> bool
    ensures { result ≡ list_any (bytes_eq name.now) (map (λ other. other.now) names.now) }
{
    match names {
        [] => false,
        [other, others @ ..] => name == *other || stands_in(name, others),
    }
}
