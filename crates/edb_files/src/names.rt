//! Which words name files.

ghost use Rattle.std.specs.Prelude.{◌≡◌};
ghost use Rattle.edb_files.specs.Names.{is_option};

/// Whether a word is an option's: it begins with `-` and has a character more. Any other word is a name.
pub fn is_option_word(word: &str) -> bool
    ensures { result ≡ is_option word.now }
{
    match word.as_bytes() {
        [first, _, ..] => *first == b'-',
        _ => false,
    }
}
