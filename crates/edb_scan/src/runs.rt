//! Comments, and runs of bytes of one kind.

ghost use Rattle.std.specs.Prelude.{◌≡◌, ◌∷◌, ◌==◌, count_by};
ghost use Rattle.edb_scan.specs.Fronts.{Finds, SplitsRun};
ghost use Rattle.edb_scan.specs.Letters as letters;
ghost use Rattle.edb_scan.specs.Lexis.{stays_in_line};

use crate::classes::is_name_char;
use crate::lexeme::Token;

/// Splits a text after the bytes of names at its front.
pub fn split_name(bytes: &[u8]) -> (&[u8], &[u8])
    ensures { SplitsRun letters.is_name_char bytes.now result.0.now result.1.now }
{
    for (len, byte) in bytes.iter().enumerate() {
        if !is_name_char(*byte) {
            return bytes.split_at(len);
        }
    }
    bytes.split_at(bytes.len())
}

/// Splits a text at the end of its first line.
fn split_line(bytes: &[u8]) -> (&[u8], &[u8])
    ensures { SplitsRun stays_in_line bytes.now result.0.now result.1.now }
{
    for (len, byte) in bytes.iter().enumerate() {
        if *byte == b'\n' {
            return bytes.split_at(len);
        }
    }
    bytes.split_at(bytes.len())
}

/// How many newlines a text has.
pub fn newlines(bytes: &[u8]) -> usize
    ensures { result ≡ count_by (λ c. c == 10) bytes.now }
{
    bytes.iter().filter(|byte| **byte == b'\n').count()
}

/// The comment after its `%`.
pub fn comment(bytes: &[u8]) -> Option<(Option<Token>, &[u8])>
    ensures { Finds (37 ∷ bytes.now) result }
{
    let (words, after) = split_line(bytes);
    match str::from_utf8(words) {
        Ok(_) => Some((None, after)),
        Err(_) => None,
    }
}
