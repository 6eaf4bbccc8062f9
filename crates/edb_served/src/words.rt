//! Words: the bytes up to a space or a newline.

ghost use Rattle.std.specs.Prelude.{◌≡◌, ◌≤◌, ℕ, Bool, List, length, IfErr, nat_eq};
ghost use Rattle.std.specs.Char.{is_ascii_digit};
ghost use Rattle.edb_fields.specs.Answers.{Gives};
ghost use Rattle.edb_fields.specs.declared.refusal.ReadError.TheVariants.{Refused};
ghost use Rattle.edb_served.specs.Words as spec;
ghost use Rattle.edb_served.specs.Words.{parts_words, split_at_end, word_at, begins_with};

use edb_fields::{ReadError, read_space};

/// Whether a word ends before this byte.
fn parts_words(byte: u8) -> bool
    ensures { result ≡ parts_words byte }
{
    byte == b' ' || byte == b'\n'
}

/// How long the word at the front is.
fn word_length(bytes: &[u8]) -> usize
    ensures same { result ≡ spec.word_length bytes.now }
    ensures bound { result ≤ length bytes.now }
{
    let mut length = 0;
    let mut rest = bytes;
    while let Some((byte, after)) = rest.split_first() {
        if parts_words(*byte) {
            return length;
        }
        length += 1;
        rest = after;
    }
    length
}

/// The word at the front, up to a space or a newline, and the rest.
pub fn split_word(bytes: &[u8]) -> (&[u8], &[u8])
    ensures { (result.0.now, result.1.now) ≡ split_at_end bytes.now }
{
    bytes.split_at(word_length(bytes))
}

/// The word of a field, and what comes after it.
pub fn read_word(bytes: &[u8]) -> Result<(&[u8], &[u8]), ReadError>
    ensures read { Gives (λ x. (x.0.now, x.1.now)) result (word_at bytes.now) }
    ensures cause { IfErr result (λ e. e ≡ Refused) }
{
    let from = read_space(bytes)?;
    Ok(split_word(from))
}

/// Whether the next field begins with a digit.
pub(crate) fn digit_next(bytes: &[u8]) -> bool
    ensures { result ≡ begins_with is_ascii_digit bytes.now }
{
    match bytes {
        [b' ', byte, ..] => byte.is_ascii_digit(),
        _ => false,
    }
}

/// Whether the next field begins with an equals sign, which no word of a command does.
pub(crate) fn equals_next(bytes: &[u8]) -> bool
    ensures { result ≡ begins_with (nat_eq 61) bytes.now }
{
    match bytes {
        [b' ', byte, ..] => b'=' == *byte,
        _ => false,
    }
}
