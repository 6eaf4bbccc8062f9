//! Atoms.

ghost use Rattle.std.specs.Prelude.{◌≡◌, ◌++◌, ◌∷◌, [], Some, IfOk, IfErr, OnOk, length, chars};
ghost use Rattle.edb_lang.specs.TermText.{is_name_byte, atom_text};
ghost use Rattle.edb_fields.specs.Answers.{Gives};
ghost use Rattle.edb_fields.specs.Atoms as spec;
ghost use Rattle.edb_fields.specs.Atoms.{IsAtomName, letter_value, closes, with_written, unquoted_at, bare_at, spelled_at, atom_at, name_at};
ghost use Rattle.edb_fields.specs.Fronts.{IsFront, Explains};

use crate::ReadError;
use crate::front::{first, is_end, read_space, read_text};
use crate::hexadecimal::digit_value;
use edb_lang::Name;
use edb_text::put_atom;
use std::alloc::{AllocError, Global};

// The most characters of an atom.
const LONGEST_ATOM: usize = 255;

/// How the next byte in quotes reads.
#[derive(Clone, Copy, Debug, PartialEq, Eq)]
enum Quote {
    /// As itself, as the closing quote, or as a backslash.
    Plain,
    /// As the letter after a backslash.
    Escape,
    /// As the first of two digits.
    High,
    /// As the second digit after a 0.
    Low,
    /// As the second digit after a 1.
    Teen,
}

/// The character of a letter after a backslash.
fn letter_value(letter: u8) -> Option<u8>
    ensures { result ≡ letter_value letter }
{
    match letter {
        b'b' => Some(8),
        b'd' => Some(127),
        b'e' => Some(27),
        b'f' => Some(12),
        b'n' => Some(10),
        b'r' => Some(13),
        b't' => Some(9),
        b'v' => Some(11),
        b'0' => Some(0),
        b'\\' => Some(b'\\'),
        b'\'' => Some(b'\''),
        _ => None,
    }
}

/// What one byte in quotes writes, if it ends a character, and how the next one reads.
fn after_byte(quote: Quote, byte: u8) -> Option<(Option<u8>, Quote)>
    ensures { result ≡ spec.after_byte quote byte }
{
    match quote {
        Quote::Plain => {
            if byte == b'\\' {
                Some((None, Quote::Escape))
            } else {
                Some((Some(byte), Quote::Plain))
            }
        }
        Quote::Escape => {
            if byte == b'x' {
                Some((None, Quote::High))
            } else {
                let character = letter_value(byte)?;
                Some((Some(character), Quote::Plain))
            }
        }
        Quote::High => match byte {
            b'0' => Some((None, Quote::Low)),
            b'1' => Some((None, Quote::Teen)),
            _ => None,
        },
        Quote::Low => {
            let low = digit_value(byte)?;
            Some((Some(low), Quote::Plain))
        }
        Quote::Teen => {
            let low = digit_value(byte)?;
            Some((Some(16 + low), Quote::Plain))
        }
    }
}

/// Whether a byte closes the quotes.
fn is_close(quote: Quote, byte: u8) -> bool
    ensures { result ≡ closes quote byte }
{
    match quote {
        Quote::Plain => byte == b'\'',
        _ => false,
    }
}

/// Puts the character that a byte ended, if it ended one.
fn put_written(name: &mut Vec<u8>, written: Option<u8>) -> Result<(), AllocError>
    ensures { OnOk result (name.new.items ≡ with_written name.old.items written) }
{
    match written {
        Some(byte) => {
            name.push(byte)?;
            Ok(())
        }
        None => Ok(()),
    }
}

/// The characters up to the closing quote, and the rest.
fn unquoted(alloc: Global, bytes: &[u8]) -> Result<(Vec<u8>, &[u8]), ReadError>
    ensures { Gives (λ x. (x.0.items, x.1.now)) result (unquoted_at Quote.Plain [] bytes.now) }
{
    let mut name = Vec::new(alloc);
    let mut quote = Quote::Plain;
    let mut rest = bytes;
    while let Some((byte, after)) = rest.split_first() {
        if is_close(quote, *byte) {
            return Ok((name, after));
        }
        match after_byte(quote, *byte) {
            Some((written, next)) => {
                put_written(&mut name, written)?;
                quote = next;
                rest = after;
            }
            None => return Err(ReadError::Refused),
        }
    }
    Err(ReadError::Refused)
}

/// A byte that a name may have after its first one.
fn is_name(byte: u8) -> bool
    ensures { result ≡ is_name_byte byte }
{
    byte.is_ascii_alphanumeric() || byte == b'_' || byte == b'@'
}

/// The bytes of names at the front, and the rest.
fn bare(alloc: Global, bytes: &[u8]) -> Result<(Vec<u8>, &[u8]), ReadError>
    ensures { Gives (λ x. (x.0.items, x.1.now)) result (Some (bare_at [] bytes.now)) }
{
    let mut name = Vec::new(alloc);
    let mut rest = bytes;
    while let Some((byte, after)) = rest.split_first() {
        if !is_name(*byte) {
            return Ok((name, rest));
        }
        name.push(*byte)?;
        rest = after;
    }
    Ok((name, rest))
}

/// The characters of the atom at the front, however it is spelled, and the rest.
fn spelled(alloc: Global, bytes: &[u8]) -> Result<(Vec<u8>, &[u8]), ReadError>
    ensures { Gives (λ x. (x.0.items, x.1.now)) result (spelled_at bytes.now) }
{
    let (byte, after) = first(bytes)?;
    if byte == b'\'' {
        unquoted(alloc, after)
    } else {
        bare(alloc, bytes)
    }
}

/// How many characters a text has.
fn char_count(text: &str) -> usize
    ensures { result ≡ length (chars text.now) }
{
    text.chars().count()
}

/// The name with these characters.
#[tactic(auto, using(crate::proofs::AtomLaws::names))]
fn name_of(characters: Vec<u8>) -> Result<Name, ReadError>
    ensures { Gives (λ name. name) result (spec.named characters.items) }
{
    match String::from_utf8(characters) {
        Ok(text) => {
            if char_count(text.as_str()) <= LONGEST_ATOM {
                Ok(Name::new(text))
            } else {
                Err(ReadError::Refused)
            }
        }
        Err(_) => Err(ReadError::Refused),
    }
}

/// The atom at the front, however it is spelled, and the rest.
pub(crate) fn atom(alloc: Global, bytes: &[u8]) -> Result<(Name, &[u8]), ReadError>
    ensures { Gives (λ x. (x.0, x.1.now)) result (atom_at bytes.now) }
{
    let (characters, rest) = spelled(alloc, bytes)?;
    let name = name_of(characters)?;
    Ok((name, rest))
}

/// The atom of a field.
fn field_name<'a>(
    alloc: Global,
    scratch: &mut Vec<u8>,
    bytes: &'a [u8],
) -> Result<(Name, &'a [u8]), ReadError>
    ensures { Gives (λ x. (x.0, x.1.now)) result (name_at bytes.now) }
{
    let from = read_space(bytes)?;
    let (name, _) = atom(alloc, from)?;
    scratch.clear();
    put_atom(scratch, name.as_bytes())?;
    let rest = read_text(scratch, from)?;
    if is_end(rest) {
        Ok((name, rest))
    } else {
        Err(ReadError::Refused)
    }
}

/// The atom of a field, and what comes after the field. The scratch is overwritten.
pub fn read_name<'a>(
    alloc: Global,
    scratch: &mut Vec<u8>,
    bytes: &'a [u8],
) -> Result<(Name, &'a [u8]), ReadError>
    ensures read { Gives (λ x. (x.0, x.1.now)) result (name_at bytes.now) }
    ensures found { IfOk result (λ x. IsFront atom_text IsAtomName bytes.now x.0 x.1.now) }
    ensures none { IfErr result (λ e. Explains atom_text IsAtomName bytes.now e) }
{
    field_name(alloc, scratch, bytes)
}
