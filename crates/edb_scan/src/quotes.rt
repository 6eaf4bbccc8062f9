//! Characters, strings and atoms in quotes.

ghost use Rattle.std.specs.Prelude.{◌≡◌, ◌≢◌, ℕ, ◌+◌, ◌*◌, ◌<◌, ◌≤◌, ◌++◌, ◌∷◌, ◌⊎◌, List, length, IfOk, MatchOption, chars, string_bytes, encode_utf8, option_map};
ghost use Rattle.std.specs.Str.{StartsWithNoChar, continuation_len};
ghost use Rattle.std.specs.Char.{IsScalar, digit_value};
ghost use Rattle.edb_scan.specs.Fronts.{Finds};
ghost use Rattle.edb_scan.specs.QuoteFronts.{FindsFirst, FindsEnd, WritesBehindBackslash};
ghost use Rattle.edb_scan.specs.Quotation as quotation;
ghost use Rattle.edb_scan.specs.Quotation.{IsHex, IsPlain, Writes};

use crate::lexeme::{LONGEST_ATOM, Token};
use crate::numerals;
use crate::points::Text;
use edb_lang::Name;
use std::alloc::{AllocError, Global};

/// No character, since no quote needs an escape after `$`.
const NO_QUOTE: u32 = 0x11_0000;

/// How many bytes a character takes that begins with this byte, if any does.
fn char_len(first: u8) -> usize
    ensures { result ≡ continuation_len first + 1 }
{
    if first < 0x80 {
        1
    } else if first < 0xE0 {
        2
    } else if first < 0xF0 {
        3
    } else {
        4
    }
}

/// The character of so many bytes that begins a text, and what comes after it.
fn char_of_len(len: usize, bytes: &[u8]) -> Option<(char, &[u8])>
    ensures { MatchOption result ((c : ℕ) (rest : List ℕ) → IsScalar c → bytes.now ≡ encode_utf8 c ++ rest → length (encode_utf8 c) ≢ len) (λ x. IsScalar x.0 × (bytes.now ≡ encode_utf8 x.0 ++ x.1.now)) }
{
    if bytes.len() < len {
        return None;
    }
    let (front, after) = bytes.split_at(len);
    match str::from_utf8(front) {
        Ok(text) => match text.chars().next() {
            Some(c) => {
                if c.len_utf8() == len {
                    return Some((c, after));
                }
                None
            }
            None => None,
        },
        Err(_) => None,
    }
}

/// The character that begins a text, and what comes after it.
fn first_char(bytes: &[u8]) -> Option<(char, &[u8])>
    ensures { MatchOption result (StartsWithNoChar bytes.now) (λ x. IsScalar x.0 × (bytes.now ≡ encode_utf8 x.0 ++ x.1.now)) }
{
    match bytes.split_first() {
        Some((first, _)) => match char_of_len(char_len(*first), bytes) {
            Some((c, after)) => Some((c, after)),
            None => None,
        },
        None => None,
    }
}

/// What a backslash and this letter stand for.
fn escaped(letter: u8) -> Option<char>
    ensures { result ≡ quotation.escaped letter }
{
    match letter {
        b'b' => Some('\u{8}'),
        b'd' => Some('\u{7F}'),
        b'e' => Some('\u{1B}'),
        b'f' => Some('\u{C}'),
        b'n' => Some('\n'),
        b'r' => Some('\r'),
        b's' => Some(' '),
        b't' => Some('\t'),
        b'v' => Some('\u{B}'),
        b'0' => Some('\0'),
        b'"' => Some('"'),
        b'\'' => Some('\''),
        b'\\' => Some('\\'),
        _ => None,
    }
}

/// The value of a hexadecimal digit.
fn hex_digit(byte: u8) -> Option<u8>
    ensures { MatchOption result (16 ≤ digit_value byte) (λ d. (d ≡ digit_value byte) × (d < 16)) }
{
    let value = numerals::digit_value(byte);
    if value < 16 { Some(value as u8) } else { None }
}

/// The character of two hexadecimal digits, and what comes after them.
fn hex(bytes: &[u8]) -> Option<(char, &[u8])>
    ensures { FindsFirst (λ text c. IsHex (92 ∷ 120 ∷ text) c) bytes.now result }
{
    let (high, rest) = bytes.split_first()?;
    let (low, after) = rest.split_first()?;
    let high = hex_digit(*high)?;
    let low = hex_digit(*low)?;
    Some((char::from(high * 16 + low), after))
}

/// The character of an escape, after its backslash, and what comes after it.
fn escape(bytes: &[u8]) -> Option<(char, &[u8])>
    ensures { FindsFirst WritesBehindBackslash bytes.now result }
{
    let (letter, rest) = bytes.split_first()?;
    if *letter == b'x' {
        match hex(rest) {
            Some((c, after)) => Some((c, after)),
            None => None,
        }
    } else {
        match escaped(*letter) {
            Some(c) => Some((c, rest)),
            None => None,
        }
    }
}

/// A character that stands for itself between such quotes, and what comes after it.
fn plain(quote: u32, bytes: &[u8]) -> Option<(char, &[u8])>
    ensures { FindsFirst (IsPlain quote) bytes.now result }
{
    match first_char(bytes) {
        Some((c, after)) => {
            if c as u32 != quote && c != '\\' {
                return Some((c, after));
            }
            None
        }
        None => None,
    }
}

/// The first character that a text writes between such quotes, and what comes after it.
fn written(quote: u32, bytes: &[u8]) -> Option<(char, &[u8])>
    ensures { FindsFirst (Writes quote) bytes.now result }
{
    match bytes.strip_prefix(b"\\") {
        Some(rest) => match escape(rest) {
            Some((c, after)) => Some((c, after)),
            None => None,
        },
        None => match plain(quote, bytes) {
            Some((c, after)) => Some((c, after)),
            None => None,
        },
    }
}

/// The characters up to the closing quote, and what comes after it; fails only when out of memory.
fn quoted<'a>(
    alloc: Global,
    quote: u8,
    bytes: &'a [u8],
) -> Result<Option<(String, &'a [u8])>, AllocError>
    requires ascii { quote < 128 }
    requires no_backslash { quote ≢ 92 }
    ensures { IfOk result (λ found. FindsEnd quote bytes.now (option_map (λ x. (string_bytes x.0, x.1)) found)) }
{
    let mut text = String::new(alloc);
    let mut rest = bytes;
    while let Some((first, behind)) = rest.split_first() {
        if *first == quote {
            return Ok(Some((text, behind)));
        }
        match written(quote as u32, rest) {
            Some((c, after)) => {
                text.push(c)?;
                rest = after;
            }
            None => return Ok(None),
        }
    }
    Ok(None)
}

/// The code points of a text; fails only when out of memory.
fn points_of(alloc: Global, text: &str) -> Result<Text, AllocError>
    ensures { IfOk result (λ points. points ≡ chars text.now) }
{
    let mut points = Vec::new(alloc);
    for c in text.chars() {
        points.push(c as u32)?;
    }
    Ok(Text::from_vec(points))
}

/// The string after its first quote; fails only when out of memory.
pub fn string(alloc: Global, bytes: &[u8]) -> Result<Option<(Option<Token>, &[u8])>, AllocError>
    ensures { IfOk result (λ found. Finds (34 ∷ bytes.now) found) }
{
    match quoted(alloc, b'"', bytes)? {
        Some((text, after)) => {
            let points = points_of(alloc, text.as_str())?;
            Ok(Some((Some(Token::Str(points)), after)))
        }
        None => Ok(None),
    }
}

/// How many characters a text has.
fn char_count(text: &str) -> usize
    ensures { result ≡ length (chars text.now) }
{
    text.chars().count()
}

/// The atom in quotes after its first quote; fails only when out of memory.
pub fn quoted_atom(
    alloc: Global,
    bytes: &[u8],
) -> Result<Option<(Option<Token>, &[u8])>, AllocError>
    ensures { IfOk result (λ found. Finds (39 ∷ bytes.now) found) }
{
    match quoted(alloc, b'\'', bytes)? {
        Some((text, after)) => {
            if char_count(text.as_str()) > LONGEST_ATOM {
                return Ok(None);
            }
            Ok(Some((Some(Token::Atom(Name::new(text))), after)))
        }
        None => Ok(None),
    }
}

/// The character after its `$`.
pub fn character(bytes: &[u8]) -> Option<(Option<Token>, &[u8])>
    ensures { Finds (36 ∷ bytes.now) result }
{
    match written(NO_QUOTE, bytes) {
        Some((c, after)) => Some((Some(Token::Char(c as u32)), after)),
        None => None,
    }
}
