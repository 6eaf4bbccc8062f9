//! Bytes in hexadecimal.

ghost use Rattle.std.specs.Prelude.{◌≡◌, ℕ, ◌++◌, ◌∷◌, [], ◌<◌, List, length, Some, IfOk, IfErr, OnOk, MatchOption, false, codes};
ghost use Rattle.std.specs.Fmt.{digit_glyph};
ghost use Rattle.std.specs.List.{flat_map};
ghost use Rattle.edb_fields.specs.Answers.{Gives};
ghost use Rattle.edb_fields.specs.Fronts.{IsFront, Explains};
ghost use Rattle.edb_fields.specs.Hexadecimal.{AreBytes, byte_digits, hex_text, hex_value, byte_of, pairs_at, some_bytes, digits_or_none, bytes_at};

use crate::ReadError;
use crate::front::{first, is_end, read_space};
use edb_lang::Bytes;
use std::alloc::{AllocError, Global};

/// The digit of a number below 16.
fn digit(value: u8) -> u8
    requires { value < 16 }
    ensures { result ≡ digit_glyph false value }
{
    if value < 10 { b'0' + value } else { 87 + value }
}

/// The value of a digit, which is no capital letter.
pub(crate) fn digit_value(byte: u8) -> Option<u8>
    ensures same { result ≡ hex_value byte }
    ensures small { MatchOption result (Unit {0}) (λ d. d < 16) }
{
    if byte.is_ascii_digit() {
        return Some(byte - b'0');
    }
    if (b'a'..=b'f').contains(&byte) {
        Some(byte - 87)
    } else {
        None
    }
}

/// The byte that two digits write.
fn byte_of(high: u8, low: u8) -> Option<u8>
    ensures { result ≡ byte_of high low }
{
    let high = digit_value(high)?;
    let low = digit_value(low)?;
    Some(high * 16 + low)
}

/// The byte that the first two digits write, and the rest.
fn pair(bytes: &[u8]) -> Option<(u8, &[u8])>
    ensures pairs { (found : List ℕ) → MatchOption result (pairs_at found bytes.now ≡ (found, bytes.now)) (λ x. pairs_at found bytes.now ≡ pairs_at (found ++ x.0 ∷ []) x.1.now) }
    ensures shorter { MatchOption result (Unit {0}) (λ x. length x.1.now < length bytes.now) }
{
    let (high, after) = bytes.split_first()?;
    let (low, rest) = after.split_first()?;
    let byte = byte_of(*high, *low)?;
    Some((byte, rest))
}

/// The bytes that pairs of digits at the front write, and the rest.
fn pairs(alloc: Global, bytes: &[u8]) -> Result<(Vec<u8>, &[u8]), ReadError>
    ensures { Gives (λ x. (x.0.items, x.1.now)) result (Some (pairs_at [] bytes.now)) }
{
    let mut found = Vec::new(alloc);
    let mut rest = bytes;
    while let Some((byte, after)) = pair(rest) {
        found.push(byte)?;
        rest = after;
    }
    Ok((found, rest))
}

/// Some bytes, at which the field ends.
fn some_bytes(alloc: Global, bytes: &[u8]) -> Result<(Vec<u8>, &[u8]), ReadError>
    ensures { Gives (λ x. (x.0.items, x.1.now)) result (some_bytes (pairs_at [] bytes.now)) }
{
    let (found, rest) = pairs(alloc, bytes)?;
    if found.is_empty() {
        return Err(ReadError::Refused);
    }
    if is_end(rest) {
        Ok((found, rest))
    } else {
        Err(ReadError::Refused)
    }
}

/// The bytes of a field.
fn field_bytes(alloc: Global, bytes: &[u8]) -> Result<(Bytes, &[u8]), ReadError>
    ensures { Gives (λ x. (x.0, x.1.now)) result (bytes_at bytes.now) }
{
    let from = read_space(bytes)?;
    let (byte, after) = first(from)?;
    if byte != b'-' {
        let (found, rest) = some_bytes(alloc, from)?;
        return Ok((Bytes::from_vec(found), rest));
    }
    if is_end(after) {
        Ok((Bytes::new(alloc), after))
    } else {
        Err(ReadError::Refused)
    }
}

/// The bytes of a field, and what comes after the field.
pub fn read_bytes(alloc: Global, bytes: &[u8]) -> Result<(Bytes, &[u8]), ReadError>
    ensures read { Gives (λ x. (x.0, x.1.now)) result (bytes_at bytes.now) }
    ensures found { IfOk result (λ x. IsFront hex_text AreBytes bytes.now x.0 x.1.now) }
    ensures none { IfErr result (λ e. Explains hex_text AreBytes bytes.now e) }
{
    field_bytes(alloc, bytes)
}

/// Puts a byte as two digits.
fn put_byte(out: &mut Vec<u8>, byte: u8) -> Result<(), AllocError>
    ensures { OnOk result (out.new.items ≡ out.old.items ++ byte_digits byte) }
{
    out.push(digit(byte / 16))?;
    out.push(digit(byte % 16))?;
    Ok(())
}

/// Puts bytes, each as two digits.
fn put_digits(out: &mut Vec<u8>, bytes: &[u8]) -> Result<(), AllocError>
    ensures { OnOk result (out.new.items ≡ out.old.items ++ flat_map byte_digits bytes.now) }
{
    for byte in bytes {
        put_byte(out, *byte)?;
    }
    Ok(())
}

/// Puts a space and bytes in lower-case hexadecimal, `-` if there are none. `AllocError` only if out of memory.
pub fn put_bytes(out: &mut Vec<u8>, bytes: &[u8]) -> Result<(), AllocError>
    ensures { OnOk result (out.new.items ≡ out.old.items ++ (codes " " ++ hex_text bytes.now)) }
{
    out.push(b' ')?;
    if bytes.is_empty() {
        out.push(b'-')?;
        return Ok(());
    }
    put_digits(out, bytes)
}
