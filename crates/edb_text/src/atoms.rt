//! Names and quoted bytes.

ghost use Rattle.std.specs.Prelude.{◌≡◌, ◌++◌, ◌∷◌, [], ◌<◌, ◌/◌, ◌%◌, OnOk, false};
ghost use Rattle.std.specs.Fmt.{digit_glyph};
ghost use Rattle.std.specs.List.{list_any, list_all, flat_map};
ghost use Rattle.edb_lang.specs.TermText.{is_bare, is_name_byte, reserved_words, same_name, letter_of, escaped, quoted, atom_text};

use std::alloc::AllocError;

/// The words that are no atoms without quotes, in ascending order.
const RESERVED_WORDS: [&'static [u8]; 29] = [
    b"after", b"and", b"andalso", b"band", b"begin", b"bnot", b"bor", b"bsl", b"bsr", b"bxor",
    b"case", b"catch", b"cond", b"div", b"else", b"end", b"fun", b"if", b"let", b"maybe", b"not",
    b"of", b"or", b"orelse", b"receive", b"rem", b"try", b"when", b"xor",
];

/// The letter that follows a backslash for a byte, if it has one.
fn letter(byte: u8) -> Option<u8>
    ensures { result ≡ letter_of byte }
{
    match byte {
        8 => Some(b'b'),
        127 => Some(b'd'),
        27 => Some(b'e'),
        12 => Some(b'f'),
        10 => Some(b'n'),
        13 => Some(b'r'),
        9 => Some(b't'),
        11 => Some(b'v'),
        0 => Some(b'0'),
        _ => None,
    }
}

/// The hexadecimal digit of a number below 16, in lower case.
fn hex_digit(value: u8) -> u8
    requires { value < 16 }
    ensures { result ≡ digit_glyph false value }
{
    if value < 10 { 48 + value } else { 87 + value }
}

/// Puts a byte as it is written between quotes.
pub(crate) fn put_escaped(out: &mut Vec<u8>, quote: u8, byte: u8) -> Result<(), AllocError>
    ensures { OnOk result (out.new.items ≡ out.old.items ++ escaped quote byte) }
{
    if byte == quote || byte == b'\\' {
        return push_two(out, b'\\', byte);
    }
    if byte >= 32 && byte != 127 {
        out.push(byte)?;
        return Ok(());
    }
    match letter(byte) {
        Some(letter) => push_two(out, b'\\', letter),
        None => put_hex(out, byte),
    }
}

/// Puts two bytes.
fn push_two(out: &mut Vec<u8>, first: u8, second: u8) -> Result<(), AllocError>
    ensures { OnOk result (out.new.items ≡ out.old.items ++ first ∷ second ∷ []) }
{
    out.push(first)?;
    out.push(second)?;
    Ok(())
}

/// Puts a byte as `\x` and two hexadecimal digits.
fn put_hex(out: &mut Vec<u8>, byte: u8) -> Result<(), AllocError>
    ensures { OnOk result (out.new.items ≡ out.old.items ++ 92 ∷ 120 ∷ digit_glyph false (byte / 16) ∷ digit_glyph false (byte % 16) ∷ []) }
{
    push_two(out, b'\\', b'x')?;
    push_two(out, hex_digit(byte / 16), hex_digit(byte % 16))
}

/// Puts bytes between two quotes. The quote itself, the backslash, 127 and the bytes below 32 are
/// escaped; all others are put as they are. `AllocError` only when out of memory: a part of the text may
/// then be put.
pub fn put_quoted(out: &mut Vec<u8>, quote: u8, bytes: &[u8]) -> Result<(), AllocError>
    ensures { OnOk result (out.new.items ≡ out.old.items ++ quoted quote bytes.now) }
{
    out.push(quote)?;
    put_all_escaped(out, quote, bytes)?;
    out.push(quote)?;
    Ok(())
}

/// Puts bytes as they are written between quotes.
fn put_all_escaped(out: &mut Vec<u8>, quote: u8, bytes: &[u8]) -> Result<(), AllocError>
    ensures { OnOk result (out.new.items ≡ out.old.items ++ flat_map (escaped quote) bytes.now) }
{
    for byte in bytes {
        put_escaped(out, quote, *byte)?;
    }
    Ok(())
}

/// A byte that a name may have after its first one.
fn is_name(byte: u8) -> bool
    ensures { result ≡ is_name_byte byte }
{
    byte.is_ascii_alphanumeric() || byte == b'_' || byte == b'@'
}

/// Whether a name is one of these words.
fn is_among(words: &[&'static [u8]], name: &[u8]) -> bool
    ensures { result ≡ list_any (λ word. same_name name.now word.now) words.now }
{
    words.iter().any(|word| name == *word)
}

/// Whether a name is a reserved word.
fn is_reserved(name: &[u8]) -> bool
    ensures { result ≡ list_any (same_name name.now) reserved_words }
{
    is_among(&RESERVED_WORDS, name)
}

/// Whether all of these may follow a name's first byte.
fn are_name(bytes: &[u8]) -> bool
    ensures { result ≡ list_all is_name_byte bytes.now }
{
    bytes.iter().all(|byte| is_name(*byte))
}

/// Whether a name reads as an atom without quotes.
fn is_plain(name: &[u8]) -> bool
    ensures { result ≡ is_bare name.now }
{
    match name.split_first() {
        None => false,
        Some((first, rest)) => {
            if !first.is_ascii_lowercase() {
                return false;
            }
            if !are_name(rest) {
                return false;
            }
            !is_reserved(name)
        }
    }
}

/// Puts an atom: without quotes if it reads as an atom so, else in single quotes. `AllocError` only when
/// out of memory: a part of the text may then be put.
pub fn put_atom(out: &mut Vec<u8>, name: &[u8]) -> Result<(), AllocError>
    ensures { OnOk result (out.new.items ≡ out.old.items ++ atom_text name.now) }
{
    if is_plain(name) {
        out.extend_from_slice(name)?;
        Ok(())
    } else {
        put_quoted(out, b'\'', name)
    }
}
