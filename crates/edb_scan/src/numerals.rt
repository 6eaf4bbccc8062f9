//! Integers and floats.

ghost use Rattle.std.specs.Prelude.{◌≡◌, ℕ, ◌+◌, ◌*◌, ◌^◌, ◌<◌, ◌≤◌, ◌⊎◌, ◌↔◌, length, IsTrue, MatchOption};
ghost use Rattle.std.specs.Char as chars;
ghost use Rattle.edb_scan.specs.declared.classes.Class.TheVariants.{Digit};
ghost use Rattle.edb_scan.specs.FirstByte.{Heads};
ghost use Rattle.edb_scan.specs.Fronts.{Finds, FindsFront, Stops};
ghost use Rattle.edb_scan.specs.DigitFronts.{SplitsDigits, EndsDigits, IsStep, IsBasedTail, NoBasedTail, SplitsSign};
ghost use Rattle.edb_scan.specs.Numerals as numerals;
ghost use Rattle.edb_scan.specs.Numerals.{IsPower, IsFraction};

use crate::lexeme::Token;

/// The value of a digit or a letter, and 36 for any other byte.
pub fn digit_value(byte: u8) -> u32
    ensures { result ≡ chars.digit_value byte }
{
    char::from(byte).to_digit(36).unwrap_or(36)
}

/// What comes after the next digit, or after a `_` and the next digit.
fn next_digit(base: u32, rest: &[u8]) -> Option<&[u8]>
    ensures { MatchOption result (EndsDigits (λ c. chars.is_digit c base) rest.now) (λ after. IsStep (λ c. chars.is_digit c base) rest.now after.now) }
{
    let (first, after) = rest.split_first()?;
    if digit_value(*first) < base {
        return Some(after);
    }
    if *first != b'_' {
        return None;
    }
    let (second, after) = after.split_first()?;
    if digit_value(*second) < base {
        Some(after)
    } else {
        None
    }
}

/// The digits of this base at the front of a text, and what comes after them.
fn digits(base: u32, bytes: &[u8]) -> Option<(&[u8], &[u8])>
    ensures { MatchOption result (Stops (λ c. chars.is_digit c base) bytes.now) (λ x. SplitsDigits (λ c. chars.is_digit c base) bytes.now x.0.now x.1.now) }
{
    let (first, mut rest) = bytes.split_first()?;
    if base <= digit_value(*first) {
        return None;
    }
    loop {
        match next_digit(base, rest) {
            Some(after) => rest = after,
            None => return Some(bytes.split_at(bytes.len() - rest.len())),
        }
    }
}

/// The number with one more digit, if it is below 2^127.
fn after_digit(number: u128, base: u32, byte: u8) -> Option<u128>
    ensures { MatchOption result (2 ^ 127 ≤ number * base + chars.digit_value byte) (λ n. (n ≡ number * base + chars.digit_value byte) × (n < 2 ^ 127)) }
{
    let shifted = number.checked_mul(u128::from(base))?;
    let sum = shifted.checked_add(u128::from(digit_value(byte)))?;
    if sum < 1 << 127 { Some(sum) } else { None }
}

/// The number that digits of this base write, if it is below 2^127.
fn number(base: u32, text: &[u8]) -> Option<u128>
    requires { 0 < base }
    ensures { MatchOption result (2 ^ 127 ≤ numerals.number base text.now) (λ n. (n ≡ numerals.number base text.now) × (n < 2 ^ 127)) }
{
    let mut number = 0;
    for byte in text {
        if *byte != b'_' {
            match after_digit(number, base, *byte) {
                Some(more) => number = more,
                None => return None,
            }
        }
    }
    Some(number)
}

/// The number that the digits write, if it is a base.
fn base_of(digits: &[u8]) -> Option<u32>
    ensures { MatchOption result ((numerals.number 10 digits.now < 2) ⊎ (36 < numerals.number 10 digits.now)) (λ b. (b ≡ numerals.number 10 digits.now) × (2 ≤ b) × (b ≤ 36)) }
{
    let base = number(10, digits)?;
    if 2 <= base && base <= 36 {
        Some(base as u32)
    } else {
        None
    }
}

/// After digits that may be a base: the base, and the digits after `#` with what comes after them.
fn based<'a>(whole: &[u8], tail: &'a [u8]) -> Option<(u32, &'a [u8], &'a [u8])>
    ensures { MatchOption result (NoBasedTail (numerals.number 10 whole.now) tail.now) (λ x. (x.0 ≡ numerals.number 10 whole.now) × IsBasedTail x.0 tail.now x.1.now x.2.now) }
{
    let base = base_of(whole)?;
    let rest = tail.strip_prefix(b"#")?;
    let (text, after) = digits(base, rest)?;
    Some((base, text, after))
}

/// What comes after a sign, or the text itself if it begins with none.
fn without_sign(bytes: &[u8]) -> &[u8]
    ensures { SplitsSign bytes.now result.now }
{
    match bytes.split_first() {
        Some((first, rest)) => {
            if *first == b'+' || *first == b'-' {
                return rest;
            }
            bytes
        }
        None => bytes,
    }
}

/// What comes after a float's power.
fn power(bytes: &[u8]) -> Option<&[u8]>
    ensures { FindsFront IsPower bytes.now result }
{
    let (letter, rest) = bytes.split_first()?;
    if !is_e(*letter) {
        return None;
    }
    match digits(10, without_sign(rest)) {
        Some((_, after)) => Some(after),
        None => None,
    }
}

/// Whether the letter begins a power.
fn is_e(letter: u8) -> bool
    ensures { IsTrue result ↔ ((letter ≡ 101) ⊎ (letter ≡ 69)) }
{
    letter == b'e' || letter == b'E'
}

/// What comes after a float's point, digits and power.
fn fraction(bytes: &[u8]) -> Option<&[u8]>
    ensures { FindsFront IsFraction bytes.now result }
{
    let rest = bytes.strip_prefix(b".")?;
    let (_, after) = digits(10, rest)?;
    match power(after) {
        Some(end) => Some(end),
        None => Some(after),
    }
}

/// The integer that these digits write, if it is below 2^127, beside what comes after it.
fn integer<'a>(base: u32, text: &[u8], after: &'a [u8]) -> Option<(Option<Token>, &'a [u8])>
    requires { 0 < base }
    ensures { MatchOption result (2 ^ 127 ≤ numerals.number base text.now) (λ x. (x.0 ≡ Some (Token.Int (numerals.number base text.now))) × (x.1.now ≡ after.now) × (numerals.number base text.now < 2 ^ 127)) }
{
    let number = number(base, text)?;
    Some((Some(Token::Int(number)), after))
}

/// An integer or a float.
pub fn numeral(bytes: &[u8]) -> Option<(Option<Token>, &[u8])>
    requires { Heads Digit bytes.now }
    ensures { Finds bytes.now result }
{
    match digits(10, bytes) {
        Some((whole, tail)) => match fraction(tail) {
            Some(after) => Some((Some(Token::Float), after)),
            None => match based(whole, tail) {
                Some((base, text, after)) => integer(base, text, after),
                None => integer(10, whole, tail),
            },
        },
        None => None,
    }
}
