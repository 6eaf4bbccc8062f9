//! Numbers.

ghost use Rattle.std.specs.Prelude.{◌≡◌, ◌++◌, ◌≤◌, IfOk, IfErr, OnOk, codes};
ghost use Rattle.std.specs.Fmt.{decimal};
ghost use Rattle.edb_fields.specs.Answers.{Gives};
ghost use Rattle.edb_fields.specs.Fronts.{IsFront, Explains};
ghost use Rattle.edb_fields.specs.Numerals.{IsBetween, digit_on, digits_at, numeral_at, number_at};
ghost use Rattle.edb_fields.specs.declared.refusal.ReadError.TheVariants.{Refused};

use crate::ReadError;
use crate::front::{first, is_end, read_space};
use std::alloc::{AllocError, Global};

/// The number with one more digit.
fn with_digit(most: u128, number: u128, digit: u8) -> Result<u128, ReadError>
    requires low { 48 ≤ digit }
    requires high { digit ≤ 57 }
    ensures read { Gives (λ n. n) result (digit_on most number digit) }
    ensures bound { IfOk result (λ n. n ≤ most) }
    ensures cause { IfErr result (λ e. e ≡ Refused) }
{
    let Some(tens) = number.checked_mul(10) else {
        return Err(ReadError::Refused);
    };
    let Some(sum) = tens.checked_add(u128::from(digit - b'0')) else {
        return Err(ReadError::Refused);
    };
    if sum <= most {
        Ok(sum)
    } else {
        Err(ReadError::Refused)
    }
}

/// The number of the digits at the front.
fn digits(most: u128, bytes: &[u8]) -> Result<(u128, &[u8]), ReadError>
    ensures read { Gives (λ x. (x.0, x.1.now)) result (digits_at most 0 bytes.now) }
    ensures bound { IfOk result (λ x. x.0 ≤ most) }
    ensures cause { IfErr result (λ e. e ≡ Refused) }
{
    let mut number = 0;
    let mut rest = bytes;
    while let Some((digit, after)) = rest.split_first() {
        if !digit.is_ascii_digit() {
            return Ok((number, rest));
        }
        number = with_digit(most, number, *digit)?;
        rest = after;
    }
    Ok((number, rest))
}

/// The number at the front: a zero alone, or digits of which the first is none.
pub(crate) fn numeral(most: u128, bytes: &[u8]) -> Result<(u128, &[u8]), ReadError>
    ensures read { Gives (λ x. (x.0, x.1.now)) result (numeral_at most bytes.now) }
    ensures bound { IfOk result (λ x. x.0 ≤ most) }
    ensures cause { IfErr result (λ e. e ≡ Refused) }
{
    let (byte, after) = first(bytes)?;
    if byte == b'0' {
        return Ok((0, after));
    }
    if byte.is_ascii_digit() {
        digits(most, bytes)
    } else {
        Err(ReadError::Refused)
    }
}

/// The number of a field, between two bounds.
fn number(least: u128, most: u128, bytes: &[u8]) -> Result<(u128, &[u8]), ReadError>
    ensures read { Gives (λ x. (x.0, x.1.now)) result (number_at least most bytes.now) }
    ensures cause { IfErr result (λ e. e ≡ Refused) }
{
    let from = read_space(bytes)?;
    let (number, rest) = numeral(most, from)?;
    if number < least {
        return Err(ReadError::Refused);
    }
    if is_end(rest) {
        Ok((number, rest))
    } else {
        Err(ReadError::Refused)
    }
}

/// The number of a field, between two bounds, and what comes after the field.
pub fn read_u128(least: u128, most: u128, bytes: &[u8]) -> Result<(u128, &[u8]), ReadError>
    ensures read { Gives (λ x. (x.0, x.1.now)) result (number_at least most bytes.now) }
    ensures found { IfOk result (λ x. IsFront decimal (IsBetween least most) bytes.now x.0 x.1.now) }
    ensures none { IfErr result (λ e. Explains decimal (IsBetween least most) bytes.now e) }
    ensures cause { IfErr result (λ e. e ≡ Refused) }
{
    number(least, most, bytes)
}

/// The number of a field, between two bounds of 64 bits, and what comes after the field.
pub fn read_u64(least: u64, most: u64, bytes: &[u8]) -> Result<(u64, &[u8]), ReadError>
    ensures read { Gives (λ x. (x.0, x.1.now)) result (number_at least most bytes.now) }
    ensures found { IfOk result (λ x. IsFront decimal (IsBetween least most) bytes.now x.0 x.1.now) }
    ensures none { IfErr result (λ e. Explains decimal (IsBetween least most) bytes.now e) }
    ensures cause { IfErr result (λ e. e ≡ Refused) }
{
    let (number, rest) = read_u128(u128::from(least), u128::from(most), bytes)?;
    Ok((number as u64, rest))
}

/// The number of a field, between two bounds of 32 bits, and what comes after the field.
pub fn read_u32(least: u32, most: u32, bytes: &[u8]) -> Result<(u32, &[u8]), ReadError>
    ensures read { Gives (λ x. (x.0, x.1.now)) result (number_at least most bytes.now) }
    ensures found { IfOk result (λ x. IsFront decimal (IsBetween least most) bytes.now x.0 x.1.now) }
    ensures none { IfErr result (λ e. Explains decimal (IsBetween least most) bytes.now e) }
    ensures cause { IfErr result (λ e. e ≡ Refused) }
{
    let (number, rest) = read_u128(u128::from(least), u128::from(most), bytes)?;
    Ok((number as u32, rest))
}

/// Puts a space and a number in decimal. `AllocError` only if out of memory.
pub fn put_u128(out: &mut Vec<u8>, alloc: Global, number: u128) -> Result<(), AllocError>
    ensures { OnOk result (out.new.items ≡ out.old.items ++ (codes " " ++ decimal number)) }
{
    let text = number.to_string(alloc)?;
    out.push(b' ')?;
    out.extend_from_slice(text.as_bytes())?;
    Ok(())
}
