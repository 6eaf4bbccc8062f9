//! Atoms and integers as lists of characters, and back.

ghost use Rattle.std.specs.Prelude.{◌≡◌, ◌^◌, ◌≤◌, pos, true, false, IfOk, MatchOption, map, is_some, chars, string_bytes, encode_utf8_all};
ghost use Rattle.std.specs.Option.{option_map};
ghost use Rattle.edb_lang.specs.Terms as spec;
ghost use Rattle.edb_lang.specs.ListTerms.{characters_of, point_of, string_of};
ghost use Rattle.edb_pure.specs.Answers.{limited_answer};
ghost use Rattle.edb_pure.specs.Integers as integers;
ghost use Rattle.edb_pure.specs.Texts as row;
ghost use Rattle.edb_values.specs.Decimals.{further, number, signed};

use crate::raises::{badarg, list_answer, system_limit};
use edb_lang::{Name, Node, Term};
use edb_pure::Raise;
use std::alloc::{AllocError, Global};

// An atom has at most this many characters.
const MOST_CHARACTERS: usize = 255;

/// `atom_to_list/1`: the characters of an atom. The error `badarg` if the term is no atom; `system_limit` if the list
/// would pass a limit; `AllocError` only if out of memory.
pub fn atom_to_list(alloc: Global, value: &Term) -> Result<Result<Term, Raise>, AllocError>
    ensures { IfOk result (λ r. r ≡ row.atom_to_list value.now) }
{
    match &value.node {
        Node::Atom(name) => string_answer(alloc, name.as_str()),
        _ => badarg(alloc),
    }
}

/// `integer_to_list/1`: the decimal digits of an integer, after a minus sign if it is negative. The error `badarg` if
/// the term is no integer; `AllocError` only if out of memory.
pub fn integer_to_list(alloc: Global, value: &Term) -> Result<Result<Term, Raise>, AllocError>
    ensures { IfOk result (λ r. r ≡ row.integer_to_list value.now) }
{
    match &value.node {
        Node::Int(number) => integer_answer(alloc, *number),
        _ => badarg(alloc),
    }
}

/// `list_to_atom/1`: the atom of these characters. The error `badarg` if the list isn't proper or an element is no code
/// point; `system_limit` for more than 255 characters; `AllocError` only if out of memory.
pub fn list_to_atom(alloc: Global, list: &Term) -> Result<Result<Term, Raise>, AllocError>
    ensures { IfOk result (λ r. r ≡ row.list_to_atom list.now) }
{
    let Some(points) = points_of(alloc, list)? else {
        return badarg(alloc);
    };
    if points.len() > MOST_CHARACTERS {
        return system_limit(alloc);
    }
    let text = text_of(alloc, &points)?;
    Ok(Ok(Term::atom(Name::new(text))))
}

/// `list_to_integer/1`: the integer that the characters write: a sign or none, and decimal digits. The error `badarg` if
/// the list isn't proper, or its elements write no integer; `system_limit` for an integer outside the range from -2^127
/// to 2^127 - 1; `AllocError` only if out of memory.
pub fn list_to_integer(alloc: Global, list: &Term) -> Result<Result<Term, Raise>, AllocError>
    ensures { IfOk result (λ r. r ≡ row.list_to_integer list.now) }
{
    let Some(points) = points_of(alloc, list)? else {
        return badarg(alloc);
    };
    let (negative, digits) = split_sign(&points);
    if !are_digits(digits) {
        return badarg(alloc);
    }
    match number_of(digits) {
        Some(number) => signed_answer(alloc, negative, number),
        None => system_limit(alloc),
    }
}

// Whether there is a minus sign before the digits, and the digits.
fn split_sign(points: &[char]) -> (bool, &[char])
    ensures { row.decimal_integer points.now ≡ option_map (signed result.0) (row.digits_number result.1.now) }
{
    match points.split_first() {
        Some(('-', digits)) => (true, digits),
        Some(('+', digits)) => (false, digits),
        _ => (false, points),
    }
}

// Whether the characters are decimal digits, and at least one.
fn are_digits(points: &[char]) -> bool
    ensures { result ≡ is_some (row.digits_number points.now) }
{
    for c in points {
        if !c.is_ascii_digit() {
            return false;
        }
    }
    !points.is_empty()
}

// The number that digits write, if it is below 2^128.
fn number_of(digits: &[char]) -> Option<u128>
    ensures { MatchOption result (2 ^ 128 ≤ number digits.now) (λ n. n ≡ number digits.now) }
{
    let mut number = 0;
    for c in digits {
        match after_digit(number, *c) {
            Some(more) => number = more,
            None => return None,
        }
    }
    Some(number)
}

// The number with one more digit, if it is below 2^128.
fn after_digit(number: u128, digit: char) -> Option<u128>
    ensures { MatchOption result (2 ^ 128 ≤ further number digit) (λ n. n ≡ further number digit) }
{
    let shifted = number.checked_mul(10)?;
    shifted.checked_add(u128::from((digit as u32).saturating_sub(48)))
}

// The integer of this size and sign, as an answer.
fn signed_answer(
    alloc: Global,
    negative: bool,
    number: u128,
) -> Result<Result<Term, Raise>, AllocError>
    ensures { IfOk result (λ r. r ≡ integers.integer_answer (signed negative number)) }
{
    match signed_integer(negative, number) {
        Some(value) => Ok(Ok(Term::int(value))),
        None => system_limit(alloc),
    }
}

// The integer of this size and sign, if it is in the range.
fn signed_integer(negative: bool, number: u128) -> Option<i128>
    ensures { MatchOption result (integers.fits (signed negative number) ≡ false) (λ i. (i ≡ signed negative number) × (integers.fits i ≡ true)) }
{
    if negative {
        0i128.checked_sub_unsigned(number)
    } else {
        i128::try_from(number).ok()
    }
}

// The decimal digits of an integer, as a list of characters.
fn integer_answer(alloc: Global, number: i128) -> Result<Result<Term, Raise>, AllocError>
    ensures { IfOk result (λ r. r ≡ row.integer_to_list (spec.int number)) }
{
    let text = number.to_string(alloc)?;
    string_answer(alloc, text.as_str())
}

// The characters of a text, as a list. The error `system_limit` if it would pass a limit.
fn string_answer(alloc: Global, text: &str) -> Result<Result<Term, Raise>, AllocError>
    ensures { IfOk result (λ r. r ≡ limited_answer (string_of (chars text.now))) }
{
    list_answer(alloc, characters(alloc, text)?)
}

// The characters of a text, as terms.
fn characters(alloc: Global, text: &str) -> Result<Vec<Term>, AllocError>
    ensures { IfOk result (λ items. items.items ≡ map (λ c. spec.int (pos c)) (chars text.now)) }
{
    let mut items = Vec::new(alloc);
    for c in text.chars() {
        items.push(Term::int(i128::from(c as u32)))?;
    }
    Ok(items)
}

// The characters of a string; none if the term is no proper list of code points.
fn points_of(alloc: Global, list: &Term) -> Result<Option<Vec<char>>, AllocError>
    ensures { IfOk result (λ found. option_map (λ points. points.items) found ≡ characters_of list.now) }
{
    let mut points = Vec::new(alloc);
    let mut rest = list;
    while let Node::List(cell) = &rest.node {
        match point(&cell.head) {
            Some(c) => points.push(c)?,
            None => return Ok(None),
        }
        rest = &cell.tail;
    }
    match &rest.node {
        Node::Nil => Ok(Some(points)),
        _ => Ok(None),
    }
}

// The character that a term is.
fn point(value: &Term) -> Option<char>
    ensures { result ≡ point_of value.now }
{
    match &value.node {
        Node::Int(number) => match u32::try_from(*number) {
            Ok(code) => char::from_u32(code),
            Err(_) => None,
        },
        _ => None,
    }
}

// The text of these characters.
fn text_of(alloc: Global, points: &[char]) -> Result<String, AllocError>
    ensures { IfOk result (λ text. string_bytes text ≡ encode_utf8_all points.now) }
{
    let mut text = String::new(alloc);
    for c in points {
        text.push(*c)?;
    }
    Ok(text)
}
