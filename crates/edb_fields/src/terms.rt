//! Literal terms.

ghost use Rattle.std.specs.Prelude.{◌≡◌, ◌+◌, ◌∷◌, [], ℕ, Some, IfOk, IfErr};
ghost use Rattle.edb_lang.specs.Terms as spec;
ghost use Rattle.edb_lang.specs.TermText.{plain_text};
ghost use Rattle.edb_fields.specs.Answers.{Gives};
ghost use Rattle.edb_fields.specs.Fronts.{IsFront, Explains};
ghost use Rattle.edb_fields.specs.Literals.{IsPlain, IsPlainList};
ghost use Rattle.edb_fields.specs.Reading.{after_text, field_end};
ghost use Rattle.edb_fields.specs.TermReading as reading;
ghost use Rattle.edb_fields.specs.TermReading.{term_at, deeper};

use crate::ReadError;
use crate::atoms::atom;
use crate::front::{after_byte, first, is_end, read_space, read_text};
use crate::numbers::numeral;
use edb_lang::{Cell, Node, Term};
use edb_text::put_term;
use std::alloc::{AllocError, Global};

// The greatest integer of a literal.
const MOST_INTEGER: u128 = (1 << 127) - 1;

// How high and how large a term may be.
const MOST_HIGH: u32 = 4_000;

const MOST_LARGE: u32 = 100_000;

/// The integer at the front, after its sign if it has one, and the rest.
fn integer(bytes: &[u8]) -> Result<(i128, &[u8]), ReadError>
    ensures { Gives (λ x. (x.0, x.1.now)) result (reading.integer_at bytes.now) }
{
    let (byte, after) = first(bytes)?;
    if byte == b'-' {
        let (number, rest) = numeral(MOST_INTEGER, after)?;
        return Ok((-(number as i128), rest));
    }
    let (number, rest) = numeral(MOST_INTEGER, bytes)?;
    Ok((number as i128, rest))
}

/// The integer or the atom at the front, and the rest.
fn leaf(alloc: Global, bytes: &[u8]) -> Result<(Term, &[u8]), ReadError>
    ensures { Gives (λ x. (x.0, x.1.now)) result (reading.leaf_at bytes.now) }
{
    let (byte, _) = first(bytes)?;
    if byte.is_ascii_digit() || byte == b'-' {
        let (value, rest) = integer(bytes)?;
        return Ok((Term::int(value), rest));
    }
    let (name, rest) = atom(alloc, bytes)?;
    Ok((Term::atom(name), rest))
}

/// The room that a term leaves to its parts.
fn one_less(room: u32) -> Result<u32, ReadError>
    ensures { Gives (λ n. n) result (reading.one_less room) }
{
    match room.checked_sub(1) {
        Some(left) => Ok(left),
        None => Err(ReadError::Refused),
    }
}

/// The levels that a term leaves to its parts.
fn below(levels: u32) -> Result<u32, ReadError>
    ensures reads { Gives (λ n. term_at n) result (deeper levels) }
    ensures less { IfOk result (λ n. n + 1 ≡ levels) }
{
    match levels.checked_sub(1) {
        Some(left) => Ok(left),
        None => Err(ReadError::Refused),
    }
}

/// The literal term at the front, the room that is left, and the rest. The term is at most so many levels high and takes
/// at most so much room. `tail`: it is what a list has after its elements so far.
#[cycle(term)]
fn term(
    alloc: Global,
    levels: u32,
    tail: bool,
    room: u32,
    bytes: &[u8],
) -> Result<(Term, u32, &[u8]), ReadError>
    ensures { Gives (λ x. (x.0, x.1, x.2.now)) result (term_at levels tail room bytes.now) }
{
    if tail {
        list_tail(alloc, levels, room, bytes)
    } else {
        own(alloc, levels, room, bytes)
    }
}

/// A term by itself.
#[cycle(term)]
fn own(alloc: Global, levels: u32, room: u32, bytes: &[u8]) -> Result<(Term, u32, &[u8]), ReadError>
    ensures { Gives (λ x. (x.0, x.1, x.2.now)) result (reading.own_at (deeper levels) room bytes.now) }
{
    let (byte, after) = first(bytes)?;
    if byte == b'{' {
        return tuple(alloc, levels, room, after);
    }
    if byte == b'[' {
        return list(alloc, levels, room, after);
    }
    let left = one_less(room)?;
    let (leaf, rest) = leaf(alloc, bytes)?;
    Ok((leaf, left, rest))
}

/// What a list has after its elements so far: its end, another element, or a term and its end.
#[cycle(term)]
fn list_tail(
    alloc: Global,
    levels: u32,
    room: u32,
    bytes: &[u8],
) -> Result<(Term, u32, &[u8]), ReadError>
    ensures { Gives (λ x. (x.0, x.1, x.2.now)) result (reading.tail_at (deeper levels) room bytes.now) }
{
    let (byte, after) = first(bytes)?;
    if byte == b']' {
        let left = one_less(room)?;
        return Ok((Term::nil(), left, after));
    }
    if byte == b',' {
        return cell(alloc, levels, room, after);
    }
    if byte != b'|' {
        return Err(ReadError::Refused);
    }
    let (last, left, after) = own(alloc, levels, room, after)?;
    let rest = after_byte(b']', after)?;
    Ok((last, left, rest))
}

/// A list, after its bracket.
#[cycle(term)]
fn list(
    alloc: Global,
    levels: u32,
    room: u32,
    bytes: &[u8],
) -> Result<(Term, u32, &[u8]), ReadError>
    ensures { Gives (λ x. (x.0, x.1, x.2.now)) result (reading.list_at (deeper levels) room bytes.now) }
{
    let (byte, rest) = first(bytes)?;
    if byte == b']' {
        let left = one_less(room)?;
        return Ok((Term::nil(), left, rest));
    }
    cell(alloc, levels, room, bytes)
}

/// A list's cell, after its bracket or comma.
#[cycle(term)]
fn cell(
    alloc: Global,
    levels: u32,
    room: u32,
    bytes: &[u8],
) -> Result<(Term, u32, &[u8]), ReadError>
    ensures { Gives (λ x. (x.0, x.1, x.2.now)) result (reading.cell_at (deeper levels) room bytes.now) }
{
    let levels = below(levels)?;
    let left = one_less(room)?;
    let (head, fewer, after) = term(alloc, levels, false, left, bytes)?;
    let (tail, last, rest) = term(alloc, levels, true, fewer, after)?;
    let cell = Box::new(alloc, Cell { head, tail })?;
    let list = Term {
        node: Node::List(cell),
    };
    Ok((list, last, rest))
}

/// A tuple, after its brace.
#[cycle(term)]
fn tuple(
    alloc: Global,
    levels: u32,
    room: u32,
    bytes: &[u8],
) -> Result<(Term, u32, &[u8]), ReadError>
    ensures { Gives (λ x. (x.0, x.1, x.2.now)) result (reading.tuple_at (deeper levels) room bytes.now) }
{
    let levels = below(levels)?;
    let left = one_less(room)?;
    let (byte, rest) = first(bytes)?;
    if byte == b'}' {
        let empty = Term {
            node: Node::Tuple(Vec::new(alloc)),
        };
        return Ok((empty, left, rest));
    }
    let (found, last, rest) = items(alloc, levels, left, bytes)?;
    let tuple = Term {
        node: Node::Tuple(found),
    };
    Ok((tuple, last, rest))
}

/// The elements of a tuple up to its brace.
#[cycle(term)]
fn items(
    alloc: Global,
    levels: u32,
    room: u32,
    bytes: &[u8],
) -> Result<(Vec<Term>, u32, &[u8]), ReadError>
    ensures { Gives (λ x. (x.0.items, x.1, x.2.now)) result (reading.items_at (term_at levels) room [] room bytes.now) }
{
    let mut found = Vec::new(alloc);
    let mut left = room;
    let mut rest = bytes;
    let mut turns = room;
    while turns > 0 {
        let (element, fewer, more, after) = item(alloc, levels, left, rest)?;
        found.push(element)?;
        if !more {
            return Ok((found, fewer, after));
        }
        left = fewer;
        rest = after;
        turns -= 1;
    }
    Err(ReadError::Refused)
}

/// An element of a tuple, and whether a comma or a brace comes after it.
#[cycle(term)]
fn item(
    alloc: Global,
    levels: u32,
    room: u32,
    bytes: &[u8],
) -> Result<(Term, u32, bool, &[u8]), ReadError>
    ensures { Gives (λ x. (x.0, x.1, x.2, x.3.now)) result (reading.item_at (term_at levels) room bytes.now) }
{
    let (element, left, after) = term(alloc, levels, false, room, bytes)?;
    let (mark, rest) = first(after)?;
    if mark == b',' {
        return Ok((element, left, true, rest));
    }
    if mark == b'}' {
        Ok((element, left, false, rest))
    } else {
        Err(ReadError::Refused)
    }
}

/// Whether a list ends in the empty list.
fn is_proper(list: &Term) -> bool
    ensures { result ≡ reading.is_proper list.now }
{
    match &list.node {
        Node::Nil => true,
        Node::List(cell) => is_proper(&cell.tail),
        _ => false,
    }
}

/// What comes after the text of a term, where a field ends.
#[tactic(auto, unfolding(edb_lang::specs::TermText::plain_text))]
fn after_term<'a>(
    alloc: Global,
    scratch: &mut Vec<u8>,
    found: &Term,
    bytes: &'a [u8],
) -> Result<&'a [u8], ReadError>
    ensures { Gives (λ x. (found.now, x.now)) result (field_end found.now (after_text (plain_text found.now) bytes.now)) }
{
    scratch.clear();
    put_term(scratch, alloc, found, false, false)?;
    let rest = read_text(scratch, bytes)?;
    if is_end(rest) {
        Ok(rest)
    } else {
        Err(ReadError::Refused)
    }
}

/// Lets a term go.
fn discard(_term: Term) {}

/// The literal term of a field, which is at most so high and so large, and what comes after the field.
fn plain<'a>(
    alloc: Global,
    scratch: &mut Vec<u8>,
    levels: u32,
    room: u32,
    bytes: &'a [u8],
) -> Result<(Term, &'a [u8]), ReadError>
    ensures { Gives (λ x. (x.0, x.1.now)) result (reading.plain_at levels room bytes.now) }
{
    let from = read_space(bytes)?;
    let (found, _, _) = term(alloc, levels, false, room, from)?;
    match after_term(alloc, scratch, &found, from) {
        Ok(rest) => Ok((found, rest)),
        Err(error) => {
            discard(found);
            Err(error)
        }
    }
}

/// The literal term of a field, which is at most so high and so large, and what comes after the field. A node
/// past these limits is refused before it is built. The scratch is overwritten.
pub fn read_term<'a>(
    alloc: Global,
    scratch: &mut Vec<u8>,
    levels: u32,
    room: u32,
    bytes: &'a [u8],
) -> Result<(Term, &'a [u8]), ReadError>
    ensures read { Gives (λ x. (x.0, x.1.now)) result (reading.plain_at levels room bytes.now) }
    ensures found { IfOk result (λ x. IsFront plain_text (IsPlain levels room) bytes.now x.0 x.1.now) }
    ensures none { IfErr result (λ e. Explains plain_text (IsPlain levels room) bytes.now e) }
{
    plain(alloc, scratch, levels, room, bytes)
}

/// The list, of a start, of a field.
fn field_list<'a>(
    alloc: Global,
    scratch: &mut Vec<u8>,
    bytes: &'a [u8],
) -> Result<(Term, &'a [u8]), ReadError>
    ensures { Gives (λ x. (x.0, x.1.now)) result (reading.args_at bytes.now) }
{
    let (found, rest) = plain(alloc, scratch, MOST_HIGH, MOST_LARGE, bytes)?;
    if is_proper(&found) {
        Ok((found, rest))
    } else {
        Err(ReadError::Refused)
    }
}

/// The list of a start: the proper literal list of a field, at most 4,000 high and 100,000 large, and what comes after the
/// field. A node past these limits is refused before it is built. The scratch is overwritten.
pub fn read_list<'a>(
    alloc: Global,
    scratch: &mut Vec<u8>,
    bytes: &'a [u8],
) -> Result<(Term, &'a [u8]), ReadError>
    ensures read { Gives (λ x. (x.0, x.1.now)) result (reading.args_at bytes.now) }
    ensures found { IfOk result (λ x. IsFront plain_text IsPlainList bytes.now x.0 x.1.now) }
    ensures none { IfErr result (λ e. Explains plain_text IsPlainList bytes.now e) }
{
    field_list(alloc, scratch, bytes)
}
