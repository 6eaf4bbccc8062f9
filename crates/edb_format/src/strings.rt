//! Strings: lists of code points.

ghost use Rattle.std.specs.Prelude.{◌≡◌, ◌++◌, Some, OnOk, IfErr, encode_utf8};
ghost use Rattle.edb_lang.specs.Terms as term;
ghost use Rattle.edb_format.specs.Formats.{utf8_of, bare_text, behind};
ghost use Rattle.edb_lang.specs.ListTerms.{point_of};
ghost use Rattle.edb_format.specs.Putting.{IsRefusal};

use crate::unwritten::Unwritten;
use edb_lang::{Node, Term};
use std::alloc::AllocError;

/// The character of an integer, if it is a code point.
fn integer_point(value: i128) -> Option<char>
    ensures { result ≡ point_of (term.int value) }
{
    match u32::try_from(value) {
        Ok(code) => char::from_u32(code),
        Err(_) => None,
    }
}

/// The character that a term is, if it is a code point.
pub(crate) fn code_point(shown: &Term) -> Option<char>
    ensures { result ≡ point_of shown.now }
{
    match &shown.node {
        Node::Int(value) => integer_point(*value),
        _ => None,
    }
}

/// Puts a character in UTF-8.
pub(crate) fn put_character(out: &mut Vec<u8>, character: char) -> Result<(), AllocError>
    ensures { OnOk result (out.new.items ≡ out.old.items ++ encode_utf8 character) }
{
    let mut room = [0; 4];
    out.extend_from_slice(character.encode_utf8(&mut room).as_bytes())?;
    Ok(())
}

/// Puts a string in UTF-8, or refuses what is no string.
fn put_string(out: &mut Vec<u8>, string: &Term) -> Result<(), Unwritten>
    ensures ok { OnOk result (behind out.old.items (utf8_of string.now) ≡ Some out.new.items) }
    ensures err { IfErr result (λ e. IsRefusal e (utf8_of string.now)) }
{
    let mut rest = string;
    while let Node::List(cell) = &rest.node {
        match code_point(&cell.head) {
            Some(character) => put_character(out, character)?,
            None => return Err(Unwritten::Refused),
        }
        rest = &cell.tail;
    }
    match &rest.node {
        Node::Nil => Ok(()),
        _ => Err(Unwritten::Refused),
    }
}

/// Puts an atom's characters or a string's as they are, or refuses what is neither.
pub(crate) fn put_bare(out: &mut Vec<u8>, shown: &Term) -> Result<(), Unwritten>
    ensures ok { OnOk result (behind out.old.items (bare_text shown.now) ≡ Some out.new.items) }
    ensures err { IfErr result (λ e. IsRefusal e (bare_text shown.now)) }
{
    match &shown.node {
        Node::Atom(name) => {
            out.extend_from_slice(name.as_bytes())?;
            Ok(())
        }
        _ => put_string(out, shown),
    }
}
