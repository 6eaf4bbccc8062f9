//! Formats and the terms that they take.

ghost use Rattle.std.specs.Prelude.{◌≡◌, ◌++◌, ◌≤◌, None, Some, IfOk, OnOk, IfErr, MatchResult};
ghost use Rattle.edb_lang.specs.Terms as term;
ghost use Rattle.edb_lang.specs.TermText.{plain_text};
ghost use Rattle.edb_format.specs.Formats.{shown, behind, format_text_of};
ghost use Rattle.edb_format.specs.Putting.{directed_text_of, IsRefusal};

use crate::strings::{code_point, put_bare, put_character};
use crate::unwritten::Unwritten;
use edb_lang::{Bytes, Cell, Node, Term};
use edb_text::put_term;
use std::alloc::{AllocError, Global};

/// The refusal of a format, or of the terms that it is to take.
#[derive(Clone, Copy, PartialEq, Eq, Debug)]
pub struct BadFormat;

/// The text of a term, without strings; fails only when out of memory.
pub fn plain_text(alloc: Global, shown: &Term) -> Result<Bytes, AllocError>
    ensures { IfOk result (λ bytes. bytes ≡ plain_text shown.now) }
{
    let mut out = Vec::new(alloc);
    put_term(&mut out, alloc, shown, false, false)?;
    Ok(Bytes::from_vec(out))
}

/// The text that a format makes of its arguments. `BadFormat`: the format is no string; another character or
/// none follows a tilde; the arguments are no list of as many terms as are taken; `~s` takes neither an atom nor a
/// string. `AllocError` only when out of memory.
pub fn format_text(
    alloc: Global,
    format: &Term,
    args: &Term,
) -> Result<Result<Bytes, BadFormat>, AllocError>
    ensures { IfOk result (λ r. MatchResult r (λ bytes. format_text_of format.now args.now ≡ Some bytes) (λ _. format_text_of format.now args.now ≡ None)) }
{
    let mut out = Vec::new(alloc);
    match put_format(&mut out, alloc, format, args) {
        Ok(()) => Ok(Ok(Bytes::from_vec(out))),
        Err(Unwritten::Refused) => Ok(Err(BadFormat)),
        Err(Unwritten::Memory) => Err(AllocError),
    }
}

/// Puts the text that a format makes of its arguments.
fn put_format(out: &mut Vec<u8>, alloc: Global, format: &Term, args: &Term) -> Result<(), Unwritten>
    ensures ok { OnOk result (behind out.old.items (format_text_of format.now args.now) ≡ Some out.new.items) }
    ensures err { IfErr result (λ e. IsRefusal e (format_text_of format.now args.now)) }
{
    let mut rest = format;
    let mut left = args;
    while let Node::List(cell) = &rest.node {
        (rest, left) = put_piece(out, alloc, cell, left)?;
    }
    match (&rest.node, &left.node) {
        (Node::Nil, Node::Nil) => Ok(()),
        _ => Err(Unwritten::Refused),
    }
}

/// Puts what a format's first character makes of its arguments, or the directive that it begins. What is left
/// of both comes back.
fn put_piece<'a>(
    out: &mut Vec<u8>,
    alloc: Global,
    format: &'a Cell,
    args: &'a Term,
) -> Result<(&'a Term, &'a Term), Unwritten>
    ensures ok { IfOk result (λ left. behind out.old.items (format_text_of (term.cons format.now.head format.now.tail) args.now)
        ≡ behind out.new.items (format_text_of left.0.now left.1.now)) }
    ensures err { IfErr result (λ e. IsRefusal e (format_text_of (term.cons format.now.head format.now.tail) args.now)) }
    ensures shorter { IfOk result (λ left. term.size left.0.now ≤ term.size format.now.tail) }
{
    match code_point(&format.head) {
        Some('~') => match &format.tail.node {
            Node::List(next) => put_directive(out, alloc, next, args),
            _ => Err(Unwritten::Refused),
        },
        Some(character) => {
            put_character(out, character)?;
            Ok((&format.tail, args))
        }
        None => Err(Unwritten::Refused),
    }
}

/// Puts the directive of the character after a tilde. What is left of the format and its arguments comes back.
fn put_directive<'a>(
    out: &mut Vec<u8>,
    alloc: Global,
    format: &'a Cell,
    args: &'a Term,
) -> Result<(&'a Term, &'a Term), Unwritten>
    ensures ok { IfOk result (λ left. behind out.old.items (directed_text_of (term.cons format.now.head format.now.tail) args.now)
        ≡ behind out.new.items (format_text_of left.0.now left.1.now)) }
    ensures err { IfErr result (λ e. IsRefusal e (directed_text_of (term.cons format.now.head format.now.tail) args.now)) }
    ensures shorter { IfOk result (λ left. term.size left.0.now ≤ term.size format.now.tail) }
{
    match code_point(&format.head) {
        Some('n') => {
            out.push(b'\n')?;
            Ok((&format.tail, args))
        }
        Some('~') => {
            out.push(b'~')?;
            Ok((&format.tail, args))
        }
        Some(letter) => match &args.node {
            Node::List(arg) => {
                put_shown(out, alloc, letter, &arg.head)?;
                Ok((&format.tail, &arg.tail))
            }
            _ => Err(Unwritten::Refused),
        },
        None => Err(Unwritten::Refused),
    }
}

/// Puts what a letter shows of a term.
fn put_shown(
    out: &mut Vec<u8>,
    alloc: Global,
    letter: char,
    argument: &Term,
) -> Result<(), Unwritten>
    ensures ok { OnOk result (behind out.old.items (shown letter argument.now) ≡ Some out.new.items) }
    ensures err { IfErr result (λ e. IsRefusal e (shown letter argument.now)) }
{
    match letter {
        'p' => {
            put_term(out, alloc, argument, true, false)?;
            Ok(())
        }
        'w' => {
            put_term(out, alloc, argument, false, false)?;
            Ok(())
        }
        's' => put_bare(out, argument),
        _ => Err(Unwritten::Refused),
    }
}
