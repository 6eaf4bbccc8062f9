//! Terms.

ghost use Rattle.std.specs.Prelude.{◌≡◌, ◌++◌, ◌∷◌, [], if◌then◌else◌, OnOk, IfOk, IsSome, is_some, unwrap_or, true, false, codes, string_bytes};
ghost use Rattle.std.specs.List.{flat_map};
ghost use Rattle.std.specs.Fmt.{decimal, signed_decimal};
ghost use Rattle.edb_lang.specs.Terms as term;
ghost use Rattle.edb_lang.specs.TermText.{text, term_text, plain_text, tuple_text, items_text, around, characters, printable, escaped, quoted, atom_text};
ghost use Rattle.edb_lang.specs.TermViews.{fun_of};

use crate::atoms::{put_atom, put_escaped};
use edb_lang::{Bytes, Cell, FunValue, Node, Term};
use std::alloc::{AllocError, Global};

/// The byte of an integer that is shown as a character, if it is one.
fn printable_integer(value: i128) -> Option<u8>
    ensures { result ≡ printable (term.int value) }
{
    match u8::try_from(value) {
        Ok(byte) => {
            if (32..=126).contains(&byte) || (8..=13).contains(&byte) || byte == 27 {
                Some(byte)
            } else {
                None
            }
        }
        Err(_) => None,
    }
}

/// The byte of an element that is shown as a character, if it is one.
fn printable_element(element: &Term) -> Option<u8>
    ensures { result ≡ printable element.now }
{
    match &element.node {
        Node::Int(value) => printable_integer(*value),
        _ => None,
    }
}

/// Whether a term is the empty list or a list that is shown as a string.
fn is_string(list: &Term) -> bool
    ensures { result ≡ is_some (characters list.now) }
{
    match &list.node {
        Node::Nil => true,
        Node::List(cell) => match printable_element(&cell.head) {
            Some(_) => is_string(&cell.tail),
            None => false,
        },
        _ => false,
    }
}

/// Puts a list's characters as they are written between double quotes.
fn put_characters(out: &mut Vec<u8>, list: &Term) -> Result<(), AllocError>
    requires { IsSome (characters list.now) }
    ensures { OnOk result (out.new.items ≡ out.old.items ++ flat_map (escaped 34) (unwrap_or (characters list.now) [])) }
{
    match &list.node {
        Node::List(cell) => match printable_element(&cell.head) {
            Some(byte) => {
                put_escaped(out, b'"', byte)?;
                put_characters(out, &cell.tail)
            }
            None => Ok(()),
        },
        _ => Ok(()),
    }
}

/// Puts the text of a term by itself, or of what a list ends in.
fn put_around(out: &mut Vec<u8>, tail: bool, own: &[u8]) -> Result<(), AllocError>
    ensures { OnOk result (out.new.items ≡ out.old.items ++ around tail own.now) }
{
    if tail {
        out.push(b'|')?;
        out.extend_from_slice(own)?;
        out.push(b']')?;
        Ok(())
    } else {
        out.extend_from_slice(own)?;
        Ok(())
    }
}

/// Puts a number in decimal.
fn put_number(out: &mut Vec<u8>, alloc: Global, number: u32) -> Result<(), AllocError>
    ensures { OnOk result (out.new.items ≡ out.old.items ++ decimal number) }
{
    let text = number.to_string(alloc)?;
    out.extend_from_slice(text.as_bytes())?;
    Ok(())
}

/// The text of an integer.
fn integer_text(alloc: Global, value: i128) -> Result<String, AllocError>
    ensures { IfOk result (λ s. string_bytes s ≡ signed_decimal value) }
{
    value.to_string(alloc)
}

/// The text of an atom.
fn name_text(alloc: Global, name: &[u8]) -> Result<Vec<u8>, AllocError>
    ensures { IfOk result (λ own. own.items ≡ atom_text name.now) }
{
    let mut own = Vec::new(alloc);
    put_atom(&mut own, name)?;
    Ok(own)
}

/// The text of a reference.
fn reference_text(alloc: Global, number: u32) -> Result<Vec<u8>, AllocError>
    ensures { IfOk result (λ own. own.items ≡ (codes "#Ref<" ++ decimal number) ++ codes ">") }
{
    let mut own = Vec::from_slice(alloc, b"#Ref<")?;
    put_number(&mut own, alloc, number)?;
    own.extend_from_slice(b">")?;
    Ok(own)
}

/// The text of a pid.
fn pid_text(alloc: Global, number: u32) -> Result<Vec<u8>, AllocError>
    ensures { IfOk result (λ own. own.items ≡ (codes "<" ++ decimal number) ++ codes ">") }
{
    let mut own = Vec::from_slice(alloc, b"<")?;
    put_number(&mut own, alloc, number)?;
    own.extend_from_slice(b">")?;
    Ok(own)
}

/// The text of a fun.
fn fun_text(alloc: Global, fun: &FunValue) -> Result<Vec<u8>, AllocError>
    ensures { IfOk result (λ own. own.items ≡ text true false (fun_of fun.now)) }
{
    match fun {
        FunValue::Made {
            module,
            version,
            index,
            ..
        } => {
            let mut own = Vec::from_slice(alloc, b"#Fun<")?;
            put_atom(&mut own, module.as_bytes())?;
            own.extend_from_slice(b".")?;
            put_number(&mut own, alloc, *version)?;
            own.extend_from_slice(b".")?;
            put_number(&mut own, alloc, *index)?;
            own.extend_from_slice(b">")?;
            Ok(own)
        }
        FunValue::Named {
            module,
            name,
            arity,
        } => {
            let mut own = Vec::from_slice(alloc, b"fun ")?;
            put_atom(&mut own, module.as_bytes())?;
            own.extend_from_slice(b":")?;
            put_atom(&mut own, name.as_bytes())?;
            own.extend_from_slice(b"/")?;
            put_number(&mut own, alloc, *arity)?;
            Ok(own)
        }
    }
}

/// Puts the text of a term after the others. `strings`: lists of printable characters are shown as
/// strings. `tail`: the term is what a list has after its elements so far. `AllocError` only when out of
/// memory: a part of the text may then be put.
#[cycle(put_term)]
pub fn put_term(
    out: &mut Vec<u8>,
    alloc: Global,
    shown: &Term,
    strings: bool,
    tail: bool,
) -> Result<(), AllocError>
    ensures { OnOk result (out.new.items ≡ out.old.items ++ text strings tail shown.now) }
{
    match &shown.node {
        Node::Int(value) => put_around(out, tail, integer_text(alloc, *value)?.as_bytes()),
        Node::Atom(name) => put_around(out, tail, &name_text(alloc, name.as_bytes())?),
        Node::Ref(number) => put_around(out, tail, &reference_text(alloc, *number)?),
        Node::Fun(fun) => put_around(out, tail, &fun_text(alloc, fun)?),
        Node::Pid(number) => put_around(out, tail, &pid_text(alloc, *number)?),
        Node::Tuple(items) => {
            if tail {
                out.push(b'|')?;
                put_tuple(out, alloc, items, strings)?;
                out.push(b']')?;
                Ok(())
            } else {
                put_tuple(out, alloc, items, strings)
            }
        }
        Node::Nil => put_nil(out, tail),
        Node::List(cell) => {
            if strings && !tail && is_string(shown) {
                put_string(out, shown)
            } else {
                put_cell(out, alloc, cell, strings, tail)
            }
        }
    }
}

/// Puts the end of a list, or the empty list.
fn put_nil(out: &mut Vec<u8>, tail: bool) -> Result<(), AllocError>
    ensures { OnOk result (out.new.items ≡ out.old.items ++ (if tail then 93 ∷ [] else codes "[]")) }
{
    if tail {
        out.push(b']')?;
        Ok(())
    } else {
        out.extend_from_slice(b"[]")?;
        Ok(())
    }
}

/// Puts a list as a string.
fn put_string(out: &mut Vec<u8>, list: &Term) -> Result<(), AllocError>
    requires { IsSome (characters list.now) }
    ensures { OnOk result (out.new.items ≡ out.old.items ++ quoted 34 (unwrap_or (characters list.now) [])) }
{
    out.push(b'"')?;
    put_characters(out, list)?;
    out.push(b'"')?;
    Ok(())
}

/// Puts a list's cell after its bracket or comma.
#[cycle(put_term)]
fn put_cell(
    out: &mut Vec<u8>,
    alloc: Global,
    cell: &Cell,
    strings: bool,
    tail: bool,
) -> Result<(), AllocError>
    ensures { OnOk result (out.new.items ≡ out.old.items
        ++ ((if tail then 44 else 91) ∷ (text strings false cell.now.head ++ text strings true cell.now.tail))) }
{
    out.push(if tail { b',' } else { b'[' })?;
    put_term(out, alloc, &cell.head, strings, false)?;
    put_term(out, alloc, &cell.tail, strings, true)
}

/// Puts a tuple.
#[cycle(put_term)]
fn put_tuple(
    out: &mut Vec<u8>,
    alloc: Global,
    items: &[Term],
    strings: bool,
) -> Result<(), AllocError>
    ensures { OnOk result (out.new.items ≡ out.old.items ++ tuple_text strings (term.of_list items.now)) }
{
    if items.is_empty() {
        out.extend_from_slice(b"{}")?;
        return Ok(());
    }
    let mut mark = b'{';
    for item in items {
        out.push(mark)?;
        put_term(out, alloc, item, strings, false)?;
        mark = b',';
    }
    out.push(b'}')?;
    Ok(())
}

/// The text of a term, lists of printable characters as strings; fails only when out of memory.
pub fn term_text(alloc: Global, shown: &Term) -> Result<Bytes, AllocError>
    ensures { IfOk result (λ bytes. bytes ≡ term_text shown.now) }
{
    let mut out = Vec::new(alloc);
    put_term(&mut out, alloc, shown, true, false)?;
    Ok(Bytes::from_vec(out))
}
