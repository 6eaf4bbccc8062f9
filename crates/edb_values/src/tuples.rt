//! Tuples: their elements, changed tuples, and tuples as lists.

ghost use Rattle.std.specs.Prelude.{◌≡◌, ◌++◌, if◌then◌else◌, Some, None, IfOk, OnOk, ◌<◌, nat_lt, length, map, set};
ghost use Rattle.std.specs.Option.{option_and_then};
ghost use Rattle.edb_pure.specs.Tuples as row;

use crate::raises::{badarg, list_answer, tuple_answer};
use edb_lang::{Node, Term};
use edb_pure::Raise;
use std::alloc::{AllocError, Global};

/// `element/2`: the element at a position, of which the first is 1. The error `badarg` if the second argument is no
/// tuple, or the first one no position in it; `AllocError` only if out of memory.
pub fn element(
    alloc: Global,
    position: &Term,
    tuple: &Term,
) -> Result<Result<Term, Raise>, AllocError>
    ensures { IfOk result (λ r. r ≡ row.element position.now tuple.now) }
{
    let Node::Tuple(items) = &tuple.node else {
        return badarg(alloc);
    };
    match place_in(position, items.len()) {
        Some(place) => Ok(Ok(items[place].copy(alloc)?)),
        None => badarg(alloc),
    }
}

/// `setelement/3`: the tuple with this value at a position, of which the first is 1. The error `badarg` if the second
/// argument is no tuple, or the first one no position in it; `system_limit` if the tuple would pass a limit;
/// `AllocError` only if out of memory.
pub fn set_element(
    alloc: Global,
    position: &Term,
    tuple: &Term,
    value: &Term,
) -> Result<Result<Term, Raise>, AllocError>
    ensures { IfOk result (λ r. r ≡ row.setelement position.now tuple.now value.now) }
{
    let Node::Tuple(items) = &tuple.node else {
        return badarg(alloc);
    };
    match place_in(position, items.len()) {
        Some(place) => tuple_answer(alloc, with_item(alloc, items, place, value)?),
        None => badarg(alloc),
    }
}

/// `append_element/2`: the tuple with this value after its elements. The error `badarg` if the first argument is no
/// tuple; `system_limit` if the tuple would pass a limit; `AllocError` only if out of memory.
pub fn append_element(
    alloc: Global,
    tuple: &Term,
    value: &Term,
) -> Result<Result<Term, Raise>, AllocError>
    ensures { IfOk result (λ r. r ≡ row.append_element tuple.now value.now) }
{
    let Node::Tuple(items) = &tuple.node else {
        return badarg(alloc);
    };
    let mut longer = Vec::new(alloc);
    copy_onto(&mut longer, alloc, items)?;
    longer.push(value.copy(alloc)?)?;
    tuple_answer(alloc, longer)
}

/// `tuple_size/1`: how many elements a tuple has. The error `badarg` if the term is no tuple; `AllocError` only if out
/// of memory.
pub fn tuple_size(alloc: Global, tuple: &Term) -> Result<Result<Term, Raise>, AllocError>
    ensures { IfOk result (λ r. r ≡ row.tuple_size tuple.now) }
{
    match &tuple.node {
        Node::Tuple(items) => Ok(Ok(Term::int(items.len() as i128))),
        _ => badarg(alloc),
    }
}

/// `tuple_to_list/1`: the elements of a tuple as a list. The error `badarg` if the term is no tuple; `system_limit` if
/// the list would pass a limit; `AllocError` only if out of memory.
pub fn tuple_to_list(alloc: Global, tuple: &Term) -> Result<Result<Term, Raise>, AllocError>
    ensures { IfOk result (λ r. r ≡ row.tuple_to_list tuple.now) }
{
    let Node::Tuple(items) = &tuple.node else {
        return badarg(alloc);
    };
    let mut copies = Vec::new(alloc);
    copy_onto(&mut copies, alloc, items)?;
    list_answer(alloc, copies)
}

/// `list_to_tuple/1`: the elements of a list as a tuple. The error `badarg` if the list isn't proper; `system_limit` if
/// the tuple would pass a limit; `AllocError` only if out of memory.
pub fn list_to_tuple(alloc: Global, list: &Term) -> Result<Result<Term, Raise>, AllocError>
    ensures { IfOk result (λ r. r ≡ row.list_to_tuple list.now) }
{
    match list.elements(alloc)? {
        Some(items) => tuple_answer(alloc, copies_of(alloc, &items)?),
        None => badarg(alloc),
    }
}

// The place, counted from 0, that a position names among so many elements; none if it is not below their count.
fn place_in(position: &Term, count: usize) -> Option<usize>
    ensures { result ≡ option_and_then (λ place. if nat_lt place count then Some place else None) (row.place_of position.now) }
{
    let Node::Int(number) = &position.node else {
        return None;
    };
    let Ok(number) = usize::try_from(*number) else {
        return None;
    };
    if number == 0 || number > count {
        return None;
    }
    Some(number - 1)
}

// The elements with another one at a place.
fn with_item(
    alloc: Global,
    items: &[Term],
    place: usize,
    value: &Term,
) -> Result<Vec<Term>, AllocError>
    requires { place < length items.now }
    ensures { IfOk result (λ changed. changed.items ≡ set items.now place value.now) }
{
    let mut changed = Vec::new(alloc);
    copy_onto(&mut changed, alloc, &items[..place])?;
    changed.push(value.copy(alloc)?)?;
    copy_onto(&mut changed, alloc, &items[place + 1..])?;
    Ok(changed)
}

// Puts copies of the terms after the others.
fn copy_onto(copies: &mut Vec<Term>, alloc: Global, terms: &[Term]) -> Result<(), AllocError>
    ensures { OnOk result (copies.new.items ≡ copies.old.items ++ terms.now) }
{
    for term in terms {
        copies.push(term.copy(alloc)?)?;
    }
    Ok(())
}

// Copies of the terms.
fn copies_of(alloc: Global, terms: &[&Term]) -> Result<Vec<Term>, AllocError>
    ensures { IfOk result (λ copies. copies.items ≡ map (λ t. t.now) terms.now) }
{
    let mut copies = Vec::new(alloc);
    for term in terms {
        copies.push(term.copy(alloc)?)?;
    }
    Ok(copies)
}
