//! The elements of a list as references, and the numbers that arguments are.

ghost use Rattle.std.specs.Prelude.{◌≡◌, ◌<◌, IfOk, IfSome, length, map, remove, slice_get, unwrap_or};
ghost use Rattle.std.specs.Option.{option_map};
ghost use Rattle.std.specs.Ordering.{ord_max, ord_min};
ghost use Rattle.edb_lang.specs.Order.{term_cmp};
ghost use Rattle.edb_pure.specs.Integers as integers;
ghost use Rattle.edb_pure.specs.Keys.{key_of};
ghost use Rattle.edb_pure.specs.Tuples as tuples;

use edb_lang::{Node, Term};
use std::alloc::{AllocError, Global};

// A list has at most so many elements.
pub(crate) const MOST_HIGH: u128 = 4_000;

// Copies of terms. `AllocError` only if out of memory.
pub(crate) fn copies(alloc: Global, items: &[&Term]) -> Result<Vec<Term>, AllocError>
    ensures { IfOk result (λ made. made.items ≡ map (λ t. t.now) items.now) }
{
    let mut made = Vec::with_capacity(alloc, items.len())?;
    for item in items {
        made.push(item.copy(alloc)?)?;
    }
    Ok(made)
}

// The element at a place, which counts from 0.
pub(crate) fn at<'a>(items: &[&'a Term], place: u128) -> Option<&'a Term>
    ensures { option_map (λ t. t.now) result ≡ slice_get (map (λ t. t.now) items.now) place }
{
    if place >= items.len() as u128 {
        return None;
    }
    Some(items[place as usize])
}

// The count that a term is, which is an integer of at least 0.
pub(crate) fn count(term: &Term) -> Option<u128>
    ensures { result ≡ integers.count_of term.now }
{
    match &term.node {
        Node::Int(value) => u128::try_from(*value).ok(),
        _ => None,
    }
}

// The place that a position names: the place counts from 0, and the position from 1.
pub(crate) fn place(term: &Term) -> Option<u128>
    ensures { result ≡ tuples.place_of term.now }
{
    let position = count(term)?;
    position.checked_sub(1)
}

// The elements without that at a place, if there is one.
pub(crate) fn without<'a>(items: Vec<&'a Term>, place: Option<usize>) -> Vec<&'a Term>
    requires { IfSome place (λ i. i < length items.items) }
    ensures { result.items ≡ unwrap_or (option_map (remove items.entry.items) place) items.entry.items }
{
    let mut items = items;
    if let Some(place) = place {
        items.remove(place);
    }
    items
}

// The element of a tuple at a place, which counts from 0.
#[tactic(auto, using(crate::proofs::Values::items_are))]
pub(crate) fn element(term: &Term, place: u128) -> Option<&Term>
    ensures { option_map (λ t. t.now) result ≡ key_of place term.now }
{
    match &term.node {
        Node::Tuple(items) => slot(items, place),
        _ => None,
    }
}

fn slot(items: &[Term], place: u128) -> Option<&Term>
    ensures { option_map (λ t. t.now) result ≡ slice_get items.now place }
{
    if place >= items.len() as u128 {
        return None;
    }
    Some(&items[place as usize])
}

// The greater of two terms, and the second of equal ones.
pub(crate) fn greater<'a>(first: &'a Term, second: &'a Term) -> &'a Term
    ensures { result.now ≡ ord_max term_cmp first.now second.now }
{
    if second.cmp(first).is_lt() {
        return first;
    }
    second
}

// The lesser of two terms, and the first of equal ones.
pub(crate) fn lesser<'a>(first: &'a Term, second: &'a Term) -> &'a Term
    ensures { result.now ≡ ord_min term_cmp first.now second.now }
{
    if second.cmp(first).is_lt() {
        return second;
    }
    first
}
