//! Questions about the elements of a list, and a list without one of them.

ghost use Rattle.std.specs.Prelude.{◌≡◌, IfOk, map, is_some, position};
ghost use Rattle.std.specs.List.{reduce};
ghost use Rattle.std.specs.Option.{option_map};
ghost use Rattle.std.specs.Ordering.{ord_max, ord_min};
ghost use Rattle.edb_lang.specs.Order.{term_cmp};
ghost use Rattle.edb_pure.specs.Lists as rows;
ghost use Rattle.edb_pure.specs.Truths.{same_term};

use crate::items::{at, copies, greater, lesser, place, without};
use crate::raises::{badarg, found, list as listed, truth};
use edb_lang::Term;
use edb_pure::Raise;
use std::alloc::{AllocError, Global};

/// `lists:nth/2`: the element at a position, of which the first is 1. `AllocError` only if out of memory.
pub fn nth(alloc: Global, position: &Term, list: &Term) -> Result<Result<Term, Raise>, AllocError>
    ensures { IfOk result (λ r. r ≡ rows.nth position.now list.now) }
{
    let Some(place) = place(position) else {
        return badarg(alloc);
    };
    match list.elements(alloc)? {
        Some(items) => found(alloc, at(&items, place)),
        None => badarg(alloc),
    }
}

/// `lists:last/1`: the last element. `AllocError` only if out of memory.
pub fn last(alloc: Global, list: &Term) -> Result<Result<Term, Raise>, AllocError>
    ensures { IfOk result (λ r. r ≡ rows.last list.now) }
{
    match list.elements(alloc)? {
        Some(items) => found(alloc, items.last().copied()),
        None => badarg(alloc),
    }
}

/// `lists:member/2`: whether a list has an element. `AllocError` only if out of memory.
#[tactic(auto, using(crate::proofs::Values::any_is_first))]
pub fn member(alloc: Global, wanted: &Term, list: &Term) -> Result<Result<Term, Raise>, AllocError>
    ensures { IfOk result (λ r. r ≡ rows.member wanted.now list.now) }
{
    match list.elements(alloc)? {
        Some(items) => truth(alloc, first(&items, wanted).is_some()),
        None => badarg(alloc),
    }
}

/// `lists:delete/2`: a list without the first element that equals a term. `AllocError` only if out of memory.
#[tactic(auto, using(crate::proofs::Values::deletions))]
pub fn delete(alloc: Global, wanted: &Term, list: &Term) -> Result<Result<Term, Raise>, AllocError>
    ensures { IfOk result (λ r. r ≡ rows.delete wanted.now list.now) }
{
    let Some(items) = list.elements(alloc)? else {
        return badarg(alloc);
    };
    let place = first(&items, wanted);
    let items = without(items, place);
    listed(alloc, copies(alloc, &items)?)
}

// The place of the first element that equals a term.
fn first(items: &[&Term], wanted: &Term) -> Option<usize>
    ensures { result ≡ position (same_term wanted.now) (map (λ t. t.now) items.now) }
{
    for place in 0..items.len() {
        if wanted.cmp(items[place]).is_eq() {
            return Some(place);
        }
    }
    None
}

/// `lists:max/1`: the greatest element. `AllocError` only if out of memory.
pub fn greatest(alloc: Global, list: &Term) -> Result<Result<Term, Raise>, AllocError>
    ensures { IfOk result (λ r. r ≡ rows.greatest list.now) }
{
    match list.elements(alloc)? {
        Some(items) => found(alloc, greatest_of(&items)),
        None => badarg(alloc),
    }
}

/// `lists:min/1`: the least element. `AllocError` only if out of memory.
pub fn least(alloc: Global, list: &Term) -> Result<Result<Term, Raise>, AllocError>
    ensures { IfOk result (λ r. r ≡ rows.least list.now) }
{
    match list.elements(alloc)? {
        Some(items) => found(alloc, least_of(&items)),
        None => badarg(alloc),
    }
}

fn greatest_of<'a>(items: &[&'a Term]) -> Option<&'a Term>
    ensures { option_map (λ t. t.now) result ≡ reduce (ord_max term_cmp) (map (λ t. t.now) items.now) }
{
    if items.is_empty() {
        return None;
    }
    let mut best = items[0];
    for place in 1..items.len() {
        best = greater(best, items[place]);
    }
    Some(best)
}

fn least_of<'a>(items: &[&'a Term]) -> Option<&'a Term>
    ensures { option_map (λ t. t.now) result ≡ reduce (ord_min term_cmp) (map (λ t. t.now) items.now) }
{
    if items.is_empty() {
        return None;
    }
    let mut best = items[0];
    for place in 1..items.len() {
        best = lesser(best, items[place]);
    }
    Some(best)
}
