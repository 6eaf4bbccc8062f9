//! Lists of tuples, of which the element at a position is the key.

ghost use Rattle.std.specs.Prelude.{◌≡◌, ◌<◌, IfOk, IfSome, length, map, position};
ghost use Rattle.std.specs.List.{push};
ghost use Rattle.edb_pure.specs.Answers.{list_answer};
ghost use Rattle.edb_pure.specs.Keys as rows;

use crate::items::{copies, element, place, without};
use crate::raises::{badarg, list as listed, truth};
use edb_lang::{Node, Term};
use edb_pure::Raise;
use std::alloc::{AllocError, Global};

/// `lists:keyfind/3`: the first tuple that has the key at the position, or `false`. `AllocError` only if out of memory.
pub fn keyfind(
    alloc: Global,
    key: &Term,
    position: &Term,
    list: &Term,
) -> Result<Result<Term, Raise>, AllocError>
    ensures { IfOk result (λ r. r ≡ rows.keyfind key.now position.now list.now) }
{
    let Some(place) = place(position) else {
        return badarg(alloc);
    };
    let Some(items) = list.elements(alloc)? else {
        return badarg(alloc);
    };
    match find_key(&items, key, place) {
        Some(at) => Ok(Ok(items[at].copy(alloc)?)),
        None => truth(alloc, false),
    }
}

/// `lists:keymember/3`: whether a tuple has the key at the position. `AllocError` only if out of memory.
pub fn keymember(
    alloc: Global,
    key: &Term,
    position: &Term,
    list: &Term,
) -> Result<Result<Term, Raise>, AllocError>
    ensures { IfOk result (λ r. r ≡ rows.keymember key.now position.now list.now) }
{
    let Some(place) = place(position) else {
        return badarg(alloc);
    };
    match list.elements(alloc)? {
        Some(items) => truth(alloc, find_key(&items, key, place).is_some()),
        None => badarg(alloc),
    }
}

/// `lists:keydelete/3`: the list without the first tuple that has the key at the position. `AllocError` only if out of
/// memory.
#[tactic(auto, using(crate::proofs::Values::deletions))]
pub fn keydelete(
    alloc: Global,
    key: &Term,
    position: &Term,
    list: &Term,
) -> Result<Result<Term, Raise>, AllocError>
    ensures { IfOk result (λ r. r ≡ rows.keydelete key.now position.now list.now) }
{
    let Some(place) = place(position) else {
        return badarg(alloc);
    };
    let Some(items) = list.elements(alloc)? else {
        return badarg(alloc);
    };
    let at = find_key(&items, key, place);
    let items = without(items, at);
    listed(alloc, copies(alloc, &items)?)
}

/// `lists:keyreplace/4`: another tuple in the place of the first that has the key at the position; the same list if none
/// has it. `AllocError` only if out of memory.
pub fn keyreplace(
    alloc: Global,
    key: &Term,
    position: &Term,
    list: &Term,
    new: &Term,
) -> Result<Result<Term, Raise>, AllocError>
    ensures { IfOk result (λ r. r ≡ rows.keyreplace key.now position.now list.now new.now) }
{
    match &new.node {
        Node::Tuple(_) => replaced(alloc, key, position, list, new),
        _ => badarg(alloc),
    }
}

/// `lists:keystore/4`: the same, but the other tuple comes last if no tuple has the key. `AllocError` only if out of
/// memory.
pub fn keystore(
    alloc: Global,
    key: &Term,
    position: &Term,
    list: &Term,
    new: &Term,
) -> Result<Result<Term, Raise>, AllocError>
    ensures { IfOk result (λ r. r ≡ rows.keystore key.now position.now list.now new.now) }
{
    match &new.node {
        Node::Tuple(_) => stored(alloc, key, position, list, new),
        _ => badarg(alloc),
    }
}

fn replaced<'a>(
    alloc: Global,
    key: &Term,
    position: &Term,
    list: &'a Term,
    new: &'a Term,
) -> Result<Result<Term, Raise>, AllocError>
    ensures { IfOk result (λ r. r ≡ rows.by_key (λ ts at. list_answer (rows.with_item at new.now ts ts)) key.now position.now list.now) }
{
    let Some(place) = place(position) else {
        return badarg(alloc);
    };
    let Some(items) = list.elements(alloc)? else {
        return badarg(alloc);
    };
    let at = find_key(&items, key, place);
    let changed = with_item(items, at, new);
    listed(alloc, copies(alloc, &changed)?)
}

fn stored<'a>(
    alloc: Global,
    key: &Term,
    position: &Term,
    list: &'a Term,
    new: &'a Term,
) -> Result<Result<Term, Raise>, AllocError>
    ensures { IfOk result (λ r. r ≡ rows.by_key (λ ts at. list_answer (rows.with_item at new.now ts (push ts new.now))) key.now position.now list.now) }
{
    let Some(place) = place(position) else {
        return badarg(alloc);
    };
    let Some(items) = list.elements(alloc)? else {
        return badarg(alloc);
    };
    let at = find_key(&items, key, place);
    let changed = with_item_or_last(items, at, new)?;
    listed(alloc, copies(alloc, &changed)?)
}

// The elements with another one at a place, if there is one.
#[tactic(auto, using(crate::proofs::Values::changes))]
fn with_item<'a>(items: Vec<&'a Term>, place: Option<usize>, new: &'a Term) -> Vec<&'a Term>
    requires { IfSome place (λ i. i < length items.items) }
    ensures { map (λ t. t.now) result.items ≡ rows.with_item place new.now (map (λ t. t.now) items.entry.items) (map (λ t. t.now) items.entry.items) }
{
    let mut items = items;
    if let Some(place) = place {
        items[place] = new;
    }
    items
}

// The same, but the other one comes last if there is no place.
#[tactic(auto, using(crate::proofs::Values::changes))]
fn with_item_or_last<'a>(
    items: Vec<&'a Term>,
    place: Option<usize>,
    new: &'a Term,
) -> Result<Vec<&'a Term>, AllocError>
    requires { IfSome place (λ i. i < length items.items) }
    ensures { IfOk result (λ made. map (λ t. t.now) made.items ≡ rows.with_item place new.now (map (λ t. t.now) items.entry.items) (push (map (λ t. t.now) items.entry.items) new.now)) }
{
    let mut items = items;
    match place {
        Some(place) => {
            items[place] = new;
            Ok(items)
        }
        None => {
            items.push(new)?;
            Ok(items)
        }
    }
}

// The place of the first element that has the key.
fn find_key(items: &[&Term], key: &Term, place: u128) -> Option<usize>
    ensures found { result ≡ position (rows.has_key key.now place) (map (λ t. t.now) items.now) }
    ensures within { IfSome result (λ i. i < length items.now) }
{
    for at in 0..items.len() {
        if has_key(items[at], key, place) {
            return Some(at);
        }
    }
    None
}

// Whether the key of a term is this one.
fn has_key(term: &Term, key: &Term, place: u128) -> bool
    ensures { result ≡ rows.has_key key.now place term.now }
{
    match element(term, place) {
        Some(other) => key.cmp(other).is_eq(),
        None => false,
    }
}
