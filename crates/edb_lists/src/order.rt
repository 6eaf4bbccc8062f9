//! Lists in order: of the terms themselves, or of the keys of tuples.

ghost use Rattle.std.specs.Prelude.{◌≡◌, IfOk, map};
ghost use Rattle.std.specs.List.{dedup};
ghost use Rattle.std.specs.Option.{option_map};
ghost use Rattle.edb_lang.specs.Order.{term_cmp};
ghost use Rattle.edb_lang.specs.Terms.{Datum};
ghost use Rattle.edb_pure.specs.Keys as keys;
ghost use Rattle.edb_pure.specs.Lists as rows;
ghost use Rattle.edb_pure.specs.Sorting as sorting;
ghost use Rattle.edb_pure.specs.Truths.{same_term};

use crate::items::{copies, element, place};
use crate::raises::{badarg, list as listed};
use edb_lang::Term;
use edb_pure::Raise;
use std::alloc::{AllocError, Global};
use std::cmp::Ordering;

/// `lists:sort/1`: the elements in the order of terms. `AllocError` only if out of memory.
pub fn sort(alloc: Global, list: &Term) -> Result<Result<Term, Raise>, AllocError>
    ensures { IfOk result (λ r. r ≡ rows.sort list.now) }
{
    let Some(items) = list.elements(alloc)? else {
        return badarg(alloc);
    };
    let ordered = in_order(items)?;
    listed(alloc, copies(alloc, &ordered)?)
}

/// `lists:usort/1`: the elements in the order of terms, each of equal ones once. `AllocError` only if out of memory.
pub fn usort(alloc: Global, list: &Term) -> Result<Result<Term, Raise>, AllocError>
    ensures { IfOk result (λ r. r ≡ rows.usort list.now) }
{
    let Some(items) = list.elements(alloc)? else {
        return badarg(alloc);
    };
    let ordered = in_order(items)?;
    let distinct = distinct(ordered);
    listed(alloc, copies(alloc, &distinct)?)
}

/// `lists:keysort/2`: the tuples in the order of their keys at a position; those with equal keys stay in their order.
/// `AllocError` only if out of memory.
pub fn keysort(
    alloc: Global,
    position: &Term,
    list: &Term,
) -> Result<Result<Term, Raise>, AllocError>
    ensures { IfOk result (λ r. r ≡ keys.keysort position.now list.now) }
{
    let Some(place) = place(position) else {
        return badarg(alloc);
    };
    let Some(items) = list.elements(alloc)? else {
        return badarg(alloc);
    };
    let Some(pairs) = keyed(alloc, &items, place)? else {
        return badarg(alloc);
    };
    let ordered = by_key(pairs)?;
    listed(alloc, copies_behind(alloc, &ordered)?)
}

// The elements in the order of terms. `AllocError` only if out of memory, here and in all that follows.
fn in_order<'a>(items: Vec<&'a Term>) -> Result<Vec<&'a Term>, AllocError>
    ensures { IfOk result (λ made. map (λ t. t.now) made.items ≡ sorting.sorted sorting.is_below (map (λ t. t.now) items.entry.items)) }
{
    let mut items = items;
    items.sort_by(|first, second| first.cmp(second))?;
    Ok(items)
}

// The elements without those that equal the one before them.
fn distinct<'a>(items: Vec<&'a Term>) -> Vec<&'a Term>
    ensures { map (λ t. t.now) result.items ≡ dedup same_term (map (λ t. t.now) items.entry.items) }
{
    let mut items = items;
    items.dedup_by(|next, kept| next.cmp(kept).is_eq());
    items
}

// Each element behind its key, which is at a place in it, if all have one.
fn keyed<'a>(
    alloc: Global,
    items: &[&'a Term],
    place: u128,
) -> Result<Option<Vec<(&'a Term, &'a Term)>>, AllocError>
    ensures { IfOk result (λ found. option_map (λ pairs. map {B = Datum × Datum} (λ p. (p.0.now, p.1.now)) pairs.items) found ≡ rows.each (λ u. option_map (λ k. (k, u)) (keys.key_of place u)) (map (λ t. t.now) items.now)) }
{
    let mut pairs = Vec::with_capacity(alloc, items.len())?;
    for at in 0..items.len() {
        let item = items[at];
        let Some(key) = element(item, place) else {
            return Ok(None);
        };
        pairs.push((key, item))?;
    }
    Ok(Some(pairs))
}

// The elements in the order of their keys.
fn by_key<'a>(pairs: Vec<(&'a Term, &'a Term)>) -> Result<Vec<(&'a Term, &'a Term)>, AllocError>
    ensures { IfOk result (λ made. map {B = Datum × Datum} (λ p. (p.0.now, p.1.now)) made.items ≡ sorting.sorted keys.is_key_below (map {B = Datum × Datum} (λ p. (p.0.now, p.1.now)) pairs.entry.items)) }
{
    let mut pairs = pairs;
    pairs.sort_by(|first, second| compare_keys(first, second))?;
    Ok(pairs)
}

// Elements behind their keys compare by the keys.
fn compare_keys(first: &(&Term, &Term), second: &(&Term, &Term)) -> Ordering
    ensures { result ≡ term_cmp first.now.0.now second.now.0.now }
{
    first.0.cmp(second.0)
}

// Copies of the elements behind their keys.
fn copies_behind(alloc: Global, pairs: &[(&Term, &Term)]) -> Result<Vec<Term>, AllocError>
    ensures { IfOk result (λ made. made.items ≡ map (λ p. p.1.now) pairs.now) }
{
    let mut made = Vec::with_capacity(alloc, pairs.len())?;
    for pair in pairs {
        made.push(pair.1.copy(alloc)?)?;
    }
    Ok(made)
}
