//! Lists made of other lists.

ghost use Rattle.std.specs.Prelude.{◌≡◌, ◌++◌, IfOk, List, length, map, flat_map, replicate, take, zip};
ghost use Rattle.std.specs.Option.{option_map};
ghost use Rattle.edb_lang.specs.ListTerms.{elements_of, list_of};
ghost use Rattle.edb_lang.specs.Terms as terms;
ghost use Rattle.edb_pure.specs.Answers.{limited_answer};
ghost use Rattle.edb_pure.specs.Lists as rows;

use crate::items::{MOST_HIGH, copies, count};
use crate::raises::{badarg, list as listed, system_limit};
use edb_lang::{Limit, Node, Term};
use edb_pure::Raise;
use std::alloc::{AllocError, Global};

/// `lists:reverse/1`: the last element first. `AllocError` only if out of memory.
#[tactic(auto, using(crate::proofs::Values::values))]
pub fn reverse_one(alloc: Global, list: &Term) -> Result<Result<Term, Raise>, AllocError>
    ensures { IfOk result (λ r. r ≡ rows.reverse_one list.now) }
{
    let Some(mut items) = list.elements(alloc)? else {
        return badarg(alloc);
    };
    items.reverse();
    listed(alloc, copies(alloc, &items)?)
}

/// `lists:reverse/2`: the first list reversed, and then the second. `AllocError` only if out of memory.
#[tactic(auto, using(crate::proofs::Values::values))]
pub fn reverse_onto(
    alloc: Global,
    list: &Term,
    tail: &Term,
) -> Result<Result<Term, Raise>, AllocError>
    ensures { IfOk result (λ r. r ≡ rows.reverse_onto list.now tail.now) }
{
    let Some(mut items) = list.elements(alloc)? else {
        return badarg(alloc);
    };
    let Some(rest) = tail.elements(alloc)? else {
        return badarg(alloc);
    };
    items.reverse();
    items.extend_from_slice(&rest)?;
    listed(alloc, copies(alloc, &items)?)
}

/// `lists:append/2`: the elements of one list, and then those of the other. `AllocError` only if out of memory.
pub fn append_two(
    alloc: Global,
    front: &Term,
    back: &Term,
) -> Result<Result<Term, Raise>, AllocError>
    ensures { IfOk result (λ r. r ≡ rows.append_two front.now back.now) }
{
    let Some(mut items) = front.elements(alloc)? else {
        return badarg(alloc);
    };
    let Some(rest) = back.elements(alloc)? else {
        return badarg(alloc);
    };
    items.extend_from_slice(&rest)?;
    listed(alloc, copies(alloc, &items)?)
}

/// `lists:nthtail/2`: what follows so many elements, which are all there. `AllocError` only if out of memory.
#[tactic(auto, using(crate::proofs::Values::values))]
pub fn nthtail(alloc: Global, length: &Term, list: &Term) -> Result<Result<Term, Raise>, AllocError>
    ensures { IfOk result (λ r. r ≡ rows.nthtail length.now list.now) }
{
    let Some(length) = count(length) else {
        return badarg(alloc);
    };
    let Some(items) = list.elements(alloc)? else {
        return badarg(alloc);
    };
    if length > items.len() as u128 {
        return badarg(alloc);
    }
    let (_, rest) = items.split_at(length as usize);
    listed(alloc, copies(alloc, rest)?)
}

/// `lists:sublist/2`: so many elements from the first on, or all. `AllocError` only if out of memory.
pub fn sublist(alloc: Global, list: &Term, length: &Term) -> Result<Result<Term, Raise>, AllocError>
    ensures { IfOk result (λ r. r ≡ rows.sublist list.now length.now) }
{
    let Some(items) = list.elements(alloc)? else {
        return badarg(alloc);
    };
    let Some(length) = count(length) else {
        return badarg(alloc);
    };
    listed(alloc, copies(alloc, front(&items, length))?)
}

// So many elements from the first on, or all.
#[tactic(auto, using(crate::proofs::Values::fronts))]
fn front<'a, 't>(items: &'a [&'t Term], length: u128) -> &'a [&'t Term]
    ensures { map (λ t. t.now) result.now ≡ take length (map (λ t. t.now) items.now) }
{
    if length >= items.len() as u128 {
        return items;
    }
    &items[..length as usize]
}

/// `lists:append/1`: the lists in a list, put together. `AllocError` only if out of memory.
pub fn append_all(alloc: Global, lists: &Term) -> Result<Result<Term, Raise>, AllocError>
    ensures { IfOk result (λ r. r ≡ rows.append_all lists.now) }
{
    let Some(lists) = lists.elements(alloc)? else {
        return badarg(alloc);
    };
    match joined(alloc, &lists)? {
        Some(items) => listed(alloc, copies(alloc, &items)?),
        None => badarg(alloc),
    }
}

// The elements of all the lists, if each of them is proper.
fn joined<'a>(alloc: Global, lists: &[&'a Term]) -> Result<Option<Vec<&'a Term>>, AllocError>
    ensures { IfOk result (λ all. option_map (λ items. map (λ t. t.now) items.items) all ≡ option_map (flat_map (λ us. us)) (rows.each elements_of (map (λ t. t.now) lists.now))) }
{
    let mut all = Vec::new(alloc);
    for place in 0..lists.len() {
        let Some(items) = lists[place].elements(alloc)? else {
            return Ok(None);
        };
        all.extend_from_slice(&items)?;
    }
    Ok(Some(all))
}

/// `lists:duplicate/2`: a term so many times. `AllocError` only if out of memory.
pub fn duplicate(
    alloc: Global,
    times: &Term,
    item: &Term,
) -> Result<Result<Term, Raise>, AllocError>
    ensures { IfOk result (λ r. r ≡ rows.duplicate times.now item.now) }
{
    let Some(times) = count(times) else {
        return badarg(alloc);
    };
    if times > MOST_HIGH {
        return system_limit(alloc);
    }
    listed(alloc, repeated(alloc, item, times as usize)?)
}

fn repeated(alloc: Global, item: &Term, times: usize) -> Result<Vec<Term>, AllocError>
    ensures { IfOk result (λ made. made.items ≡ replicate times item.now) }
{
    let mut made = Vec::new(alloc);
    for _ in 0..times {
        made.push(item.copy(alloc)?)?;
    }
    Ok(made)
}

/// `lists:zip/2`: the pairs of elements at one place; both lists have one length. `AllocError` only if out of memory.
pub fn zip_lists(
    alloc: Global,
    firsts: &Term,
    seconds: &Term,
) -> Result<Result<Term, Raise>, AllocError>
    ensures { IfOk result (λ r. r ≡ rows.zip_lists firsts.now seconds.now) }
{
    let Some(firsts) = firsts.elements(alloc)? else {
        return badarg(alloc);
    };
    let Some(seconds) = seconds.elements(alloc)? else {
        return badarg(alloc);
    };
    if firsts.len() != seconds.len() {
        return badarg(alloc);
    }
    listed(alloc, pairs(alloc, &firsts, &seconds)?)
}

// The pairs of terms at one place.
fn pairs(alloc: Global, firsts: &[&Term], seconds: &[&Term]) -> Result<Vec<Term>, AllocError>
    requires { length firsts.now ≡ length seconds.now }
    ensures { IfOk result (λ made. made.items ≡ map (λ p. rows.pair p.0 p.1) (zip (map (λ t. t.now) firsts.now) (map (λ t. t.now) seconds.now))) }
{
    let mut made = Vec::new(alloc);
    for place in 0..firsts.len() {
        made.push(pair(alloc, firsts[place], seconds[place])?)?;
    }
    Ok(made)
}

// A tuple of copies of two terms, which may pass a limit.
fn pair(alloc: Global, first: &Term, second: &Term) -> Result<Term, AllocError>
    ensures { IfOk result (λ made. made ≡ rows.pair first.now second.now) }
{
    let items = vec![in alloc; first.copy(alloc)?, second.copy(alloc)?]?;
    Ok(Term {
        node: Node::Tuple(items),
    })
}

/// `lists:unzip/1`: of a list of pairs, a tuple of the list of the first terms and that of the second ones. `AllocError`
/// only if out of memory.
pub fn unzip(alloc: Global, list: &Term) -> Result<Result<Term, Raise>, AllocError>
    ensures { IfOk result (λ r. r ≡ rows.unzip list.now) }
{
    let Some(items) = list.elements(alloc)? else {
        return badarg(alloc);
    };
    match split(alloc, &items)? {
        Some((firsts, seconds)) => two_lists(alloc, &firsts, &seconds),
        None => badarg(alloc),
    }
}

// The first terms and the second ones, if all terms are pairs.
fn split<'a>(
    alloc: Global,
    items: &[&'a Term],
) -> Result<Option<(Vec<&'a Term>, Vec<&'a Term>)>, AllocError>
    ensures { IfOk result (λ found. option_map {U = List terms.Datum × List terms.Datum} (λ p. (map (λ t. t.now) p.0.items, map (λ t. t.now) p.1.items)) found ≡ option_map {U = List terms.Datum × List terms.Datum} (λ ps. (map (λ p. p.0) ps, map (λ p. p.1) ps)) (rows.each rows.pair_of (map (λ t. t.now) items.now))) }
{
    let mut firsts = Vec::new(alloc);
    let mut seconds = Vec::new(alloc);
    for place in 0..items.len() {
        let Some((first, second)) = parts(items[place]) else {
            return Ok(None);
        };
        firsts.push(first)?;
        seconds.push(second)?;
    }
    Ok(Some((firsts, seconds)))
}

// The two terms of a pair.
fn parts(term: &Term) -> Option<(&Term, &Term)>
    ensures { option_map (λ p. (p.0.now, p.1.now)) result ≡ rows.pair_of term.now }
{
    match &term.node {
        Node::Tuple(items) => both(items),
        _ => None,
    }
}

fn both(items: &[Term]) -> Option<(&Term, &Term)>
    ensures { option_map (λ p. (p.0.now, p.1.now)) result ≡ rows.pair_of (terms.tuple (terms.of_list items.now)) }
{
    if items.len() != 2 {
        return None;
    }
    Some((&items[0], &items[1]))
}

// A tuple of two lists.
fn two_lists(
    alloc: Global,
    firsts: &[&Term],
    seconds: &[&Term],
) -> Result<Result<Term, Raise>, AllocError>
    ensures { IfOk result (λ r. r ≡ limited_answer (rows.pair (list_of (map (λ t. t.now) firsts.now) terms.nil) (list_of (map (λ t. t.now) seconds.now) terms.nil))) }
{
    let Ok(firsts) = Term::list(alloc, copies(alloc, firsts)?, Term::nil())? else {
        return system_limit(alloc);
    };
    let Ok(seconds) = Term::list(alloc, copies(alloc, seconds)?, Term::nil())? else {
        return system_limit(alloc);
    };
    let lists = vec![in alloc; firsts, seconds]?;
    match Term::tuple(alloc, lists)? {
        Ok(lists) => Ok(Ok(lists)),
        Err(Limit) => system_limit(alloc),
    }
}

/// `lists:flatten/1`: the elements that are not lists, of a list and of the lists in it at any depth. `AllocError` only if
/// out of memory.
pub fn flatten(alloc: Global, list: &Term) -> Result<Result<Term, Raise>, AllocError>
    ensures { IfOk result (λ r. r ≡ rows.flatten list.now) }
{
    match flat(alloc, list, false, Vec::new(alloc))? {
        Some(items) => listed(alloc, copies(alloc, &items)?),
        None => badarg(alloc),
    }
}

// These elements, and then those in a term: one that is an element, or else one that follows an element.
#[cycle(flat)]
fn flat<'a>(
    alloc: Global,
    term: &'a Term,
    is_item: bool,
    items: Vec<&'a Term>,
) -> Result<Option<Vec<&'a Term>>, AllocError>
    ensures { IfOk result (λ all. option_map (λ items. map (λ t. t.now) items.items) all ≡ option_map (λ more. map (λ t. t.now) items.entry.items ++ more) (rows.flat_items is_item term.now)) }
{
    match &term.node {
        Node::Nil => Ok(Some(items)),
        Node::List(cell) => match flat(alloc, &cell.head, true, items)? {
            Some(front) => flat(alloc, &cell.tail, false, front),
            None => Ok(None),
        },
        _ => {
            if !is_item {
                return Ok(None);
            }
            let mut items = items;
            items.push(term)?;
            Ok(Some(items))
        }
    }
}
