//! `++` and `--`: lists put together and taken apart.

ghost use Rattle.std.specs.Prelude.{◌≡◌, ◌<◌, IfOk, IfSome, MatchOption, map, fold, length};
ghost use Rattle.std.specs.List.{remove};
ghost use Rattle.edb_lang.specs.ListTerms.{list_of};
ghost use Rattle.edb_pure.specs.Answers.{limited_answer};
ghost use Rattle.edb_pure.specs.Lists as spec;

use crate::raises::{Answer, badarg, system_limit};
use edb_lang::Term;
use std::alloc::{AllocError, Global};

// `++`: the elements of the left list, and then the right operand, which may be any term. `badarg` if the left one is
// no proper list, `system_limit` if the result is past a limit.
pub(crate) fn append(alloc: Global, left: &Term, right: &Term) -> Result<Answer, AllocError>
    ensures { IfOk result (λ r. r ≡ spec.append_operator left.now right.now) }
{
    match left.elements(alloc)? {
        Some(items) => join(alloc, &items, right.copy(alloc)?),
        None => badarg(alloc),
    }
}

// `--`: the left list, out of which each element of the right one takes the first that equals it. `badarg` if either is
// no proper list. It may compare each element of the one with each of the other.
pub(crate) fn subtract(alloc: Global, left: &Term, right: &Term) -> Result<Answer, AllocError>
    ensures { IfOk result (λ r. r ≡ spec.remove_each left.now right.now) }
{
    let Some(mut rest) = left.elements(alloc)? else {
        return badarg(alloc);
    };
    let Some(items) = right.elements(alloc)? else {
        return badarg(alloc);
    };
    remove_each(&mut rest, &items);
    join(alloc, &rest, Term::nil())
}

// The list of copies of these elements that ends in this term; `system_limit` if it is past a limit.
fn join(alloc: Global, items: &[&Term], tail: Term) -> Result<Answer, AllocError>
    ensures { IfOk result (λ r. r ≡ limited_answer (list_of (map (λ t. t.now) items.now) tail)) }
{
    let items = copies(alloc, items)?;
    match Term::list(alloc, items, tail)? {
        Ok(list) => Ok(Ok(list)),
        Err(_) => system_limit(alloc),
    }
}

// Equal terms.
fn copies(alloc: Global, items: &[&Term]) -> Result<Vec<Term>, AllocError>
    ensures { IfOk result (λ made. made.items ≡ map (λ t. t.now) items.now) }
{
    let mut made = Vec::new(alloc);
    for item in items {
        made.push(item.copy(alloc)?)?;
    }
    Ok(made)
}

// Removes for each of these terms the first element that equals it, if there is one.
fn remove_each(rest: &mut Vec<&Term>, items: &[&Term])
    ensures { map (λ t. t.now) rest.new.items ≡ fold (λ ts u. spec.without_first u ts) (map (λ t. t.now) rest.old.items) (map (λ t. t.now) items.now) }
{
    for item in items {
        remove_first(rest, item);
    }
}

// Removes the first element that equals this term, if there is one.
fn remove_first(items: &mut Vec<&Term>, item: &Term)
    ensures { map (λ t. t.now) items.new.items ≡ spec.without_first item.now (map (λ t. t.now) items.old.items) }
{
    if let Some(place) = first_place(items, item) {
        items.remove(place);
    }
}

// The place of the first element that equals this term.
fn first_place(items: &[&Term], item: &Term) -> Option<usize>
    ensures bound { IfSome result (λ i. i < length items.now) }
    ensures first { MatchOption result (spec.without_first item.now (map (λ t. t.now) items.now) ≡ map (λ t. t.now) items.now) (λ i. spec.without_first item.now (map (λ t. t.now) items.now) ≡ remove (map (λ t. t.now) items.now) i) }
{
    for (place, element) in items.iter().enumerate() {
        if item.cmp(element).is_eq() {
            return Some(place);
        }
    }
    None
}
