//! Lists of integers: a run of them, and their sum.

ghost use Rattle.std.specs.Int.{w128};
ghost use Rattle.std.specs.Prelude.{◌≡◌, ◌<◌, ◌≤◌, ◌^◌, ◌+◌, IfOk, FitsSigned, pos, ◌+ℤ◌, ◌≤ℤ◌, map};
ghost use Rattle.std.specs.List.{range_with_len, fold};
ghost use Rattle.std.specs.Option.{option_map};
ghost use Rattle.edb_lang.specs.Terms as terms;
ghost use Rattle.edb_lists.specs.Totals.{total_of};
ghost use Rattle.edb_pure.specs.Integers.{integer_of, integer_answer};
ghost use Rattle.edb_pure.specs.Lists as rows;

use crate::items::MOST_HIGH;
use crate::raises::{badarg, list as listed, system_limit};
use edb_lang::{Node, Term};
use edb_pure::Raise;
use std::alloc::{AllocError, Global};

/// `lists:seq/2`: the integers from one to another, which may be one less than the first; the list is then empty.
/// `AllocError` only if out of memory.
pub fn seq(alloc: Global, from: &Term, to: &Term) -> Result<Result<Term, Raise>, AllocError>
    ensures { IfOk result (λ r. r ≡ rows.seq from.now to.now) }
{
    match (integer(from), integer(to)) {
        (Some(from), Some(to)) => integers(alloc, from, to),
        _ => badarg(alloc),
    }
}

// The integer that a term is.
fn integer(term: &Term) -> Option<i128>
    ensures { result ≡ integer_of term.now }
{
    match &term.node {
        Node::Int(value) => Some(*value),
        _ => None,
    }
}

fn integers(alloc: Global, from: i128, to: i128) -> Result<Result<Term, Raise>, AllocError>
    ensures { IfOk result (λ r. r ≡ rows.seq (terms.int from) (terms.int to)) }
{
    let distance = to.abs_diff(from);
    if to < from {
        if distance > 1 {
            return badarg(alloc);
        }
        return listed(alloc, Vec::new(alloc));
    }
    if distance >= MOST_HIGH {
        return system_limit(alloc);
    }
    listed(alloc, run(alloc, from, distance as usize + 1)?)
}

// So many integers from one on.
fn run(alloc: Global, from: i128, times: usize) -> Result<Vec<Term>, AllocError>
    requires { (from +ℤ pos times) ≤ℤ pos (2 ^ 127) }
    ensures { IfOk result (λ made. made.items ≡ map (λ n. terms.int (from +ℤ pos n)) (range_with_len 0 times)) }
{
    let mut made = Vec::new(alloc);
    for step in 0..times {
        made.push(Term::int(from + step as i128))?;
    }
    Ok(made)
}

/// `lists:sum/1`: the total of the integers; it alone has to be in the range, and not what it comes to on the way.
/// `AllocError` only if out of memory.
pub fn sum(alloc: Global, list: &Term) -> Result<Result<Term, Raise>, AllocError>
    ensures { IfOk result (λ r. r ≡ rows.sum list.now) }
{
    let Some(items) = list.elements(alloc)? else {
        return badarg(alloc);
    };
    match total(&items) {
        Some(total) => answer(alloc, total),
        None => badarg(alloc),
    }
}

// A sum: a value in the range, and how often it went over the range and under it by 2^128.
#[derive(Clone, Copy)]
struct Tally {
    value: i128,
    over: usize,
    under: usize,
}

// The total of terms, if all of them are integers.
fn total(items: &[&Term]) -> Option<Tally>
    ensures { option_map (λ t. total_of t.value t.over t.under) result ≡ option_map (fold ◌+ℤ◌ (pos 0)) (rows.each integer_of (map (λ t. t.now) items.now)) }
{
    let mut total = Tally {
        value: 0,
        over: 0,
        under: 0,
    };
    for place in 0..items.len() {
        let Some(more) = integer(items[place]) else {
            return None;
        };
        total = plus(total, more);
    }
    Some(total)
}

// A sum with one more integer.
fn plus(total: Tally, more: i128) -> Tally
    requires over { total.over + 1 < 2 ^ 64 }
    requires under { total.under + 1 < 2 ^ 64 }
    ensures sum { total_of result.value result.over result.under ≡ total_of total.value total.over total.under +ℤ more }
    ensures over { result.over ≤ total.over + 1 }
    ensures under { result.under ≤ total.under + 1 }
{
    match total.value.checked_add(more) {
        Some(value) => Tally {
            value,
            over: total.over,
            under: total.under,
        },
        None => wrapped(total, more),
    }
}

// The same, where the value leaves the range.
fn wrapped(total: Tally, more: i128) -> Tally
    requires out { FitsSigned w128 (total.value +ℤ more) → ⊥ }
    requires over { total.over + 1 < 2 ^ 64 }
    requires under { total.under + 1 < 2 ^ 64 }
    ensures sum { total_of result.value result.over result.under ≡ total_of total.value total.over total.under +ℤ more }
    ensures over { result.over ≤ total.over + 1 }
    ensures under { result.under ≤ total.under + 1 }
{
    if more < 0 {
        return Tally {
            value: (total.value - i128::MIN) + (more - i128::MIN),
            over: total.over,
            under: total.under + 1,
        };
    }
    Tally {
        value: (total.value + i128::MIN) + (more + i128::MIN),
        over: total.over + 1,
        under: total.under,
    }
}

// The sum as a result.
fn answer(alloc: Global, total: Tally) -> Result<Result<Term, Raise>, AllocError>
    ensures { IfOk result (λ r. r ≡ integer_answer (total_of total.value total.over total.under)) }
{
    if total.over != total.under {
        return system_limit(alloc);
    }
    Ok(Ok(Term::int(total.value)))
}
