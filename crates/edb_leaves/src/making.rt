//! Funs that are made.

ghost use Rattle.std.specs.Prelude.{◌≡◌, [], ℕ, List, Some, IfOk, length, map, slice_get};
ghost use Rattle.edb_lang.specs.Pairs.{bindings_of};
ghost use Rattle.edb_lang.specs.TermViews.{captures_in, pairs_of, fun_of};
ghost use Rattle.edb_lang.specs.Terms.{Datum, made, is_within};
ghost use Rattle.edb_moves.specs.Going.{Place, turns};
ghost use Rattle.edb_moves.specs.Moves.{leaf_move, made_in};
ghost use Rattle.edb_moves.specs.Running.{value, making, making_local, making_remote};
ghost use Rattle.edb_path.specs.Plans.{effect, Suits};

use crate::raising::failing;
use edb_lang::{Captured, FunValue, Name, Node, Term};
use edb_path::Plan;
use edb_stack::{Body, Item};
use std::alloc::{AllocError, Global};

/// A fun with clauses: it takes along all variables that are visible. `AllocError` only if out of memory, here and in all
/// that follows.
pub(crate) fn make_fun<'a>(
    alloc: Global,
    index: u32,
    arity: u32,
    here: &Body<'a>,
) -> Result<Plan<'a>, AllocError>
    ensures effect { (p : Place) (v : Datum) → p.bindings ≡ here.now.variables.pairs → slice_get p.bodies 0 ≡ Some (here.now.unit.now, here.now.version) → IfOk result (λ plan. effect p v plan ≡ leaf_move p (making index arity)) }
    ensures suits { (n : ℕ) → IfOk result (λ plan. Suits n plan) }
{
    let captured = here.variables.captured(alloc)?;
    make_form(alloc, index, arity, captured, here)
}

/// `fun f/2`
pub(crate) fn make_local<'a>(
    alloc: Global,
    index: u32,
    arity: u32,
    here: &Body<'a>,
) -> Result<Plan<'a>, AllocError>
    ensures effect { (p : Place) (v : Datum) → slice_get p.bodies 0 ≡ Some (here.now.unit.now, here.now.version) → IfOk result (λ plan. effect p v plan ≡ leaf_move p (making_local index arity)) }
    ensures suits { (n : ℕ) → IfOk result (λ plan. Suits n plan) }
{
    make_form(alloc, index, arity, Vec::new(alloc), here)
}

/// `fun m:f/2`
pub(crate) fn make_remote<'a>(
    alloc: Global,
    home: &Name,
    name: &Name,
    arity: u32,
) -> Result<Plan<'a>, AllocError>
    ensures effect { (p : Place) (v : Datum) → IfOk result (λ plan. effect p v plan ≡ leaf_move p (making_remote home.now name.now arity)) }
    ensures suits { (n : ℕ) → IfOk result (λ plan. Suits n plan) }
{
    let fun = FunValue::Named {
        module: home.copy(alloc)?,
        name: name.copy(alloc)?,
        arity,
    };
    give_fun(alloc, fun)
}

/// The fun of a form of this Body's module, with what it takes along.
fn make_form<'a>(
    alloc: Global,
    index: u32,
    arity: u32,
    captured: Vec<Captured>,
    here: &Body<'a>,
) -> Result<Plan<'a>, AllocError>
    ensures effect { (p : Place) (v : Datum) → slice_get p.bodies 0 ≡ Some (here.now.unit.now, here.now.version) → IfOk result (λ plan. effect p v plan ≡ made_in p p.bodies index arity (pairs_of captured.items)) }
    ensures suits { (n : ℕ) → IfOk result (λ plan. Suits n plan) }
{
    if !may_take(alloc, &captured)? {
        return failing(alloc, "system_limit");
    }
    let fun = FunValue::Made {
        module: here.unit.name().copy(alloc)?,
        version: here.version,
        index,
        arity,
        captured,
    };
    give_fun(alloc, fun)
}

/// The fun, as a value.
fn give_fun<'a>(alloc: Global, fun: FunValue) -> Result<Plan<'a>, AllocError>
    ensures effect { (p : Place) (v : Datum) → IfOk result (λ plan. effect p v plan ≡ turns p.bindings (value (fun_of fun))) }
    ensures suits { (n : ℕ) → IfOk result (λ plan. Suits n plan) }
{
    let node = Node::Fun(Box::new(alloc, fun)?);
    Ok(Plan::Gives(Item::Value(Term { node })))
}

/// Whether a fun that takes these along is at most 4,000 high and 100,000 large: as the tuple of their values.
fn may_take(alloc: Global, captured: &[Captured]) -> Result<bool, AllocError>
    ensures { (m : List ℕ) (k i a : ℕ) → IfOk result (λ ok. ok ≡ is_within (made m k i a (captures_in captured.now))) }
{
    let values = values_in(alloc, captured)?;
    Ok(Term::tuple(alloc, values)?.is_ok())
}

/// The values of pairs.
fn values_in(alloc: Global, captured: &[Captured]) -> Result<Vec<Term>, AllocError>
    ensures { IfOk result (λ values. values.items ≡ map (λ c. c.value) captured.now) }
{
    let mut values = Vec::with_capacity(alloc, captured.len())?;
    for pair in captured {
        values.push(pair.value.copy(alloc)?)?;
    }
    Ok(values)
}
