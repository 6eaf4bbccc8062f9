//! Variables and strings.

ghost use Rattle.std.specs.Prelude.{◌≡◌, ℕ, IfOk, length, map, pos};
ghost use Rattle.edb_lang.specs.Limits.{limited};
ghost use Rattle.edb_lang.specs.Terms.{Datum, int};
ghost use Rattle.edb_moves.specs.Calls as calls;
ghost use Rattle.edb_moves.specs.Going.{Place};
ghost use Rattle.edb_moves.specs.Moves.{leaf_move};
ghost use Rattle.edb_moves.specs.Running.{string, variable};
ghost use Rattle.edb_path.specs.Plans.{effect, Suits};

use crate::raising::{failing, failing_with};
use edb_lang::{Limit, Name, Term};
use edb_path::Plan;
use edb_stack::Item;
use edb_variables::Variables;
use std::alloc::{AllocError, Global};

/// A variable: the place of its pair. `AllocError` only if out of memory, here and in all that follows.
pub(crate) fn read_variable<'a>(
    alloc: Global,
    name: &Name,
    variables: &Variables,
) -> Result<Plan<'a>, AllocError>
    ensures effect { (p : Place) (v : Datum) → p.bindings ≡ variables.now.pairs → IfOk result (λ plan. effect p v plan ≡ leaf_move p (variable name.now)) }
    ensures suits { IfOk result (λ plan. Suits (length variables.now.pairs) plan) }
{
    match variables.place(name) {
        Some(place) => Ok(Plan::Gives(Item::Placed(place))),
        None => failing_with(alloc, "unbound", &Term::atom(name.copy(alloc)?)),
    }
}

/// A string: the list of its code points.
pub(crate) fn make_text<'a>(alloc: Global, points: &[u32]) -> Result<Plan<'a>, AllocError>
    ensures effect { (p : Place) (v : Datum) → IfOk result (λ plan. effect p v plan ≡ leaf_move p (string points.now)) }
    ensures suits { (n : ℕ) → IfOk result (λ plan. Suits n plan) }
{
    let items = point_terms(alloc, points)?;
    give_limited(alloc, Term::list(alloc, items, Term::nil())?)
}

/// Code points, as integers.
fn point_terms(alloc: Global, points: &[u32]) -> Result<Vec<Term>, AllocError>
    ensures { IfOk result (λ items. items.items ≡ map (λ c. int (pos c)) points.now) }
{
    let mut items = Vec::with_capacity(alloc, points.len())?;
    for point in points {
        items.push(Term::int(i128::from(*point)))?;
    }
    Ok(items)
}

/// A term that was made, or that would be more than 4,000 high or 100,000 large.
pub(crate) fn give_limited<'a>(
    alloc: Global,
    made: Result<Term, Limit>,
) -> Result<Plan<'a>, AllocError>
    ensures effect { (p : Place) (v t : Datum) → made ≡ limited t → IfOk result (λ plan. effect p v plan ≡ calls.limited p t) }
    ensures suits { (n : ℕ) → IfOk result (λ plan. Suits n plan) }
{
    match made {
        Ok(term) => Ok(Plan::Gives(Item::Value(term))),
        Err(_) => failing(alloc, "system_limit"),
    }
}
