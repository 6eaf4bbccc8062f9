//! Errors that moves raise.

ghost use Rattle.std.specs.Prelude.{◌≡◌, ℕ, IfOk};
ghost use Rattle.edb_lang.specs.Limits.{limited};
ghost use Rattle.edb_lang.specs.Terms.{Datum, atom};
ghost use Rattle.edb_pure.specs.Lists.{pair};
ghost use Rattle.edb_moves.specs.Going.{Place};
ghost use Rattle.edb_moves.specs.Raises.{fails, fails_with};
ghost use Rattle.edb_path.specs.Plans.{effect, Suits};

use edb_lang::{Class, Limit, Name, Term};
use edb_path::Plan;
use edb_pure::Raise;
use std::alloc::{AllocError, Global};

/// An error whose reason is this atom. `AllocError` only if out of memory, here and in all that follows.
pub fn failing<'a>(alloc: Global, reason: &str) -> Result<Plan<'a>, AllocError>
    ensures effect { (p : Place) (v : Datum) → IfOk result (λ plan. effect p v plan ≡ fails reason.now) }
    ensures suits { (n : ℕ) → IfOk result (λ plan. Suits n plan) }
{
    let reason = Term::atom(Name::from_str(alloc, reason)?);
    let class = Class::Error;
    Ok(Plan::Raises(Raise { class, reason }))
}

/// An error whose reason is the tuple of this atom and a term. Where that is more than 4,000 high or 100,000 large, the
/// atom `system_limit` stands in the term's place.
pub fn failing_with<'a>(alloc: Global, reason: &str, value: &Term) -> Result<Plan<'a>, AllocError>
    ensures effect { (p : Place) (v : Datum) → IfOk result (λ plan. effect p v plan ≡ fails_with reason.now value.now) }
    ensures suits { (n : ℕ) → IfOk result (λ plan. Suits n plan) }
{
    let class = Class::Error;
    match tagged(alloc, reason, value.copy(alloc)?)? {
        Ok(reason) => Ok(Plan::Raises(Raise { class, reason })),
        Err(_) => {
            let limit = Term::atom(Name::from_str(alloc, "system_limit")?);
            match tagged(alloc, reason, limit)? {
                Ok(reason) => Ok(Plan::Raises(Raise { class, reason })),
                Err(_) => unreachable!(),
            }
        }
    }
}

/// The tuple of an atom and a term, within the limits.
fn tagged(alloc: Global, tag: &str, value: Term) -> Result<Result<Term, Limit>, AllocError>
    ensures { IfOk result (λ made. made ≡ limited (pair (atom tag.now) value)) }
{
    let mut items = Vec::with_capacity(alloc, 2)?;
    items.push(Term::atom(Name::from_str(alloc, tag)?))?;
    items.push(value)?;
    Term::tuple(alloc, items)
}
