//! Exceptions, and the answers that a value or an exception is.

ghost use Rattle.std.specs.Prelude.{◌≡◌, ℕ, IfOk, map, Err};
ghost use Rattle.edb_lang.specs.Limits.{limited};
ghost use Rattle.edb_lang.specs.ListTerms.{list_of};
ghost use Rattle.edb_lang.specs.Terms.{Datum, atom, nil, framed};
ghost use Rattle.edb_moves.specs.Calls.{answered};
ghost use Rattle.edb_moves.specs.Going.{Place};
ghost use Rattle.edb_moves.specs.Raises as raises;
ghost use Rattle.edb_path.specs.Plans.{effect, Suits};
ghost use Rattle.edb_pure.specs.declared.Raise.{Raise as Raised};
ghost use Rattle.edb_pure.specs.Answers.{limited_answer};
ghost use Rattle.edb_pure.specs.Lists as lists;
ghost use Rattle.edb_pure.specs.Answers.{raise};
ghost use Rattle.edb_lang.specs.declared.small.Class.TheVariants.{Error};
ghost use Rattle.edb_calls.specs.Alone.{IsAlone};

use crate::terms::copies;
use edb_lang::{Class, Limit, Name, Term};
use edb_path::Plan;
use edb_pure::Raise;
use edb_stack::Item;
use std::alloc::{AllocError, Global};

/// An error whose reason is this atom. `AllocError` only if out of memory, here and in all that follows.
pub(crate) fn error(alloc: Global, reason: &str) -> Result<Raise, AllocError>
    ensures { IfOk result (λ r. Err r ≡ raise Error (atom reason.now)) }
{
    Ok(Raise {
        class: Class::Error,
        reason: atom_of(alloc, reason)?,
    })
}

/// The atom with this text.
fn atom_of(alloc: Global, text: &str) -> Result<Term, AllocError>
    ensures { IfOk result (λ t. t ≡ atom text.now) }
{
    Ok(Term::atom(Name::from_str(alloc, text)?))
}

/// The answer to a redex: the value, or the raise.
pub(crate) fn answered<'a>(answer: Result<Term, Raise>) -> Plan<'a>
    ensures effect { (p : Place) (v : Datum) → effect p v result ≡ answered p answer }
    ensures suits { (n : ℕ) → Suits n result }
    ensures alone { IsAlone result }
{
    match answer {
        Ok(value) => Plan::Gives(Item::Value(value)),
        Err(raise) => Plan::Raises(raise),
    }
}

/// An error whose reason is this atom.
pub(crate) fn fails<'a>(alloc: Global, reason: &str) -> Result<Plan<'a>, AllocError>
    ensures effect { (p : Place) (v : Datum) → IfOk result (λ plan. effect p v plan ≡ raises.fails reason.now) }
    ensures suits { (n : ℕ) → IfOk result (Suits n) }
    ensures alone { IfOk result IsAlone }
{
    Ok(Plan::Raises(error(alloc, reason)?))
}

/// The tuple of two terms.
fn pair(alloc: Global, first: Term, second: Term) -> Result<Result<Term, Limit>, AllocError>
    ensures { IfOk result (λ made. made ≡ limited (lists.pair first second)) }
{
    let mut items = Vec::new(alloc);
    items.push(first)?;
    items.push(second)?;
    Term::tuple(alloc, items)
}

/// An error whose reason is this atom with a term. Where the tuple of the two would pass a limit, which is so where the
/// term by itself does, the atom `system_limit` stands in the term's place.
pub(crate) fn fails_with<'a>(
    alloc: Global,
    reason: &str,
    value: Result<Term, Limit>,
) -> Result<Plan<'a>, AllocError>
    ensures effect { (p : Place) (v t : Datum) → value ≡ limited t → IfOk result (λ plan. effect p v plan ≡ raises.fails_with reason.now t) }
    ensures suits { (n : ℕ) → IfOk result (Suits n) }
    ensures alone { IfOk result IsAlone }
{
    let reason = reason_with(alloc, reason, value)?;
    Ok(Plan::Raises(Raise {
        class: Class::Error,
        reason,
    }))
}

/// The reason of such an error.
fn reason_with(alloc: Global, reason: &str, value: Result<Term, Limit>) -> Result<Term, AllocError>
    ensures { (t : Datum) → value ≡ limited t → IfOk result (λ made. made ≡ framed (lists.pair (atom reason.now)) t) }
{
    match beside(alloc, reason, value)? {
        Ok(made) => Ok(made),
        Err(_) => {
            let limit = atom_of(alloc, "system_limit")?;
            match beside(alloc, reason, Ok(limit))? {
                Ok(made) => Ok(made),
                Err(_) => unreachable!(),
            }
        }
    }
}

/// The tuple of an atom and a term.
fn beside(
    alloc: Global,
    text: &str,
    value: Result<Term, Limit>,
) -> Result<Result<Term, Limit>, AllocError>
    ensures { (t : Datum) → value ≡ limited t → IfOk result (λ made. made ≡ limited (lists.pair (atom text.now) t)) }
{
    match value {
        Ok(value) => pair(alloc, atom_of(alloc, text)?, value),
        Err(limit) => Ok(Err(limit)),
    }
}

/// A fun that was called with a wrong number of arguments.
pub(crate) fn fails_by_arity<'a>(
    alloc: Global,
    fun: &Term,
    args: &[&Term],
) -> Result<Plan<'a>, AllocError>
    ensures effect { (p : Place) (v : Datum) → IfOk result (λ plan. effect p v plan ≡ raises.fails_by_arity fun.now (map (λ t. t.now) args.now)) }
    ensures suits { (n : ℕ) → IfOk result (Suits n) }
    ensures alone { IfOk result IsAlone }
{
    let call = called(alloc, fun, args)?;
    fails_with(alloc, "badarity", call)
}

/// The tuple of a fun and the list of its arguments.
fn called(alloc: Global, fun: &Term, args: &[&Term]) -> Result<Result<Term, Limit>, AllocError>
    ensures { IfOk result (λ made. made ≡ limited (lists.pair fun.now (list_of (map (λ t. t.now) args.now) nil))) }
{
    match Term::list(alloc, copies(alloc, args)?, Term::nil())? {
        Ok(list) => pair(alloc, fun.copy(alloc)?, list),
        Err(limit) => Ok(Err(limit)),
    }
}
