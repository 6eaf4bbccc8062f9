//! What a built-in gives: a list or a term as a value, or a raise.

ghost use Rattle.std.specs.Prelude.{◌≡◌, IfOk, MatchResult, Ok, map};
ghost use Rattle.std.specs.Option.{option_map};
ghost use Rattle.edb_lang.specs.Terms as terms;
ghost use Rattle.edb_lang.specs.ListTerms.{list_of};
ghost use Rattle.edb_pure.specs.Answers as answers;
ghost use Rattle.edb_pure.specs.Truths as truths;

use edb_lang::{Class, Limit, Name, Term};
use edb_pure::Raise;
use std::alloc::{AllocError, Global};

// Wrong arguments. `AllocError` only if out of memory, here and in all that follows.
pub(crate) fn badarg(alloc: Global) -> Result<Result<Term, Raise>, AllocError>
    ensures { IfOk result (λ r. r ≡ answers.badarg) }
{
    error(alloc, "badarg")
}

// A result past a limit.
pub(crate) fn system_limit(alloc: Global) -> Result<Result<Term, Raise>, AllocError>
    ensures { IfOk result (λ r. r ≡ answers.system_limit) }
{
    error(alloc, "system_limit")
}

// The raise of an error with this atom as its reason.
fn error(alloc: Global, name: &str) -> Result<Result<Term, Raise>, AllocError>
    ensures { IfOk result (λ r. r ≡ answers.raise Class.Error (terms.atom name.now)) }
{
    let reason = Term::atom(Name::from_str(alloc, name)?);
    Ok(Err(Raise {
        class: Class::Error,
        reason,
    }))
}

// The list of these elements.
pub(crate) fn list(alloc: Global, items: Vec<Term>) -> Result<Result<Term, Raise>, AllocError>
    ensures { IfOk result (λ r. r ≡ answers.list_answer items.items) }
{
    match Term::list(alloc, items, Term::nil())? {
        Ok(list) => Ok(Ok(list)),
        Err(Limit) => system_limit(alloc),
    }
}

// A copy of the term that was found; wrong arguments if none was.
pub(crate) fn found(alloc: Global, found: Option<&Term>) -> Result<Result<Term, Raise>, AllocError>
    ensures { IfOk result (λ r. r ≡ answers.given (option_map (λ t. t.now) found.entry) Ok) }
{
    match found {
        Some(term) => Ok(Ok(term.copy(alloc)?)),
        None => badarg(alloc),
    }
}

// The atom of a truth value.
pub(crate) fn truth(alloc: Global, holds: bool) -> Result<Result<Term, Raise>, AllocError>
    ensures { IfOk result (λ r. r ≡ truths.truth_answer holds) }
{
    let name = if holds { "true" } else { "false" };
    Ok(Ok(Term::atom(Name::from_str(alloc, name)?)))
}
