//! What many built-ins answer: an exception, a truth value, the pid of the process that asks.

ghost use Rattle.std.specs.Prelude.{◌≡◌, IfOk, Ok};
ghost use Rattle.edb_lang.specs.Terms as spec;
ghost use Rattle.edb_lang.specs.declared.small.Class.TheVariants.{Error, Exit, Throw};
ghost use Rattle.edb_pure.specs.Answers as answer;
ghost use Rattle.edb_pure.specs.Truths.{truth_answer};
ghost use Rattle.edb_pure.specs.Tuples as tuples;

use edb_lang::{Class, Name, Term};
use edb_pure::Raise;
use std::alloc::{AllocError, Global};

/// The error `badarg`. `AllocError` only if out of memory.
pub fn badarg(alloc: Global) -> Result<Result<Term, Raise>, AllocError>
    ensures { IfOk result (λ r. r ≡ answer.badarg) }
{
    let name = Name::from_str(alloc, "badarg")?;
    Ok(raised(Class::Error, Term::atom(name)))
}

/// The error `system_limit`. `AllocError` only if out of memory.
pub fn system_limit(alloc: Global) -> Result<Result<Term, Raise>, AllocError>
    ensures { IfOk result (λ r. r ≡ answer.system_limit) }
{
    let name = Name::from_str(alloc, "system_limit")?;
    Ok(raised(Class::Error, Term::atom(name)))
}

/// The atom `true` or `false`. `AllocError` only if out of memory.
pub fn truth(alloc: Global, value: bool) -> Result<Result<Term, Raise>, AllocError>
    ensures { IfOk result (λ r. r ≡ truth_answer value) }
{
    let text = if value { "true" } else { "false" };
    let name = Name::from_str(alloc, text)?;
    Ok(Ok(Term::atom(name)))
}

/// `error/1`: an exception of the class `error` with this reason. `AllocError` only if out of memory.
pub fn error(alloc: Global, reason: &Term) -> Result<Result<Term, Raise>, AllocError>
    ensures { IfOk result (λ r. r ≡ answer.raise Error reason.now) }
{
    Ok(raised(Class::Error, reason.copy(alloc)?))
}

/// `exit/1`: an exception of the class `exit` with this reason. `AllocError` only if out of memory.
pub fn exit(alloc: Global, reason: &Term) -> Result<Result<Term, Raise>, AllocError>
    ensures { IfOk result (λ r. r ≡ answer.raise Exit reason.now) }
{
    Ok(raised(Class::Exit, reason.copy(alloc)?))
}

/// `throw/1`: an exception of the class `throw` with this reason. `AllocError` only if out of memory.
pub fn throw(alloc: Global, reason: &Term) -> Result<Result<Term, Raise>, AllocError>
    ensures { IfOk result (λ r. r ≡ answer.raise Throw reason.now) }
{
    Ok(raised(Class::Throw, reason.copy(alloc)?))
}

/// `self/0`: the pid of the process with this number, which asks.
pub fn own_pid(me: u32) -> Result<Term, Raise>
    ensures { result ≡ Ok (spec.pid me) }
{
    Ok(Term::pid(me))
}

// An exception of this class with this reason.
fn raised(class: Class, reason: Term) -> Result<Term, Raise>
    ensures { result ≡ answer.raise class reason }
{
    Err(Raise { class, reason })
}

// The tuple of these elements. The error `system_limit` if it would pass a limit.
pub(crate) fn tuple_answer(
    alloc: Global,
    items: Vec<Term>,
) -> Result<Result<Term, Raise>, AllocError>
    ensures { IfOk result (λ r. r ≡ tuples.tuple_answer items.items) }
{
    match Term::tuple(alloc, items)? {
        Ok(tuple) => Ok(Ok(tuple)),
        Err(_) => system_limit(alloc),
    }
}

// The list of these elements. The error `system_limit` if it would pass a limit.
pub(crate) fn list_answer(
    alloc: Global,
    items: Vec<Term>,
) -> Result<Result<Term, Raise>, AllocError>
    ensures { IfOk result (λ r. r ≡ answer.list_answer items.items) }
{
    match Term::list(alloc, items, Term::nil())? {
        Ok(list) => Ok(Ok(list)),
        Err(_) => system_limit(alloc),
    }
}
