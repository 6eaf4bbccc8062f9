//! The reasons of errors, and those with which processes end.

ghost use Rattle.std.specs.Prelude.{◌≡◌, IfOk};
ghost use Rattle.edb_lang.specs.Terms.{framed, tuple, more, none, atom};
ghost use Rattle.edb_lang.specs.Limits.{limited};
ghost use Rattle.edb_model.specs.Acts as acts;
ghost use Rattle.edb_model.specs.Move.{badmatch, unbound};

use edb_lang::{Limit, Name, Term};
use std::alloc::{AllocError, Global};

/// An atom as the reason of an error; refused only for want of memory.
pub fn failure(alloc: Global, text: &str) -> Result<Term, AllocError>
    ensures { IfOk result (λ reason. reason ≡ atom text.now) }
{
    Ok(Term::atom(Name::from_str(alloc, text)?))
}

// The tuple of two terms.
fn pair(alloc: Global, first: Term, second: Term) -> Result<Result<Term, Limit>, AllocError>
    ensures { IfOk result (λ made. made ≡ limited (tuple (more first (more second none)))) }
{
    let mut items = Vec::new(alloc);
    items.push(first)?;
    items.push(second)?;
    Term::tuple(alloc, items)
}

/// The reason of a match that fails; refused only for want of memory.
pub fn mismatch(alloc: Global, value: &Term) -> Result<Term, AllocError>
    ensures { IfOk result (λ reason. reason ≡ framed badmatch value.now) }
{
    match pair(alloc, failure(alloc, "badmatch")?, value.copy(alloc)?)? {
        Ok(reason) => Ok(reason),
        Err(_) => {
            let limit = failure(alloc, "system_limit")?;
            match pair(alloc, failure(alloc, "badmatch")?, limit)? {
                Ok(reason) => Ok(reason),
                Err(_) => unreachable!(),
            }
        }
    }
}

/// The reason of a look at a variable that has no value; refused only if out of memory.
pub fn no_value(alloc: Global, name: &Name) -> Result<Term, AllocError>
    ensures { IfOk result (λ reason. reason ≡ framed unbound (atom name.now)) }
{
    match pair(
        alloc,
        failure(alloc, "unbound")?,
        Term::atom(name.copy(alloc)?),
    )? {
        Ok(reason) => Ok(reason),
        Err(_) => unreachable!(),
    }
}

/// The reason with which a process ends at an error; refused only for want of memory.
pub fn error_exit(alloc: Global, reason: &Term) -> Result<Term, AllocError>
    ensures { IfOk result (λ exit. exit ≡ framed acts.error_exit reason.now) }
{
    match pair(alloc, reason.copy(alloc)?, Term::nil())? {
        Ok(exit) => Ok(exit),
        Err(_) => {
            let limit = failure(alloc, "system_limit")?;
            match pair(alloc, limit, Term::nil())? {
                Ok(exit) => Ok(exit),
                Err(_) => unreachable!(),
            }
        }
    }
}

/// The reason with which a process ends at a throw; refused only for want of memory.
pub fn throw_exit(alloc: Global, value: &Term) -> Result<Term, AllocError>
    ensures { IfOk result (λ exit. exit ≡ framed acts.throw_exit value.now) }
{
    match uncaught(alloc, value.copy(alloc)?)? {
        Ok(exit) => Ok(exit),
        Err(_) => {
            let limit = failure(alloc, "system_limit")?;
            match uncaught(alloc, limit)? {
                Ok(exit) => Ok(exit),
                Err(_) => unreachable!(),
            }
        }
    }
}

// The reason round a value that was thrown, within the limits.
fn uncaught(alloc: Global, value: Term) -> Result<Result<Term, Limit>, AllocError>
    ensures { IfOk result (λ made. made ≡ limited (acts.throw_exit value)) }
{
    match pair(alloc, failure(alloc, "nocatch")?, value)? {
        Ok(inner) => pair(alloc, inner, Term::nil()),
        Err(refused) => Ok(Err(refused)),
    }
}
