//! The exceptions that operators raise, each as an answer.

ghost use Rattle.std.specs.Prelude.{◌≡◌, IfOk};
ghost use Rattle.edb_lang.specs.declared.small.Class.{Class};
ghost use Rattle.edb_lang.specs.Terms as spec;
ghost use Rattle.edb_pure.specs.Answers as answer;

use edb_lang::{Class, Name, Term};
use edb_pure::Raise;
use std::alloc::{AllocError, Global};

// A value, or the exception that is raised.
pub(crate) type Answer = Result<Term, Raise>;

// An error with the atom of this name as its reason.
fn error(alloc: Global, name: &str) -> Result<Answer, AllocError>
    ensures { IfOk result (λ r. r ≡ answer.raise Class.Error (spec.atom name.now)) }
{
    let name = Name::from_str(alloc, name)?;
    Ok(Err(Raise {
        class: Class::Error,
        reason: Term::atom(name),
    }))
}

// An operand of arithmetic is no integer, or a divisor is 0.
pub(crate) fn badarith(alloc: Global) -> Result<Answer, AllocError>
    ensures { IfOk result (λ r. r ≡ answer.badarith) }
{
    error(alloc, "badarith")
}

// An operand is not of the kind that is wanted.
pub(crate) fn badarg(alloc: Global) -> Result<Answer, AllocError>
    ensures { IfOk result (λ r. r ≡ answer.badarg) }
{
    error(alloc, "badarg")
}

// The result would pass a limit.
pub(crate) fn system_limit(alloc: Global) -> Result<Answer, AllocError>
    ensures { IfOk result (λ r. r ≡ answer.system_limit) }
{
    error(alloc, "system_limit")
}
