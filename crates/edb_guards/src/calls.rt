//! Calls in guards: of built-ins alone.

ghost use Rattle.std.specs.Prelude.{◌≡◌, IfOk, length, map};
ghost use Rattle.edb_moves.specs.Guards.{value_in};
ghost use Rattle.edb_pure.specs.Table.{pure};

use edb_lang::Term;
use edb_ops::{call_refs, is_pure};
use edb_pure::Raise;
use edb_table::find_built_in;
use std::alloc::{AllocError, Global};

/// The value of an answer that is no exception.
pub(crate) fn value_of_answer(answer: Result<Term, Raise>) -> Option<Term>
    ensures { result ≡ value_in answer }
{
    match answer {
        Ok(value) => Some(value),
        Err(_) => None,
    }
}

/// What the built-in of this module and name gives to these arguments; none if it raises, or if there is none that only
/// computes.
pub(crate) fn call_value(
    alloc: Global,
    home: &str,
    name: &str,
    args: &[&Term],
    me: u32,
) -> Result<Option<Term>, AllocError>
    ensures { IfOk result (λ value. value ≡ value_in (pure (home.now, (name.now, length args.now)) me (map (λ t. t.now) args.now))) }
{
    let Ok(arity) = u8::try_from(args.len()) else {
        return Ok(None);
    };
    let Some(index) = find_built_in(home, name, arity) else {
        return Ok(None);
    };
    if !is_pure(index) {
        return Ok(None);
    }
    Ok(value_of_answer(call_refs(alloc, index, args, me)?))
}
