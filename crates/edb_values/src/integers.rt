//! The absolute value, and the greater and the lesser of two terms.

ghost use Rattle.std.specs.Prelude.{◌≡◌, IfOk};
ghost use Rattle.edb_pure.specs.Integers.{absolute};
ghost use Rattle.edb_pure.specs.Lists.{max_of, min_of};

use crate::raises::{badarg, system_limit};
use edb_lang::{Node, Term};
use edb_pure::Raise;
use std::alloc::{AllocError, Global};

/// `abs/1`: how far an integer is from 0. The error `badarg` if the term is no integer; `system_limit` for the lowest
/// integer, -2^127; `AllocError` only if out of memory.
pub fn abs(alloc: Global, value: &Term) -> Result<Result<Term, Raise>, AllocError>
    ensures { IfOk result (λ r. r ≡ absolute value.now) }
{
    match &value.node {
        Node::Int(number) => match number.checked_abs() {
            Some(distance) => Ok(Ok(Term::int(distance))),
            None => system_limit(alloc),
        },
        _ => badarg(alloc),
    }
}

/// `max/2`: the greater of two terms, in the order of terms. `AllocError` only if out of memory.
pub fn max(alloc: Global, left: &Term, right: &Term) -> Result<Result<Term, Raise>, AllocError>
    ensures { IfOk result (λ r. r ≡ max_of left.now right.now) }
{
    let greater = if right.cmp(left).is_lt() { left } else { right };
    Ok(Ok(greater.copy(alloc)?))
}

/// `min/2`: the lesser of two terms, in the order of terms. `AllocError` only if out of memory.
pub fn min(alloc: Global, left: &Term, right: &Term) -> Result<Result<Term, Raise>, AllocError>
    ensures { IfOk result (λ r. r ≡ min_of left.now right.now) }
{
    let lesser = if right.cmp(left).is_lt() { right } else { left };
    Ok(Ok(lesser.copy(alloc)?))
}
