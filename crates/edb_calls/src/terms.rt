//! Tuples, lists and operators.

ghost use Rattle.std.specs.Prelude.{◌≡◌, ◌++◌, IfOk, map};
ghost use Rattle.edb_lang.specs.Limits.{limited};
ghost use Rattle.edb_lang.specs.Terms as terms;
ghost use Rattle.edb_moves.specs.Built as built;
ghost use Rattle.edb_pure.specs.Answers.{limited_answer};
ghost use Rattle.edb_pure.specs.Operators as operators;
ghost use Rattle.edb_pure.specs.Table.{of_one, of_two};

use crate::raises::error;
use edb_lang::{BinaryOp, Limit, Term, UnaryOp};
use edb_ops::{operate, operate_one};
use edb_pure::Raise;
use std::alloc::{AllocError, Global};

/// A term within the limits; an error otherwise. `AllocError` only if out of memory, here and in all that follows.
fn within(alloc: Global, made: Result<Term, Limit>) -> Result<Result<Term, Raise>, AllocError>
    ensures { (t : terms.Datum) → made ≡ limited t → IfOk result (λ answer. answer ≡ limited_answer t) }
{
    match made {
        Ok(term) => Ok(Ok(term)),
        Err(_) => Ok(Err(error(alloc, "system_limit")?)),
    }
}

/// Equal terms.
pub(crate) fn copies(alloc: Global, terms: &[&Term]) -> Result<Vec<Term>, AllocError>
    ensures { IfOk result (λ copies. copies.items ≡ map (λ t. t.now) terms.now) }
{
    let mut copies = Vec::with_capacity(alloc, terms.len())?;
    for term in terms {
        copies.push(term.copy(alloc)?)?;
    }
    Ok(copies)
}

/// `{A, B}`
pub(crate) fn tuple_of(alloc: Global, operands: &[&Term]) -> Result<Result<Term, Raise>, AllocError>
    ensures { IfOk result (λ answer. answer ≡ built.tuple_built (map (λ t. t.now) operands.now)) }
{
    let items = copies(alloc, operands)?;
    within(alloc, Term::tuple(alloc, items)?)
}

/// `[A, B]`
pub(crate) fn list_of(alloc: Global, operands: &[&Term]) -> Result<Result<Term, Raise>, AllocError>
    ensures { IfOk result (λ answer. answer ≡ built.list_built (map (λ t. t.now) operands.now)) }
{
    let items = copies(alloc, operands)?;
    within(alloc, Term::list(alloc, items, Term::nil())?)
}

/// `[A, B | T]`
pub(crate) fn list_with_tail_of(
    alloc: Global,
    operands: &[&Term],
) -> Result<Result<Term, Raise>, AllocError>
    ensures { IfOk result (λ answer. answer ≡ built.list_with_tail_built (map (λ t. t.now) operands.now)) }
{
    match operands.split_last() {
        Some((tail, front)) => {
            let items = copies(alloc, front)?;
            let tail = tail.copy(alloc)?;
            within(alloc, Term::list(alloc, items, tail)?)
        }
        None => Ok(Ok(Term::nil())),
    }
}

/// An operator before its operand.
pub(crate) fn unary_of(
    alloc: Global,
    op: UnaryOp,
    operands: &[&Term],
    me: u32,
) -> Result<Result<Term, Raise>, AllocError>
    ensures { IfOk result (λ answer. answer ≡ of_one (operators.operate_one op) me (map (λ t. t.now) operands.now)) }
{
    match operands {
        [operand] => operate_one(alloc, op, operand),
        _ => Ok(Err(error(alloc, "badarg")?)),
    }
}

/// An operator between its operands.
pub(crate) fn binary_of(
    alloc: Global,
    op: BinaryOp,
    operands: &[&Term],
    me: u32,
) -> Result<Result<Term, Raise>, AllocError>
    ensures { IfOk result (λ answer. answer ≡ of_two (operators.operate op) me (map (λ t. t.now) operands.now)) }
{
    match operands {
        [left, right] => operate(alloc, op, left, right),
        _ => Ok(Err(error(alloc, "badarg")?)),
    }
}
