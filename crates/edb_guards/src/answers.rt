//! What operations in guards give to the values of their operands.

ghost use Rattle.std.specs.Prelude.{◌≡◌, IfOk, map, pos};
ghost use Rattle.edb_lang.specs.Limits.{limited};
ghost use Rattle.edb_lang.specs.ListTerms.{string_of};
ghost use Rattle.edb_lang.specs.Terms as terms;
ghost use Rattle.edb_moves.specs.Built as built;
ghost use Rattle.edb_moves.specs.Guards.{value_in, guard_answer};
ghost use Rattle.edb_pure.specs.Answers.{limited_answer};
ghost use Rattle.edb_pure.specs.Operators as operators;
ghost use Rattle.edb_pure.specs.Table.{of_one, of_two};
ghost use Rattle.edb_syntax.specs.declared.operation.Operation.TheVariants.{RemoteCall};

use crate::calls::{call_value, value_of_answer};
use edb_lang::{BinaryOp, Limit, Node, Term, UnaryOp};
use edb_ops::{operate, operate_one};
use edb_syntax::Operation;
use std::alloc::{AllocError, Global};

/// What an operation gives; none if it raises.
pub(crate) fn answer(
    alloc: Global,
    operation: &Operation,
    operands: &[&Term],
    me: u32,
) -> Result<Option<Term>, AllocError>
    ensures { IfOk result (λ value. value ≡ value_in (guard_answer me operation.now (map (λ t. t.now) operands.now))) }
{
    match operation {
        Operation::Tuple => tuple_value(alloc, operands),
        Operation::List => list_value(alloc, operands),
        Operation::ListWithTail => list_with_tail_value(alloc, operands),
        Operation::Unary(op) => unary_value(alloc, *op, operands, me),
        Operation::Binary(op) => binary_value(alloc, *op, operands, me),
        Operation::Send => Ok(None),
        Operation::LocalCall(name) => call_value(alloc, "erlang", name.as_str(), operands, me),
        Operation::RemoteCall => remote_value(alloc, operands, me),
        Operation::FunCall => Ok(None),
    }
}

/// A term within the limits; none otherwise.
fn within(made: Result<Term, Limit>) -> Option<Term>
    ensures { (t : terms.Datum) → made ≡ limited t → result ≡ value_in (limited_answer t) }
{
    match made {
        Ok(term) => Some(term),
        Err(_) => None,
    }
}

/// Equal terms.
fn copies(alloc: Global, operands: &[&Term]) -> Result<Vec<Term>, AllocError>
    ensures { IfOk result (λ copies. copies.items ≡ map (λ t. t.now) operands.now) }
{
    let mut copies = Vec::new(alloc);
    for operand in operands {
        copies.push(operand.copy(alloc)?)?;
    }
    Ok(copies)
}

/// `{A, B}`
fn tuple_value(alloc: Global, operands: &[&Term]) -> Result<Option<Term>, AllocError>
    ensures { IfOk result (λ value. value ≡ value_in (built.tuple_built (map (λ t. t.now) operands.now))) }
{
    let items = copies(alloc, operands)?;
    Ok(within(Term::tuple(alloc, items)?))
}

/// `[A, B]`
fn list_value(alloc: Global, operands: &[&Term]) -> Result<Option<Term>, AllocError>
    ensures { IfOk result (λ value. value ≡ value_in (built.list_built (map (λ t. t.now) operands.now))) }
{
    let items = copies(alloc, operands)?;
    Ok(within(Term::list(alloc, items, Term::nil())?))
}

/// `[A, B | T]`
fn list_with_tail_value(alloc: Global, operands: &[&Term]) -> Result<Option<Term>, AllocError>
    ensures { IfOk result (λ value. value ≡ value_in (built.list_with_tail_built (map (λ t. t.now) operands.now))) }
{
    match operands.split_last() {
        Some((tail, front)) => {
            let items = copies(alloc, front)?;
            let tail = tail.copy(alloc)?;
            Ok(within(Term::list(alloc, items, tail)?))
        }
        None => Ok(Some(Term::nil())),
    }
}

/// A string: the list of its code points.
#[tactic(auto, using(crate::proofs::Lists::list_of_points))]
pub(crate) fn string_value(alloc: Global, points: &[u32]) -> Result<Option<Term>, AllocError>
    ensures { IfOk result (λ value. value ≡ value_in (limited_answer (string_of points.now))) }
{
    let items = point_terms(alloc, points)?;
    Ok(within(Term::list(alloc, items, Term::nil())?))
}

/// Code points, as integers.
fn point_terms(alloc: Global, points: &[u32]) -> Result<Vec<Term>, AllocError>
    ensures { IfOk result (λ items. items.items ≡ map (λ c. terms.int (pos c)) points.now) }
{
    let mut items = Vec::new(alloc);
    for point in points {
        items.push(Term::int(i128::from(*point)))?;
    }
    Ok(items)
}

/// An operator before its operand.
fn unary_value(
    alloc: Global,
    op: UnaryOp,
    operands: &[&Term],
    me: u32,
) -> Result<Option<Term>, AllocError>
    ensures { IfOk result (λ value. value ≡ value_in (of_one (operators.operate_one op) me (map (λ t. t.now) operands.now))) }
{
    match operands {
        [operand] => Ok(value_of_answer(operate_one(alloc, op, operand)?)),
        _ => Ok(None),
    }
}

/// An operator between its operands.
fn binary_value(
    alloc: Global,
    op: BinaryOp,
    operands: &[&Term],
    me: u32,
) -> Result<Option<Term>, AllocError>
    ensures { IfOk result (λ value. value ≡ value_in (of_two (operators.operate op) me (map (λ t. t.now) operands.now))) }
{
    match operands {
        [left, right] => Ok(value_of_answer(operate(alloc, op, left, right)?)),
        _ => Ok(None),
    }
}

/// A call with its module: the first two operands name the built-in.
fn remote_value(alloc: Global, operands: &[&Term], me: u32) -> Result<Option<Term>, AllocError>
    ensures { IfOk result (λ value. value ≡ value_in (guard_answer me RemoteCall (map (λ t. t.now) operands.now))) }
{
    let [home, name, args @ ..] = operands else {
        return Ok(None);
    };
    let Node::Atom(home) = &home.node else {
        return Ok(None);
    };
    let Node::Atom(name) = &name.node else {
        return Ok(None);
    };
    call_value(alloc, home.as_str(), name.as_str(), args, me)
}
