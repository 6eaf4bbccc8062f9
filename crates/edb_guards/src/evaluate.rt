//! The value of a guard's test.

ghost use Rattle.std.specs.Prelude.{◌≡◌, IfOk, map};
ghost use Rattle.std.specs.Option.{option_map};
ghost use Rattle.edb_syntax.specs.Syntax.{exps_of};
ghost use Rattle.edb_moves.specs.Guards as spec;
ghost use Rattle.edb_guards.specs.Views.{scope_pairs, value_of};

use crate::answers::{answer, string_value};
use crate::scope::Scope;
use crate::truths::{truth_term, truth_value};
use crate::value::{Value, lent, made, terms};
use edb_lang::Term;
use edb_syntax::{Expr, ExprNode};
use std::alloc::{AllocError, Global};

/// The value of a test; none if it raises, or is none that may stand in a guard.
#[cycle(evaluating)]
#[tactic(auto, using(edb_syntax::proofs::Lists::lists))]
pub(crate) fn test_value<'a>(
    alloc: Global,
    test: &Expr,
    scope: &'a Scope,
    me: u32,
) -> Result<Option<Value<'a>>, AllocError>
    ensures { IfOk result (λ value. option_map value_of value ≡ spec.test_value me (scope_pairs scope.now) test.now) }
{
    match &test.node {
        ExprNode::Int(number) => Ok(Some(Value::Made(Term::int(*number)))),
        ExprNode::Atom(name) => Ok(Some(Value::Made(Term::atom(name.copy(alloc)?)))),
        ExprNode::Str(points) => Ok(made(string_value(alloc, points)?)),
        ExprNode::Var(name) => Ok(lent(scope.get(name))),
        ExprNode::Apply(operation, operands) => {
            let Some(values) = test_values(alloc, operands, scope, me)? else {
                return Ok(None);
            };
            let terms = terms(alloc, &values)?;
            Ok(made(answer(alloc, operation, &terms, me)?))
        }
        ExprNode::AndAlso(left, right) => {
            match truth_value(&test_value(alloc, left, scope, me)?) {
                Some(true) => test_value(alloc, right, scope, me),
                Some(false) => Ok(made(truth_term(alloc, false)?)),
                None => Ok(None),
            }
        }
        ExprNode::OrElse(left, right) => {
            match truth_value(&test_value(alloc, left, scope, me)?) {
                Some(true) => Ok(made(truth_term(alloc, true)?)),
                Some(false) => test_value(alloc, right, scope, me),
                None => Ok(None),
            }
        }
        _ => Ok(None),
    }
}

/// The values of all; none if one has none.
#[cycle(evaluating)]
#[tactic(auto, using(edb_syntax::proofs::Lists::lists))]
fn test_values<'a>(
    alloc: Global,
    tests: &[Expr],
    scope: &'a Scope,
    me: u32,
) -> Result<Option<Vec<Value<'a>>>, AllocError>
    ensures { IfOk result (λ found. option_map (λ values. map value_of values.items) found ≡ spec.test_values me (scope_pairs scope.now) (exps_of tests.now)) }
{
    let mut values = Vec::new(alloc);
    for test in tests {
        let Some(value) = test_value(alloc, test, scope, me)? else {
            return Ok(None);
        };
        values.push(value)?;
    }
    Ok(Some(values))
}
