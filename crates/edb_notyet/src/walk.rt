//! The walk over a module.

ghost use Rattle.std.specs.Prelude.{◌≡◌};
ghost use Rattle.edb_syntax.specs.Syntax.{exps_of, clauses_of, catches_of, qualifiers_of};
ghost use Rattle.edb_syntax.specs.Views.{after_of};
ghost use Rattle.edb_notyet.specs.Beyond as beyond;

use crate::calls::{named_call_is_beyond, operation_is_beyond};
use edb_syntax::{
    CatchClause, Clause, Expr, ExprNode, Function, Qualifier, QualifierNode, Sequence,
};
use edb_units::Unit;

/// Whether a module writes anything that a machine doesn't run yet. This takes no memory.
///
/// Beyond the machine are `receive`, `!`, and a call, or a fun with its module, that names a built-in that acts on what
/// processes share, but for `erlang:display/1`, `io:format/1` and `io:format/2`. A function of the module goes before a
/// built-in of its name and arity. A call whose module or name isn't written as an atom isn't looked at, nor is `apply`.
///
/// Patterns hold no expression. Guards aren't looked at: what may not stand in a guard has no value there, and what may
/// is no such form.
pub fn is_beyond(unit: &Unit<'_>) -> bool
    ensures { result ≡ beyond.is_beyond unit.now }
{
    some_function_is_beyond(unit, &unit.module().functions)
}

// Whether one of these functions is beyond the machine; likewise below.
fn some_function_is_beyond(unit: &Unit<'_>, functions: &[Function]) -> bool
    ensures { result ≡ beyond.some_function_is_beyond unit.now functions.now }
{
    for function in functions {
        if some_clause_is_beyond(unit, &function.clauses) {
            return true;
        }
    }
    false
}

#[cycle(beyond)]
fn expression_is_beyond(unit: &Unit<'_>, expr: &Expr) -> bool
    ensures { result ≡ beyond.expression_is_beyond unit.now expr.now }
{
    match &expr.node {
        ExprNode::Int(_) => false,
        ExprNode::Atom(_) => false,
        ExprNode::Str(_) => false,
        ExprNode::Float => false,
        ExprNode::Var(_) => false,
        ExprNode::Apply(operation, operands) => operation_is_beyond(unit, operation, operands)
            || some_expression_is_beyond(unit, operands),
        ExprNode::AndAlso(left, right) => expression_is_beyond(unit, left)
            || expression_is_beyond(unit, right),
        ExprNode::OrElse(left, right) => expression_is_beyond(unit, left)
            || expression_is_beyond(unit, right),
        ExprNode::Match(_, value) => expression_is_beyond(unit, value),
        ExprNode::Catch(body) => expression_is_beyond(unit, body),
        ExprNode::Begin(body) => sequence_is_beyond(unit, body),
        ExprNode::Case(value, clauses) => expression_is_beyond(unit, value)
            || some_clause_is_beyond(unit, clauses),
        ExprNode::If(clauses) => some_clause_is_beyond(unit, clauses),
        ExprNode::Receive(_) => true,
        ExprNode::ReceiveAfter(..) => true,
        ExprNode::Try(body, of, catches, after) => sequence_is_beyond(unit, body)
            || some_clause_is_beyond(unit, of)
            || some_catch_is_beyond(unit, catches)
            || after_is_beyond(unit, after),
        ExprNode::Fun { clauses, .. } => some_clause_is_beyond(unit, clauses),
        ExprNode::FunLocal { .. } => false,
        ExprNode::FunRemote { home, name, arity } => {
            named_call_is_beyond(home, name, *arity as usize)
        }
        ExprNode::Comprehension(element, qualifiers) => expression_is_beyond(unit, element)
            || some_qualifier_is_beyond(unit, qualifiers),
    }
}

#[cycle(beyond)]
fn some_expression_is_beyond(unit: &Unit<'_>, exprs: &[Expr]) -> bool
    ensures { result ≡ beyond.some_expression_is_beyond unit.now (exps_of exprs.now) }
{
    for expr in exprs {
        if expression_is_beyond(unit, expr) {
            return true;
        }
    }
    false
}

#[cycle(beyond)]
fn sequence_is_beyond(unit: &Unit<'_>, sequence: &Sequence) -> bool
    ensures { result ≡ beyond.sequence_is_beyond unit.now sequence.now }
{
    expression_is_beyond(unit, &sequence.first) || some_expression_is_beyond(unit, &sequence.rest)
}

#[cycle(beyond)]
fn some_clause_is_beyond(unit: &Unit<'_>, clauses: &[Clause]) -> bool
    ensures { result ≡ beyond.some_clause_is_beyond unit.now (clauses_of clauses.now) }
{
    for clause in clauses {
        if sequence_is_beyond(unit, &clause.body) {
            return true;
        }
    }
    false
}

#[cycle(beyond)]
fn some_catch_is_beyond(unit: &Unit<'_>, catches: &[CatchClause]) -> bool
    ensures { result ≡ beyond.some_catch_is_beyond unit.now (catches_of catches.now) }
{
    for catch in catches {
        if sequence_is_beyond(unit, &catch.body) {
            return true;
        }
    }
    false
}

#[cycle(beyond)]
fn after_is_beyond(unit: &Unit<'_>, after: &Option<Sequence>) -> bool
    ensures { result ≡ beyond.after_is_beyond unit.now (after_of after.now) }
{
    match after {
        Some(sequence) => sequence_is_beyond(unit, sequence),
        None => false,
    }
}

#[cycle(beyond)]
fn some_qualifier_is_beyond(unit: &Unit<'_>, qualifiers: &[Qualifier]) -> bool
    ensures { result ≡ beyond.some_qualifier_is_beyond unit.now (qualifiers_of qualifiers.now) }
{
    for qualifier in qualifiers {
        if qualifier_is_beyond(unit, qualifier) {
            return true;
        }
    }
    false
}

#[cycle(beyond)]
fn qualifier_is_beyond(unit: &Unit<'_>, qualifier: &Qualifier) -> bool
    ensures { result ≡ beyond.qualifier_is_beyond unit.now qualifier.now }
{
    match &qualifier.node {
        QualifierNode::Generator(_, value) => expression_is_beyond(unit, value),
        QualifierNode::Filter(test) => expression_is_beyond(unit, test),
    }
}
