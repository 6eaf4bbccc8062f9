//! Walks over an expression: its variables, its calls, its depth.

ghost use Rattle.std.specs.Prelude.{◌≡◌, ◌&&◌, ◌==◌, nat_le, length};
ghost use Rattle.edb_lang.specs.Syntax.{exps_of};
ghost use Rattle.edb_small.specs.Conditions as conditions;

use crate::scope::Scope;
use edb_lang::{Expr, ExprNode, Function, Name};

/// Whether each variable that an expression uses is bound.
#[cycle(variables)]
pub fn is_closed(scope: &Scope, expr: &Expr) -> bool
    ensures { result ≡ conditions.is_closed scope.now expr.now }
{
    match &expr.node {
        ExprNode::Int(_) => true,
        ExprNode::Atom(_) => true,
        ExprNode::Var(name) => scope.has(name),
        ExprNode::Match { value, .. } => is_closed(scope, value),
        ExprNode::Binary { left, right, .. } => is_closed(scope, left) && is_closed(scope, right),
        ExprNode::Call { args, .. } => are_closed(scope, args),
        ExprNode::Remote { module, name, args } => is_closed(scope, module)
            && is_closed(scope, name)
            && are_closed(scope, args),
    }
}

#[cycle(variables)]
fn are_closed(scope: &Scope, exprs: &[Expr]) -> bool
    ensures { result ≡ conditions.are_closed scope.now (exps_of exprs.now) }
{
    for expr in exprs {
        if !is_closed(scope, expr) {
            return false;
        }
    }
    true
}

/// Whether the functions have one of this name and arity.
pub fn has_function(functions: &[Function], name: &Name, arity: usize) -> bool
    ensures { result ≡ conditions.has_function functions.now name.now arity }
{
    for function in functions {
        if name.same(&function.name) && function.parameters.len() == arity {
            return true;
        }
    }
    false
}

/// Whether each function that an expression calls is there.
#[cycle(calls)]
#[tactic(auto, using(edb_lang::proofs::Lists::lists, crate::proofs::Counts::counts))]
pub fn calls_known(functions: &[Function], expr: &Expr) -> bool
    ensures { result ≡ conditions.calls_known functions.now expr.now }
{
    match &expr.node {
        ExprNode::Int(_) => true,
        ExprNode::Atom(_) => true,
        ExprNode::Var(_) => true,
        ExprNode::Match { value, .. } => calls_known(functions, value),
        ExprNode::Binary { left, right, .. } => calls_known(functions, left)
            && calls_known(functions, right),
        ExprNode::Call { name, args } => has_function(functions, name, args.len())
            && all_calls_known(functions, args),
        ExprNode::Remote { module, name, args } => {
            calls_known(functions, module)
                && calls_known(functions, name)
                && all_calls_known(functions, args)
        }
    }
}

/// Whether each function that these expressions call is there.
#[cycle(calls)]
pub fn all_calls_known(functions: &[Function], exprs: &[Expr]) -> bool
    ensures { result ≡ conditions.all_calls_known functions.now (exps_of exprs.now) }
{
    for expr in exprs {
        if !calls_known(functions, expr) {
            return false;
        }
    }
    true
}

/// Whether an expression is at most so deep.
#[cycle(depth)]
#[tactic(auto, using(edb_lang::proofs::Lists::lists, crate::proofs::Counts::counts))]
pub fn is_within(expr: &Expr, levels: u32) -> bool
    ensures { result ≡ nat_le (conditions.depth expr.now) levels }
{
    if levels == 0 {
        return false;
    }
    let inside = levels - 1;
    match &expr.node {
        ExprNode::Int(_) => true,
        ExprNode::Atom(_) => true,
        ExprNode::Var(_) => true,
        ExprNode::Match { value, .. } => inside > 0 && is_within(value, inside),
        ExprNode::Binary { left, right, .. } => is_within(left, inside) && is_within(right, inside),
        ExprNode::Call { args, .. } => inside > 0 && are_within(args, inside),
        ExprNode::Remote { module, name, args } => is_within(module, inside)
            && is_within(name, inside)
            && are_within(args, inside),
    }
}

/// Whether each of these expressions is at most so deep.
#[cycle(depth)]
pub fn are_within(exprs: &[Expr], levels: u32) -> bool
    ensures { result ≡ nat_le (conditions.all_depth (exps_of exprs.now)) levels }
{
    for expr in exprs {
        if !is_within(expr, levels) {
            return false;
        }
    }
    true
}
