//! The lines at which a process may be stopped.
#![tactic(auto, using(crate::proofs::Walking::walking, edb_syntax::proofs::Lists::lists))]

ghost use Rattle.std.specs.Prelude.{◌≡◌, ◌↔◌, ◌++◌, ◌∷◌, ℕ, IfOk, OnOk};
ghost use Rattle.std.specs.List.{Contains};
ghost use Rattle.std.specs.List.Sorted.{IsStrictlyIncreasing};
ghost use Rattle.edb_syntax.specs.Syntax.{exps_of, clauses_of, catches_of, qualifiers_of, line_of};
ghost use Rattle.edb_syntax.specs.Views.{after_of};
ghost use Rattle.edb_check.specs.Stops as stops;
ghost use Rattle.edb_check.specs.Stops.{module_stops, functions_stops};

use edb_syntax::{
    CatchClause, Clause, Expr, ExprNode, Function, Module, Qualifier, QualifierNode, Sequence,
};
use std::alloc::{AllocError, Global};

// Puts the lines of the places within an expression behind others; likewise below.
#[cycle(stops)]
fn expr_stops(lines: &mut Vec<u32>, expr: &Expr) -> Result<(), AllocError>
    ensures { OnOk result (lines.new.items ≡ lines.old.items ++ stops.stops expr.now) }
{
    match &expr.node {
        ExprNode::Int(_) => Ok(()),
        ExprNode::Atom(_) => Ok(()),
        ExprNode::Str(_) => Ok(()),
        ExprNode::Float => Ok(()),
        ExprNode::Var(_) => Ok(()),
        ExprNode::Apply(_, operands) => operands_stops(lines, operands),
        ExprNode::AndAlso(left, right) => {
            expr_stops(lines, left)?;
            expr_stops(lines, right)
        }
        ExprNode::OrElse(left, right) => {
            expr_stops(lines, left)?;
            expr_stops(lines, right)
        }
        ExprNode::Match(_, value) => expr_stops(lines, value),
        ExprNode::Catch(value) => expr_stops(lines, value),
        ExprNode::Begin(body) => sequence_stops(lines, body),
        ExprNode::Case(value, clauses) => {
            expr_stops(lines, value)?;
            clauses_stops(lines, clauses)
        }
        ExprNode::If(clauses) => clauses_stops(lines, clauses),
        ExprNode::Receive(clauses) => clauses_stops(lines, clauses),
        ExprNode::ReceiveAfter(clauses, time, body) => {
            clauses_stops(lines, clauses)?;
            expr_stops(lines, time)?;
            sequence_stops(lines, body)
        }
        ExprNode::Try(body, of, catches, after) => {
            sequence_stops(lines, body)?;
            clauses_stops(lines, of)?;
            catches_stops(lines, catches)?;
            after_stops(lines, after)
        }
        ExprNode::Fun { clauses, .. } => clauses_stops(lines, clauses),
        ExprNode::FunLocal { .. } => Ok(()),
        ExprNode::FunRemote { .. } => Ok(()),
        ExprNode::Comprehension(value, qualifiers) => {
            expr_stops(lines, value)?;
            qualifiers_stops(lines, qualifiers)
        }
    }
}

#[cycle(stops)]
fn operands_stops(lines: &mut Vec<u32>, operands: &[Expr]) -> Result<(), AllocError>
    ensures { OnOk result (lines.new.items ≡ lines.old.items ++ stops.operands_stops (exps_of operands.now)) }
{
    for operand in operands {
        expr_stops(lines, operand)?;
    }
    Ok(())
}

// Those of expressions that stand in a sequence: each is a place itself.
#[cycle(stops)]
fn rest_stops(lines: &mut Vec<u32>, exprs: &[Expr]) -> Result<(), AllocError>
    ensures { OnOk result (lines.new.items ≡ lines.old.items ++ stops.rest_stops (exps_of exprs.now)) }
{
    for expr in exprs {
        lines.push(expr.line())?;
        expr_stops(lines, expr)?;
    }
    Ok(())
}

#[cycle(stops)]
fn sequence_stops(lines: &mut Vec<u32>, sequence: &Sequence) -> Result<(), AllocError>
    ensures { OnOk result (lines.new.items ≡ lines.old.items ++ stops.sequence_stops sequence.now) }
{
    lines.push(sequence.first.line())?;
    expr_stops(lines, &sequence.first)?;
    rest_stops(lines, &sequence.rest)
}

#[cycle(stops)]
fn after_stops(lines: &mut Vec<u32>, after: &Option<Sequence>) -> Result<(), AllocError>
    ensures { OnOk result (lines.new.items ≡ lines.old.items ++ stops.after_stops (after_of after.now)) }
{
    match after {
        None => Ok(()),
        Some(body) => sequence_stops(lines, body),
    }
}

#[cycle(stops)]
fn clauses_stops(lines: &mut Vec<u32>, clauses: &[Clause]) -> Result<(), AllocError>
    ensures { OnOk result (lines.new.items ≡ lines.old.items ++ stops.clauses_stops (clauses_of clauses.now)) }
{
    for clause in clauses {
        clause_stops(lines, clause)?;
    }
    Ok(())
}

#[cycle(stops)]
fn clause_stops(lines: &mut Vec<u32>, clause: &Clause) -> Result<(), AllocError>
    ensures { OnOk result (lines.new.items ≡ lines.old.items ++ stops.clause_stops clause.now) }
{
    sequence_stops(lines, &clause.body)
}

#[cycle(stops)]
fn catches_stops(lines: &mut Vec<u32>, catches: &[CatchClause]) -> Result<(), AllocError>
    ensures { OnOk result (lines.new.items ≡ lines.old.items ++ stops.catches_stops (catches_of catches.now)) }
{
    for clause in catches {
        catch_stops(lines, clause)?;
    }
    Ok(())
}

#[cycle(stops)]
fn catch_stops(lines: &mut Vec<u32>, clause: &CatchClause) -> Result<(), AllocError>
    ensures { OnOk result (lines.new.items ≡ lines.old.items ++ stops.catch_stops clause.now) }
{
    sequence_stops(lines, &clause.body)
}

#[cycle(stops)]
fn qualifiers_stops(lines: &mut Vec<u32>, qualifiers: &[Qualifier]) -> Result<(), AllocError>
    ensures { OnOk result (lines.new.items ≡ lines.old.items ++ stops.qualifiers_stops (qualifiers_of qualifiers.now)) }
{
    for qualifier in qualifiers {
        qualifier_stops(lines, qualifier)?;
    }
    Ok(())
}

#[cycle(stops)]
fn qualifier_stops(lines: &mut Vec<u32>, qualifier: &Qualifier) -> Result<(), AllocError>
    ensures { OnOk result (lines.new.items ≡ lines.old.items ++ stops.qualifier_stops qualifier.now) }
{
    match &qualifier.node {
        QualifierNode::Generator(_, list) => expr_stops(lines, list),
        QualifierNode::Filter(test) => expr_stops(lines, test),
    }
}

fn functions_lines(lines: &mut Vec<u32>, functions: &[Function]) -> Result<(), AllocError>
    ensures { OnOk result (lines.new.items ≡ lines.old.items ++ functions_stops functions.now) }
{
    for function in functions {
        clauses_stops(lines, &function.clauses)?;
    }
    Ok(())
}

/// The lines of the places of a module, ascending, and each once.
pub(crate) fn module_lines(alloc: Global, module: &Module) -> Result<Vec<u32>, AllocError>
    ensures ascending { IfOk result (λ v. IsStrictlyIncreasing v.items) }
    ensures exact { IfOk result (λ v. (l : ℕ) → Contains v.items l ↔ Contains (module_stops «module».now) l) }
{
    let mut lines = Vec::new(alloc);
    functions_lines(&mut lines, &module.functions)?;
    lines.sort_unstable();
    lines.dedup();
    Ok(lines)
}
