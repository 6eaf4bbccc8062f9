//! The fun forms of a module, in the order of its text.
#![tactic(auto, using(crate::proofs::Collected::collected, edb_syntax::proofs::Lists::lists))]

ghost use Rattle.std.specs.Prelude.{◌≡◌, ◌++◌, ◌∷◌, [], IfOk, OnOk, map};
ghost use Rattle.edb_syntax.specs.FunForms as forms;
ghost use Rattle.edb_syntax.specs.Syntax.{exps_of, guards_of, clauses_of, catches_of, qualifiers_of};
ghost use Rattle.edb_syntax.specs.Views.{after_of};
ghost use Rattle.edb_units.specs.Forms.{form_of};

use crate::form::Form;
use edb_syntax::{
    Alternative, CatchClause, Clause, Expr, ExprNode, Function, GuardTest, Qualifier,
    QualifierNode, Sequence,
};
use std::alloc::{AllocError, Global};

/// The fun forms of functions. `AllocError` only if out of memory, here and in all that follows.
pub(crate) fn forms_of<'a>(
    alloc: Global,
    functions: &'a [Function],
) -> Result<Vec<Form<'a>>, AllocError>
    ensures { IfOk result (λ found. map form_of found.items ≡ forms.functions_forms functions.now) }
{
    let mut found = Vec::new(alloc);
    for function in functions {
        clauses_forms(&mut found, &function.clauses)?;
    }
    Ok(found)
}

/// Puts the fun forms of an expression behind others; likewise below.
#[cycle(collect)]
fn expression_forms<'a>(found: &mut Vec<Form<'a>>, expr: &'a Expr) -> Result<(), AllocError>
    ensures { OnOk result (map form_of found.new.items ≡ map form_of found.old.items ++ forms.expression_forms expr.now) }
{
    match &expr.node {
        ExprNode::Int(_) => Ok(()),
        ExprNode::Atom(_) => Ok(()),
        ExprNode::Str(_) => Ok(()),
        ExprNode::Float => Ok(()),
        ExprNode::Var(_) => Ok(()),
        ExprNode::Apply(_, operands) => expressions_forms(found, operands),
        ExprNode::AndAlso(left, right) => {
            expression_forms(found, left)?;
            expression_forms(found, right)
        }
        ExprNode::OrElse(left, right) => {
            expression_forms(found, left)?;
            expression_forms(found, right)
        }
        ExprNode::Match(_, value) => expression_forms(found, value),
        ExprNode::Catch(value) => expression_forms(found, value),
        ExprNode::Begin(body) => sequence_forms(found, body),
        ExprNode::Case(value, clauses) => {
            expression_forms(found, value)?;
            clauses_forms(found, clauses)
        }
        ExprNode::If(clauses) => clauses_forms(found, clauses),
        ExprNode::Receive(clauses) => clauses_forms(found, clauses),
        ExprNode::ReceiveAfter(clauses, time, body) => {
            clauses_forms(found, clauses)?;
            expression_forms(found, time)?;
            sequence_forms(found, body)
        }
        ExprNode::Try(body, of, catches, after) => {
            sequence_forms(found, body)?;
            clauses_forms(found, of)?;
            catches_forms(found, catches)?;
            after_forms(found, after)
        }
        ExprNode::Fun { index, clauses } => {
            let index = *index;
            found.push(Form::Clauses { index, clauses })?;
            clauses_forms(found, clauses)
        }
        ExprNode::FunLocal { index, name, arity } => {
            let index = *index;
            let arity = *arity;
            found.push(Form::Local { index, name, arity })?;
            Ok(())
        }
        ExprNode::FunRemote { .. } => Ok(()),
        ExprNode::Comprehension(value, qualifiers) => {
            expression_forms(found, value)?;
            qualifiers_forms(found, qualifiers)
        }
    }
}

#[cycle(collect)]
fn expressions_forms<'a>(found: &mut Vec<Form<'a>>, exprs: &'a [Expr]) -> Result<(), AllocError>
    ensures { OnOk result (map form_of found.new.items ≡ map form_of found.old.items ++ forms.expressions_forms (exps_of exprs.now)) }
{
    for expr in exprs {
        expression_forms(found, expr)?;
    }
    Ok(())
}

#[cycle(collect)]
fn sequence_forms<'a>(found: &mut Vec<Form<'a>>, sequence: &'a Sequence) -> Result<(), AllocError>
    ensures { OnOk result (map form_of found.new.items ≡ map form_of found.old.items ++ forms.sequence_forms sequence.now) }
{
    expression_forms(found, &sequence.first)?;
    expressions_forms(found, &sequence.rest)
}

#[cycle(collect)]
fn after_forms<'a>(found: &mut Vec<Form<'a>>, after: &'a Option<Sequence>) -> Result<(), AllocError>
    ensures { OnOk result (map form_of found.new.items ≡ map form_of found.old.items ++ forms.after_forms (after_of after.now)) }
{
    match after {
        None => Ok(()),
        Some(body) => sequence_forms(found, body),
    }
}

#[cycle(collect)]
fn guards_forms<'a>(
    found: &mut Vec<Form<'a>>,
    alternatives: &'a [Alternative],
) -> Result<(), AllocError>
    ensures { OnOk result (map form_of found.new.items ≡ map form_of found.old.items ++ forms.guards_forms (guards_of alternatives.now)) }
{
    for alternative in alternatives {
        tests_forms(found, &alternative.tests)?;
    }
    Ok(())
}

#[cycle(collect)]
fn tests_forms<'a>(found: &mut Vec<Form<'a>>, tests: &'a [GuardTest]) -> Result<(), AllocError>
    ensures { OnOk result (map form_of found.new.items ≡ map form_of found.old.items ++ forms.expressions_forms (exps_of tests.now)) }
{
    for test in tests {
        expression_forms(found, &test.expr)?;
    }
    Ok(())
}

#[cycle(collect)]
fn clauses_forms<'a>(found: &mut Vec<Form<'a>>, clauses: &'a [Clause]) -> Result<(), AllocError>
    ensures { OnOk result (map form_of found.new.items ≡ map form_of found.old.items ++ forms.clauses_forms (clauses_of clauses.now)) }
{
    for clause in clauses {
        clause_forms(found, clause)?;
    }
    Ok(())
}

#[cycle(collect)]
fn clause_forms<'a>(found: &mut Vec<Form<'a>>, clause: &'a Clause) -> Result<(), AllocError>
    ensures { OnOk result (map form_of found.new.items ≡ map form_of found.old.items ++ forms.clause_forms clause.now) }
{
    guards_forms(found, &clause.guard.alternatives)?;
    sequence_forms(found, &clause.body)
}

#[cycle(collect)]
fn catches_forms<'a>(
    found: &mut Vec<Form<'a>>,
    catches: &'a [CatchClause],
) -> Result<(), AllocError>
    ensures { OnOk result (map form_of found.new.items ≡ map form_of found.old.items ++ forms.catches_forms (catches_of catches.now)) }
{
    for clause in catches {
        catch_forms(found, clause)?;
    }
    Ok(())
}

#[cycle(collect)]
fn catch_forms<'a>(found: &mut Vec<Form<'a>>, clause: &'a CatchClause) -> Result<(), AllocError>
    ensures { OnOk result (map form_of found.new.items ≡ map form_of found.old.items ++ forms.catch_forms clause.now) }
{
    guards_forms(found, &clause.guard.alternatives)?;
    sequence_forms(found, &clause.body)
}

#[cycle(collect)]
fn qualifiers_forms<'a>(
    found: &mut Vec<Form<'a>>,
    qualifiers: &'a [Qualifier],
) -> Result<(), AllocError>
    ensures { OnOk result (map form_of found.new.items ≡ map form_of found.old.items ++ forms.qualifiers_forms (qualifiers_of qualifiers.now)) }
{
    for qualifier in qualifiers {
        qualifier_forms(found, qualifier)?;
    }
    Ok(())
}

#[cycle(collect)]
fn qualifier_forms<'a>(
    found: &mut Vec<Form<'a>>,
    qualifier: &'a Qualifier,
) -> Result<(), AllocError>
    ensures { OnOk result (map form_of found.new.items ≡ map form_of found.old.items ++ forms.qualifier_forms qualifier.now) }
{
    match &qualifier.node {
        QualifierNode::Generator(_, list) => expression_forms(found, list),
        QualifierNode::Filter(test) => expression_forms(found, test),
    }
}
