//! Values that decide what follows.

ghost use Rattle.std.specs.Prelude.{◌≡◌, ℕ, IfOk, length};
ghost use Rattle.std.specs.Option.{option_map};
ghost use Rattle.edb_lang.specs.Terms as terms;
ghost use Rattle.edb_lang.specs.Terms.{Datum};
ghost use Rattle.edb_moves.specs.Going.{Place, turns};
ghost use Rattle.edb_moves.specs.Moves.{frame_move};
ghost use Rattle.edb_moves.specs.Running.{select, and_then, or_then, tried, running};
ghost use Rattle.edb_lang.specs.Pairs.{Pairs};
ghost use Rattle.edb_path.specs.Plans.{effect, Suits};
ghost use Rattle.edb_pure.specs.Truths.{truth_of};
ghost use Rattle.edb_syntax.specs.Syntax.{Catches, clauses_of};

use crate::sequences::pass;
use edb_lang::{Name, Node, Term};
use edb_leaves::{failing, failing_with, take_clause};
use edb_path::{Plan, way};
use edb_stack::{Item, is_literal};
use edb_syntax::{Clause, Expr};
use edb_variables::Variables;
use std::alloc::{AllocError, Global};

/// `case V of .. end`: the first clause that matches.
pub(crate) fn select_clause<'a>(
    alloc: Global,
    clauses: &'a [Clause],
    value: &Term,
    me: u32,
    variables: &Variables,
) -> Result<Plan<'a>, AllocError>
    ensures effect { (p : Place) → p.me ≡ me → p.bindings ≡ variables.now.pairs → IfOk result (λ plan. effect p value.now plan ≡ frame_move p (select (clauses_of clauses.entry.now)) value.now) }
    ensures suits { IfOk result (λ plan. Suits (length variables.now.pairs) plan) }
{
    match take_clause(alloc, clauses, &[value], me, variables)? {
        Some(plan) => Ok(plan),
        None => failing_with(alloc, "case_clause", value),
    }
}

/// An opened `try` whose body has this value: the value, or the first clause behind `of` that matches.
pub(crate) fn end_try<'a>(
    alloc: Global,
    clauses: &'a [Clause],
    value: &Term,
    me: u32,
    variables: &Variables,
) -> Result<Plan<'a>, AllocError>
    ensures effect { (p : Place) (kept : Pairs) (hs : Catches) → p.me ≡ me → p.bindings ≡ variables.now.pairs → IfOk result (λ plan. effect p value.now plan ≡ frame_move p (tried kept (clauses_of clauses.entry.now) hs) value.now) }
    ensures suits { IfOk result (λ plan. Suits (length variables.now.pairs) plan) }
{
    if clauses.is_empty() {
        return Ok(pass(alloc));
    }
    match take_clause(alloc, clauses, &[value], me, variables)? {
        Some(plan) => Ok(plan),
        None => failing_with(alloc, "try_clause", value),
    }
}

/// `V andalso E`
pub(crate) fn and_then_plan<'a>(
    alloc: Global,
    right: &'a Expr,
    value: &Term,
) -> Result<Plan<'a>, AllocError>
    ensures effect { (p : Place) → IfOk result (λ plan. effect p value.now plan ≡ frame_move p (and_then right.entry.now) value.now) }
    ensures suits { (n : ℕ) → IfOk result (λ plan. Suits n plan) }
{
    match truth(value) {
        Some(true) => evaluate(alloc, right),
        Some(false) => Ok(pass(alloc)),
        None => failing(alloc, "badarg"),
    }
}

/// `V orelse E`
pub(crate) fn or_then_plan<'a>(
    alloc: Global,
    right: &'a Expr,
    value: &Term,
) -> Result<Plan<'a>, AllocError>
    ensures effect { (p : Place) → IfOk result (λ plan. effect p value.now plan ≡ frame_move p (or_then right.entry.now) value.now) }
    ensures suits { (n : ℕ) → IfOk result (λ plan. Suits n plan) }
{
    match truth(value) {
        Some(true) => Ok(pass(alloc)),
        Some(false) => evaluate(alloc, right),
        None => failing(alloc, "badarg"),
    }
}

/// An expression in the place of the redex.
pub(crate) fn evaluate<'a>(alloc: Global, code: &'a Expr) -> Result<Plan<'a>, AllocError>
    ensures effect { (p : Place) (v : Datum) → IfOk result (λ plan. effect p v plan ≡ turns p.bindings (running code.entry.now)) }
    ensures suits { (n : ℕ) → IfOk result (λ plan. Suits n plan) }
{
    if is_literal(code) {
        return Ok(Plan::Gives(Item::Literal(code)));
    }
    let path = way(alloc, Vec::new(alloc), code)?;
    Ok(Plan::Turns(Vec::new(alloc), path))
}

/// The truth value that a term is; `None` if it is none.
pub(crate) fn truth(value: &Term) -> Option<bool>
    ensures { result ≡ truth_of value.now }
{
    match &value.node {
        Node::Atom(name) => named(name),
        _ => None,
    }
}

/// The truth value of this name.
fn named(name: &Name) -> Option<bool>
    ensures { result ≡ truth_of (terms.atom name.now) }
{
    if name.as_str() == "true" {
        return Some(true);
    }
    if name.as_str() == "false" {
        return Some(false);
    }
    None
}
