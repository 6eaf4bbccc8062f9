//! Sequences, `catch`, `try` and comprehensions that open.

ghost use Rattle.std.specs.Prelude.{◌≡◌, ℕ, IfOk, length};
ghost use Rattle.edb_lang.specs.Terms.{Datum};
ghost use Rattle.edb_moves.specs.Going.{Place};
ghost use Rattle.edb_moves.specs.Moves.{leaf_move, resuming};
ghost use Rattle.edb_moves.specs.Running.{unbegun, catching, trying, failed, comprehension};
ghost use Rattle.edb_path.specs.Plans.{effect, Suits};
ghost use Rattle.edb_syntax.specs.Syntax.{sequence, exps_of, clauses_of, catches_of, qualifiers_of};
ghost use Rattle.edb_syntax.specs.Views.{after_of};
ghost use Rattle.edb_stack.specs.Views.{outcome_of};

use edb_path::{Plan, listed, under};
use edb_pure::Raise;
use edb_stack::{Layer, Leaf, Outcome, Path, Redex};
use edb_syntax::{CatchClause, Clause, Expr, Qualifier, Sequence};
use edb_variables::Variables;
use std::alloc::{AllocError, Global};

/// A sequence: its first expression is begun. `AllocError` only if out of memory, here and in all that follows.
pub(crate) fn begin<'a>(
    alloc: Global,
    first: &'a Expr,
    rest: &'a [Expr],
) -> Result<Plan<'a>, AllocError>
    ensures effect { (p : Place) (v : Datum) → IfOk result (λ plan. effect p v plan ≡ leaf_move p (unbegun (sequence first.entry.now (exps_of rest.entry.now)))) }
    ensures suits { (n : ℕ) → IfOk result (λ plan. Suits n plan) }
{
    let mut layers = Vec::new(alloc);
    layers.push(Layer::Sequence(first.line(), rest))?;
    let path = under(alloc, layers, first)?;
    Ok(Plan::Turns(Vec::new(alloc), path))
}

/// `catch E`
pub(crate) fn open_catch<'a>(
    alloc: Global,
    code: &'a Expr,
    variables: &Variables,
) -> Result<Plan<'a>, AllocError>
    ensures effect { (p : Place) (v : Datum) → p.bindings ≡ variables.now.pairs → IfOk result (λ plan. effect p v plan ≡ leaf_move p (catching code.entry.now)) }
    ensures suits { IfOk result (λ plan. Suits (length variables.now.pairs) plan) }
{
    let mut layers = Vec::new(alloc);
    layers.push(Layer::Caught(variables.len()))?;
    let path = under(alloc, layers, code)?;
    Ok(Plan::Turns(Vec::new(alloc), path))
}

/// `try .. end`, within the `after` that waits for its outcome, where there is one.
pub(crate) fn open_try<'a>(
    alloc: Global,
    body: &'a Sequence,
    of: &'a [Clause],
    catches: &'a [CatchClause],
    after: &'a Option<Sequence>,
    variables: &Variables,
) -> Result<Plan<'a>, AllocError>
    ensures effect { (p : Place) (v : Datum) → p.bindings ≡ variables.now.pairs → IfOk result (λ plan. effect p v plan ≡ leaf_move p (trying body.entry.now (clauses_of of.entry.now) (catches_of catches.entry.now) (after_of after.entry.now))) }
    ensures suits { IfOk result (λ plan. Suits (length variables.now.pairs) plan) }
{
    let mark = variables.len();
    let mut layers = Vec::new(alloc);
    if let Some(after) = after {
        layers.push(Layer::Waiting(mark, after))?;
    }
    layers.push(Layer::Tried(mark, of, catches))?;
    let redex = Redex::Leaf(Leaf::Unbegun(&body.first, &body.rest));
    Ok(Plan::Turns(Vec::new(alloc), Path { layers, redex }))
}

/// The exception that is the outcome of a `try`: its `after` runs, and then this is raised again.
pub(crate) fn begin_after<'a>(
    alloc: Global,
    raise: &Raise,
    after: &'a Sequence,
) -> Result<Plan<'a>, AllocError>
    ensures effect { (p : Place) (v : Datum) → IfOk result (λ plan. effect p v plan ≡ leaf_move p (failed raise.now.class raise.now.reason after.entry.now)) }
    ensures suits { (n : ℕ) → IfOk result (λ plan. Suits n plan) }
{
    let class = raise.class;
    let reason = raise.reason.copy(alloc)?;
    resume(alloc, Outcome::Threw(Raise { class, reason }), after)
}

/// `[E || Q, ..]`
pub(crate) fn open_comprehension<'a>(
    alloc: Global,
    element: &'a Expr,
    qualifiers: &'a [Qualifier],
    variables: &Variables,
) -> Result<Plan<'a>, AllocError>
    ensures effect { (p : Place) (v : Datum) → p.bindings ≡ variables.now.pairs → IfOk result (λ plan. effect p v plan ≡ leaf_move p (comprehension element.entry.now (qualifiers_of qualifiers.entry.now))) }
    ensures suits { IfOk result (λ plan. Suits (length variables.now.pairs) plan) }
{
    let mut layers = Vec::new(alloc);
    layers.push(Layer::Scope(variables.len()))?;
    let path = listed(alloc, layers, element, qualifiers)?;
    Ok(Plan::Turns(Vec::new(alloc), path))
}

/// An `after` runs, and then the outcome of its `try` is this again.
pub fn resume<'a>(
    alloc: Global,
    outcome: Outcome,
    after: &'a Sequence,
) -> Result<Plan<'a>, AllocError>
    ensures effect { (p : Place) (v : Datum) → IfOk result (λ plan. effect p v plan ≡ resuming p (outcome_of outcome) after.entry.now) }
    ensures suits { (n : ℕ) → IfOk result (λ plan. Suits n plan) }
{
    let mut layers = Vec::new(alloc);
    layers.push(Layer::Resume(outcome))?;
    let redex = Redex::Leaf(Leaf::Unbegun(&after.first, &after.rest));
    Ok(Plan::Turns(Vec::new(alloc), Path { layers, redex }))
}
