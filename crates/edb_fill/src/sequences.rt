//! Sequences, and a value that only goes on.

ghost use Rattle.std.specs.Prelude.{◌≡◌, ℕ, IfOk, length};
ghost use Rattle.edb_lang.specs.Terms.{Datum};
ghost use Rattle.edb_moves.specs.Going.{Place, turns};
ghost use Rattle.edb_moves.specs.Moves.{frame_move};
ghost use Rattle.edb_moves.specs.Running.{value, leaf, unbegun, sequence, match, resume};
ghost use Rattle.edb_path.specs.Plans.{effect, Suits};
ghost use Rattle.edb_stack.specs.Views.{outcome_of};
ghost use Rattle.edb_syntax.specs.Syntax as syntax;
ghost use Rattle.edb_syntax.specs.Syntax.{exps_of};

use edb_lang::Term;
use edb_leaves::failing_with;
use edb_match::match_new;
use edb_path::Plan;
use edb_pure::Raise;
use edb_stack::{Item, Leaf, Outcome, Path, Redex};
use edb_syntax::{Expr, Pattern};
use edb_variables::Variables;
use std::alloc::{AllocError, Global};

/// The value goes on, and nothing is bound; takes no memory.
pub(crate) fn pass<'a>(alloc: Global) -> Plan<'a>
    ensures effect { (p : Place) (v : Datum) → effect p v result ≡ turns p.bindings (value v) }
    ensures suits { (n : ℕ) → Suits n result }
{
    Plan::Passes(Vec::new(alloc))
}

/// What follows the first expression of a sequence, whose value goes; where nothing does, the value goes on.
pub(crate) fn follow<'a>(alloc: Global, line: u32, rest: &'a [Expr]) -> Plan<'a>
    ensures effect { (p : Place) (v : Datum) → effect p v result ≡ frame_move p (sequence line (exps_of rest.entry.now)) v }
    ensures suits { (n : ℕ) → Suits n result }
{
    match rest.split_first() {
        Some((first, behind)) => begin(alloc, first, behind),
        None => pass(alloc),
    }
}

/// A sequence of which no expression is begun.
fn begin<'a>(alloc: Global, first: &'a Expr, rest: &'a [Expr]) -> Plan<'a>
    ensures effect { (p : Place) (v : Datum) → effect p v result ≡ turns p.bindings (leaf (unbegun (syntax.sequence first.entry.now (exps_of rest.entry.now)))) }
    ensures suits { (n : ℕ) → Suits n result }
{
    let layers = Vec::new(alloc);
    let redex = Redex::Leaf(Leaf::Unbegun(first, rest));
    Plan::Turns(Vec::new(alloc), Path { layers, redex })
}

/// `P = V`
pub(crate) fn match_value<'a>(
    alloc: Global,
    pattern: &Pattern,
    value: &Term,
    variables: &Variables,
) -> Result<Plan<'a>, AllocError>
    ensures effect { (p : Place) → p.bindings ≡ variables.now.pairs → IfOk result (λ plan. effect p value.now plan ≡ frame_move p (match pattern.now) value.now) }
    ensures suits { (n : ℕ) → IfOk result (λ plan. Suits n plan) }
{
    match match_new(alloc, pattern, value, variables.pairs(), &[])? {
        Some(new) => Ok(Plan::Passes(new)),
        None => failing_with(alloc, "badmatch", value),
    }
}

/// The `after` of a `try` is done: the outcome again.
pub(crate) fn end_after<'a>(alloc: Global, outcome: &Outcome) -> Result<Plan<'a>, AllocError>
    ensures effect { (p : Place) (v : Datum) → IfOk result (λ plan. effect p v plan ≡ frame_move p (resume (outcome_of outcome.now)) v) }
    ensures suits { (n : ℕ) → IfOk result (λ plan. Suits n plan) }
{
    match outcome {
        Outcome::Gave(value) => Ok(Plan::Gives(Item::Value(value.copy(alloc)?))),
        Outcome::Threw(raise) => {
            let class = raise.class;
            let reason = raise.reason.copy(alloc)?;
            Ok(Plan::Raises(Raise { class, reason }))
        }
    }
}
