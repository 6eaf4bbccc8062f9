//! The move of a layer that is filled.

ghost use Rattle.std.specs.Prelude.{◌≡◌, true, IfOk, length};
ghost use Rattle.edb_moves.specs.Going.{Place};
ghost use Rattle.edb_moves.specs.Moves.{frame_move};
ghost use Rattle.edb_path.specs.Plans.{effect, Suits};
ghost use Rattle.edb_path.specs.Sights.{Sees};
ghost use Rattle.edb_stack.specs.Paths.{waits, frame_of};
ghost use Rattle.edb_stack.specs.Trees.{outward};
ghost use Rattle.edb_stack.specs.Views.{info_of, layer_of};

use crate::choices::{and_then_plan, end_try, or_then_plan, select_clause};
use crate::lists::{append, filter, generate};
use crate::sequences::{end_after, follow, match_value, pass};
use edb_lang::Term;
use edb_leaves::resume;
use edb_path::Plan;
use edb_stack::{Body, Layer, Outcome};
use std::alloc::{AllocError, Global};

/// What the move of a layer does that waited for this value, for the process `me` in this innermost Body, as it is within
/// the layer. `AllocError` only if out of memory.
pub fn filled_plan<'a>(
    alloc: Global,
    layer: &Layer<'a>,
    value: &Term,
    me: u32,
    here: &Body<'a>,
) -> Result<Plan<'a>, AllocError>
    requires waits { waits (layer_of layer.now) ≡ true }
    ensures effect { (p : Place) → Sees me (outward (layer_of layer.now) (info_of here.now)) p → IfOk result (λ plan. effect p value.now plan ≡ frame_move p (frame_of here.now.variables.pairs (layer_of layer.now)) value.now) }
    ensures suits { IfOk result (λ plan. Suits (length (outward (layer_of layer.now) (info_of here.now)).bindings) plan) }
{
    let variables = &here.variables;
    match layer {
        Layer::Sequence(line, rest) => Ok(follow(alloc, *line, rest)),
        Layer::Match(pattern) => match_value(alloc, pattern, value, variables),
        Layer::Select(clauses) => select_clause(alloc, clauses, value, me, variables),
        Layer::AndThen(right) => and_then_plan(alloc, right, value),
        Layer::OrThen(right) => or_then_plan(alloc, right, value),
        Layer::Generate(pattern, element, rest) => generate(
            alloc, pattern, element, rest, value, variables,
        ),
        Layer::Filter(element, rest) => filter(alloc, element, rest, value),
        Layer::Gather(drawing, rest) => append(alloc, drawing, rest, value),
        Layer::Resume(outcome) => end_after(alloc, outcome),
        Layer::Scope(_) => Ok(pass(alloc)),
        Layer::Caught(_) => Ok(pass(alloc)),
        Layer::Tried(_, clauses, _) => end_try(alloc, clauses, value, me, variables),
        Layer::Waiting(_, after) => resume(alloc, Outcome::Gave(value.copy(alloc)?), after),
        Layer::Operands(_) => unreachable!(),
        Layer::Body(_) => unreachable!(),
    }
}
