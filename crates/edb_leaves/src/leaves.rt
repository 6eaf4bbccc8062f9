//! The move of a leaf.

ghost use Rattle.std.specs.Prelude.{◌≡◌, ◌≢◌, IfOk, length};
ghost use Rattle.edb_lang.specs.declared.act.ActKind.{ActKind};
ghost use Rattle.edb_lang.specs.Terms.{Datum};
ghost use Rattle.edb_moves.specs.Going.{Place};
ghost use Rattle.edb_moves.specs.Moves.{leaf_move};
ghost use Rattle.edb_moves.specs.Running.{conditions};
ghost use Rattle.edb_path.specs.Plans.{effect, Suits};
ghost use Rattle.edb_path.specs.Sights.{Sees};
ghost use Rattle.edb_stack.specs.declared.redex.Leaf.TheVariants.{Missing};
ghost use Rattle.edb_stack.specs.Views.{info_of, leaf_of};
ghost use Rattle.edb_syntax.specs.Syntax.{clauses_of};

use crate::choosing::take_clause;
use crate::collecting::collect;
use crate::generators::draw;
use crate::making::{make_fun, make_local, make_remote};
use crate::opening::{begin, begin_after, open_catch, open_comprehension, open_try};
use crate::raising::failing;
use crate::reading::{make_text, read_variable};
use edb_path::Plan;
use edb_stack::{Body, Leaf};
use edb_syntax::Clause;
use edb_variables::Variables;
use std::alloc::{AllocError, Global};

/// What the move of a leaf does, for the process `me` in this innermost Body. `AllocError` only if out of memory.
pub fn leaf_plan<'a>(
    alloc: Global,
    leaf: &Leaf<'a>,
    me: u32,
    here: &Body<'a>,
) -> Result<Plan<'a>, AllocError>
    requires { (kind : ActKind) → leaf.now ≢ Missing kind }
    ensures effect { (p : Place) (v : Datum) → Sees me (info_of here.now) p → IfOk result (λ plan. effect p v plan ≡ leaf_move p (leaf_of leaf.now)) }
    ensures suits { IfOk result (λ plan. Suits (length here.now.variables.pairs) plan) }
{
    let variables = &here.variables;
    match leaf {
        Leaf::Text(points) => make_text(alloc, points),
        Leaf::Variable(name) => read_variable(alloc, name, variables),
        Leaf::Unbegun(first, rest) => begin(alloc, first, rest),
        Leaf::Conditions(clauses) => choose_condition(alloc, clauses, me, variables),
        Leaf::Making(index, arity) => make_fun(alloc, *index, *arity, here),
        Leaf::MakingLocal(index, arity) => make_local(alloc, *index, *arity, here),
        Leaf::MakingRemote(home, name, arity) => make_remote(alloc, home, name, *arity),
        Leaf::Catching(code) => open_catch(alloc, code, variables),
        Leaf::Trying(body, of, catches, after) => open_try(
            alloc, body, of, catches, after, variables,
        ),
        Leaf::Failed(raise, after) => begin_after(alloc, raise, after),
        Leaf::Comprehension(element, qualifiers) => open_comprehension(
            alloc, element, qualifiers, variables,
        ),
        Leaf::Collecting(element) => collect(alloc, element),
        Leaf::Drawing(drawing, list) => draw(alloc, drawing, list, variables),
        Leaf::Missing(_) => unreachable!(),
    }
}

/// `if .. end`: the sequence of the first clause whose guard holds.
fn choose_condition<'a>(
    alloc: Global,
    clauses: &'a [Clause],
    me: u32,
    variables: &Variables,
) -> Result<Plan<'a>, AllocError>
    ensures effect { (p : Place) (v : Datum) → p.me ≡ me → p.bindings ≡ variables.now.pairs → IfOk result (λ plan. effect p v plan ≡ leaf_move p (conditions (clauses_of clauses.entry.now))) }
    ensures suits { IfOk result (λ plan. Suits (length variables.now.pairs) plan) }
{
    match take_clause(alloc, clauses, &[], me, variables)? {
        Some(plan) => Ok(plan),
        None => failing(alloc, "if_clause"),
    }
}
