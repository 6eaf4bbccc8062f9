//! What an operation on values does.

ghost use Rattle.std.specs.Prelude.{◌≡◌, ◌<◌, ◌^◌, ℕ, IfOk, length, map};
ghost use Rattle.edb_lang.specs.Terms.{Datum};
ghost use Rattle.edb_moves.specs.Going.{Place};
ghost use Rattle.edb_moves.specs.Moves.{operation_move};
ghost use Rattle.edb_path.specs.Plans.{effect, Suits};
ghost use Rattle.edb_stack.specs.Redexes.{values_in};
ghost use Rattle.edb_stack.specs.Views.{doing_of};
ghost use Rattle.edb_variables.specs.PairStacks.{PairStack};
ghost use Rattle.edb_calls.specs.Alone.{IsAlone};
ghost use Rattle.edb_calls.specs.Sites.{bodies_at, level_at, pairs_at, Stands, spot};

use crate::calls::{local_plan, own_plan, remote_plan};
use crate::funs::fun_plan;
use crate::raises::answered;
use crate::site::Site;
use crate::terms::{binary_of, list_of, list_with_tail_of, tuple_of, unary_of};
use edb_guards::terms;
use edb_lang::Term;
use edb_path::{Plan, see_all};
use edb_program::Program;
use edb_stack::{Doing, Item};
use edb_variables::Variables;
use edb_versions::Versions;
use std::alloc::{AllocError, Global};

/// What an operation on values does, where this is the place of the call. `AllocError` only if out of memory.
pub fn call_plan<'a>(
    alloc: Global,
    program: &'a Program<'a>,
    versions: &Versions,
    doing: &Doing<'a>,
    row: &[Item<'a>],
    site: &Site<'_, 'a>,
) -> Result<Plan<'a>, AllocError>
    requires depth { site.now.bodies ≡ length (bodies_at site.now) }
    requires room { level_at site.now < 2 ^ 63 }
    ensures effect { (p : Place) (v : Datum) → Stands site.now p → IfOk result (λ plan. effect p v plan ≡ operation_move program.entry.now versions.now p (doing_of doing.now) (values_in (pairs_at site.now) row.now)) }
    ensures suits { (n : ℕ) → IfOk result (Suits n) }
    ensures alone { IfOk result IsAlone }
{
    match site.here {
        Some(body) => plan_under(alloc, program, versions, doing, row, &body.variables, site),
        None => {
            let nothing = Variables::new(alloc);
            plan_under(alloc, program, versions, doing, row, &nothing, site)
        }
    }
}

/// The same, with the variables of the innermost Body.
fn plan_under<'a>(
    alloc: Global,
    program: &'a Program<'a>,
    versions: &Versions,
    doing: &Doing<'a>,
    row: &[Item<'a>],
    variables: &Variables,
    site: &Site<'_, 'a>,
) -> Result<Plan<'a>, AllocError>
    requires depth { site.now.bodies ≡ length (bodies_at site.now) }
    requires room { level_at site.now < 2 ^ 63 }
    ensures effect { (p : Place) (v : Datum) → Stands site.now p → IfOk result (λ plan. effect p v plan ≡ operation_move program.entry.now versions.now p (doing_of doing.now) (values_in variables.now.pairs row.now)) }
    ensures suits { (n : ℕ) → IfOk result (Suits n) }
    ensures alone { IfOk result IsAlone }
{
    let values = see_all(alloc, variables, row)?;
    let operands = terms(alloc, &values)?;
    operation_plan(alloc, program, versions, doing, &operands, site)
}

/// What an operation on these terms does.
fn operation_plan<'a>(
    alloc: Global,
    program: &'a Program<'a>,
    versions: &Versions,
    doing: &Doing<'a>,
    operands: &[&Term],
    site: &Site<'_, 'a>,
) -> Result<Plan<'a>, AllocError>
    requires depth { site.now.bodies ≡ length (bodies_at site.now) }
    requires room { level_at site.now < 2 ^ 63 }
    ensures effect { (v : Datum) → IfOk result (λ plan. effect (spot site.now) v plan ≡ operation_move program.entry.now versions.now (spot site.now) (doing_of doing.now) (map (λ t. t.now) operands.now)) }
    ensures suits { (n : ℕ) → IfOk result (Suits n) }
    ensures alone { IfOk result IsAlone }
{
    match doing {
        Doing::Tuple => Ok(answered(tuple_of(alloc, operands)?)),
        Doing::List => Ok(answered(list_of(alloc, operands)?)),
        Doing::ListWithTail => Ok(answered(list_with_tail_of(alloc, operands)?)),
        Doing::Unary(operator) => Ok(answered(unary_of(alloc, *operator, operands, site.me)?)),
        Doing::Binary(operator) => Ok(answered(binary_of(alloc, *operator, operands, site.me)?)),
        Doing::LocalCall(name) => local_plan(alloc, name, operands, site),
        Doing::CallIn(unit, version, name) => {
            own_plan(alloc, *unit, *version, name, operands, site)
        }
        Doing::RemoteCall => remote_plan(alloc, program, versions, operands, site),
        Doing::FunCall => fun_plan(alloc, program, operands, site),
    }
}
