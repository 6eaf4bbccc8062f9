//! Calls of funs.

ghost use Rattle.std.specs.Prelude.{◌≡◌, ◌<◌, ◌^◌, ◌∷◌, [], ℕ, List, IfOk, codes, length, map};
ghost use Rattle.edb_lang.specs.Terms.{Datum};
ghost use Rattle.edb_lang.specs.TermViews.{captures_in, fun_of};
ghost use Rattle.edb_moves.specs.Calls as calls;
ghost use Rattle.edb_moves.specs.Calls.{captured_pairs};
ghost use Rattle.edb_moves.specs.Going.{Place, turns};
ghost use Rattle.edb_moves.specs.Moves.{operation_move};
ghost use Rattle.edb_moves.specs.Raises as raises;
ghost use Rattle.edb_moves.specs.Running.{written, node, all_values};
ghost use Rattle.edb_path.specs.Plans.{effect, Suits};
ghost use Rattle.edb_stack.specs.Views.{doing_of};
ghost use Rattle.edb_syntax.specs.Syntax.{ModuleTree};
ghost use Rattle.edb_syntax.specs.declared.operation.Operation.TheVariants.{FunCall, RemoteCall};
ghost use Rattle.edb_lang.specs.Terms as terms;
ghost use Rattle.edb_units.specs.Forms.{form_of};
ghost use Rattle.edb_variables.specs.PairStacks.{newest_first};
ghost use Rattle.edb_calls.specs.Alone.{IsAlone};
ghost use Rattle.edb_calls.specs.Sites.{bodies_at, level_at, spot};

use crate::becomes::becomes;
use crate::entering::Callee;
use crate::raises::{fails, fails_by_arity};
use crate::site::Site;
use edb_lang::{Captured, FunValue, Name, Node, Term};
use edb_leaves::failing_with;
use edb_path::Plan;
use edb_program::Program;
use edb_stack::Doing;
use edb_units::{Form, Unit};
use std::alloc::{AllocError, Global};

/// A call of a fun: the first of the operands. `AllocError` only if out of memory, here and in all that follows.
pub(crate) fn fun_plan<'a>(
    alloc: Global,
    program: &'a Program<'a>,
    operands: &[&Term],
    site: &Site<'_, 'a>,
) -> Result<Plan<'a>, AllocError>
    requires depth { site.now.bodies ≡ length (bodies_at site.now) }
    requires room { level_at site.now < 2 ^ 63 }
    ensures effect { (current : List (List ℕ × ℕ)) (v : Datum) → IfOk result (λ plan. effect (spot site.now) v plan ≡ operation_move program.entry.now current (spot site.now) (written FunCall) (map (λ t. t.now) operands.now)) }
    ensures suits { (n : ℕ) → IfOk result (Suits n) }
    ensures alone { IfOk result IsAlone }
{
    match operands.split_first() {
        Some((fun, args)) => call_term(alloc, program, fun, args, site),
        None => fails(alloc, "badarg"),
    }
}

/// A term, called with these arguments.
fn call_term<'a>(
    alloc: Global,
    program: &'a Program<'a>,
    fun: &Term,
    args: &[&Term],
    site: &Site<'_, 'a>,
) -> Result<Plan<'a>, AllocError>
    requires depth { site.now.bodies ≡ length (bodies_at site.now) }
    requires room { level_at site.now < 2 ^ 63 }
    ensures effect { (v : Datum) → IfOk result (λ plan. effect (spot site.now) v plan ≡ calls.fun_call program.entry.now (spot site.now) fun.now (map (λ t. t.now) args.now)) }
    ensures suits { (n : ℕ) → IfOk result (Suits n) }
    ensures alone { IfOk result IsAlone }
{
    match &fun.node {
        Node::Fun(value) => call_fun(alloc, program, fun, value, args, site),
        _ => not_a_fun(alloc, fun),
    }
}

/// A term that is no fun, called.
fn not_a_fun<'a>(alloc: Global, term: &Term) -> Result<Plan<'a>, AllocError>
    ensures effect { (p : Place) (v : Datum) → IfOk result (λ plan. effect p v plan ≡ raises.fails_with (codes "badfun") term.now) }
    ensures suits { (n : ℕ) → IfOk result (Suits n) }
    ensures alone { IfOk result IsAlone }
{
    failing_with(alloc, "badfun", term)
}

/// A fun, called with these arguments.
fn call_fun<'a>(
    alloc: Global,
    program: &'a Program<'a>,
    fun: &Term,
    value: &FunValue,
    args: &[&Term],
    site: &Site<'_, 'a>,
) -> Result<Plan<'a>, AllocError>
    requires fun { fun.now ≡ fun_of value.now }
    requires depth { site.now.bodies ≡ length (bodies_at site.now) }
    requires room { level_at site.now < 2 ^ 63 }
    ensures effect { (v : Datum) → IfOk result (λ plan. effect (spot site.now) v plan ≡ calls.fun_call program.entry.now (spot site.now) fun.now (map (λ t. t.now) args.now)) }
    ensures suits { (n : ℕ) → IfOk result (Suits n) }
    ensures alone { IfOk result IsAlone }
{
    match value {
        FunValue::Made {
            module,
            version,
            index,
            arity,
            captured,
        } => {
            if *arity as usize != args.len() {
                return fails_by_arity(alloc, fun, args);
            }
            let Some(unit) = program.unit(module, *version) else {
                return fails(alloc, "undef");
            };
            match unit.form(*index) {
                Some(form) => call_form(alloc, unit, *version, *arity, form, captured, args, site),
                None => fails(alloc, "undef"),
            }
        }
        FunValue::Named {
            module,
            name,
            arity,
        } => {
            if *arity as usize != args.len() {
                return fails_by_arity(alloc, fun, args);
            }
            call_named(alloc, module, name, args)
        }
    }
}

/// The fun that a form made, called: a fun with clauses is entered, and one that names a function of its module becomes the
/// call of that.
fn call_form<'a>(
    alloc: Global,
    unit: &'a Unit<'a>,
    version: u32,
    arity: u32,
    form: Form<'a>,
    captured: &[Captured],
    args: &[&Term],
    site: &Site<'_, 'a>,
) -> Result<Plan<'a>, AllocError>
    requires depth { site.now.bodies ≡ length (bodies_at site.now) }
    requires room { level_at site.now < 2 ^ 63 }
    ensures effect { (v : Datum) → IfOk result (λ plan. effect (spot site.now) v plan ≡ calls.form_call (spot site.now) unit.entry.now version arity (captures_in captured.now) (form_of form.entry) (map (λ t. t.now) args.now)) }
    ensures suits { (n : ℕ) → IfOk result (Suits n) }
    ensures alone { IfOk result IsAlone }
{
    match form {
        Form::Clauses { clauses, .. } => {
            let hidden = taken_along(alloc, captured)?;
            let callee = Callee {
                unit,
                version,
                name: None,
                arity,
                clauses,
            };
            callee.enter(alloc, hidden, args, site)
        }
        Form::Local { name, .. } => becomes(alloc, Doing::CallIn(unit, version, name), &[], args),
    }
}

/// What a fun took along, as the pairs of a Body.
fn taken_along(alloc: Global, captured: &[Captured]) -> Result<Vec<Captured>, AllocError>
    ensures { IfOk result (λ pairs. newest_first pairs.items ≡ captured_pairs (captures_in captured.now)) }
{
    let mut pairs = Vec::with_capacity(alloc, captured.len())?;
    for pair in captured {
        let name = pair.name.copy(alloc)?;
        let value = pair.value.copy(alloc)?;
        pairs.push(Captured { name, value })?;
    }
    pairs.reverse();
    Ok(pairs)
}

/// A function of a module, called by its name.
fn call_named<'a>(
    alloc: Global,
    module: &Name,
    name: &Name,
    args: &[&Term],
) -> Result<Plan<'a>, AllocError>
    ensures effect { (p : Place) (v : Datum) → IfOk result (λ plan. effect p v plan ≡ turns p.bindings (node (written RemoteCall) (all_values (terms.atom «module».now ∷ (terms.atom name.now ∷ map (λ t. t.now) args.now))))) }
    ensures suits { (n : ℕ) → IfOk result (Suits n) }
    ensures alone { IfOk result IsAlone }
{
    let home = Term::atom(module.copy(alloc)?);
    let name = Term::atom(name.copy(alloc)?);
    becomes_call(alloc, &home, &name, args)
}

/// The redex becomes the call with these names.
fn becomes_call<'a>(
    alloc: Global,
    home: &Term,
    name: &Term,
    args: &[&Term],
) -> Result<Plan<'a>, AllocError>
    ensures effect { (p : Place) (v : Datum) → IfOk result (λ plan. effect p v plan ≡ turns p.bindings (node (written RemoteCall) (all_values (home.now ∷ (name.now ∷ map (λ t. t.now) args.now))))) }
    ensures suits { (n : ℕ) → IfOk result (Suits n) }
    ensures alone { IfOk result IsAlone }
{
    becomes(alloc, Doing::RemoteCall, &[home, name], args)
}
