//! Calls of functions by their names.

ghost use Rattle.std.specs.Prelude.{◌≡◌, ◌<◌, ◌^◌, ◌&&◌, [], ℕ, IfOk, codes, if◌then◌else◌, length, map};
ghost use Rattle.std.specs.Option.{option_map};
ghost use Rattle.edb_lang.specs.Terms.{Datum};
ghost use Rattle.edb_moves.specs.Calls as calls;
ghost use Rattle.edb_moves.specs.Calls.{built_in as built_in_move, is_unshared};
ghost use Rattle.edb_moves.specs.Going.{Place};
ghost use Rattle.edb_moves.specs.Moves.{operation_move};
ghost use Rattle.edb_moves.specs.Raises as raises;
ghost use Rattle.edb_moves.specs.Running.{written};
ghost use Rattle.edb_moves.specs.Versions.{version_for, by_name};
ghost use Rattle.edb_path.specs.Plans.{effect, Suits};
ghost use Rattle.edb_syntax.specs.declared.operation.Operation.TheVariants.{RemoteCall};
ghost use Rattle.edb_table.specs.Marking.{is_auto};
ghost use Rattle.edb_calls.specs.Exported.{exported_call, target_of};
ghost use Rattle.edb_calls.specs.Sites.{bodies_at, level_at, spot};
ghost use Rattle.edb_calls.specs.Alone.{IsAlone};

use crate::built_ins::BuiltIn;
use crate::entering::Callee;
use crate::functions::{exported, function_of};
use crate::raises::fails;
use crate::site::Site;
use edb_lang::{Name, Node, Term};
use edb_path::Plan;
use edb_program::Program;
use edb_syntax::Function;
use edb_units::Unit;
use edb_versions::Versions;
use std::alloc::{AllocError, Global};

/// A function of a module, called with these arguments. `AllocError` only if out of memory, here and in all that follows.
fn enter_function<'a>(
    alloc: Global,
    unit: &'a Unit<'a>,
    version: u32,
    function: &'a Function,
    args: &[&Term],
    site: &Site<'_, 'a>,
) -> Result<Plan<'a>, AllocError>
    requires depth { site.now.bodies ≡ length (bodies_at site.now) }
    requires room { level_at site.now < 2 ^ 63 }
    ensures effect { (v : Datum) → IfOk result (λ plan. effect (spot site.now) v plan ≡ calls.entered (spot site.now) unit.entry.now version function.entry.now.name function.entry.now.arity function.entry.now.clauses [] (map (λ t. t.now) args.now)) }
    ensures suits { (n : ℕ) → IfOk result (Suits n) }
    ensures alone { IfOk result IsAlone }
{
    let callee = Callee {
        unit,
        version,
        name: Some(&function.name),
        arity: function.arity,
        clauses: &function.clauses,
    };
    callee.enter(alloc, Vec::new(alloc), args, site)
}

/// A call without a module, as if it were written in this module, of this version: its function of that name, or else a
/// built-in that needs no module.
pub(crate) fn own_plan<'a>(
    alloc: Global,
    unit: &'a Unit<'a>,
    version: u32,
    name: &Name,
    args: &[&Term],
    site: &Site<'_, 'a>,
) -> Result<Plan<'a>, AllocError>
    requires depth { site.now.bodies ≡ length (bodies_at site.now) }
    requires room { level_at site.now < 2 ^ 63 }
    ensures effect { (v : Datum) → IfOk result (λ plan. effect (spot site.now) v plan ≡ calls.own_call (spot site.now) unit.entry.now version name.now (map (λ t. t.now) args.now)) }
    ensures suits { (n : ℕ) → IfOk result (Suits n) }
    ensures alone { IfOk result IsAlone }
{
    match function_of(unit, name, args.len()) {
        Some(function) => enter_function(alloc, unit, version, function, args, site),
        None => auto_plan(alloc, name, args, site.me),
    }
}

/// A built-in that is called without its module.
fn auto_plan<'a>(
    alloc: Global,
    name: &Name,
    args: &[&Term],
    me: u32,
) -> Result<Plan<'a>, AllocError>
    ensures effect { (p : Place) (v : Datum) → p.me ≡ me → IfOk result (λ plan. effect p v plan ≡ (if is_auto (codes "erlang", (name.now, length args.now)) && is_unshared (codes "erlang", (name.now, length args.now)) then built_in_move p (codes "erlang", (name.now, length args.now)) (map (λ t. t.now) args.now) else raises.fails (codes "undef"))) }
    ensures suits { (n : ℕ) → IfOk result (Suits n) }
    ensures alone { IfOk result IsAlone }
{
    let Some(built_in) = BuiltIn::find("erlang", name.as_str(), args.len()) else {
        return fails(alloc, "undef");
    };
    if built_in.is_auto() {
        return built_in.plan(alloc, args, me);
    }
    fails(alloc, "undef")
}

/// A call without a module: it stands in that of the innermost Body.
pub(crate) fn local_plan<'a>(
    alloc: Global,
    name: &Name,
    args: &[&Term],
    site: &Site<'_, 'a>,
) -> Result<Plan<'a>, AllocError>
    requires depth { site.now.bodies ≡ length (bodies_at site.now) }
    requires room { level_at site.now < 2 ^ 63 }
    ensures effect { (v : Datum) → IfOk result (λ plan. effect (spot site.now) v plan ≡ calls.local_call (spot site.now) (bodies_at site.now) name.now (map (λ t. t.now) args.now)) }
    ensures suits { (n : ℕ) → IfOk result (Suits n) }
    ensures alone { IfOk result IsAlone }
{
    match site.here {
        Some(body) => own_plan(alloc, body.unit, body.version, name, args, site),
        None => fails(alloc, "undef"),
    }
}

/// A call with a module: the first two operands name the function.
pub(crate) fn remote_plan<'a>(
    alloc: Global,
    program: &'a Program<'a>,
    versions: &Versions,
    operands: &[&Term],
    site: &Site<'_, 'a>,
) -> Result<Plan<'a>, AllocError>
    requires depth { site.now.bodies ≡ length (bodies_at site.now) }
    requires room { level_at site.now < 2 ^ 63 }
    ensures effect { (v : Datum) → IfOk result (λ plan. effect (spot site.now) v plan ≡ operation_move program.entry.now versions.now (spot site.now) (written RemoteCall) (map (λ t. t.now) operands.now)) }
    ensures suits { (n : ℕ) → IfOk result (Suits n) }
    ensures alone { IfOk result IsAlone }
{
    let Some(target) = Target::of(operands) else {
        return fails(alloc, "badarg");
    };
    named_plan(
        alloc,
        program,
        versions,
        target.home,
        target.name,
        target.args,
        site,
    )
}

/// What a call with a module names, and its arguments.
#[derive(Clone, Copy)]
struct Target<'t> {
    home: &'t Name,
    name: &'t Name,
    args: &'t [&'t Term],
}

impl<'t> Target<'t> {
    /// The first two operands are the atoms that name the function; `None` if they aren't.
    fn of(operands: &'t [&'t Term]) -> Option<Target<'t>>
        ensures { option_map (λ t. (t.home.now, (t.name.now, map (λ t. t.now) t.args.now))) result ≡ target_of (map (λ t. t.now) operands.entry.now) }
    {
        let [home, name, args @ ..] = operands else {
            return None;
        };
        let Node::Atom(home) = &home.node else {
            return None;
        };
        let Node::Atom(name) = &name.node else {
            return None;
        };
        Some(Target { home, name, args })
    }
}

/// A call of this function of this module: a built-in, or a function that the module exports.
fn named_plan<'a>(
    alloc: Global,
    program: &'a Program<'a>,
    versions: &Versions,
    home: &Name,
    name: &Name,
    args: &[&Term],
    site: &Site<'_, 'a>,
) -> Result<Plan<'a>, AllocError>
    requires depth { site.now.bodies ≡ length (bodies_at site.now) }
    requires room { level_at site.now < 2 ^ 63 }
    ensures effect { (v : Datum) → IfOk result (λ plan. effect (spot site.now) v plan ≡ calls.remote_call program.entry.now versions.now (spot site.now) home.now name.now (map (λ t. t.now) args.now)) }
    ensures suits { (n : ℕ) → IfOk result (Suits n) }
    ensures alone { IfOk result IsAlone }
{
    match BuiltIn::find(home.as_str(), name.as_str(), args.len()) {
        Some(built_in) => built_in.plan(alloc, args, site.me),
        None => exported_plan(alloc, program, versions, home, name, args, site),
    }
}

/// A call of a function that a module exports.
fn exported_plan<'a>(
    alloc: Global,
    program: &'a Program<'a>,
    versions: &Versions,
    home: &Name,
    name: &Name,
    args: &[&Term],
    site: &Site<'_, 'a>,
) -> Result<Plan<'a>, AllocError>
    requires depth { site.now.bodies ≡ length (bodies_at site.now) }
    requires room { level_at site.now < 2 ^ 63 }
    ensures effect { (v : Datum) → IfOk result (λ plan. effect (spot site.now) v plan ≡ exported_call (spot site.now) (calls.called_module program.entry.now versions.now (spot site.now) home.now) name.now (map (λ t. t.now) args.now)) }
    ensures suits { (n : ℕ) → IfOk result (Suits n) }
    ensures alone { IfOk result IsAlone }
{
    let Some(version) = version_called(versions, home, site) else {
        return fails(alloc, "undef");
    };
    let Some(unit) = program.unit(home, version) else {
        return fails(alloc, "undef");
    };
    match exported(unit, name, args.len()) {
        Some(function) => enter_function(alloc, unit, version, function, args, site),
        None => fails(alloc, "undef"),
    }
}

/// The version of a module that a call takes: that of the innermost Body of the module, or else the current one.
#[tactic(auto, using(edb_versions::proofs::Beside::by_a_body, edb_versions::proofs::Beside::by_the_current))]
fn version_called(versions: &Versions, module: &Name, site: &Site<'_, '_>) -> Option<u32>
    ensures { result ≡ version_for versions.now (by_name (bodies_at site.now)) «module».now }
{
    match site.running(module) {
        Some(version) => Some(version),
        None => versions.current(module),
    }
}
