//! Clauses that are entered.

ghost use Rattle.std.specs.Prelude.{◌≡◌, ◌<◌, ◌^◌, ℕ, IfOk, codes, length, map, unwrap_or};
ghost use Rattle.std.specs.Option.{option_map};
ghost use Rattle.edb_lang.specs.Terms.{Datum};
ghost use Rattle.edb_moves.specs.Calls as calls;
ghost use Rattle.edb_moves.specs.Running.{body as body_of, leaf, unbegun};
ghost use Rattle.edb_path.specs.Plans.{effect, Suits};
ghost use Rattle.edb_stack.specs.Views.{info_of};
ghost use Rattle.edb_syntax.specs.Syntax.{clauses_of};
ghost use Rattle.edb_variables.specs.PairStacks.{newest_first};
ghost use Rattle.edb_calls.specs.Sites.{bodies_at, level_at, spot};
ghost use Rattle.edb_calls.specs.Alone.{IsAlone};

use crate::raises::fails;
use crate::site::Site;
use edb_guards::choose;
use edb_lang::{Captured, Name, Term};
use edb_path::Plan;
use edb_stack::Body;
use edb_syntax::{Clause, Sequence};
use edb_units::Unit;
use edb_variables::Variables;
use std::alloc::{AllocError, Global};

/// Calls nest at most this deep.
const MOST_NESTED: usize = 16384;

/// The clauses that a call enters, and what the Body says of them.
#[derive(Clone, Copy)]
pub(crate) struct Callee<'a> {
    /// Their module.
    pub(crate) unit: &'a Unit<'a>,
    pub(crate) version: u32,
    /// The function's name; none for a fun.
    pub(crate) name: Option<&'a Name>,
    pub(crate) arity: u32,
    pub(crate) clauses: &'a [Clause],
}

impl<'a> Callee<'a> {
    /// What a call with these arguments does: the clause that is chosen is entered, and an error is raised where none is.
    /// `hidden` is what the guards and the sequences see besides, newest last. `AllocError` only if out of memory.
    pub(crate) fn enter(
        self,
        alloc: Global,
        hidden: Vec<Captured>,
        args: &[&Term],
        site: &Site<'_, 'a>,
    ) -> Result<Plan<'a>, AllocError>
        requires depth { site.now.bodies ≡ length (bodies_at site.now) }
        requires room { level_at site.now < 2 ^ 63 }
        ensures effect { (v : Datum) → IfOk result (λ plan. effect (spot site.now) v plan ≡ calls.entered (spot site.now) self.entry.unit.now self.entry.version (unwrap_or (option_map (λ f. f.now) self.entry.name) (codes "fun")) self.entry.arity (clauses_of self.entry.clauses.now) (newest_first hidden.items) (map (λ t. t.now) args.now)) }
        ensures suits { (n : ℕ) → IfOk result (Suits n) }
        ensures alone { IfOk result IsAlone }
    {
        let Some(choice) = choose(alloc, self.clauses, args, &[], &hidden, site.me)? else {
            return fails(alloc, "function_clause");
        };
        let mut pairs = hidden;
        let mut new = choice.pairs;
        pairs.append(&mut new)?;
        let body = Body {
            unit: self.unit,
            version: self.version,
            name: self.name,
            arity: self.arity,
            level: site.level() + 1,
            variables: Variables::of(pairs),
        };
        nest(alloc, body, choice.body, site)
    }
}

/// A Body in the place of a call: in that of the innermost Body where nothing else is left of it. One level more than are
/// allowed is refused. `AllocError` only if out of memory.
fn nest<'a>(
    alloc: Global,
    body: Body<'a>,
    sequence: &'a Sequence,
    site: &Site<'_, 'a>,
) -> Result<Plan<'a>, AllocError>
    requires { site.now.bodies ≡ length (bodies_at site.now) }
    ensures effect { (v : Datum) → IfOk result (λ plan. effect (spot site.now) v plan ≡ calls.nested (spot site.now) (body_of (info_of body.entry) (leaf (unbegun sequence.entry.now)))) }
    ensures suits { (n : ℕ) → IfOk result (Suits n) }
    ensures alone { IfOk result IsAlone }
{
    if site.is_tail {
        return Ok(Plan::Replaces(body, sequence));
    }
    if site.bodies < MOST_NESTED {
        return Ok(Plan::Enters(body, sequence));
    }
    fails(alloc, "system_limit")
}
