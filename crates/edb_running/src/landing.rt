//! Where a raise lands.

ghost use Rattle.std.specs.Prelude.{◌≡◌, ◌<◌, ◌^◌, ◌∷◌, List, IfOk, MatchOption, drop};
ghost use Rattle.edb_lang.specs.Limits.{limited};
ghost use Rattle.edb_lang.specs.Terms as terms;
ghost use Rattle.edb_lang.specs.Terms.{framed};
ghost use Rattle.edb_pure.specs.Lists as lists;
ghost use Rattle.edb_moves.specs.Clauses.{handler};
ghost use Rattle.edb_moves.specs.Going as going;
ghost use Rattle.edb_moves.specs.Running.{Info};
ghost use Rattle.edb_syntax.specs.Syntax.{catches_of};
ghost use Rattle.edb_variables.specs.PairStacks.{oldest};
ghost use Rattle.edb_stack.specs.Landings as raised;
ghost use Rattle.edb_stack.specs.Landings.{deeper};
ghost use Rattle.edb_stack.specs.Parts as parts;
ghost use Rattle.edb_stack.specs.Trees.{outward};
ghost use Rattle.edb_stack.specs.Views.{layer_of, layers_of};
ghost use Rattle.edb_running.specs.Landed as told;
ghost use Rattle.edb_running.specs.Landed.{IsLanding, IsCaught, IsChosen, stood};

use edb_guards::choose_catch;
use edb_lang::{Class, Limit, Name, Term};
use edb_pure::Raise;
use edb_stack::{Body, Layer, Stack};
use edb_syntax::{CatchClause, Sequence};
use edb_variables::Variables;
use std::alloc::{AllocError, Global};

/// What catches a raise, and with what it goes on.
#[derive(Drop)]
pub(crate) enum Landed<'a> {
    /// An opened `catch`, with its value.
    Value(Term),
    /// An opened `try`: the bindings and the sequence of the clause that is chosen.
    Clause(Variables, &'a Sequence),
    /// An `after` that waits.
    After(&'a Sequence),
}

/// Where a raise lands: how many layers lie within the one that catches it, and how many pairs are kept there.
#[derive(Drop)]
pub(crate) struct Landing<'a> {
    pub(crate) depth: usize,
    pub(crate) mark: usize,
    pub(crate) landed: Landed<'a>,
}

/// The bindings that are seen among layers: the oldest of a Body's, so many of them.
#[derive(Clone, Copy)]
pub(crate) struct Stand<'s> {
    pub(crate) variables: &'s Variables,
    pub(crate) mark: usize,
}

impl<'s> Stand<'s> {
    /// What is seen in a Body, outside of its scopes.
    pub(crate) fn in_body(body: &'s Body<'_>) -> Stand<'s>
        ensures { stood result ≡ body.entry.now.variables.pairs }
    {
        Stand {
            variables: &body.variables,
            mark: body.variables.len(),
        }
    }

    /// What is seen outside of a layer.
    pub(crate) fn outside<'a>(self, layer: &'s Layer<'a>) -> Stand<'s>
        ensures { (i : Info) → i.bindings ≡ stood self.entry → (outward (layer_of layer.entry.now) i).bindings ≡ stood result }
    {
        match layer {
            Layer::Body(body) => Stand::in_body(body),
            Layer::Scope(mark) => Stand {
                variables: self.variables,
                mark: self.mark.min(*mark),
            },
            _ => self,
        }
    }
}

/// Where a raise lands among layers, without the `offset` innermost of them, which see these bindings. `AllocError` only if
/// out of memory, here and in all that follows.
pub(crate) fn find_landing<'a>(
    alloc: Global,
    layers: &Stack<Layer<'a>>,
    offset: usize,
    stand: Stand<'_>,
    me: u32,
    raise: &Raise,
) -> Result<Option<Landing<'a>>, AllocError>
    ensures small { IfOk result (λ found. MatchOption found (Unit {0}) (λ l. l.depth < 2 ^ 63)) }
    ensures lands { (i : Info) → i.bindings ≡ stood stand.entry → IfOk result (IsLanding raise.now (layers_of (drop offset layers.now.0)) (raised.landing me (layers_of (drop offset layers.now.0)) i raise.now.class raise.now.reason)) }
{
    let mut stand = stand;
    let mut place = offset;
    while place < layers.len() {
        let Some(layer) = layers.get(place) else {
            return Ok(None);
        };
        if let Some(landed) = caught(alloc, layer, stand, me, raise)? {
            return Ok(Some(Landing {
                depth: place - offset,
                mark: mark_of(layer),
                landed,
            }));
        }
        stand = stand.outside(layer);
        place += 1;
    }
    Ok(None)
}

/// How many pairs a layer keeps that catches a raise.
fn mark_of(layer: &Layer<'_>) -> usize
    ensures { result ≡ told.mark_of (layer_of layer.now) }
{
    match layer {
        Layer::Caught(mark) => *mark,
        Layer::Tried(mark, _, _) => *mark,
        Layer::Waiting(mark, _) => *mark,
        _ => 0,
    }
}

/// With what a layer goes on that catches a raise; `None` where it lets it pass.
fn caught<'a>(
    alloc: Global,
    layer: &Layer<'a>,
    stand: Stand<'_>,
    me: u32,
    raise: &Raise,
) -> Result<Option<Landed<'a>>, AllocError>
    ensures { (ls : List parts.Layer) (i : Info) → i.bindings ≡ stood stand.entry → IfOk result (λ found. MatchOption found (raised.landing me (layer_of layer.now ∷ ls) i raise.now.class raise.now.reason ≡ deeper (raised.landing me ls (outward (layer_of layer.now) i) raise.now.class raise.now.reason)) (IsCaught raise.now i (told.mark_of (layer_of layer.now)) (raised.landing me (layer_of layer.now ∷ ls) i raise.now.class raise.now.reason))) }
{
    match layer {
        Layer::Caught(_) => Ok(Some(Landed::Value(caught_value(alloc, raise)?))),
        Layer::Tried(mark, _, catches) => choose(alloc, catches, stand, *mark, me, raise),
        Layer::Waiting(_, after) => Ok(Some(Landed::After(after))),
        _ => Ok(None),
    }
}

/// The clause that is chosen for a raise, with its bindings.
fn choose<'a>(
    alloc: Global,
    catches: &'a [CatchClause],
    stand: Stand<'_>,
    mark: usize,
    me: u32,
    raise: &Raise,
) -> Result<Option<Landed<'a>>, AllocError>
    ensures { IfOk result (λ found. IsChosen found (oldest mark (stood stand.entry)) (handler me (oldest mark (stood stand.entry)) (catches_of catches.entry.now) raise.now.class raise.now.reason)) }
{
    let mut kept = stand.variables.copy(alloc)?;
    kept.cut(stand.mark);
    kept.cut(mark);
    let chosen = choose_catch(alloc, catches, raise.class, &raise.reason, kept.pairs(), me)?;
    let Some(choice) = chosen else {
        return Ok(None);
    };
    kept.reserve(choice.pairs.len())?;
    kept.push_all(choice.pairs);
    Ok(Some(Landed::Clause(kept, choice.body)))
}

/// The value of `catch` for an exception.
fn caught_value(alloc: Global, raise: &Raise) -> Result<Term, AllocError>
    ensures { IfOk result (λ value. value ≡ going.caught_value raise.now.class raise.now.reason) }
{
    match raise.class {
        Class::Throw => raise.reason.copy(alloc),
        Class::Exit => exit_value(alloc, &raise.reason),
        Class::Error => error_value(alloc, &raise.reason),
    }
}

/// The value of `catch` for an exit.
fn exit_value(alloc: Global, reason: &Term) -> Result<Term, AllocError>
    ensures { IfOk result (λ value. value ≡ framed going.exit_tuple reason.now) }
{
    match exit_tuple(alloc, reason.copy(alloc)?)? {
        Ok(value) => Ok(value),
        Err(_) => match exit_tuple(alloc, atom(alloc, "system_limit")?)? {
            Ok(value) => Ok(value),
            Err(_) => unreachable!(),
        },
    }
}

/// The value of `catch` for an error.
fn error_value(alloc: Global, reason: &Term) -> Result<Term, AllocError>
    ensures { IfOk result (λ value. value ≡ framed going.error_tuple reason.now) }
{
    match error_tuple(alloc, reason.copy(alloc)?)? {
        Ok(value) => Ok(value),
        Err(_) => match error_tuple(alloc, atom(alloc, "system_limit")?)? {
            Ok(value) => Ok(value),
            Err(_) => unreachable!(),
        },
    }
}

/// `{'EXIT', Reason}`, within the limits.
fn exit_tuple(alloc: Global, reason: Term) -> Result<Result<Term, Limit>, AllocError>
    ensures { IfOk result (λ made. made ≡ limited (going.exit_tuple reason)) }
{
    pair(alloc, atom(alloc, "EXIT")?, reason)
}

/// `{'EXIT', {Reason, []}}`, within the limits.
fn error_tuple(alloc: Global, reason: Term) -> Result<Result<Term, Limit>, AllocError>
    ensures { IfOk result (λ made. made ≡ limited (going.error_tuple reason)) }
{
    match pair(alloc, reason, Term::nil())? {
        Ok(inner) => exit_tuple(alloc, inner),
        Err(limit) => Ok(Err(limit)),
    }
}

/// The tuple of two terms, within the limits.
fn pair(alloc: Global, first: Term, second: Term) -> Result<Result<Term, Limit>, AllocError>
    ensures { IfOk result (λ made. made ≡ limited (lists.pair first second)) }
{
    let mut items = Vec::with_capacity(alloc, 2)?;
    items.push(first)?;
    items.push(second)?;
    Term::tuple(alloc, items)
}

/// An atom of this name.
fn atom(alloc: Global, name: &str) -> Result<Term, AllocError>
    ensures { IfOk result (λ term. term ≡ terms.atom name.now) }
{
    Ok(Term::atom(Name::from_str(alloc, name)?))
}
