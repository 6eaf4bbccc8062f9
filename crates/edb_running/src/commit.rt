//! A plan is done.

ghost use Rattle.std.specs.Prelude.{◌≡◌, ◌≢◌, ◌≤◌, ◌<◌, ◌+◌, ◌-◌, ◌∷◌, ◌++◌, [], ℕ, length};
ghost use Rattle.edb_lang.specs.Terms.{Datum};
ghost use Rattle.edb_moves.specs.Running as leaves;
ghost use Rattle.edb_moves.specs.Going.{Place, turns};
ghost use Rattle.edb_pure.specs.declared.Raise.{Raise};
ghost use Rattle.edb_variables.specs.PairStacks.{newest_first, oldest};
ghost use Rattle.edb_stack.specs.Marks.{AllBelow};
ghost use Rattle.edb_stack.specs.Places.{place, out};
ghost use Rattle.edb_stack.specs.Holes.{hole_layers, hole_info};
ghost use Rattle.edb_stack.specs.Paths.{IsFilled, path_layers, Leads};
ghost use Rattle.edb_stack.specs.Views.{info_of, item_of, leaf_of};
ghost use Rattle.edb_stack.specs.Redexes.{value_in};
ghost use Rattle.edb_stack.specs.declared.redex.Redex.TheVariants.{Value};
ghost use Rattle.edb_path.specs.Plans.{effect, Suits};
ghost use Rattle.edb_path.specs.declared.plan.Plan.TheVariants.{Raises, Passes, Turns, Enters, Replaces};
ghost use Rattle.edb_running.specs.Standing.{layers_in, info_in, pairs_in, tree_in, Holds, Sound};
ghost use Rattle.edb_running.specs.Outermost.{beyond};
ghost use Rattle.edb_running.specs.Vacant.{HasWay, code_behind, round_hole, hole_in, filling, plan_count, pair_count};
ghost use Rattle.edb_running.specs.Rising.{next_code, IsNext, next_count, left_of, IsSound};

use crate::keep::cut_keeping;
use crate::rise::Left;
use crate::running::Running;
use edb_lang::{ActKind, Captured, Term};
use edb_path::Plan;
use edb_stack::{Body, Item, Layer, Leaf, Path, Redex};
use edb_syntax::Sequence;
use std::mem;

impl<'a> Running<'a> {
    /// Does what a plan says that raises nothing, with the way and the room that `prepare` made. Takes no memory.
    pub(crate) fn commit(&mut self, plan: Plan<'a>, next: Option<Path<'a>>) -> Left<'a>
        requires sound { Sound self.old }
        requires quiet { (r : Raise) → plan ≢ Raises r }
        requires suits { Suits (length (hole_in self.old).bindings) plan }
        requires next { HasWay plan next (next_code (code_behind self.old.layers.0 self.old.redex)) }
        requires room { plan_count plan + next_count next + 1 ≤ self.old.layers.1 }
        requires pair_room { pair_count plan ≤ self.old.here.variables.room }
        ensures effect { (p : Place) → left_of p self.new result ≡ out p (round_hole self.old) (hole_in self.old) (effect (place p (round_hole self.old) (hole_in self.old)) (filling self.old) plan.entry) }
        ensures sound { IsSound result self.new }
    {
        let item = self.vacate();
        match plan {
            Plan::Gives(value) => self.give(value, next),
            Plan::Passes(pairs) => self.pass(pairs, item, next),
            Plan::Turns(pairs, path) => {
                self.turn(pairs, path);
                Left::Stays
            }
            Plan::Enters(body, sequence) => {
                self.enter(body, sequence);
                Left::Stays
            }
            Plan::Replaces(body, sequence) => {
                self.replace(body, sequence);
                Left::Stays
            }
            Plan::Raises(_) => unreachable!(),
        }
    }

    /// What fills the innermost layer goes, and that layer with it; the value. Where no value stands in the hole, nothing
    /// goes, and the value is `[]`.
    pub(crate) fn vacate(&mut self) -> Item<'a>
        requires sound { Sound self.old }
        ensures layers { self.new.layers.0 ≡ code_behind self.old.layers.0 self.old.redex }
        ensures info { info_in self.new ≡ hole_in self.old }
        ensures value { value_in (pairs_in self.new) result ≡ filling self.old }
        ensures below { AllBelow (length (pairs_in self.new)) (item_of result ∷ []) }
        ensures holds { Holds self.new }
        ensures room { self.old.layers.1 ≤ self.new.layers.1 }
        ensures pair_room { self.old.here.variables.room ≤ self.new.here.variables.room }
    {
        let missing = Redex::Leaf(Leaf::Missing(ActKind::End));
        match mem::replace(&mut self.redex, missing) {
            Redex::Value(item) => self.uncover(item),
            other => {
                self.focus(other);
                Item::Value(Term::nil())
            }
        }
    }

    /// The layer that a value fills goes; the value.
    fn uncover(&mut self, item: Item<'a>) -> Item<'a>
        requires holds { Holds self.old }
        requires below { AllBelow (length (pairs_in self.old)) (item_of item ∷ []) }
        requires filled { IsFilled (layers_in self.old) (Value item) }
        ensures layers { self.new.layers.0 ≡ code_behind self.old.layers.0 (Value item.entry) }
        ensures info { info_in self.new ≡ hole_info (layers_in self.old) (info_in self.old) (Value item.entry) }
        ensures value { value_in (pairs_in self.new) result ≡ value_in (pairs_in self.old) item.entry }
        ensures below { AllBelow (length (pairs_in self.new)) (item_of result ∷ []) }
        ensures holds { Holds self.new }
        ensures room { self.old.layers.1 ≤ self.new.layers.1 }
        ensures pair_room { self.old.here.variables.room ≤ self.new.here.variables.room }
    {
        let Some(layer) = self.layers.pop() else {
            unreachable!();
        };
        if let Layer::Scope(mark) = layer {
            return self.cut(mark, item);
        }
        item
    }

    /// The newest pairs go, down to this many; the item, with the same value.
    pub(crate) fn cut(&mut self, mark: usize, item: Item<'a>) -> Item<'a>
        requires below { AllBelow (length (pairs_in self.old)) (item_of item ∷ []) }
        requires mark { mark ≤ length (pairs_in self.old) }
        ensures layers { self.new.layers ≡ self.old.layers }
        ensures info { info_in self.new ≡ record (info_in self.old) { bindings = oldest mark (pairs_in self.old) } }
        ensures redex { self.new.redex ≡ self.old.redex }
        ensures bodies { self.new.bodies ≡ self.old.bodies }
        ensures value { value_in (pairs_in self.new) result ≡ value_in (pairs_in self.old) item.entry }
        ensures below { AllBelow mark (item_of result ∷ []) }
        ensures pair_room { self.old.here.variables.room ≤ self.new.here.variables.room }
    {
        cut_keeping(&mut self.here.variables, mark, item)
    }

    /// These pairs are bound, and what this way leads to stands in the hole.
    fn turn(&mut self, pairs: Vec<Captured>, path: Path<'a>)
        requires holds { Holds self.old }
        requires leads { Leads (length (pairs_in self.old)) (length pairs.items + length (pairs_in self.old)) path }
        requires room { length path.layers.items ≤ self.old.layers.1 }
        requires pair_room { length pairs.items ≤ self.old.here.variables.room }
        ensures effect { (p : Place) (v : Datum) → turns p.bindings (tree_in self.new) ≡ out p (layers_in self.old) (info_in self.old) (effect (place p (layers_in self.old) (info_in self.old)) v (Turns pairs path.entry)) }
        ensures sound { Sound self.new }
    {
        self.bind(pairs);
        self.layers.push_all(path.layers);
        self.focus(path.redex);
    }

    /// These pairs are bound.
    fn bind(&mut self, pairs: Vec<Captured>)
        requires pair_room { length pairs.items ≤ self.old.here.variables.room }
        ensures layers { self.new.layers ≡ self.old.layers }
        ensures info { info_in self.new ≡ record (info_in self.old) { bindings = newest_first pairs.items ++ pairs_in self.old } }
        ensures redex { self.new.redex ≡ self.old.redex }
        ensures bodies { self.new.bodies ≡ self.old.bodies }
    {
        self.here.variables.push_all(pairs);
    }

    /// This call stands in the hole.
    fn enter(&mut self, body: Body<'a>, sequence: &'a Sequence)
        requires holds { Holds self.old }
        requires room { 0 < self.old.layers.1 }
        ensures effect { (p : Place) (v : Datum) → turns p.bindings (tree_in self.new) ≡ out p (layers_in self.old) (info_in self.old) (effect (place p (layers_in self.old) (info_in self.old)) v (Enters body.entry sequence.entry)) }
        ensures sound { Sound self.new }
    {
        let outer = mem::replace(&mut self.here, body);
        self.layers.push(Layer::Body(outer));
        let count = self.layers.len();
        self.bodies += 1;
        self.focus(Redex::Leaf(unbegun(sequence)));
    }

    /// This call stands in the place of the innermost Body.
    fn replace(&mut self, body: Body<'a>, sequence: &'a Sequence)
        requires holds { Holds self.old }
        ensures effect { (p : Place) (v : Datum) → turns p.bindings (tree_in self.new) ≡ out p (layers_in self.old) (info_in self.old) (effect (place p (layers_in self.old) (info_in self.old)) v (Replaces body.entry sequence.entry)) }
        ensures sound { Sound self.new }
    {
        self.leave_all();
        self.here = body;
        self.focus(Redex::Leaf(unbegun(sequence)));
    }

    /// All layers of the innermost Body go.
    fn leave_all(&mut self)
        ensures layers { layers_in self.new ≡ beyond (layers_in self.old) }
        ensures here { self.new.here ≡ self.old.here }
        ensures bodies { self.new.bodies ≡ self.old.bodies }
    {
        while let Some(layer) = self.layers.pop() {
            if let Layer::Body(outer) = layer {
                self.layers.push(Layer::Body(outer));
                return;
            }
        }
    }

    /// The value that filled the innermost layer goes on, with these pairs bound.
    fn pass(&mut self, pairs: Vec<Captured>, item: Item<'a>, next: Option<Path<'a>>) -> Left<'a>
        requires holds { Holds self.old }
        requires below { AllBelow (length (pairs_in self.old)) (item_of item ∷ []) }
        requires next { IsNext next (next_code self.old.layers.0) }
        requires room { next_count next ≤ self.old.layers.1 }
        requires pair_room { length pairs.items ≤ self.old.here.variables.room }
        ensures effect { (p : Place) → left_of p self.new result ≡ out p (layers_in self.old) (info_in self.old) (effect (place p (layers_in self.old) (info_in self.old)) (value_in (pairs_in self.old) item.entry) (Passes pairs)) }
        ensures sound { IsSound result self.new }
    {
        self.bind(pairs);
        self.give(item, next)
    }
}

/// A sequence of which no expression is begun.
pub(crate) fn unbegun<'a>(sequence: &'a Sequence) -> Leaf<'a>
    ensures { leaf_of result ≡ leaves.unbegun sequence.entry.now }
{
    Leaf::Unbegun(&sequence.first, &sequence.rest)
}
