//! Layers go, up to where a raise lands.

ghost use Rattle.std.specs.Prelude.{◌≡◌, ◌≤◌, ◌<◌, ◌+◌, ◌-◌, ◌^◌, ◌∷◌, Some, length, drop};
ghost use Rattle.edb_moves.specs.Going.{Place, raises};
ghost use Rattle.edb_variables.specs.PairStacks.{oldest};
ghost use Rattle.edb_stack.specs.Bodies.{modules_of};
ghost use Rattle.edb_stack.specs.Landings as raised;
ghost use Rattle.edb_stack.specs.Marks.{Marked};
ghost use Rattle.edb_stack.specs.Places.{out};
ghost use Rattle.edb_stack.specs.Trees.{outward};
ghost use Rattle.edb_stack.specs.declared.redex.Redex.TheVariants as redexes;
ghost use Rattle.edb_stack.specs.Views.{layer_of};
ghost use Rattle.edb_running.specs.Landed.{info_at, IsLanding, LandsWith};
ghost use Rattle.edb_running.specs.Rising.{next_code, next_count, left_of, IsSound};
ghost use Rattle.edb_running.specs.Standing.{layers_in, info_in, pairs_in, Holds};

use crate::commit::unbegun;
use crate::landing::{Landed, Landing};
use crate::rise::Left;
use crate::running::Running;
use edb_pure::Raise;
use edb_stack::{Body, Item, Layer, Leaf, Path, Redex};
use edb_variables::Variables;

impl<'a> Running<'a> {
    /// A raise goes from the hole to where it lands. `next` is the way to the code that is evaluated there, where a value is
    /// left. Takes no memory.
    pub(crate) fn land(
        &mut self,
        me: u32,
        raise: Raise,
        landing: Landing<'a>,
        next: Option<Path<'a>>,
    ) -> Left<'a>
        requires holds { Holds self.old }
        requires small { landing.depth < 2 ^ 63 }
        requires lands { IsLanding raise (layers_in self.old) (raised.landing me (layers_in self.old) (info_in self.old) raise.class raise.reason) (Some landing) }
        requires next { LandsWith landing.landed next (next_code (drop (landing.depth + 1) self.old.layers.0)) }
        requires room { next_count next ≤ self.old.layers.1 }
        ensures effect { (p : Place) → p.me ≡ me → left_of p self.new result ≡ out p (layers_in self.old) (info_in self.old) (raises raise.class raise.reason) }
        ensures sound { IsSound result self.new }
    {
        self.unwind(landing.depth + 1);
        self.hide(landing.mark);
        let landed = landing.landed;
        match landed {
            Landed::Value(value) => self.give(Item::Value(value), next),
            Landed::Clause(variables, sequence) => {
                self.go_on(variables, unbegun(sequence));
                Left::Stays
            }
            Landed::After(sequence) => {
                self.focus(Redex::Leaf(Leaf::Failed(raise, sequence)));
                Left::Stays
            }
        }
    }

    /// So many layers go.
    fn unwind(&mut self, count: usize)
        requires holds { Holds self.old }
        ensures layers { self.new.layers.0 ≡ drop count self.old.layers.0 }
        ensures info { info_in self.new ≡ info_at count (layers_in self.old) (info_in self.old) }
        ensures holds { Holds self.new }
        ensures room { self.old.layers.1 ≤ self.new.layers.1 }
    {
        let mut left = count;
        while left > 0 {
            let Some(layer) = self.layers.pop() else {
                return;
            };
            self.go_outside(layer);
            left -= 1;
        }
    }

    /// A layer is gone: the innermost Body is as it is outside of that.
    fn go_outside(&mut self, layer: Layer<'a>)
        requires marked { Marked (layer_of layer ∷ layers_in self.old) (length (pairs_in self.old)) }
        requires depth { self.old.bodies ≡ length (modules_of (layer_of layer ∷ layers_in self.old) (info_in self.old)) }
        ensures layers { self.new.layers ≡ self.old.layers }
        ensures info { info_in self.new ≡ outward (layer_of layer.entry) (info_in self.old) }
        ensures holds { Holds self.new }
    {
        match layer {
            Layer::Body(outer) => self.end_body(outer),
            Layer::Scope(mark) => self.hide(mark),
            _ => {}
        }
    }

    /// The innermost Body is gone, and the one round it is the innermost.
    fn end_body(&mut self, outer: Body<'a>)
        requires bodies { 0 < self.old.bodies }
        ensures { self.new ≡ record self.old { here = outer.entry; bodies = self.old.bodies - 1 } }
    {
        self.here = outer;
        self.bodies -= 1;
    }

    /// The newest pairs go, down to this many.
    fn hide(&mut self, mark: usize)
        ensures layers { self.new.layers ≡ self.old.layers }
        ensures info { info_in self.new ≡ record (info_in self.old) { bindings = oldest mark (pairs_in self.old) } }
        ensures bodies { self.new.bodies ≡ self.old.bodies }
    {
        self.here.variables.cut(mark);
    }

    /// This stands in the hole, under these bindings.
    fn go_on(&mut self, variables: Variables, leaf: Leaf<'a>)
        ensures layers { self.new.layers ≡ self.old.layers }
        ensures info { info_in self.new ≡ record (info_in self.old) { bindings = variables.pairs } }
        ensures bodies { self.new.bodies ≡ self.old.bodies }
        ensures redex { self.new.redex ≡ redexes.Leaf leaf.entry }
    {
        self.here.variables = variables;
        self.focus(Redex::Leaf(leaf));
    }
}
