//! A value goes outward.

ghost use Rattle.std.specs.Prelude.{◌≡◌, ◌≢◌, ◌≤◌, ◌<◌, ◌+◌, ◌-◌, ◌∷◌, ◌++◌, [], ℕ, length};
ghost use Rattle.edb_lang.specs.Pairs.{Pairs};
ghost use Rattle.edb_moves.specs.Running.{value};
ghost use Rattle.edb_moves.specs.Going.{Place, turns};
ghost use Rattle.edb_stack.specs.Marks.{AllBelow, Marked};
ghost use Rattle.edb_stack.specs.Bodies.{modules_of};
ghost use Rattle.edb_stack.specs.Feeding.{first_open, operands_layer};
ghost use Rattle.edb_stack.specs.Paths.{path_layers};
ghost use Rattle.edb_stack.specs.Places.{out};
ghost use Rattle.edb_stack.specs.Views.{info_of, item_of, layers_of, layer_of};
ghost use Rattle.edb_stack.specs.Redexes.{value_in};
ghost use Rattle.edb_stack.specs.declared.body.Body.{Body};
ghost use Rattle.edb_stack.specs.declared.layer.Layer.TheVariants as layers;
ghost use Rattle.edb_running.specs.Standing.{layers_in, info_in, pairs_in, tree_in, Holds, Sound};
ghost use Rattle.edb_running.specs.Rising.{next_code, IsNext, next_count, left_of, IsSound};
ghost use Rattle.edb_running.specs.declared.rise.Left.TheVariants.{Stays};

use crate::keep::cut_keeping;
use crate::running::Running;
use edb_pure::Raise;
use edb_stack::{Body, Fed, Item, Layer, Operands, Path, Redex};

/// What is left of an expression after a move.
#[derive(Drop)]
pub enum Left<'a> {
    /// It runs.
    Stays,
    /// It is this value, which is none of a pair.
    Ends(Item<'a>),
    /// It is this exception.
    Raises(Raise),
}

impl<'a> Running<'a> {
    /// A value in the place of the redex goes outward, to where it is used or to the end. `next` is the way to the code
    /// that is then evaluated. Takes no memory.
    pub(crate) fn give(&mut self, item: Item<'a>, next: Option<Path<'a>>) -> Left<'a>
        requires holds { Holds self.old }
        requires below { AllBelow (length (pairs_in self.old)) (item_of item ∷ []) }
        requires next { IsNext next (next_code self.old.layers.0) }
        requires room { next_count next ≤ self.old.layers.1 }
        ensures effect { (p : Place) → left_of p self.new result ≡ out p (layers_in self.old) (info_in self.old) (turns (pairs_in self.old) (value (value_in (pairs_in self.old) item.entry))) }
        ensures sound { IsSound result self.new }
    {
        let mut item = item;
        while let Some(layer) = self.layers.pop() {
            match layer {
                Layer::Body(outer) => item = self.leave(outer, item),
                layer => return self.fill(layer, item, next),
            }
        }
        Left::Ends(self.own(item))
    }

    /// The innermost Body goes, and the one round it is the innermost. The item, with its value.
    fn leave(&mut self, outer: Body<'a>, item: Item<'a>) -> Item<'a>
        requires below { AllBelow (length (pairs_in self.old)) (item_of item ∷ []) }
        requires bodies { 0 < self.old.bodies }
        ensures kept { self.new ≡ record self.old { here = outer.entry; bodies = self.old.bodies - 1 } }
        ensures value { (bs : Pairs) → value_in bs result ≡ value_in (pairs_in self.old) item.entry }
        ensures below { (n : ℕ) → AllBelow n (item_of result ∷ []) }
    {
        let item = self.own(item);
        self.here = outer;
        self.bodies -= 1;
        item
    }

    /// The item with its value, which is no longer that of a pair; the innermost Body's pairs go.
    fn own(&mut self, item: Item<'a>) -> Item<'a>
        requires below { AllBelow (length (pairs_in self.old)) (item_of item ∷ []) }
        ensures layers { self.new.layers ≡ self.old.layers }
        ensures redex { self.new.redex ≡ self.old.redex }
        ensures bodies { self.new.bodies ≡ self.old.bodies }
        ensures value { (bs : Pairs) → value_in bs result ≡ value_in (pairs_in self.old) item.entry }
        ensures below { (n : ℕ) → AllBelow n (item_of result ∷ []) }
    {
        cut_keeping(&mut self.here.variables, 0, item)
    }

    /// This stands in the hole.
    pub(crate) fn focus(&mut self, redex: Redex<'a>)
        ensures { self.new ≡ record self.old { redex = redex.entry } }
    {
        self.redex = redex;
    }

    /// A layer gets the value for which it waited.
    fn fill(&mut self, layer: Layer<'a>, item: Item<'a>, next: Option<Path<'a>>) -> Left<'a>
        requires item { AllBelow (length (pairs_in self.old)) (item_of item ∷ []) }
        requires marked { Marked (layer_of layer ∷ layers_in self.old) (length (pairs_in self.old)) }
        requires depth { self.old.bodies ≡ length (modules_of (layer_of layer ∷ layers_in self.old) (info_in self.old)) }
        requires inner { (b : Body) → layer ≢ layers.Body b }
        requires next { IsNext next (next_code (layer ∷ self.old.layers.0)) }
        requires room { next_count next + 1 ≤ self.old.layers.1 }
        ensures stays { result ≡ Stays }
        ensures tree { (p : Place) → turns p.bindings (tree_in self.new) ≡ out p (layer_of layer.entry ∷ layers_in self.old) (info_in self.old) (turns (pairs_in self.old) (value (value_in (pairs_in self.old) item.entry))) }
        ensures sound { Sound self.new }
    {
        match layer {
            Layer::Operands(operands) => self.feed(operands, item, next),
            other => {
                self.layers.push(other);
                self.focus(Redex::Value(item));
                Left::Stays
            }
        }
    }

    /// Operands get the value of one more.
    fn feed(&mut self, operands: Operands<'a>, item: Item<'a>, next: Option<Path<'a>>) -> Left<'a>
        requires item { AllBelow (length (pairs_in self.old)) (item_of item ∷ []) }
        requires marked { Marked (operands_layer operands ∷ layers_in self.old) (length (pairs_in self.old)) }
        requires depth { self.old.bodies ≡ length (modules_of (layers_in self.old) (info_in self.old)) }
        requires next { IsNext next (first_open operands.2) }
        requires room { next_count next + 1 ≤ self.old.layers.1 }
        ensures stays { result ≡ Stays }
        ensures tree { (p : Place) → turns p.bindings (tree_in self.new) ≡ out p (operands_layer operands.entry ∷ layers_in self.old) (info_in self.old) (turns (pairs_in self.old) (value (value_in (pairs_in self.old) item.entry))) }
        ensures sound { Sound self.new }
    {
        match operands.fill(item) {
            Fed::Full(doing, row) => {
                self.focus(Redex::Apply(doing, row));
                Left::Stays
            }
            Fed::Hole(operands, _) => match next {
                Some(path) => {
                    self.go_down(operands, path);
                    Left::Stays
                }
                None => unreachable!(),
            },
        }
    }

    /// The next of the operands is evaluated: this is the way to its redex.
    fn go_down(&mut self, operands: Operands<'a>, path: Path<'a>)
        requires room { length path.layers.items + 1 ≤ self.old.layers.1 }
        ensures layers { layers_in self.new ≡ path_layers path.entry ++ (operands_layer operands.entry ∷ layers_in self.old) }
        ensures here { self.new.here ≡ self.old.here }
        ensures redex { self.new.redex ≡ path.entry.redex }
        ensures bodies { self.new.bodies ≡ self.old.bodies }
    {
        self.layers.push(Layer::Operands(operands));
        self.layers.push_all(path.layers);
        self.focus(path.redex);
    }
}
