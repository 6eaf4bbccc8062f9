//! Where a call stands.

ghost use Rattle.std.specs.Prelude.{◌≡◌, ◌+◌, ◌∷◌, ℕ, List, drop};
ghost use Rattle.edb_syntax.specs.Syntax.{ModuleTree};
ghost use Rattle.std.specs.Option.{option_or};
ghost use Rattle.edb_moves.specs.Versions.{version_beside, by_name};
ghost use Rattle.edb_stack.specs.Parts as parts;
ghost use Rattle.edb_stack.specs.Views.{layer_of, layers_of};
ghost use Rattle.edb_calls.specs.Sites.{bodies_at, level_at};
ghost use Rattle.edb_calls.specs.Layered.{bodies_in};

use edb_lang::Name;
use edb_stack::{Body, Layer, Stack};

/// Where a call stands.
#[derive(Clone, Copy)]
pub struct Site<'s, 'a> {
    /// The process.
    pub me: u32,
    /// Whether the call is all that is left of the innermost Body.
    pub is_tail: bool,
    /// How many Bodies there are.
    pub bodies: usize,
    /// What stands round the call.
    pub layers: &'s Stack<Layer<'a>>,
    /// The innermost Body; `None` at the call with which a process begins.
    pub here: Option<&'s Body<'a>>,
}

impl<'s, 'a> Site<'s, 'a> {
    /// The level of the innermost Body, or 0.
    pub(crate) fn level(&self) -> u64
        ensures { result ≡ level_at self.now }
    {
        match self.here {
            Some(body) => body.level,
            None => 0,
        }
    }

    /// The version of the innermost Body of this module; `None` if none of it runs.
    pub(crate) fn running(&self, module: &Name) -> Option<u32>
        ensures { result ≡ version_beside «module».now (by_name (bodies_at self.now)) }
    {
        match self.here {
            Some(body) => match version_of(body, module) {
                Some(version) => Some(version),
                None => running_within(self.layers, module),
            },
            None => None,
        }
    }
}

/// The version of the innermost Body of this module among layers.
fn running_within(layers: &Stack<Layer<'_>>, module: &Name) -> Option<u32>
    ensures { result ≡ version_beside «module».now (by_name (bodies_in (layers_of layers.now.0))) }
{
    for depth in 0..layers.len() {
        if let Some(version) = version_at_depth(layers, depth, module) {
            return Some(version);
        }
    }
    None
}

/// The version of the layer with so many layers on top of it, where it is a Body of this module.
fn version_at_depth(layers: &Stack<Layer<'_>>, depth: usize, module: &Name) -> Option<u32>
    ensures { version_beside «module».now (by_name (bodies_in (layers_of (drop depth layers.now.0)))) ≡ option_or result (version_beside «module».now (by_name (bodies_in (layers_of (drop (depth + 1) layers.now.0))))) }
{
    match layers.get(depth) {
        Some(layer) => version_at(layer, module),
        None => None,
    }
}

/// The version of a layer that is a Body of this module.
fn version_at(layer: &Layer<'_>, module: &Name) -> Option<u32>
    ensures { (ls : List parts.Layer) → version_beside «module».now (by_name (bodies_in (layer_of layer.now ∷ ls))) ≡ option_or result (version_beside «module».now (by_name (bodies_in ls))) }
{
    match layer {
        Layer::Body(body) => version_of(body, module),
        _ => None,
    }
}

/// The version of a Body, where it is of this module.
fn version_of(body: &Body<'_>, module: &Name) -> Option<u32>
    ensures { (bs : List (ModuleTree × ℕ)) → version_beside «module».now (by_name ((body.now.unit.now, body.now.version) ∷ bs)) ≡ option_or result (version_beside «module».now (by_name bs)) }
{
    if body.unit.name().same(module) {
        Some(body.version)
    } else {
        None
    }
}
