//! What lies outward of a hole.

ghost use Rattle.std.specs.Prelude.{◌≡◌, ◌∷◌, List, drop, unwrap_or};
ghost use Rattle.std.specs.Option.{option_map};
ghost use Rattle.edb_stack.specs.Parts as parts;
ghost use Rattle.edb_stack.specs.Views.{layer_of, layers_of};
ghost use Rattle.edb_running.specs.Rising as rising;
ghost use Rattle.edb_running.specs.Tails.{is_last};

use edb_stack::{Layer, Stack};
use edb_syntax::Expr;

/// The code that is evaluated next once a value stands in the hole of these layers, without the `depth` innermost of them;
/// `None` if the value ends the whole expression, fills a layer, or is the last of operands that are not literals.
pub(crate) fn next_code<'a>(layers: &Stack<Layer<'a>>, depth: usize) -> Option<&'a Expr>
    ensures { option_map (λ e. e.now) result ≡ rising.next_code (drop depth layers.now.0) }
{
    let mut place = depth;
    while place < layers.len() {
        let Some(layer) = layers.get(place) else {
            return None;
        };
        match layer {
            Layer::Operands(operands) => return operands.next(),
            Layer::Body(_) => {}
            _ => return None,
        }
        place += 1;
    }
    None
}

/// Whether the hole of these layers is all that is left of the innermost Body, so that a call there takes its place.
pub fn is_tail(layers: &Stack<Layer>) -> bool
    ensures { result ≡ is_last (layers_of layers.now.0) }
{
    let mut place = 0;
    while place < layers.len() {
        let Some(layer) = layers.get(place) else {
            return true;
        };
        match passes_tail(layer) {
            Some(answer) => return answer,
            None => {}
        }
        place += 1;
    }
    true
}

/// Whether what this layer waits for is all that is left of the innermost Body; `None` where the layers round it tell.
fn passes_tail(layer: &Layer) -> Option<bool>
    ensures { (ls : List parts.Layer) → is_last (layer_of layer.now ∷ ls) ≡ unwrap_or result (is_last ls) }
{
    match layer {
        Layer::Sequence(_, rest) => { if rest.is_empty() { None } else { Some(false) } }
        Layer::Body(_) => Some(true),
        _ => Some(false),
    }
}
