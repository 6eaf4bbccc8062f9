//! The way down to the next redex.

ghost use Rattle.std.specs.Prelude.{◌≡◌, ℕ, true, ◌∷◌, None, IfOk, reverse};
ghost use Rattle.edb_lang.specs.Pairs.{Pairs};
ghost use Rattle.edb_syntax.specs.Syntax.{qualifiers_of};
ghost use Rattle.edb_moves.specs.Running.{value_of, running};
ghost use Rattle.edb_moves.specs.Comprehensions.{listed as list_worked};
ghost use Rattle.edb_stack.specs.Views.{layer_of, layers_of};
ghost use Rattle.edb_stack.specs.Paths.{outer, wrapped, waits, path_layers, path_tree, Fit, Leads};
ghost use Rattle.edb_path.specs.Waiting.{MayStand, Waits};

use crate::steps::{Step, step_down};
use edb_stack::{Layer, Leaf, Path, Redex};
use edb_syntax::{Expr, Qualifier, QualifierNode};
use std::alloc::{AllocError, Global};

/// The way down to the redex of this code within these layers, of which the first is the outermost. The code is no
/// literal. The path may be put into each hole into which the layers may be put; what it adds to them has no bindings of
/// its own. `AllocError` only if out of memory, here and in all that follows; a fun with 2^32 parameters or more counts as
/// that.
pub fn way<'a>(
    alloc: Global,
    layers: Vec<Layer<'a>>,
    code: &'a Expr,
) -> Result<Path<'a>, AllocError>
    requires { value_of (running code.now) ≡ None }
    ensures tree { (bs : Pairs) → IfOk result (λ path. path_tree bs path ≡ wrapped (layers_of (reverse layers.entry.items)) bs (running code.entry.now)) }
    ensures leads { (k n : ℕ) → Fit k n (layers_of (reverse layers.entry.items)) → IfOk result (λ path. Leads k n path) }
    ensures outer { (bs : Pairs) → IfOk result (λ path. outer (path_layers path) bs ≡ outer (layers_of (reverse layers.entry.items)) bs) }
{
    walk_down(alloc, layers, code)
}

/// The same where the innermost of these layers waits for the value of this code, which may be a literal: then it is that
/// value.
pub fn under<'a>(
    alloc: Global,
    layers: Vec<Layer<'a>>,
    code: &'a Expr,
) -> Result<Path<'a>, AllocError>
    requires { Waits (layers_of (reverse layers.items)) }
    ensures tree { (bs : Pairs) → IfOk result (λ path. path_tree bs path ≡ wrapped (layers_of (reverse layers.entry.items)) bs (running code.entry.now)) }
    ensures leads { (k n : ℕ) → Fit k n (layers_of (reverse layers.entry.items)) → IfOk result (λ path. Leads k n path) }
    ensures outer { (bs : Pairs) → IfOk result (λ path. outer (path_layers path) bs ≡ outer (layers_of (reverse layers.entry.items)) bs) }
{
    walk_down(alloc, layers, code)
}

/// The same for the list of a comprehension that was opened: this is the element's expression, and these qualifiers are
/// still to be worked.
pub fn listed<'a>(
    alloc: Global,
    layers: Vec<Layer<'a>>,
    element: &'a Expr,
    qualifiers: &'a [Qualifier],
) -> Result<Path<'a>, AllocError>
    ensures tree { (bs : Pairs) → IfOk result (λ path. path_tree bs path ≡ wrapped (layers_of (reverse layers.entry.items)) bs (list_worked element.entry.now (qualifiers_of qualifiers.entry.now))) }
    ensures leads { (k n : ℕ) → Fit k n (layers_of (reverse layers.entry.items)) → IfOk result (λ path. Leads k n path) }
    ensures outer { (bs : Pairs) → IfOk result (λ path. outer (path_layers path) bs ≡ outer (layers_of (reverse layers.entry.items)) bs) }
{
    let Some((qualifier, rest)) = qualifiers.split_first() else {
        let redex = Redex::Leaf(Leaf::Collecting(element));
        return Ok(Path { layers, redex });
    };
    match &qualifier.node {
        QualifierNode::Generator(pattern, list) => {
            within(alloc, layers, Layer::Generate(pattern, element, rest), list)
        }
        QualifierNode::Filter(test) => within(alloc, layers, Layer::Filter(element, rest), test),
    }
}

/// The same as `under` with one more layer, the innermost.
fn within<'a>(
    alloc: Global,
    layers: Vec<Layer<'a>>,
    layer: Layer<'a>,
    code: &'a Expr,
) -> Result<Path<'a>, AllocError>
    requires { waits (layer_of layer) ≡ true }
    ensures tree { (bs : Pairs) → IfOk result (λ path. path_tree bs path ≡ wrapped (layer_of layer.entry ∷ layers_of (reverse layers.entry.items)) bs (running code.entry.now)) }
    ensures leads { (k n : ℕ) → Fit k n (layer_of layer.entry ∷ layers_of (reverse layers.entry.items)) → IfOk result (λ path. Leads k n path) }
    ensures outer { (bs : Pairs) → IfOk result (λ path. outer (path_layers path) bs ≡ outer (layer_of layer.entry ∷ layers_of (reverse layers.entry.items)) bs) }
{
    let mut layers = layers;
    layers.push(layer)?;
    under(alloc, layers, code)
}

/// Goes down into code, which may be a literal where the innermost layer waits for its value.
fn walk_down<'a>(
    alloc: Global,
    layers: Vec<Layer<'a>>,
    code: &'a Expr,
) -> Result<Path<'a>, AllocError>
    requires { MayStand (layers_of (reverse layers.items)) (value_of (running code.now)) }
    ensures tree { (bs : Pairs) → IfOk result (λ path. path_tree bs path ≡ wrapped (layers_of (reverse layers.entry.items)) bs (running code.entry.now)) }
    ensures leads { (k n : ℕ) → Fit k n (layers_of (reverse layers.entry.items)) → IfOk result (λ path. Leads k n path) }
    ensures outer { (bs : Pairs) → IfOk result (λ path. outer (path_layers path) bs ≡ outer (layers_of (reverse layers.entry.items)) bs) }
{
    let mut layers = layers;
    let mut part = code;
    loop {
        let (layer, inner) = match step_down(alloc, part)? {
            Step::Ends(redex) => return Ok(Path { layers, redex }),
            Step::Goes(layer, inner) => (layer, inner),
        };
        layers.push(layer)?;
        part = inner;
    }
}
