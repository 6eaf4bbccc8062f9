//! The list of the element of a comprehension.

ghost use Rattle.std.specs.Prelude.{◌≡◌, ℕ, IfOk};
ghost use Rattle.edb_lang.specs.Terms.{Datum};
ghost use Rattle.edb_moves.specs.Going.{Place};
ghost use Rattle.edb_moves.specs.Moves.{leaf_move};
ghost use Rattle.edb_moves.specs.Running.{collecting};
ghost use Rattle.edb_path.specs.Plans.{effect, Suits};

use edb_path::{Plan, way};
use edb_stack::{Doing, Fed, Layer, Operands, Path, Redex};
use edb_syntax::Expr;
use std::alloc::{AllocError, Global};
use std::slice;

/// A comprehension with no qualifier left: the list of its element. `AllocError` only if out of memory.
pub(crate) fn collect<'a>(alloc: Global, element: &'a Expr) -> Result<Plan<'a>, AllocError>
    ensures effect { (p : Place) (v : Datum) → IfOk result (λ plan. effect p v plan ≡ leaf_move p (collecting element.entry.now)) }
    ensures suits { (n : ℕ) → IfOk result (λ plan. Suits n plan) }
{
    let mut layers = Vec::new(alloc);
    match Operands::begin(alloc, Doing::List, slice::from_ref(element))? {
        Fed::Full(doing, items) => {
            let redex = Redex::Apply(doing, items);
            Ok(Plan::Turns(Vec::new(alloc), Path { layers, redex }))
        }
        Fed::Hole(operands, operand) => {
            layers.push(Layer::Operands(operands))?;
            let path = way(alloc, layers, operand)?;
            Ok(Plan::Turns(Vec::new(alloc), path))
        }
    }
}
