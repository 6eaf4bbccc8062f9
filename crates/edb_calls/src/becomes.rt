//! Operations that become others.

ghost use Rattle.std.specs.Prelude.{◌≡◌, ◌++◌, ℕ, IfOk, map};
ghost use Rattle.edb_lang.specs.Terms.{Datum};
ghost use Rattle.edb_moves.specs.Going.{Place, turns};
ghost use Rattle.edb_moves.specs.Running.{node, all_values};
ghost use Rattle.edb_path.specs.Plans.{effect, Suits};
ghost use Rattle.edb_stack.specs.Views.{doing_of};
ghost use Rattle.edb_stack.specs.declared.item.Item.TheVariants.{Value};
ghost use Rattle.edb_calls.specs.Alone.{IsAlone};

use edb_lang::Term;
use edb_path::Plan;
use edb_stack::{Doing, Item, Path, Redex};
use std::alloc::{AllocError, Global};

/// The redex becomes this operation on copies of these terms, `rest` behind `first`. `AllocError` only if out of memory, here
/// and in all that follows.
pub(crate) fn becomes<'a>(
    alloc: Global,
    doing: Doing<'a>,
    first: &[&Term],
    rest: &[&Term],
) -> Result<Plan<'a>, AllocError>
    ensures effect { (p : Place) (v : Datum) → IfOk result (λ plan. effect p v plan ≡ turns p.bindings (node (doing_of doing.entry) (all_values (map (λ t. t.now) first.now ++ map (λ t. t.now) rest.now)))) }
    ensures suits { (n : ℕ) → IfOk result (Suits n) }
    ensures alone { IfOk result IsAlone }
{
    let mut items = values(alloc, first)?;
    let mut behind = values(alloc, rest)?;
    items.append(&mut behind)?;
    let path = Path {
        layers: Vec::new(alloc),
        redex: Redex::Apply(doing, items),
    };
    Ok(Plan::Turns(Vec::new(alloc), path))
}

/// Copies of terms, as operands.
fn values<'a>(alloc: Global, terms: &[&Term]) -> Result<Vec<Item<'a>>, AllocError>
    ensures { IfOk result (λ items. items.items ≡ map Value (map (λ t. t.now) terms.now)) }
{
    let mut items = Vec::new(alloc);
    for term in terms {
        items.push(Item::Value(term.copy(alloc)?))?;
    }
    Ok(items)
}
