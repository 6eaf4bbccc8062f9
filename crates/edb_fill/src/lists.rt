//! Filters, and the parts that a generator gathers.

ghost use Rattle.std.specs.Prelude.{◌≡◌, ◌++◌, ℕ, IfOk, OnOk, length};
ghost use Rattle.edb_lang.specs.Terms.{elements, nil, is_within};
ghost use Rattle.edb_lang.specs.ListTerms.{list_of};
ghost use Rattle.edb_moves.specs.Running as running;
ghost use Rattle.edb_moves.specs.Moves.{frame_move};
ghost use Rattle.edb_moves.specs.Comprehensions.{appended, filtered};
ghost use Rattle.edb_moves.specs.Going.{Place};
ghost use Rattle.edb_path.specs.Plans.{effect, Suits};
ghost use Rattle.edb_stack.specs.Views.{drawing_of};
ghost use Rattle.edb_syntax.specs.Syntax.{qualifiers_of};

use crate::choices::truth;
use edb_lang::{Node, Term};
use edb_leaves::{copy_drawing, draw, failing, failing_with};
use edb_path::{Plan, listed};
use edb_stack::{Drawing, Item, Leaf, Path, Redex};
use edb_syntax::{Expr, Pattern, Qualifier};
use edb_variables::Variables;
use std::alloc::{AllocError, Global};

/// A filter with this value.
pub(crate) fn filter<'a>(
    alloc: Global,
    element: &'a Expr,
    qualifiers: &'a [Qualifier],
    value: &Term,
) -> Result<Plan<'a>, AllocError>
    ensures effect { (p : Place) → IfOk result (λ plan. effect p value.now plan ≡ filtered p element.entry.now (qualifiers_of qualifiers.entry.now) value.now) }
    ensures suits { (n : ℕ) → IfOk result (λ plan. Suits n plan) }
{
    match truth(value) {
        Some(true) => {
            let path = listed(alloc, Vec::new(alloc), element, qualifiers)?;
            Ok(Plan::Turns(Vec::new(alloc), path))
        }
        Some(false) => Ok(Plan::Gives(Item::Value(Term::nil()))),
        None => failing_with(alloc, "bad_filter", value),
    }
}

/// A generator begins over this list.
pub(crate) fn generate<'a>(
    alloc: Global,
    pattern: &'a Pattern,
    element: &'a Expr,
    rest: &'a [Qualifier],
    list: &Term,
    variables: &Variables,
) -> Result<Plan<'a>, AllocError>
    ensures effect { (p : Place) → p.bindings ≡ variables.now.pairs → IfOk result (λ plan. effect p list.now plan ≡ frame_move p (running.generate pattern.entry.now element.entry.now (qualifiers_of rest.entry.now)) list.now) }
    ensures suits { IfOk result (λ plan. Suits (length variables.now.pairs) plan) }
{
    let drawing = Drawing {
        gathered: Vec::new(alloc),
        pattern,
        element,
        rest,
    };
    draw(alloc, &drawing, list, variables)
}

/// The list that the current element of a generator gave is put behind what was gathered, within the limits of a term; then
/// the generator goes on.
pub(crate) fn append<'a>(
    alloc: Global,
    drawing: &Drawing<'a>,
    rest: &Term,
    part: &Term,
) -> Result<Plan<'a>, AllocError>
    ensures effect { (p : Place) → IfOk result (λ plan. effect p part.now plan ≡ appended p (drawing_of drawing.now) rest.now part.now) }
    ensures suits { (n : ℕ) → IfOk result (λ plan. Suits n plan) }
{
    let mut more = copy_drawing(alloc, drawing)?;
    gather_elements(alloc, &mut more.gathered, part)?;
    if !is_list_within(alloc, &more.gathered)? {
        return failing(alloc, "system_limit");
    }
    let layers = Vec::new(alloc);
    let redex = Redex::Leaf(Leaf::Drawing(more, rest.copy(alloc)?));
    Ok(Plan::Turns(Vec::new(alloc), Path { layers, redex }))
}

/// The elements of a list are put behind the others; of another term, those of its cells.
fn gather_elements(alloc: Global, gathered: &mut Vec<Term>, list: &Term) -> Result<(), AllocError>
    ensures { OnOk result (gathered.new.items ≡ gathered.old.items ++ elements list.now) }
{
    let mut rest = list;
    while let Node::List(cell) = &rest.node {
        gathered.push(cell.head.copy(alloc)?)?;
        rest = &cell.tail;
    }
    Ok(())
}

/// Whether the list of these elements is within the limits of a term.
fn is_list_within(alloc: Global, items: &[Term]) -> Result<bool, AllocError>
    ensures { IfOk result (λ within. within ≡ is_within (list_of items.now nil)) }
{
    let mut copies = Vec::with_capacity(alloc, items.len())?;
    for item in items {
        copies.push(item.copy(alloc)?)?;
    }
    match Term::list(alloc, copies, Term::nil())? {
        Ok(_) => Ok(true),
        Err(_) => Ok(false),
    }
}
