//! Generators at work.

ghost use Rattle.std.specs.Prelude.{◌≡◌, ◌++◌, ℕ, IfOk, length};
ghost use Rattle.edb_lang.specs.ListTerms as lists;
ghost use Rattle.edb_lang.specs.Terms.{Datum, nil, cons};
ghost use Rattle.edb_moves.specs.Comprehensions.{drawn, listed as listing};
ghost use Rattle.edb_moves.specs.Going.{Place, turns};
ghost use Rattle.edb_moves.specs.Running.{around, gather, scope};
ghost use Rattle.edb_path.specs.Plans.{effect, Suits};
ghost use Rattle.edb_stack.specs.Views.{drawing_of};
ghost use Rattle.edb_syntax.specs.Syntax.{qualifiers_of};
ghost use Rattle.edb_variables.specs.PairStacks.{newest_first};

use crate::raising::failing_with;
use edb_lang::{Captured, Cell, Node, Term};
use edb_match::match_new;
use edb_path::{Plan, listed};
use edb_stack::{Drawing, Item, Layer, Leaf, Path, Redex};
use edb_variables::Variables;
use std::alloc::{AllocError, Global};

/// A generator goes on, of whose list this is left: with its next element where the pattern matches, and else behind it;
/// at the end of the list it is the list of what was gathered. What is left of the list has to be a list. `AllocError`
/// only if out of memory, here and in all that follows.
pub fn draw<'a>(
    alloc: Global,
    drawing: &Drawing<'a>,
    list: &Term,
    variables: &Variables,
) -> Result<Plan<'a>, AllocError>
    ensures effect { (p : Place) (v : Datum) → p.bindings ≡ variables.now.pairs → IfOk result (λ plan. effect p v plan ≡ drawn p (drawing_of drawing.now) list.now) }
    ensures suits { IfOk result (λ plan. Suits (length variables.now.pairs) plan) }
{
    match &list.node {
        Node::Nil => Ok(Plan::Gives(Item::Value(gathered_list(alloc, &drawing.gathered)?))),
        Node::List(cell) => draw_next(alloc, drawing, cell, variables),
        _ => failing_with(alloc, "bad_generator", list),
    }
}

/// The next element is drawn.
fn draw_next<'a>(
    alloc: Global,
    drawing: &Drawing<'a>,
    cell: &Cell,
    variables: &Variables,
) -> Result<Plan<'a>, AllocError>
    ensures effect { (p : Place) (v : Datum) → p.bindings ≡ variables.now.pairs → IfOk result (λ plan. effect p v plan ≡ drawn p (drawing_of drawing.now) (cons cell.now.head cell.now.tail)) }
    ensures suits { IfOk result (λ plan. Suits (length variables.now.pairs) plan) }
{
    let kept = copy_drawing(alloc, drawing)?;
    let tail = cell.tail.copy(alloc)?;
    match match_new(alloc, drawing.pattern, &cell.head, &[], &[])? {
        Some(new) => work_element(alloc, kept, tail, new, variables),
        None => {
            let layers = Vec::new(alloc);
            let redex = Redex::Leaf(Leaf::Drawing(kept, tail));
            Ok(Plan::Turns(Vec::new(alloc), Path { layers, redex }))
        }
    }
}

/// What follows a generator is worked for an element that bound these pairs, in a scope of its own.
fn work_element<'a>(
    alloc: Global,
    drawing: Drawing<'a>,
    left: Term,
    new: Vec<Captured>,
    variables: &Variables,
) -> Result<Plan<'a>, AllocError>
    ensures effect { (p : Place) (v : Datum) → p.bindings ≡ variables.now.pairs → IfOk result (λ plan. effect p v plan ≡ turns p.bindings (around (gather (drawing_of drawing.entry) left) (around (scope (newest_first new.items ++ p.bindings)) (listing drawing.entry.element.now (qualifiers_of drawing.entry.rest.now))))) }
    ensures suits { IfOk result (λ plan. Suits (length variables.now.pairs) plan) }
{
    let element = drawing.element;
    let rest = drawing.rest;
    let mut layers = Vec::new(alloc);
    layers.push(Layer::Gather(drawing, left))?;
    layers.push(Layer::Scope(variables.len()))?;
    let path = listed(alloc, layers, element, rest)?;
    Ok(Plan::Turns(new, path))
}

/// An equal generator. Its elements are copied.
pub fn copy_drawing<'a>(alloc: Global, drawing: &Drawing<'a>) -> Result<Drawing<'a>, AllocError>
    ensures { IfOk result (λ copied. drawing_of copied ≡ drawing_of drawing.now) }
{
    Ok(Drawing {
        gathered: copy_terms(alloc, &drawing.gathered)?,
        pattern: drawing.pattern,
        element: drawing.element,
        rest: drawing.rest,
    })
}

/// Equal terms.
fn copy_terms(alloc: Global, terms: &[Term]) -> Result<Vec<Term>, AllocError>
    ensures { IfOk result (λ copies. copies.items ≡ terms.now) }
{
    let mut copies = Vec::with_capacity(alloc, terms.len())?;
    for term in terms {
        copies.push(term.copy(alloc)?)?;
    }
    Ok(copies)
}

/// The list of these elements, made from its end.
fn gathered_list(alloc: Global, items: &[Term]) -> Result<Term, AllocError>
    ensures { IfOk result (λ list. list ≡ lists.list_of items.now nil) }
{
    let mut left = copy_terms(alloc, items)?;
    let mut list = Term::nil();
    while let Some(head) = left.pop() {
        let cell = Box::new(alloc, Cell { head, tail: list })?;
        list = Term {
            node: Node::List(cell),
        };
    }
    Ok(list)
}
