//! Lists as terms: many cells made at once, and the elements of a list.

ghost use Rattle.std.specs.Prelude.{◌≡◌, IfOk, map};
ghost use Rattle.std.specs.Option.{option_map};
ghost use Rattle.edb_lang.specs.Terms as spec;
ghost use Rattle.edb_lang.specs.Limits.{limited};
ghost use Rattle.edb_lang.specs.ListTerms.{list_of, elements_of};

use crate::term::{Cell, Limit, MOST_HIGH, Node, Term};
use std::alloc::{AllocError, Global};

impl Term {
    /// The list with these elements that ends in `tail`, which is the empty list for a proper one. Its height and size
    /// are found in one walk. `Limit` if it would be more than 4,000 high or 100,000 large; `AllocError` only if out of
    /// memory.
    pub fn list(
        alloc: Global,
        items: Vec<Term>,
        tail: Term,
    ) -> Result<Result<Term, Limit>, AllocError>
        ensures { IfOk result (λ made. made ≡ limited (list_of items.items tail)) }
    {
        if items.len() > MOST_HIGH as usize {
            return Ok(Err(Limit));
        }
        let list = cells(alloc, items, tail)?;
        Ok(list.within())
    }

    /// The elements of a proper list, in order; none if the term is not one. `AllocError` only if out of memory.
    pub fn elements(&self, alloc: Global) -> Result<Option<Vec<&Term>>, AllocError>
        ensures { IfOk result (λ found. option_map (λ items. map (λ t. t.now) items.items) found ≡ elements_of self.now) }
    {
        let mut items = Vec::new(alloc);
        let mut rest = self;
        while let Node::List(cell) = &rest.node {
            items.push(&cell.head)?;
            rest = &cell.tail;
        }
        match &rest.node {
            Node::Nil => Ok(Some(items)),
            _ => Ok(None),
        }
    }
}

// The cells of a list, made from its end.
fn cells(alloc: Global, items: Vec<Term>, tail: Term) -> Result<Term, AllocError>
    ensures { IfOk result (λ list. list ≡ list_of items.items tail) }
{
    let mut left = items;
    let mut list = tail;
    while let Some(head) = left.pop() {
        let cell = Box::new(alloc, Cell { head, tail: list })?;
        list = Term {
            node: Node::List(cell),
        };
    }
    Ok(list)
}
