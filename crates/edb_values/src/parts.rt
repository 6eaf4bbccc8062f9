//! The parts of a list: its first element, what follows it, and how many there are.

ghost use Rattle.std.specs.Prelude.{◌≡◌, IfOk};
ghost use Rattle.edb_pure.specs.Lists as row;

use crate::raises::badarg;
use edb_lang::{Node, Term};
use edb_pure::Raise;
use std::alloc::{AllocError, Global};

/// `hd/1`: the first element of a list. The error `badarg` if the term is no list cell; `AllocError` only if out of
/// memory.
pub fn head(alloc: Global, list: &Term) -> Result<Result<Term, Raise>, AllocError>
    ensures { IfOk result (λ r. r ≡ row.hd list.now) }
{
    match &list.node {
        Node::List(cell) => Ok(Ok(cell.head.copy(alloc)?)),
        _ => badarg(alloc),
    }
}

/// `tl/1`: what follows the first element of a list. The error `badarg` if the term is no list cell; `AllocError` only
/// if out of memory.
pub fn tail(alloc: Global, list: &Term) -> Result<Result<Term, Raise>, AllocError>
    ensures { IfOk result (λ r. r ≡ row.tl list.now) }
{
    match &list.node {
        Node::List(cell) => Ok(Ok(cell.tail.copy(alloc)?)),
        _ => badarg(alloc),
    }
}

/// `length/1`: how many elements a list has. The error `badarg` if the list isn't proper; `AllocError` only if out of
/// memory.
pub fn length(alloc: Global, list: &Term) -> Result<Result<Term, Raise>, AllocError>
    ensures { IfOk result (λ r. r ≡ row.list_length list.now) }
{
    match list.elements(alloc)? {
        Some(items) => Ok(Ok(Term::int(items.len() as i128))),
        None => badarg(alloc),
    }
}
