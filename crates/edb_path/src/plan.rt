//! What a move does.

use edb_lang::Captured;
use edb_pure::Raise;
use edb_stack::{Body, Item, Path};
use edb_syntax::Sequence;

/// What a move does. It is told before anything is changed, and to do it takes no memory where there is room. New pairs
/// stand the newest last.
#[derive(Drop)]
pub enum Plan<'a> {
    /// The redex becomes this value.
    Gives(Item<'a>),
    /// The value that fills the innermost layer goes on, with these pairs bound.
    Passes(Vec<Captured>),
    /// The redex becomes what this path leads to, with these pairs bound.
    Turns(Vec<Captured>, Path<'a>),
    /// The redex becomes this call, of which the sequence isn't begun.
    Enters(Body<'a>, &'a Sequence),
    /// The innermost Body becomes this call.
    Replaces(Body<'a>, &'a Sequence),
    /// An exception is raised.
    Raises(Raise),
}
