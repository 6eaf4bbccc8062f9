//! What stands in the hole of the layers.

use crate::doing::Doing;
use crate::item::Item;
use crate::layer::{Drawing, Layer};
use edb_lang::{ActKind, Name, Term};
use edb_pure::Raise;
use edb_syntax::{CatchClause, Clause, Expr, Qualifier, Sequence};

/// What has nothing in it that is evaluated.
#[derive(Drop)]
pub enum Leaf<'a> {
    /// A string: its code points.
    Text(&'a [u32]),
    Variable(&'a Name),
    /// A sequence whose first expression isn't begun.
    Unbegun(&'a Expr, &'a [Expr]),
    /// `if .. end`
    Conditions(&'a [Clause]),
    /// A fun with clauses: its place among the forms of the module, and its arity.
    Making(u32, u32),
    /// `fun f/2`: its place and its arity.
    MakingLocal(u32, u32),
    /// `fun m:f/2`
    MakingRemote(&'a Name, &'a Name, u32),
    /// `catch E`
    Catching(&'a Expr),
    /// `try .. end`
    Trying(&'a Sequence, &'a [Clause], &'a [CatchClause], &'a Option<Sequence>),
    /// The exception that is the outcome of a `try`, and the `after` that is still to come.
    Failed(Raise, &'a Sequence),
    /// `[E || Q, ..]`
    Comprehension(&'a Expr, &'a [Qualifier]),
    /// A comprehension with no qualifier left.
    Collecting(&'a Expr),
    /// A generator, and what is left of its list.
    Drawing(Drawing<'a>, Term),
    /// What acts on a mailbox, which doesn't come yet.
    Missing(ActKind),
}

/// What stands in the hole.
#[derive(Drop)]
pub enum Redex<'a> {
    Leaf(Leaf<'a>),
    /// Operands that are evaluated, and what is to be done with them.
    Apply(Doing<'a>, Vec<Item<'a>>),
    /// The value for which the innermost layer waited.
    Value(Item<'a>),
}

/// The way down to a redex: layers, the outermost first, and what stands within them.
#[derive(Drop)]
pub struct Path<'a> {
    pub layers: Vec<Layer<'a>>,
    pub redex: Redex<'a>,
}
