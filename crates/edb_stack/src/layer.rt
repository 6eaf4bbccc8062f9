//! Layers: what waits for the value of one part.

use crate::body::Body;
use crate::operands::Operands;
use edb_lang::Term;
use edb_pure::Raise;
use edb_syntax::{CatchClause, Clause, Expr, Pattern, Qualifier, Sequence};

/// What came of the body of a `try`.
#[derive(Drop)]
pub enum Outcome {
    Gave(Term),
    Threw(Raise),
}

/// A generator at work.
#[derive(Drop)]
pub struct Drawing<'a> {
    /// The elements gathered so far.
    pub gathered: Vec<Term>,
    pub pattern: &'a Pattern,
    /// The expression that is evaluated for each element.
    pub element: &'a Expr,
    /// The qualifiers behind the generator.
    pub rest: &'a [Qualifier],
}

/// What waits for the value of one part. A `usize` is a mark: how many pairs the bindings had that the layer keeps.
#[derive(Drop)]
pub enum Layer<'a> {
    /// Operands, of which one is being evaluated.
    Operands(Operands<'a>),
    /// A sequence: the line of the expression that is begun, and those that follow it.
    Sequence(u32, &'a [Expr]),
    /// `P = _`
    Match(&'a Pattern),
    /// `case _ of .. end`
    Select(&'a [Clause]),
    /// `_ andalso E`
    AndThen(&'a Expr),
    /// `_ orelse E`
    OrThen(&'a Expr),
    /// `[E || P <- _, ..]`
    Generate(&'a Pattern, &'a Expr, &'a [Qualifier]),
    /// `[E || _, ..]`
    Filter(&'a Expr, &'a [Qualifier]),
    /// A generator round the list that its current element gives, and what is left of its own list.
    Gather(Drawing<'a>, Term),
    /// The `after` of a `try` runs, and then this is the outcome again.
    Resume(Outcome),
    /// A scope: the newer pairs are its own.
    Scope(usize),
    /// An opened `catch`.
    Caught(usize),
    /// An opened `try`: its clauses behind `of` and behind `catch`.
    Tried(usize, &'a [Clause], &'a [CatchClause]),
    /// An `after` that waits for the outcome of its `try`.
    Waiting(usize, &'a Sequence),
    /// The call round this one, which is the innermost; its own layers lie behind.
    Body(Body<'a>),
}
