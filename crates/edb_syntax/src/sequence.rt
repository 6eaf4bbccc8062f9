//! Sequences: the bodies of clauses.

ghost use Rattle.std.specs.Prelude.{◌≡◌, IfOk, nat_le};
ghost use Rattle.edb_syntax.specs.Depths.{sequence_depth, after_depth};
ghost use Rattle.edb_syntax.specs.Views.{after_of};

use crate::expression::{Expr, copy_exprs, exprs_within};
use std::alloc::{AllocError, Global};
use std::marker::Model;

/// Expressions that are evaluated one after the other: a first one, and the rest. Contracts see a `Seq`.
#[cycle(expression)]
#[derive(Drop)]
pub struct Sequence {
    pub first: Box<Expr>,
    pub rest: Vec<Expr>,
}

impl Model for Sequence {
    ghost use Rattle.edb_syntax.specs.Syntax.{Seq, sequence, exps_of};
    ghost use Rattle.edb_syntax.specs.Codes.{coded_seq};
    ghost use Rattle.edb_syntax.specs.Sizes.{sequence_size};

    ghost Value = { Seq };

    ghost coded = { coded_seq };

    ghost view = { λ s. sequence s.first.value (exps_of s.rest.items) };

    ghost size = { sequence_size };

    ghost use Rattle.edb_syntax.specs.Falls.{sequence_falls};

    ghost size_decreases = { λ s h. sequence_falls s.first.value s.rest.items };
}

impl Sequence {
    /// An equal sequence; refused only for want of memory.
    #[cycle(copy_expression)]
    pub fn copy(&self, alloc: Global) -> Result<Sequence, AllocError>
        ensures { IfOk result (λ s. s ≡ self.now) }
    {
        let first = Box::new(alloc, self.first.copy(alloc)?)?;
        let rest = copy_exprs(alloc, &self.rest)?;
        Ok(Sequence { first, rest })
    }

    /// Whether each expression is at most so deep.
    #[cycle(expression_within)]
    pub fn is_within(&self, levels: u32) -> bool
        ensures { result ≡ nat_le (sequence_depth self.now) levels }
    {
        self.first.is_within(levels) && exprs_within(&self.rest, levels)
    }
}

/// An equal sequence, where there is one; refused only for want of memory.
#[cycle(copy_expression)]
pub(crate) fn copy_after(
    alloc: Global,
    after: &Option<Sequence>,
) -> Result<Option<Sequence>, AllocError>
    ensures { IfOk result (λ copy. copy ≡ after.now) }
{
    match after {
        None => Ok(None),
        Some(body) => Ok(Some(body.copy(alloc)?)),
    }
}

/// Whether each expression of the sequence, where there is one, is at most so deep.
#[cycle(expression_within)]
pub(crate) fn after_within(after: &Option<Sequence>, levels: u32) -> bool
    ensures { result ≡ nat_le (after_depth (after_of after.now)) levels }
{
    match after {
        None => true,
        Some(body) => body.is_within(levels),
    }
}
