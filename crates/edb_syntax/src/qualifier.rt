//! Qualifiers of comprehensions.

ghost use Rattle.std.specs.Prelude.{◌≡◌, IfOk, nat_le};
ghost use Rattle.edb_syntax.specs.Syntax.{qualifiers_of};
ghost use Rattle.edb_syntax.specs.Depths.{qualifier_depth, qualifiers_depth};

use crate::expression::Expr;
use crate::pattern::Pattern;
use std::alloc::{AllocError, Global};
use std::marker::Model;

/// A qualifier of a comprehension. Contracts see a `QualifierTree`.
#[cycle(expression)]
#[derive(Drop)]
pub struct Qualifier {
    pub node: QualifierNode,
}

/// What a qualifier is.
#[cycle(expression)]
#[derive(Drop)]
pub enum QualifierNode {
    /// `P <- E`
    Generator(Pattern, Expr),
    Filter(Expr),
}

impl Model for Qualifier {
    ghost use Rattle.edb_syntax.specs.Syntax.{QualifierTree};
    ghost use Rattle.edb_syntax.specs.Codes.{coded_qualifier};
    ghost use Rattle.edb_syntax.specs.Sizes.{qualifier_size};

    ghost Value = { QualifierTree };

    ghost coded = { coded_qualifier };

    ghost use Rattle.edb_syntax.specs.Views.{qualifier_of};

    ghost view = { λ q. qualifier_of q.node };

    ghost size = { qualifier_size };

    ghost use Rattle.edb_syntax.specs.Falls.{qualifier_falls};

    ghost size_decreases = { λ q h. qualifier_falls q.node };
}

impl Qualifier {
    /// An equal qualifier; refused only for want of memory.
    #[cycle(copy_expression)]
    pub fn copy(&self, alloc: Global) -> Result<Qualifier, AllocError>
        ensures { IfOk result (λ q. q ≡ self.now) }
    {
        match &self.node {
            QualifierNode::Generator(pattern, list) => {
                let pattern = pattern.copy(alloc)?;
                let list = list.copy(alloc)?;
                let node = QualifierNode::Generator(pattern, list);
                Ok(Qualifier { node })
            }
            QualifierNode::Filter(test) => {
                let node = QualifierNode::Filter(test.copy(alloc)?);
                Ok(Qualifier { node })
            }
        }
    }

    /// Whether its parts are at most so deep.
    #[cycle(expression_within)]
    pub fn is_within(&self, levels: u32) -> bool
        ensures { result ≡ nat_le (qualifier_depth self.now) levels }
    {
        match &self.node {
            QualifierNode::Generator(pattern, list) => pattern.is_within(levels)
                && list.is_within(levels),
            QualifierNode::Filter(test) => test.is_within(levels),
        }
    }
}

/// Equal qualifiers; refused only for want of memory.
#[cycle(copy_expression)]
pub(crate) fn copy_qualifiers(
    alloc: Global,
    qualifiers: &[Qualifier],
) -> Result<Vec<Qualifier>, AllocError>
    ensures { IfOk result (λ copies. copies.items ≡ qualifiers.now) }
{
    let mut copies = Vec::new(alloc);
    for qualifier in qualifiers {
        copies.push(qualifier.copy(alloc)?)?;
    }
    Ok(copies)
}

/// Whether the parts of each qualifier are at most so deep.
#[cycle(expression_within)]
pub(crate) fn qualifiers_within(qualifiers: &[Qualifier], levels: u32) -> bool
    ensures { result ≡ nat_le (qualifiers_depth (qualifiers_of qualifiers.now)) levels }
{
    for qualifier in qualifiers {
        if !qualifier.is_within(levels) {
            return false;
        }
    }
    true
}
