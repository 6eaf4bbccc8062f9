//! Patterns.

ghost use Rattle.std.specs.Prelude.{◌≡◌, IfOk, nat_le};
ghost use Rattle.edb_syntax.specs.Patterns.{pats_of, pattern_line};
ghost use Rattle.edb_syntax.specs.Depths.{pattern_depth, patterns_depth};

use edb_lang::Name;
use std::alloc::{AllocError, Global};
use std::marker::Model;

/// A pattern, with the line of its first token. Contracts see a `Pat`.
#[cycle(pattern)]
#[derive(Drop)]
pub struct Pattern {
    pub node: PatternNode,
    pub line: u32,
}

/// What a pattern is.
#[cycle(pattern)]
#[derive(Drop)]
pub enum PatternNode {
    /// An integer, also one behind `-`, or a character's code point.
    Int(i128),
    Atom(Name),
    /// A string: its code points.
    Str(Vec<u32>),
    Var(Name),
    /// `_`
    Any,
    Tuple(Vec<Pattern>),
    List(Vec<Pattern>),
    /// `[P, Q | T]`: the elements, and the tail.
    ListWithTail(Vec<Pattern>, Box<Pattern>),
    /// `P = Q`
    Both(Box<Pattern>, Box<Pattern>),
}

impl Model for Pattern {
    ghost use Rattle.edb_syntax.specs.Patterns.{Pat};
    ghost use Rattle.edb_syntax.specs.PatternCodes.{coded_pat};
    ghost use Rattle.edb_syntax.specs.Sizes.{pattern_size};

    ghost Value = { Pat };

    ghost coded = { coded_pat };

    ghost use Rattle.edb_syntax.specs.PatternViews.{pat_of};

    ghost view = { λ p. pat_of p.line p.node };

    ghost size = { pattern_size };

    ghost use Rattle.edb_syntax.specs.PatternFalls.{pat_falls};

    ghost size_decreases = { λ p h. pat_falls p.line p.node };
}

impl Pattern {
    ghost use Rattle.edb_syntax.specs.PatternViews.{pat_of};

    /// The pattern of this line and node.
    pub fn new(line: u32, node: PatternNode) -> Pattern
        ensures { result ≡ pat_of line node }
    {
        Pattern { node, line }
    }

    /// An equal pattern; refused only for want of memory.
    #[cycle(copy_pattern)]
    pub fn copy(&self, alloc: Global) -> Result<Pattern, AllocError>
        ensures { IfOk result (λ p. p ≡ self.now) }
    {
        let line = self.line;
        match &self.node {
            PatternNode::Int(value) => Ok(Pattern::new(line, PatternNode::Int(*value))),
            PatternNode::Atom(name) => Ok(Pattern::new(line, PatternNode::Atom(name.copy(alloc)?))),
            PatternNode::Str(points) => {
                let points = Vec::from_slice(alloc, points)?;
                Ok(Pattern::new(line, PatternNode::Str(points)))
            }
            PatternNode::Var(name) => Ok(Pattern::new(line, PatternNode::Var(name.copy(alloc)?))),
            PatternNode::Any => Ok(Pattern::new(line, PatternNode::Any)),
            PatternNode::Tuple(elements) => {
                let elements = copy_patterns(alloc, elements)?;
                Ok(Pattern::new(line, PatternNode::Tuple(elements)))
            }
            PatternNode::List(elements) => {
                let elements = copy_patterns(alloc, elements)?;
                Ok(Pattern::new(line, PatternNode::List(elements)))
            }
            PatternNode::ListWithTail(elements, tail) => {
                let elements = copy_patterns(alloc, elements)?;
                let tail = Box::new(alloc, tail.copy(alloc)?)?;
                Ok(Pattern::new(line, PatternNode::ListWithTail(elements, tail)))
            }
            PatternNode::Both(left, right) => {
                let left = Box::new(alloc, left.copy(alloc)?)?;
                let right = Box::new(alloc, right.copy(alloc)?)?;
                Ok(Pattern::new(line, PatternNode::Both(left, right)))
            }
        }
    }

    /// The line of its first token.
    #[tactic(auto, using(crate::proofs::Lines::lines))]
    pub fn line(&self) -> u32
        ensures { result ≡ pattern_line self.now }
    {
        self.line
    }

    /// Whether the pattern is at most so deep.
    #[cycle(pattern_within)]
    #[tactic(auto, using(crate::proofs::Lists::lists, crate::proofs::Levels::levels))]
    pub fn is_within(&self, levels: u32) -> bool
        ensures { result ≡ nat_le (pattern_depth self.now) levels }
    {
        if levels == 0 {
            return false;
        }
        let inside = levels - 1;
        match &self.node {
            PatternNode::Int(_) => true,
            PatternNode::Atom(_) => true,
            PatternNode::Str(_) => true,
            PatternNode::Var(_) => true,
            PatternNode::Any => true,
            PatternNode::Tuple(elements) => patterns_within(elements, inside),
            PatternNode::List(elements) => patterns_within(elements, inside),
            PatternNode::ListWithTail(elements, tail) => {
                patterns_within(elements, inside) && tail.is_within(inside)
            }
            PatternNode::Both(left, right) => left.is_within(inside) && right.is_within(inside),
        }
    }
}

/// Equal patterns; refused only for want of memory.
#[cycle(copy_pattern)]
pub(crate) fn copy_patterns(alloc: Global, patterns: &[Pattern]) -> Result<Vec<Pattern>, AllocError>
    ensures { IfOk result (λ copies. copies.items ≡ patterns.now) }
{
    let mut copies = Vec::new(alloc);
    for pattern in patterns {
        copies.push(pattern.copy(alloc)?)?;
    }
    Ok(copies)
}

/// Whether each pattern is at most so deep.
#[cycle(pattern_within)]
pub(crate) fn patterns_within(patterns: &[Pattern], levels: u32) -> bool
    ensures { result ≡ nat_le (patterns_depth (pats_of patterns.now)) levels }
{
    for pattern in patterns {
        if !pattern.is_within(levels) {
            return false;
        }
    }
    true
}
