//! The walk through patterns.

ghost use Rattle.std.specs.Prelude.{◌≤◌, length, drop, OnOk};
ghost use Rattle.edb_check.specs.Parts.{pattern_part, patterns_part};
ghost use Rattle.edb_check.specs.Walking.{Walks};

use crate::walk::Walk;
use edb_syntax::{Pattern, PatternNode};
use std::alloc::AllocError;

#[tactic(auto, using(crate::proofs::Marks::marks, crate::proofs::Walking::walking, edb_syntax::proofs::Lists::lists))]
impl<'a> Walk<'a> {
    /// Goes through a pattern, which sees what is bound behind a mark.
    #[cycle(pattern)]
    pub(crate) fn pattern(&mut self, mark: usize, pattern: &'a Pattern) -> Result<(), AllocError>
        requires { mark ≤ length self.old.scope }
        ensures { OnOk result (Walks self.old self.new (pattern_part (drop mark self.old.scope) pattern.now)) }
    {
        match &pattern.node {
            PatternNode::Int(_) => Ok(()),
            PatternNode::Atom(_) => Ok(()),
            PatternNode::Str(_) => Ok(()),
            PatternNode::Var(name) => self.match_name(mark, pattern.line, name),
            PatternNode::Any => Ok(()),
            PatternNode::Tuple(elements) => self.patterns(mark, elements),
            PatternNode::List(elements) => self.patterns(mark, elements),
            PatternNode::ListWithTail(elements, tail) => {
                self.patterns(mark, elements)?;
                self.pattern(mark, tail)
            }
            PatternNode::Both(left, right) => {
                self.pattern(mark, left)?;
                self.pattern(mark, right)
            }
        }
    }

    /// Goes through patterns, which see what is bound behind a mark.
    #[cycle(pattern)]
    pub(crate) fn patterns(
        &mut self,
        mark: usize,
        patterns: &'a [Pattern],
    ) -> Result<(), AllocError>
        requires { mark ≤ length self.old.scope }
        ensures { OnOk result (Walks self.old self.new (patterns_part (drop mark self.old.scope) patterns.now)) }
    {
        for pattern in patterns {
            self.pattern(mark, pattern)?;
        }
        Ok(())
    }
}
