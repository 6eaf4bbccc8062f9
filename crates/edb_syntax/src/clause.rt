//! Clauses.

ghost use Rattle.std.specs.Prelude.{◌≡◌, IfOk, nat_le};
ghost use Rattle.edb_syntax.specs.Syntax.{clauses_of, catches_of};
ghost use Rattle.edb_syntax.specs.Depths.{clause_depth, clauses_depth, catch_depth, catches_depth, stack_depth};

use crate::guard::Guard;
use crate::pattern::{Pattern, copy_patterns, patterns_within};
use crate::sequence::Sequence;
use std::alloc::{AllocError, Global};
use std::marker::Model;

/// A clause: its patterns, its guard and its body. A clause of a function or a fun has a pattern for each
/// parameter, one of an `if` none, any other one. Contracts see a `ClauseTree`.
#[cycle(expression)]
#[derive(Drop)]
pub struct Clause {
    pub patterns: Vec<Pattern>,
    pub guard: Guard,
    pub body: Sequence,
}

/// A clause behind `catch`. Its class is an atom, `throw` where none is written, or a variable; the
/// variable for the stack may be absent. Contracts see a `CatchTree`.
#[cycle(expression)]
#[derive(Drop)]
pub struct CatchClause {
    pub class: Pattern,
    pub pattern: Pattern,
    pub stack: Option<Pattern>,
    pub guard: Guard,
    pub body: Sequence,
}

impl Model for Clause {
    ghost use Rattle.edb_syntax.specs.Patterns.{pats_of};
    ghost use Rattle.edb_syntax.specs.Syntax.{ClauseTree, clause};
    ghost use Rattle.edb_syntax.specs.Codes.{coded_clause};
    ghost use Rattle.edb_syntax.specs.Sizes.{clause_size};

    ghost Value = { ClauseTree };

    ghost coded = { coded_clause };

    ghost view = { λ c. clause (pats_of c.patterns.items) c.guard c.body };

    ghost size = { clause_size };

    ghost use Rattle.edb_syntax.specs.Falls.{clause_falls};

    ghost size_decreases = { λ c h. clause_falls c.guard c.body };
}

impl Model for CatchClause {
    ghost use Rattle.edb_syntax.specs.Syntax.{CatchTree, catch_clause};
    ghost use Rattle.edb_syntax.specs.Codes.{coded_catch};
    ghost use Rattle.edb_syntax.specs.Sizes.{catch_size};

    ghost Value = { CatchTree };

    ghost coded = { coded_catch };

    ghost view = { λ c. catch_clause c.class c.pattern c.stack c.guard c.body };

    ghost size = { catch_size };

    ghost use Rattle.edb_syntax.specs.Falls.{clause_falls};

    ghost size_decreases = { λ c h. clause_falls c.guard c.body };
}

impl Clause {
    /// An equal clause; refused only for want of memory.
    #[cycle(copy_expression)]
    pub fn copy(&self, alloc: Global) -> Result<Clause, AllocError>
        ensures { IfOk result (λ c. c ≡ self.now) }
    {
        Ok(Clause {
            patterns: copy_patterns(alloc, &self.patterns)?,
            guard: self.guard.copy(alloc)?,
            body: self.body.copy(alloc)?,
        })
    }

    /// Whether its parts are at most so deep.
    #[cycle(expression_within)]
    pub fn is_within(&self, levels: u32) -> bool
        ensures { result ≡ nat_le (clause_depth self.now) levels }
    {
        patterns_within(&self.patterns, levels)
            && self.guard.is_within(levels)
            && self.body.is_within(levels)
    }
}

impl CatchClause {
    /// An equal clause; refused only for want of memory.
    #[cycle(copy_expression)]
    pub fn copy(&self, alloc: Global) -> Result<CatchClause, AllocError>
        ensures { IfOk result (λ c. c ≡ self.now) }
    {
        let body = self.body.copy(alloc)?;
        let guard = self.guard.copy(alloc)?;
        let stack = copy_stack(alloc, &self.stack)?;
        let class = self.class.copy(alloc)?;
        let pattern = self.pattern.copy(alloc)?;
        Ok(CatchClause {
            class,
            pattern,
            stack,
            guard,
            body,
        })
    }

    /// Whether its parts are at most so deep.
    #[cycle(expression_within)]
    pub fn is_within(&self, levels: u32) -> bool
        ensures { result ≡ nat_le (catch_depth self.now) levels }
    {
        self.class.is_within(levels)
            && self.pattern.is_within(levels)
            && stack_within(&self.stack, levels)
            && self.guard.is_within(levels)
            && self.body.is_within(levels)
    }
}

// An equal variable, where there is one; refused only for want of memory.
fn copy_stack(alloc: Global, stack: &Option<Pattern>) -> Result<Option<Pattern>, AllocError>
    ensures { IfOk result (λ copy. copy ≡ stack.now) }
{
    match stack {
        None => Ok(None),
        Some(variable) => Ok(Some(variable.copy(alloc)?)),
    }
}

// Whether the variable, where there is one, is at most so deep.
fn stack_within(stack: &Option<Pattern>, levels: u32) -> bool
    ensures { result ≡ nat_le (stack_depth stack.now) levels }
{
    match stack {
        None => true,
        Some(variable) => variable.is_within(levels),
    }
}

/// Equal clauses; refused only for want of memory.
#[cycle(copy_expression)]
pub(crate) fn copy_clauses(alloc: Global, clauses: &[Clause]) -> Result<Vec<Clause>, AllocError>
    ensures { IfOk result (λ copies. copies.items ≡ clauses.now) }
{
    let mut copies = Vec::new(alloc);
    for clause in clauses {
        copies.push(clause.copy(alloc)?)?;
    }
    Ok(copies)
}

/// Whether the parts of each clause are at most so deep.
#[cycle(expression_within)]
pub(crate) fn clauses_within(clauses: &[Clause], levels: u32) -> bool
    ensures { result ≡ nat_le (clauses_depth (clauses_of clauses.now)) levels }
{
    for clause in clauses {
        if !clause.is_within(levels) {
            return false;
        }
    }
    true
}

/// Equal clauses; refused only for want of memory.
#[cycle(copy_expression)]
pub(crate) fn copy_catches(
    alloc: Global,
    catches: &[CatchClause],
) -> Result<Vec<CatchClause>, AllocError>
    ensures { IfOk result (λ copies. copies.items ≡ catches.now) }
{
    let mut copies = Vec::new(alloc);
    for clause in catches {
        copies.push(clause.copy(alloc)?)?;
    }
    Ok(copies)
}

/// Whether the parts of each clause are at most so deep.
#[cycle(expression_within)]
pub(crate) fn catches_within(catches: &[CatchClause], levels: u32) -> bool
    ensures { result ≡ nat_le (catches_depth (catches_of catches.now)) levels }
{
    for clause in catches {
        if !clause.is_within(levels) {
            return false;
        }
    }
    true
}
