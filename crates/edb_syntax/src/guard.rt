//! Guards.

ghost use Rattle.std.specs.Prelude.{◌≡◌, IfOk, nat_le};
ghost use Rattle.edb_syntax.specs.Depths.{depth, depths, guard_depth};

use crate::expression::Expr;
use std::alloc::{AllocError, Global};
use std::marker::Model;

/// A guard: alternatives, of which one has to hold. A clause without a guard has none, and passes.
/// Contracts see `Guards`.
#[cycle(expression)]
#[derive(Drop)]
pub struct Guard {
    pub alternatives: Vec<Alternative>,
}

/// Tests of a guard that all have to hold. Contracts see `Exps`.
#[cycle(expression)]
#[derive(Drop)]
pub struct Alternative {
    pub tests: Vec<GuardTest>,
}

/// A test of a guard. Contracts see its expression, an `Exp`.
#[cycle(expression)]
#[derive(Drop)]
pub struct GuardTest {
    pub expr: Expr,
}

impl Model for Guard {
    ghost use Rattle.edb_syntax.specs.Syntax.{Guards, guards_of};
    ghost use Rattle.edb_syntax.specs.Codes.{coded_guards};
    ghost use Rattle.edb_syntax.specs.Sizes.{guard_size};

    ghost Value = { Guards };

    ghost coded = { coded_guards };

    ghost view = { λ g. guards_of g.alternatives.items };

    ghost size = { guard_size };

    ghost use Rattle.edb_syntax.specs.Falls.{guard_falls};

    ghost size_decreases = { λ g h. guard_falls g.alternatives.items };
}

impl Model for Alternative {
    ghost use Rattle.edb_syntax.specs.Syntax.{Exps, exps_of};
    ghost use Rattle.edb_syntax.specs.Codes.{coded_exps};
    ghost use Rattle.edb_syntax.specs.Sizes.{alternative_size};

    ghost Value = { Exps };

    ghost coded = { coded_exps };

    ghost view = { λ a. exps_of a.tests.items };

    ghost size = { alternative_size };

    ghost use Rattle.edb_syntax.specs.Falls.{alternative_falls};

    ghost size_decreases = { λ a h. alternative_falls a.tests.items };
}

impl Model for GuardTest {
    ghost use Rattle.edb_syntax.specs.Syntax.{Exp};
    ghost use Rattle.edb_syntax.specs.Codes.{coded_exp};
    ghost use Rattle.edb_syntax.specs.Sizes.{test_size};

    ghost Value = { Exp };

    ghost coded = { coded_exp };

    ghost view = { λ t. t.expr };

    ghost size = { test_size };

    ghost use Rattle.edb_syntax.specs.Falls.{test_falls};

    ghost size_decreases = { λ t h. test_falls t.expr };
}

impl Guard {
    /// An equal guard; refused only for want of memory.
    #[cycle(copy_expression)]
    pub fn copy(&self, alloc: Global) -> Result<Guard, AllocError>
        ensures { IfOk result (λ g. g ≡ self.now) }
    {
        let mut alternatives = Vec::new(alloc);
        for alternative in &self.alternatives {
            alternatives.push(alternative.copy(alloc)?)?;
        }
        Ok(Guard { alternatives })
    }

    /// Whether each test is at most so deep.
    #[cycle(expression_within)]
    pub fn is_within(&self, levels: u32) -> bool
        ensures { result ≡ nat_le (guard_depth self.now) levels }
    {
        for alternative in &self.alternatives {
            if !alternative.is_within(levels) {
                return false;
            }
        }
        true
    }
}

impl Alternative {
    /// Equal tests; refused only for want of memory.
    #[cycle(copy_expression)]
    pub fn copy(&self, alloc: Global) -> Result<Alternative, AllocError>
        ensures { IfOk result (λ a. a ≡ self.now) }
    {
        let mut tests = Vec::new(alloc);
        for test in &self.tests {
            tests.push(test.copy(alloc)?)?;
        }
        Ok(Alternative { tests })
    }

    /// Whether each test is at most so deep.
    #[cycle(expression_within)]
    pub fn is_within(&self, levels: u32) -> bool
        ensures { result ≡ nat_le (depths self.now) levels }
    {
        for test in &self.tests {
            if !test.expr.is_within(levels) {
                return false;
            }
        }
        true
    }
}

impl GuardTest {
    /// An equal test; refused only for want of memory.
    #[cycle(copy_expression)]
    pub fn copy(&self, alloc: Global) -> Result<GuardTest, AllocError>
        ensures { IfOk result (λ t. t ≡ self.now) }
    {
        Ok(GuardTest {
            expr: self.expr.copy(alloc)?,
        })
    }
}
