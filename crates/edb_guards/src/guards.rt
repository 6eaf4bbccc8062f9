//! Whether a guard holds.

ghost use Rattle.std.specs.Prelude.{◌≡◌, [], IfOk};
ghost use Rattle.edb_syntax.specs.Syntax.{exps_of, guards_of};
ghost use Rattle.edb_moves.specs.Guards as spec;
ghost use Rattle.edb_match.specs.Newest.{newest_first};
ghost use Rattle.edb_guards.specs.Views.{scope_pairs};

use crate::evaluate::test_value;
use crate::scope::Scope;
use crate::truths::is_true;
use edb_lang::{Bindings, Captured};
use edb_syntax::{Alternative, Guard, GuardTest};
use std::alloc::{AllocError, Global};

/// Whether a guard holds for the process `me` under bindings: each test of some alternative is `true`, or no guard is
/// written. A test that raises isn't `true`, and neither is one with a variable that has no value. A look at a variable
/// copies nothing. `AllocError` only if out of memory.
#[tactic(auto, unfolding(crate::specs::Views::scope_pairs))]
pub fn guard_holds(
    alloc: Global,
    guard: &Guard,
    bindings: &Bindings,
    me: u32,
) -> Result<bool, AllocError>
    ensures { IfOk result (λ holds. holds ≡ spec.holds me bindings.now guard.now) }
{
    holds(alloc, guard, &Scope::Sorted(bindings), me)
}

/// As `guard_holds`, under pairs in the order in which they were bound, newest last; `hidden` stands behind `sees`. A look at
/// a variable passes over the pairs that are newer. `AllocError` only if out of memory.
#[tactic(auto, unfolding(crate::specs::Views::scope_pairs))]
pub fn guard_holds_under(
    alloc: Global,
    guard: &Guard,
    sees: &[Captured],
    hidden: &[Captured],
    me: u32,
) -> Result<bool, AllocError>
    ensures { IfOk result (λ holds. holds ≡ spec.holds me (newest_first sees.now (newest_first hidden.now [])) guard.now) }
{
    holds(alloc, guard, &Scope::Stacks(&[], sees, hidden), me)
}

/// Whether a guard holds.
pub(crate) fn holds(
    alloc: Global,
    guard: &Guard,
    scope: &Scope,
    me: u32,
) -> Result<bool, AllocError>
    ensures { IfOk result (λ holds. holds ≡ spec.holds me (scope_pairs scope.now) guard.now) }
{
    if guard.alternatives.is_empty() {
        return Ok(true);
    }
    some_holds(alloc, &guard.alternatives, scope, me)
}

/// Whether each test of some alternative is `true`.
fn some_holds(
    alloc: Global,
    alternatives: &[Alternative],
    scope: &Scope,
    me: u32,
) -> Result<bool, AllocError>
    ensures { IfOk result (λ holds. holds ≡ spec.some_holds me (scope_pairs scope.now) (guards_of alternatives.now)) }
{
    for alternative in alternatives {
        if all_true(alloc, &alternative.tests, scope, me)? {
            return Ok(true);
        }
    }
    Ok(false)
}

/// Whether each test is `true`.
fn all_true(alloc: Global, tests: &[GuardTest], scope: &Scope, me: u32) -> Result<bool, AllocError>
    ensures { IfOk result (λ holds. holds ≡ spec.all_true me (scope_pairs scope.now) (exps_of tests.now)) }
{
    for test in tests {
        if !is_true(&test_value(alloc, &test.expr, scope, me)?) {
            return Ok(false);
        }
    }
    Ok(true)
}
