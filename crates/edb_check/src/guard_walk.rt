//! The walk through guards.

ghost use Rattle.std.specs.Prelude.{OnOk};
ghost use Rattle.edb_check.specs.Parts.{test_part, tests_part, guard_part};
ghost use Rattle.edb_check.specs.Walking.{Walks};

use crate::known::Known;
use crate::walk::Walk;
use edb_syntax::{Alternative, Guard, GuardTest};
use std::alloc::AllocError;

#[tactic(auto, using(crate::proofs::Walking::walking, crate::proofs::Marks::marks))]
impl<'a> Walk<'a> {
    /// Goes through a guard.
    #[cycle(expression)]
    pub(crate) fn guard(&mut self, known: &Known<'a>, guard: &'a Guard) -> Result<(), AllocError>
        ensures { OnOk result (Walks self.old self.new (guard_part known.now self.old.scope guard.now)) }
    {
        for alternative in &guard.alternatives {
            self.alternative(known, alternative)?;
        }
        Ok(())
    }

    // Goes through the tests of an alternative.
    #[cycle(expression)]
    fn alternative(
        &mut self,
        known: &Known<'a>,
        alternative: &'a Alternative,
    ) -> Result<(), AllocError>
        ensures { OnOk result (Walks self.old self.new (tests_part known.now self.old.scope alternative.now)) }
    {
        for test in &alternative.tests {
            self.test(known, test)?;
        }
        Ok(())
    }

    // Goes through a test, which keeps what it binds to itself.
    #[cycle(expression)]
    fn test(&mut self, known: &Known<'a>, test: &'a GuardTest) -> Result<(), AllocError>
        ensures { OnOk result (Walks self.old self.new (test_part known.now self.old.scope test.now)) }
    {
        let mark = self.scope.mark();
        let names_mark = self.names.mark();
        self.expr(known, &test.expr)?;
        self.misplaced(known, &test.expr);
        self.hide(names_mark, mark)?;
        self.leave(mark);
        Ok(())
    }
}
