//! The walk through `try`.

ghost use Rattle.std.specs.Prelude.{◌≡◌, fold, OnOk, IfOk};
ghost use Rattle.edb_syntax.specs.Syntax as syntax;
ghost use Rattle.edb_syntax.specs.Syntax.{clauses_of, catches_of};
ghost use Rattle.edb_syntax.specs.Views.{after_of};
ghost use Rattle.edb_check.specs.Binds as binds_of;
ghost use Rattle.edb_check.specs.Binds.{catch_binds, catch_patterns};
ghost use Rattle.edb_check.specs.Joins as joins;
ghost use Rattle.edb_check.specs.Parts.{pats_part, expression_part, inner_part, catch_part, catches_part, after_part};
ghost use Rattle.edb_check.specs.Walking.{Walks};

use crate::known::Known;
use crate::scope::Scope;
use crate::walk::{Walk, with_way};
use edb_syntax::{CatchClause, Clause, Pattern, Sequence};
use std::alloc::AllocError;

#[tactic(auto, using(crate::proofs::Walking::walking, crate::proofs::Marks::marks))]
impl<'a> Walk<'a> {
    // Goes through the patterns of a clause behind `catch`.
    fn catch_head(
        &mut self,
        class: &'a Pattern,
        pattern: &'a Pattern,
        stack: &'a Option<Pattern>,
    ) -> Result<(), AllocError>
        ensures { OnOk result (Walks self.old self.new (pats_part self.old.scope (catch_patterns class.now pattern.now stack.now))) }
    {
        self.pattern(0, class)?;
        self.pattern(0, pattern)?;
        match stack {
            None => Ok(()),
            Some(variable) => self.pattern(0, variable),
        }
    }

    // Goes through a clause behind `catch`.
    #[cycle(expression)]
    fn catch_clause(&mut self, known: &Known<'a>, clause: &'a CatchClause) -> Result<(), AllocError>
        ensures { OnOk result (Walks self.old self.new (catch_part known.now self.old.scope clause.now)) }
    {
        self.catch_head(&clause.class, &clause.pattern, &clause.stack)?;
        self.guard(known, &clause.guard)?;
        self.sequence(known, &clause.body)
    }

    // Goes through a clause behind `catch`, and gives what it binds.
    #[cycle(expression)]
    fn catch_way(
        &mut self,
        known: &Known<'a>,
        clause: &'a CatchClause,
    ) -> Result<Scope<'a>, AllocError>
        ensures walks { OnOk result (Walks self.old self.new (inner_part (catch_part known.now self.old.scope clause.now))) }
        ensures binds { IfOk result (λ s. s ≡ catch_binds self.old.scope clause.now) }
    {
        let mark = self.scope.mark();
        self.catch_clause(known, clause)?;
        self.split(mark)
    }

    // Goes through the clauses behind `catch`, and gives what they bind.
    #[cycle(expression)]
    fn catch_ways(
        &mut self,
        known: &Known<'a>,
        clauses: &'a [CatchClause],
    ) -> Result<Option<Scope<'a>>, AllocError>
        ensures walks { OnOk result (Walks self.old self.new (catches_part known.now self.old.scope clauses.now)) }
        ensures binds { let bs = self.old.scope in IfOk result (λ o. o ≡ fold joins.with_way None (binds_of.catch_ways bs (catches_of clauses.now))) }
    {
        let mut joined = None;
        for clause in clauses {
            let way = self.catch_way(known, clause)?;
            joined = with_way(self.alloc, joined, way)?;
        }
        Ok(joined)
    }

    // Goes through what stands behind `after`.
    #[cycle(expression)]
    fn after(&mut self, known: &Known<'a>, after: &'a Option<Sequence>) -> Result<(), AllocError>
        ensures { OnOk result (Walks self.old self.new (after_part known.now self.old.scope (after_of after.now))) }
    {
        match after {
            None => Ok(()),
            Some(body) => {
                let mark = self.scope.mark();
                self.sequence(known, body)?;
                self.weaken(mark);
                Ok(())
            }
        }
    }

    /// Goes through a `try`.
    #[cycle(expression)]
    pub(crate) fn attempt(
        &mut self,
        known: &Known<'a>,
        body: &'a Sequence,
        of: &'a [Clause],
        catches: &'a [CatchClause],
        after: &'a Option<Sequence>,
    ) -> Result<(), AllocError>
        ensures { OnOk result (Walks self.old self.new (expression_part known.now self.old.scope
            (syntax.try 0 body.now (clauses_of of.now) (catches_of catches.now) (after_of after.now)))) }
    {
        let mark = self.scope.mark();
        self.sequence(known, body)?;
        let of_ways = self.ways(known, None, of)?;
        self.weaken(mark);
        let catch_ways = self.catch_ways(known, catches)?;
        self.add_partly(of_ways)?;
        self.add_partly(catch_ways)?;
        self.after(known, after)?;
        Ok(())
    }
}
