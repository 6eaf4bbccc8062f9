//! The walk through clauses of which one is taken.

ghost use Rattle.std.specs.Prelude.{◌≡◌, ◌≤◌, length, drop, fold, OnOk, IfOk};
ghost use Rattle.edb_syntax.specs.Syntax.{clauses_of};
ghost use Rattle.edb_check.specs.Binds as binds_of;
ghost use Rattle.edb_check.specs.Binds.{clause_binds, sequence_binds};
ghost use Rattle.edb_check.specs.Joins as joins;
ghost use Rattle.edb_check.specs.Parts.{sequence_part, inner_part, clause_part, clauses_part, choice_part, timed_part};
ghost use Rattle.edb_check.specs.Walking.{Walks};

use crate::known::Known;
use crate::scope::Scope;
use crate::walk::{Walk, with_way};
use edb_syntax::{Clause, Sequence};
use std::alloc::AllocError;

#[tactic(auto, using(crate::proofs::Walking::walking, crate::proofs::Marks::marks))]
impl<'a> Walk<'a> {
    /// Goes through a clause, whose patterns see what is bound behind a mark.
    #[cycle(expression)]
    pub(crate) fn clause(
        &mut self,
        known: &Known<'a>,
        mark: usize,
        clause: &'a Clause,
    ) -> Result<(), AllocError>
        requires { mark ≤ length self.old.scope }
        ensures { OnOk result (Walks self.old self.new (clause_part known.now (drop mark self.old.scope) self.old.scope clause.now)) }
    {
        self.patterns(mark, &clause.patterns)?;
        self.guard(known, &clause.guard)?;
        self.sequence(known, &clause.body)
    }

    // Goes through a clause, and gives what it binds.
    #[cycle(expression)]
    fn way(&mut self, known: &Known<'a>, clause: &'a Clause) -> Result<Scope<'a>, AllocError>
        ensures walks { let bs = self.old.scope in OnOk result (Walks self.old self.new (inner_part (clause_part known.now bs bs clause.now))) }
        ensures binds { let bs = self.old.scope in IfOk result (λ s. s ≡ clause_binds bs bs clause.now) }
    {
        let mark = self.scope.mark();
        self.clause(known, 0, clause)?;
        self.split(mark)
    }

    /// Goes through clauses, and gives what they bind, with the ways before them.
    #[cycle(expression)]
    pub(crate) fn ways(
        &mut self,
        known: &Known<'a>,
        before: Option<Scope<'a>>,
        clauses: &'a [Clause],
    ) -> Result<Option<Scope<'a>>, AllocError>
        ensures walks { OnOk result (Walks self.old self.new (clauses_part known.now self.old.scope clauses.now)) }
        ensures binds { let bs = self.old.scope in IfOk result (λ o. o ≡ fold joins.with_way before.entry (binds_of.ways bs (clauses_of clauses.now))) }
    {
        let mut joined = before;
        for clause in clauses {
            let way = self.way(known, clause)?;
            joined = with_way(self.alloc, joined, way)?;
        }
        Ok(joined)
    }

    // Goes through a sequence, and gives what it binds.
    #[cycle(expression)]
    fn aside(&mut self, known: &Known<'a>, sequence: &'a Sequence) -> Result<Scope<'a>, AllocError>
        ensures walks { OnOk result (Walks self.old self.new (inner_part (sequence_part known.now self.old.scope sequence.now))) }
        ensures binds { IfOk result (λ s. s ≡ sequence_binds self.old.scope sequence.now) }
    {
        let mark = self.scope.mark();
        self.sequence(known, sequence)?;
        self.split(mark)
    }

    /// Goes through clauses of which one is taken.
    #[cycle(expression)]
    pub(crate) fn choice(
        &mut self,
        known: &Known<'a>,
        clauses: &'a [Clause],
    ) -> Result<(), AllocError>
        ensures { OnOk result (Walks self.old self.new (choice_part known.now self.old.scope clauses.now)) }
    {
        let joined = self.ways(known, None, clauses)?;
        self.add(joined)?;
        Ok(())
    }

    /// Goes through clauses and a sequence of which one is taken.
    #[cycle(expression)]
    pub(crate) fn timed_choice(
        &mut self,
        known: &Known<'a>,
        clauses: &'a [Clause],
        body: &'a Sequence,
    ) -> Result<(), AllocError>
        ensures { OnOk result (Walks self.old self.new (timed_part known.now self.old.scope clauses.now body.now)) }
    {
        let joined = self.ways(known, None, clauses)?;
        let way = self.aside(known, body)?;
        let joined = with_way(self.alloc, joined, way)?;
        self.add(joined)?;
        Ok(())
    }
}
