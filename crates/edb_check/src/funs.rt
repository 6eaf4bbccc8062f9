//! The walk through what keeps its variables to itself: funs, functions and comprehensions.

ghost use Rattle.std.specs.Prelude.{◌≤◌, length, drop, OnOk};
ghost use Rattle.edb_syntax.specs.Syntax as syntax;
ghost use Rattle.edb_syntax.specs.Syntax.{qualifiers_of};
ghost use Rattle.edb_check.specs.Parts.{expression_part, fresh_part, head_part, heads_part, local_part, qualifier_part, qualifiers_part};
ghost use Rattle.edb_check.specs.Walking.{Walks};

use crate::known::Known;
use crate::walk::Walk;
use edb_syntax::{Clause, Expr, Pattern, Qualifier, QualifierNode};
use std::alloc::AllocError;

#[tactic(auto, using(crate::proofs::Walking::walking, crate::proofs::Marks::marks))]
impl<'a> Walk<'a> {
    /// Goes through the clauses of a fun or a function.
    #[cycle(expression)]
    pub(crate) fn heads(
        &mut self,
        known: &Known<'a>,
        clauses: &'a [Clause],
    ) -> Result<(), AllocError>
        ensures { OnOk result (Walks self.old self.new (heads_part known.now self.old.scope clauses.now)) }
    {
        for clause in clauses {
            self.head(known, clause)?;
        }
        Ok(())
    }

    // Goes through a clause of a fun or a function.
    #[cycle(expression)]
    fn head(&mut self, known: &Known<'a>, clause: &'a Clause) -> Result<(), AllocError>
        ensures { OnOk result (Walks self.old self.new (head_part known.now self.old.scope clause.now)) }
    {
        let mark = self.scope.mark();
        let names_mark = self.names.mark();
        self.clause(known, mark, clause)?;
        self.hide(names_mark, mark)?;
        self.leave(mark);
        Ok(())
    }

    /// Goes through a comprehension.
    #[cycle(expression)]
    pub(crate) fn comprehension(
        &mut self,
        known: &Known<'a>,
        value: &'a Expr,
        qualifiers: &'a [Qualifier],
    ) -> Result<(), AllocError>
        ensures { OnOk result (Walks self.old self.new (expression_part known.now self.old.scope (syntax.comprehension 0 value.now (qualifiers_of qualifiers.now)))) }
    {
        let start = self.scope.mark();
        self.qualifiers(known, start, qualifiers)?;
        self.local(known, start, value)?;
        self.leave(start);
        Ok(())
    }

    // Goes through qualifiers of a comprehension that began at a mark.
    #[cycle(expression)]
    fn qualifiers(
        &mut self,
        known: &Known<'a>,
        start: usize,
        qualifiers: &'a [Qualifier],
    ) -> Result<(), AllocError>
        requires { start ≤ length self.old.scope }
        ensures { OnOk result (Walks self.old self.new (qualifiers_part known.now self.old.scope (drop start self.old.scope) qualifiers.now)) }
    {
        for qualifier in qualifiers {
            self.qualifier(known, start, qualifier)?;
        }
        Ok(())
    }

    // Goes through a qualifier.
    #[cycle(expression)]
    fn qualifier(
        &mut self,
        known: &Known<'a>,
        start: usize,
        qualifier: &'a Qualifier,
    ) -> Result<(), AllocError>
        requires { start ≤ length self.old.scope }
        ensures { OnOk result (Walks self.old self.new (qualifier_part known.now self.old.scope (drop start self.old.scope) qualifier.now)) }
    {
        match &qualifier.node {
            QualifierNode::Generator(pattern, list) => {
                self.local(known, start, list)?;
                self.fresh(pattern)
            }
            QualifierNode::Filter(test) => self.local(known, start, test),
        }
    }

    // Goes through an expression of a comprehension; what the comprehension binds stays out of its names.
    #[cycle(expression)]
    fn local(&mut self, known: &Known<'a>, start: usize, expr: &'a Expr) -> Result<(), AllocError>
        requires { start ≤ length self.old.scope }
        ensures { OnOk result (Walks self.old self.new (local_part known.now self.old.scope (drop start self.old.scope) expr.now)) }
    {
        let names_mark = self.names.mark();
        self.expr(known, expr)?;
        self.hide(names_mark, start)
    }

    // Goes through the pattern of a generator, whose variables are new.
    fn fresh(&mut self, pattern: &'a Pattern) -> Result<(), AllocError>
        ensures { OnOk result (Walks self.old self.new (fresh_part pattern.now)) }
    {
        let names_mark = self.names.mark();
        let mark = self.scope.mark();
        self.pattern(mark, pattern)?;
        self.leave_names(names_mark);
        Ok(())
    }
}
