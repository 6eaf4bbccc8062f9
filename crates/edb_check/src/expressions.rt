//! The walk through expressions.

ghost use Rattle.std.specs.Prelude.{OnOk};
ghost use Rattle.edb_check.specs.Parts.{expression_part, operands_part, sequence_part, partly_part};
ghost use Rattle.edb_check.specs.Walking.{Walks};

use crate::fault::CheckKind;
use crate::known::Known;
use crate::walk::Walk;
use edb_syntax::{Expr, ExprNode, Sequence};
use std::alloc::AllocError;

#[tactic(auto, using(crate::proofs::Walking::walking, crate::proofs::Marks::marks))]
impl<'a> Walk<'a> {
    /// Goes through an expression.
    #[cycle(expression)]
    pub(crate) fn expr(&mut self, known: &Known<'a>, expr: &'a Expr) -> Result<(), AllocError>
        ensures { OnOk result (Walks self.old self.new (expression_part known.now self.old.scope expr.now)) }
    {
        let line = expr.line;
        match &expr.node {
            ExprNode::Int(_) => Ok(()),
            ExprNode::Atom(_) => Ok(()),
            ExprNode::Str(_) => Ok(()),
            ExprNode::Float => {
                self.report(line, CheckKind::Float);
                Ok(())
            }
            ExprNode::Var(name) => self.use_name(line, name),
            ExprNode::Apply(operation, operands) => self.apply(known, line, operation, operands),
            ExprNode::AndAlso(left, right) => self.either(known, line, left, right),
            ExprNode::OrElse(left, right) => self.either(known, line, left, right),
            ExprNode::Match(pattern, value) => {
                self.expr(known, value)?;
                self.pattern(0, pattern)
            }
            ExprNode::Catch(value) => self.caught(known, value),
            ExprNode::Begin(body) => self.sequence(known, body),
            ExprNode::Case(value, clauses) => {
                self.expr(known, value)?;
                self.choice(known, clauses)
            }
            ExprNode::If(clauses) => self.choice(known, clauses),
            ExprNode::Receive(clauses) => self.choice(known, clauses),
            ExprNode::ReceiveAfter(clauses, time, body) => {
                self.expr(known, time)?;
                self.timed_choice(known, clauses, body)
            }
            ExprNode::Try(body, of, catches, after) => {
                self.attempt(known, body, of, catches, after)
            }
            ExprNode::Fun { clauses, .. } => self.heads(known, clauses),
            ExprNode::FunLocal { name, arity, .. } => {
                let is_callable = known.is_callable(name, *arity as usize);
                self.report_if(!is_callable, line, CheckKind::Undefined);
                Ok(())
            }
            ExprNode::FunRemote { .. } => Ok(()),
            ExprNode::Comprehension(value, qualifiers) => {
                self.comprehension(known, value, qualifiers)
            }
        }
    }

    /// Goes through expressions one after the other.
    #[cycle(expression)]
    pub(crate) fn exprs(&mut self, known: &Known<'a>, exprs: &'a [Expr]) -> Result<(), AllocError>
        ensures { OnOk result (Walks self.old self.new (operands_part known.now self.old.scope exprs.now)) }
    {
        for expr in exprs {
            self.expr(known, expr)?;
        }
        Ok(())
    }

    /// Goes through a sequence.
    #[cycle(expression)]
    pub(crate) fn sequence(
        &mut self,
        known: &Known<'a>,
        sequence: &'a Sequence,
    ) -> Result<(), AllocError>
        ensures { OnOk result (Walks self.old self.new (sequence_part known.now self.old.scope sequence.now)) }
    {
        self.expr(known, &sequence.first)?;
        self.exprs(known, &sequence.rest)
    }

    // Goes through an expression that may be left half way.
    #[cycle(expression)]
    fn caught(&mut self, known: &Known<'a>, expr: &'a Expr) -> Result<(), AllocError>
        ensures { OnOk result (Walks self.old self.new (partly_part (expression_part known.now self.old.scope expr.now))) }
    {
        let mark = self.scope.mark();
        self.expr(known, expr)?;
        self.weaken(mark);
        Ok(())
    }
}
