//! The walk through the operands of one node.

ghost use Rattle.std.specs.Prelude.{◌≡◌, ◌≤◌, ◌||◌, length, take, drop, OnOk, IfOk};
ghost use Rattle.edb_syntax.specs.Syntax as syntax;
ghost use Rattle.edb_syntax.specs.Syntax.{exps_of};
ghost use Rattle.edb_check.specs.Scopes.{clashes, any_share};
ghost use Rattle.edb_check.specs.Names as names;
ghost use Rattle.edb_check.specs.Rules.{operation_faults};
ghost use Rattle.edb_check.specs.Parts.{expression_part, operands_part};
ghost use Rattle.edb_check.specs.Walking.{Walks, only};

use crate::fault::CheckKind;
use crate::known::Known;
use crate::scope::meets;
use crate::walk::Walk;
use edb_lang::BinaryOp;
use edb_syntax::{Expr, Operation};
use std::alloc::AllocError;

// Whether one of the two holds.
fn one_of(first: bool, second: bool) -> bool
    ensures { result ≡ (first || second) }
{
    first || second
}

#[tactic(auto, using(crate::proofs::Walking::walking, crate::proofs::Marks::marks))]
impl<'a> Walk<'a> {
    /// Goes through an operation on operands.
    #[cycle(expression)]
    #[tactic(auto, using(crate::proofs::Walking::walking, edb_syntax::proofs::Lists::lists))]
    pub(crate) fn apply(
        &mut self,
        known: &Known<'a>,
        line: u32,
        operation: &'a Operation,
        operands: &'a [Expr],
    ) -> Result<(), AllocError>
        ensures { OnOk result (Walks self.old self.new (expression_part known.now self.old.scope (syntax.apply line operation.now (exps_of operands.now)))) }
    {
        let shared = self.operands(known, operands)?;
        self.report_if(shared, line, CheckKind::Sibling);
        self.operation(known, line, operation, operands.len());
        Ok(())
    }

    // Tells the fault of an operation itself, on so many operands.
    fn operation(&mut self, known: &Known<'a>, line: u32, operation: &'a Operation, count: usize)
        ensures { Walks self.old self.new (only (operation_faults known.now line operation.now count)) }
    {
        match operation {
            Operation::Binary(BinaryOp::Divide) => self.report(line, CheckKind::Float),
            Operation::LocalCall(name) => {
                let is_callable = known.is_callable(name, count);
                self.report_if(!is_callable, line, CheckKind::Undefined);
            }
            _ => {}
        }
    }

    // Goes through operands, and says whether two of them share a name that one of them newly binds.
    #[cycle(expression)]
    fn operands(&mut self, known: &Known<'a>, operands: &'a [Expr]) -> Result<bool, AllocError>
        ensures walks { OnOk result (Walks self.old self.new (operands_part known.now self.old.scope operands.now)) }
        ensures shared { IfOk result (λ b. b ≡ any_share (names.operands self.old.scope (exps_of operands.now))) }
    {
        let start = self.scope.mark();
        let names_start = self.names.mark();
        let mut shared = false;
        for operand in operands {
            let shares = self.operand(known, start, names_start, operand)?;
            shared = one_of(shared, shares);
        }
        Ok(shared)
    }

    // Goes through an operand, and says whether it shares a name that is newly bound with those before it, which
    // began at these marks.
    #[cycle(expression)]
    fn operand(
        &mut self,
        known: &Known<'a>,
        start: usize,
        names_start: usize,
        operand: &'a Expr,
    ) -> Result<bool, AllocError>
        requires { (start ≤ length self.old.scope) × (names_start ≤ length self.old.names) }
        ensures walks { OnOk result (Walks self.old self.new (expression_part known.now self.old.scope operand.now)) }
        ensures shares { let bs = self.old.scope in
            IfOk result (λ b. b ≡ clashes (drop start bs) (drop names_start self.old.names) (names.operand bs operand.now)) }
    {
        let mark = self.scope.mark();
        let names_mark = self.names.mark();
        self.expr(known, operand)?;
        Ok(self.shares(start, mark, names_start, names_mark))
    }

    // Whether what was bound from the first mark to the second is named behind the second, or what was bound behind
    // it named between them.
    fn shares(&self, start: usize, mark: usize, names_start: usize, names_mark: usize) -> bool
        requires scope { (start ≤ mark) × (mark ≤ length self.now.scope) }
        requires names { (names_start ≤ names_mark) × (names_mark ≤ length self.now.names) }
        ensures { result ≡ clashes (drop start (take mark self.now.scope)) (drop names_start (take names_mark self.now.names))
            (record { binds = drop mark self.now.scope; names = drop names_mark self.now.names }) }
    {
        meets(
            self.scope.between(start, mark),
            self.names.behind(names_mark),
        ) || meets(
            self.scope.behind(mark),
            self.names.between(names_start, names_mark),
        )
    }

    /// Goes through the two sides of `andalso` or `orelse`.
    #[cycle(expression)]
    pub(crate) fn either(
        &mut self,
        known: &Known<'a>,
        line: u32,
        left: &'a Expr,
        right: &'a Expr,
    ) -> Result<(), AllocError>
        ensures { OnOk result (Walks self.old self.new (expression_part known.now self.old.scope (syntax.and_also line left.now right.now))) }
    {
        let start = self.scope.mark();
        let names_start = self.names.mark();
        self.expr(known, left)?;
        let mark = self.scope.mark();
        let shares = self.operand(known, start, names_start, right)?;
        self.weaken(mark);
        self.report_if(shares, line, CheckKind::Sibling);
        Ok(())
    }
}
