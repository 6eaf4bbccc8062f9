//! What may stand in a guard.

ghost use Rattle.std.specs.Prelude.{◌≡◌};
ghost use Rattle.edb_syntax.specs.Syntax.{exps_of};
ghost use Rattle.edb_table.specs.Marking.{is_guard};
ghost use Rattle.edb_check.specs.GuardRules as rules;
ghost use Rattle.edb_check.specs.Walking.{Walks, only};

use crate::fault::CheckKind;
use crate::known::Known;
use crate::walk::Walk;
use edb_lang::{BinaryOp, Name};
use edb_syntax::{Expr, ExprNode, Operation};
use edb_table::marks_of;

// Whether a module has a built-in of this name, with so many parameters, that is a guard test.
fn is_test(home: &str, name: &Name, arity: usize) -> bool
    ensures { result ≡ is_guard (home.now, (name.now, arity)) }
{
    match u8::try_from(arity) {
        Ok(arity) => marks_of(home, name.as_str(), arity).guard,
        Err(_) => false,
    }
}

// Whether a module and a name, both written out, name a guard test with so many parameters.
fn name_test(home: &Expr, name: &Expr, arity: usize) -> bool
    ensures { result ≡ rules.name_test home.now name.now arity }
{
    match &home.node {
        ExprNode::Atom(home) => match &name.node {
            ExprNode::Atom(name) => is_test(home.as_str(), name, arity),
            _ => false,
        },
        _ => false,
    }
}

// Whether these are the operands of a guard test's call with its module.
fn is_named_test(operands: &[Expr]) -> bool
    ensures { result ≡ rules.is_named_test (exps_of operands.now) }
{
    match operands {
        [home, name, args @ ..] => name_test(home, name, args.len()),
        _ => false,
    }
}

// Whether a name alone calls a guard test with so many arguments.
fn is_plain_test<'a>(known: &Known<'a>, name: &'a Name, arity: usize) -> bool
    ensures { result ≡ rules.is_plain_test known.now (name.now, arity) }
{
    is_test("erlang", name, arity) && !known.has(name, arity)
}

// Whether an operator between two operands may stand in a guard.
fn is_guard_operator(operator: BinaryOp) -> bool
    ensures { result ≡ rules.is_guard_operator operator }
{
    match operator {
        BinaryOp::Append => false,
        BinaryOp::Remove => false,
        _ => true,
    }
}

// Whether an operation on these operands may stand in a guard, whatever is within the operands.
#[tactic(auto, using(edb_syntax::proofs::Lists::lists))]
fn may_stand<'a>(known: &Known<'a>, operation: &'a Operation, operands: &'a [Expr]) -> bool
    ensures { result ≡ rules.may_stand known.now operation.now (exps_of operands.now) }
{
    match operation {
        Operation::Tuple => true,
        Operation::List => true,
        Operation::ListWithTail => true,
        Operation::Unary(_) => true,
        Operation::Binary(operator) => is_guard_operator(*operator),
        Operation::Send => false,
        Operation::LocalCall(name) => is_plain_test(known, name, operands.len()),
        Operation::RemoteCall => is_named_test(operands),
        Operation::FunCall => false,
    }
}

#[tactic(auto, using(crate::proofs::Walking::walking, edb_syntax::proofs::Lists::lists))]
impl<'a> Walk<'a> {
    /// Tells each outermost part of an expression that may not stand in a guard.
    #[cycle(misplaced)]
    pub(crate) fn misplaced(&mut self, known: &Known<'a>, expr: &'a Expr)
        ensures { Walks self.old self.new (only (rules.misplaced known.now expr.now)) }
    {
        match &expr.node {
            ExprNode::Int(_) => {}
            ExprNode::Atom(_) => {}
            ExprNode::Str(_) => {}
            ExprNode::Float => {}
            ExprNode::Var(_) => {}
            ExprNode::Apply(operation, operands) => {
                if may_stand(known, operation, operands) {
                    self.all_misplaced(known, operands);
                } else {
                    self.report(expr.line, CheckKind::BadGuard);
                }
            }
            ExprNode::AndAlso(left, right) => {
                self.misplaced(known, left);
                self.misplaced(known, right);
            }
            ExprNode::OrElse(left, right) => {
                self.misplaced(known, left);
                self.misplaced(known, right);
            }
            _ => self.report(expr.line, CheckKind::BadGuard),
        }
    }

    // The same of several expressions.
    #[cycle(misplaced)]
    fn all_misplaced(&mut self, known: &Known<'a>, exprs: &'a [Expr])
        ensures { Walks self.old self.new (only (rules.all_misplaced known.now (exps_of exprs.now))) }
    {
        for expr in exprs {
            self.misplaced(known, expr);
        }
    }
}
