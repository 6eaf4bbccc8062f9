//! How operations are made of their operands.

ghost use Rattle.std.specs.Prelude.{◌≡◌, IfOk};
ghost use Rattle.edb_syntax.specs.Syntax.{exps_of};
ghost use Rattle.edb_syntax.specs.Forms as forms;

use crate::expression::{Expr, ExprNode};
use crate::operation::Operation;
use std::alloc::{AllocError, Global};

impl Expr {
    /// `[A, B | T]`
    pub fn list_with_tail(line: u32, elements: Vec<Expr>, tail: Expr) -> Result<Expr, AllocError>
        ensures { IfOk result (λ e. e ≡ forms.list_with_tail line (exps_of elements.items) tail) }
    {
        let mut operands = elements;
        operands.push(tail)?;
        let operation = Operation::ListWithTail;
        Ok(Expr::new(line, ExprNode::Apply(operation, operands)))
    }

    /// `M:F(A, B)`
    pub fn remote_call(
        alloc: Global,
        line: u32,
        home: Expr,
        name: Expr,
        args: Vec<Expr>,
    ) -> Result<Expr, AllocError>
        ensures { IfOk result (λ e. e ≡ forms.remote_call line home name (exps_of args.items)) }
    {
        let mut args = args;
        let mut operands = Vec::from_array(alloc, [home, name])?;
        operands.append(&mut args)?;
        let operation = Operation::RemoteCall;
        Ok(Expr::new(line, ExprNode::Apply(operation, operands)))
    }

    /// `E(A, B)`: where E is an atom, this calls the function of that name, else a fun.
    pub fn call(line: u32, callee: Expr, args: Vec<Expr>) -> Result<Expr, AllocError>
        ensures { IfOk result (λ e. e ≡ forms.call line callee (exps_of args.items)) }
    {
        match callee.node {
            ExprNode::Atom(name) => {
                let operation = Operation::LocalCall(name);
                let operands = args;
                Ok(Expr::new(line, ExprNode::Apply(operation, operands)))
            }
            node => {
                let callee = Expr::new(callee.line, node);
                let mut operands = args;
                operands.insert(0, callee)?;
                let operation = Operation::FunCall;
                Ok(Expr::new(line, ExprNode::Apply(operation, operands)))
            }
        }
    }
}
