//! A module's text.

use edb_lang::{BinaryOp, Name};
use edb_print::module_text;
use edb_syntax::{
    Clause, Export, Expr, ExprNode, Function, Guard, Module, Operation, Pattern, PatternNode,
    Sequence,
};
use std::alloc::{AllocError, Global};
use std::test::Fail;

/// A variable.
fn variable(alloc: Global, name: &str) -> Result<Expr, AllocError> {
    Ok(Expr::new(1, ExprNode::Var(Name::from_str(alloc, name)?)))
}

/// `A + B`
fn sum(alloc: Global) -> Result<Expr, AllocError> {
    let operands = vec![in alloc; variable(alloc, "A")?, variable(alloc, "B")?]?;
    Ok(Expr::new(
        1,
        ExprNode::Apply(Operation::Binary(BinaryOp::Add), operands),
    ))
}

/// `C = A + B, C`
fn body(alloc: Global) -> Result<Sequence, AllocError> {
    let name = Name::from_str(alloc, "C")?;
    let value = Box::new(alloc, sum(alloc)?)?;
    let node = ExprNode::Match(Pattern::new(1, PatternNode::Var(name)), value);
    let first = Box::new(alloc, Expr::new(1, node))?;
    let rest = vec![in alloc; variable(alloc, "C")?]?;
    Ok(Sequence { first, rest })
}

/// The module `shop` with the function `sum/2`, which is exported.
fn shop(alloc: Global) -> Result<Module, AllocError> {
    let first = Pattern::new(1, PatternNode::Var(Name::from_str(alloc, "A")?));
    let second = Pattern::new(1, PatternNode::Var(Name::from_str(alloc, "B")?));
    let clause = Clause {
        patterns: vec![in alloc; first, second]?,
        guard: Guard {
            alternatives: Vec::new(alloc),
        },
        body: body(alloc)?,
    };
    let function = Function {
        name: Name::from_str(alloc, "sum")?,
        arity: 2,
        line: 3,
        clauses: vec![in alloc; clause]?,
    };
    let export = Export {
        name: Name::from_str(alloc, "sum")?,
        arity: 2,
        line: 2,
    };
    Ok(Module {
        name: Name::from_str(alloc, "shop")?,
        line: 1,
        exports: vec![in alloc; export]?,
        functions: vec![in alloc; function]?,
    })
}

#[test]
fn a_module_has_its_text(rt: HostRuntime) -> Result<(), Fail> {
    let alloc = rt.alloc();
    let module = shop(alloc)?;
    let text = module_text(alloc, &module)?;
    let wanted = b"-module(shop).\n-export([sum/2]).\nsum(A, B) ->\n    C = A + B,\n    C.\n";
    assert!(rt; text.as_slice() == wanted.as_slice());
    Ok(())
}
