//! Verdicts on modules whose trees are built here: each kind of fault, the first of several, and stop lines.

use edb_check::{CheckFault, CheckKind, check};
use edb_lang::{BinaryOp, Name};
use edb_syntax::{
    Alternative, Clause, Export, Expr, ExprNode, Function, Guard, GuardTest, Module, Operation,
    Pattern, PatternNode, Sequence,
};
use std::alloc::{AllocError, Global};
use std::test::Fail;

// What a check is to answer: the line and the kind of the fault, if there is one.
type Answer = Option<(u32, CheckKind)>;

fn int(line: u32) -> Expr {
    Expr::new(line, ExprNode::Int(1))
}

fn var(alloc: Global, line: u32, name: &str) -> Result<Expr, AllocError> {
    Ok(Expr::new(line, ExprNode::Var(Name::from_str(alloc, name)?)))
}

// `NAME = 1`
fn bind(alloc: Global, line: u32, name: &str) -> Result<Expr, AllocError> {
    let node = PatternNode::Var(Name::from_str(alloc, name)?);
    let value = Box::new(alloc, int(line))?;
    Ok(Expr::new(line, ExprNode::Match(Pattern::new(line, node), value)))
}

// `{A, B}`
fn pair(alloc: Global, line: u32, left: Expr, right: Expr) -> Result<Expr, AllocError> {
    let operands = Vec::from_array(alloc, [left, right])?;
    Ok(Expr::new(line, ExprNode::Apply(Operation::Tuple, operands)))
}

// `f()`
fn call(alloc: Global, line: u32) -> Result<Expr, AllocError> {
    let operation = Operation::LocalCall(Name::from_str(alloc, "f")?);
    Ok(Expr::new(line, ExprNode::Apply(operation, Vec::new(alloc))))
}

fn body(alloc: Global, first: Expr) -> Result<Sequence, AllocError> {
    Ok(Sequence {
        first: Box::new(alloc, first)?,
        rest: Vec::new(alloc),
    })
}

// `_ -> BODY`, or `_ when TEST -> BODY`
fn way(alloc: Global, line: u32, test: Option<Expr>, value: Expr) -> Result<Clause, AllocError> {
    let patterns = Vec::from_array(alloc, [Pattern::new(line, PatternNode::Any)])?;
    let mut alternatives = Vec::new(alloc);
    if let Some(expr) = test {
        let tests = Vec::from_array(alloc, [GuardTest { expr }])?;
        alternatives.push(Alternative { tests })?;
    }
    Ok(Clause {
        patterns,
        guard: Guard { alternatives },
        body: body(alloc, value)?,
    })
}

// `f(_) -> BODY.` on this line
fn function(alloc: Global, line: u32, value: Expr) -> Result<Function, AllocError> {
    Ok(Function {
        name: Name::from_str(alloc, "f")?,
        arity: 1,
        line,
        clauses: Vec::from_array(alloc, [way(alloc, line, None, value)?])?,
    })
}

// a module of this name on line 1, which exports f with this arity on line 2
fn module(
    alloc: Global,
    name: &str,
    arity: u32,
    functions: Vec<Function>,
) -> Result<Module, AllocError> {
    let export = Export {
        name: Name::from_str(alloc, "f")?,
        arity,
        line: 2,
    };
    Ok(Module {
        name: Name::from_str(alloc, name)?,
        line: 1,
        exports: Vec::from_array(alloc, [export])?,
        functions,
    })
}

// a module of one function with this body, which begins on line 3
fn around(alloc: Global, value: Expr) -> Result<Module, AllocError> {
    let functions = Vec::from_array(alloc, [function(alloc, 3, value)?])?;
    module(alloc, "m", 1, functions)
}

// whether the check of a module answers so
fn answers(alloc: Global, module: Module, wanted: Answer) -> Result<bool, AllocError> {
    match check(alloc, module)? {
        Ok(_) => Ok(wanted.is_none()),
        Err(fault) => match wanted {
            None => Ok(false),
            Some((line, kind)) => Ok(fault == CheckFault { line, kind }),
        },
    }
}

// `case 1 of _ -> X = 1; _ -> 1 end, X`, each on a line of its own from line 4 on, the last X on line 8
fn some_ways(alloc: Global) -> Result<Module, AllocError> {
    let first = way(alloc, 5, None, bind(alloc, 5, "X")?)?;
    let second = way(alloc, 6, None, int(6))?;
    let clauses = Vec::from_array(alloc, [first, second])?;
    let choice = Expr::new(4, ExprNode::Case(Box::new(alloc, int(4))?, clauses));
    let mut body = body(alloc, choice)?;
    body.rest.push(var(alloc, 8, "X")?)?;
    around(alloc, Expr::new(4, ExprNode::Begin(body)))
}

// `case 1 of _ when begin 1 end -> 1 end` with the test on line 5
fn sequence_in_guard(alloc: Global) -> Result<Module, AllocError> {
    let test = Expr::new(5, ExprNode::Begin(body(alloc, int(6))?));
    let clauses = Vec::from_array(alloc, [way(alloc, 5, Some(test), int(5))?])?;
    around(
        alloc,
        Expr::new(4, ExprNode::Case(Box::new(alloc, int(4))?, clauses)),
    )
}

// `{{..{}..}}` on line 4, so many tuples
fn nested(alloc: Global, levels: u32) -> Result<Module, AllocError> {
    let mut expr = Expr::new(4, ExprNode::Apply(Operation::Tuple, Vec::new(alloc)));
    for _ in 1..levels {
        let operands = Vec::from_array(alloc, [expr])?;
        expr = Expr::new(4, ExprNode::Apply(Operation::Tuple, operands));
    }
    around(alloc, expr)
}

#[test]
fn kinds(rt: HostRuntime) -> Result<(), Fail> {
    let alloc = rt.alloc();
    let unbound = around(alloc, var(alloc, 4, "X")?)?;
    assert!(rt; answers(alloc, unbound, Some((4, CheckKind::Unbound)))?);
    assert!(rt; answers(alloc, some_ways(alloc)?, Some((8, CheckKind::Unsafe)))?);
    let sibling = pair(alloc, 4, bind(alloc, 5, "X")?, var(alloc, 5, "X")?)?;
    assert!(rt;
        answers(
            alloc,
            around(alloc, sibling)?,
            Some((4, CheckKind::Sibling))
        )?
    );
    let float = around(alloc, Expr::new(4, ExprNode::Float))?;
    assert!(rt; answers(alloc, float, Some((4, CheckKind::Float)))?);
    let operands = Vec::from_array(alloc, [int(4), int(5)])?;
    let operation = Operation::Binary(BinaryOp::Divide);
    let quotient = Expr::new(4, ExprNode::Apply(operation, operands));
    assert!(rt; answers(alloc, around(alloc, quotient)?, Some((4, CheckKind::Float)))?);
    let undefined = around(alloc, call(alloc, 4)?)?;
    assert!(rt; answers(alloc, undefined, Some((4, CheckKind::Undefined)))?);
    assert!(rt;
        answers(
            alloc,
            sequence_in_guard(alloc)?,
            Some((5, CheckKind::BadGuard))
        )?
    );
    Ok(())
}

#[test]
fn whole_modules(rt: HostRuntime) -> Result<(), Fail> {
    let alloc = rt.alloc();
    let twice = Vec::from_array(
        alloc,
        [function(alloc, 3, int(3))?, function(alloc, 4, int(4))?],
    )?;
    let twice = module(alloc, "m", 1, twice)?;
    assert!(rt; answers(alloc, twice, Some((4, CheckKind::Duplicate)))?);
    let one = Vec::from_array(alloc, [function(alloc, 3, int(3))?])?;
    let taken = module(alloc, "lists", 1, one)?;
    assert!(rt; answers(alloc, taken, Some((1, CheckKind::Duplicate)))?);
    let one = Vec::from_array(alloc, [function(alloc, 3, int(3))?])?;
    let other = module(alloc, "m", 2, one)?;
    assert!(rt; answers(alloc, other, Some((2, CheckKind::NotExported)))?);
    assert!(rt; answers(alloc, nested(alloc, 200)?, None)?);
    Ok(())
}

// the lines of a module that is accepted
fn lines(alloc: Global, module: Module) -> Result<Vec<u32>, AllocError> {
    match check(alloc, module)? {
        Ok(checked) => checked.lines(alloc),
        Err(_) => Ok(Vec::new(alloc)),
    }
}

#[test]
fn stop_lines(rt: HostRuntime) -> Result<(), Fail> {
    let alloc = rt.alloc();
    let mut inner = body(alloc, bind(alloc, 6, "X")?)?;
    inner.rest.push(var(alloc, 5, "X")?)?;
    inner.rest.push(var(alloc, 6, "X")?)?;
    let module = around(alloc, Expr::new(4, ExprNode::Begin(inner)))?;
    let lines = lines(alloc, module)?;
    assert!(rt; lines.as_slice() == [4, 5, 6].as_slice());
    Ok(())
}
