//! A tower with a node of each kind, each around the one before: it is copied with ample memory, and as
//! deep as it has nodes.

use edb_lang::{BinaryOp, Name, UnaryOp};
use edb_syntax::{
    Alternative, CatchClause, Clause, Export, Expr, ExprNode, Function, Guard, GuardTest, Module,
    Operation, Pattern, PatternNode, Qualifier, QualifierNode, Sequence,
};
use std::alloc::{AllocError, Global};
use std::test::Fail;

fn int() -> Expr {
    Expr::new(1, ExprNode::Int(1))
}

fn any() -> Pattern {
    Pattern::new(1, PatternNode::Any)
}

fn name(alloc: Global) -> Result<Name, AllocError> {
    Name::from_str(alloc, "f")
}

fn apply(operation: Operation, operands: Vec<Expr>) -> Expr {
    Expr::new(1, ExprNode::Apply(operation, operands))
}

// one of each kind that has no parts
fn leaves(alloc: Global) -> Result<Vec<Expr>, AllocError> {
    let mut exprs = Vec::new(alloc);
    let (index, arity) = (0, 1);
    exprs.push(Expr::new(1, ExprNode::Float))?;
    exprs.push(Expr::new(1, ExprNode::Atom(name(alloc)?)))?;
    exprs.push(Expr::new(1, ExprNode::Var(name(alloc)?)))?;
    exprs.push(Expr::new(1, ExprNode::Str(Vec::from_array(alloc, [104, 105])?)))?;
    let name = name(alloc)?;
    let local = ExprNode::FunLocal { index, name, arity };
    exprs.push(Expr::new(1, local))?;
    let (home, name) = (Name::from_str(alloc, "m")?, Name::from_str(alloc, "f")?);
    let remote = ExprNode::FunRemote { home, name, arity };
    exprs.push(Expr::new(1, remote))?;
    Ok(exprs)
}

// seven operations around an expression
fn operations(alloc: Global, expr: Expr) -> Result<Expr, AllocError> {
    let args = leaves(alloc)?;
    let expr = apply(
        Operation::Unary(UnaryOp::Minus),
        Vec::from_array(alloc, [expr])?,
    );
    let expr = apply(
        Operation::Binary(BinaryOp::Add),
        Vec::from_array(alloc, [int(), expr])?,
    );
    let expr = apply(Operation::Send, Vec::from_array(alloc, [int(), expr])?);
    let expr = Expr::call(1, expr, Vec::new(alloc))?;
    let expr = Expr::list_with_tail(1, Vec::new(alloc), expr)?;
    let operands = Vec::from_array(alloc, [expr])?;
    let expr = apply(Operation::Tuple, operands);
    Expr::remote_call(alloc, 1, expr, int(), args)
}

// six forms around an expression
fn forms(alloc: Global, expr: Expr) -> Result<Expr, AllocError> {
    let expr = Expr::new(1, ExprNode::Catch(Box::new(alloc, expr)?));
    let expr = Expr::new(1, ExprNode::Match(any(), Box::new(alloc, expr)?));
    let left = Box::new(alloc, expr)?;
    let right = Box::new(alloc, int())?;
    let left = Box::new(alloc, Expr::new(1, ExprNode::AndAlso(left, right)))?;
    let right = Box::new(alloc, int())?;
    let expr = Expr::new(1, ExprNode::OrElse(left, right));
    let expr = Expr::new(1, ExprNode::Begin(body(alloc, expr)?));
    let value = Box::new(alloc, expr)?;
    let node = QualifierNode::Generator(any(), int());
    let filter = QualifierNode::Filter(int());
    let qualifiers = Vec::from_array(alloc, [Qualifier { node }, Qualifier { node: filter }])?;
    Ok(Expr::new(1, ExprNode::Comprehension(value, qualifiers)))
}

fn body(alloc: Global, expr: Expr) -> Result<Sequence, AllocError> {
    let first = Box::new(alloc, expr)?;
    let rest = Vec::from_array(alloc, [int()])?;
    Ok(Sequence { first, rest })
}

// `when 1`
fn guard(alloc: Global) -> Result<Guard, AllocError> {
    let tests = Vec::from_array(alloc, [GuardTest { expr: int() }])?;
    let alternatives = Vec::from_array(alloc, [Alternative { tests }])?;
    Ok(Guard { alternatives })
}

// `[_ | _] = {}`
fn pattern(alloc: Global) -> Result<Pattern, AllocError> {
    let elements = Vec::from_array(alloc, [any()])?;
    let tail = Box::new(alloc, any())?;
    let left = Box::new(
        alloc,
        Pattern::new(1, PatternNode::ListWithTail(elements, tail)),
    )?;
    let right = Box::new(alloc, Pattern::new(1, PatternNode::Tuple(Vec::new(alloc))))?;
    Ok(Pattern::new(1, PatternNode::Both(left, right)))
}

// a clause around an expression
fn clause(alloc: Global, expr: Expr) -> Result<Vec<Clause>, AllocError> {
    let body = body(alloc, expr)?;
    let guard = guard(alloc)?;
    let patterns = Vec::from_array(alloc, [pattern(alloc)?])?;
    let clauses = [Clause {
        patterns,
        guard,
        body,
    }];
    Ok(Vec::from_array(alloc, clauses)?)
}

// a clause of a `catch` around an expression
fn catches(alloc: Global, expr: Expr) -> Result<Vec<CatchClause>, AllocError> {
    let body = body(alloc, expr)?;
    let guard = guard(alloc)?;
    let mut catches = Vec::new(alloc);
    catches.push(CatchClause {
        class: any(),
        pattern: any(),
        stack: Some(any()),
        guard,
        body,
    })?;
    Ok(catches)
}

// a `try` around an expression
fn attempt(alloc: Global, expr: Expr) -> Result<Expr, AllocError> {
    let catches = catches(alloc, expr)?;
    let of = clause(alloc, int())?;
    let after = Some(body(alloc, int())?);
    let body = body(alloc, int())?;
    Ok(Expr::new(1, ExprNode::Try(body, of, catches, after)))
}

// six forms with clauses around an expression
fn choices(alloc: Global, expr: Expr) -> Result<Expr, AllocError> {
    let clauses = clause(alloc, expr)?;
    let expr = Expr::new(1, ExprNode::Case(Box::new(alloc, int())?, clauses));
    let expr = Expr::new(1, ExprNode::If(clause(alloc, expr)?));
    let expr = Expr::new(1, ExprNode::Receive(clause(alloc, expr)?));
    let clauses = clause(alloc, expr)?;
    let time = Box::new(alloc, int())?;
    let body = body(alloc, int())?;
    let expr = Expr::new(1, ExprNode::ReceiveAfter(clauses, time, body));
    let clauses = clause(alloc, attempt(alloc, expr)?)?;
    Ok(Expr::new(1, ExprNode::Fun { index: 0, clauses }))
}

// a module of one function, whose depth is 20
fn tower(alloc: Global) -> Result<Module, AllocError> {
    let expr = operations(alloc, int())?;
    let expr = forms(alloc, expr)?;
    let clauses = clause(alloc, choices(alloc, expr)?)?;
    let (arity, line) = (1, 3);
    let function = Function {
        name: name(alloc)?,
        arity,
        line,
        clauses,
    };
    let functions = Vec::from_array(alloc, [function])?;
    let export = Export {
        name: name(alloc)?,
        arity,
        line: 2,
    };
    let exports = Vec::from_array(alloc, [export])?;
    let name = name(alloc)?;
    Ok(Module {
        name,
        line: 1,
        exports,
        functions,
    })
}

#[test]
fn copies_and_depths(rt: HostRuntime) -> Result<(), Fail> {
    let alloc = rt.alloc();
    let copy = tower(alloc)?.copy(alloc)?;
    assert!(rt; copy.exports.len() == 1);
    assert!(rt; copy.functions.len() == 1);
    for function in &copy.functions {
        assert!(rt; function.is_within(20));
        assert!(rt; !function.is_within(19));
    }
    Ok(())
}
