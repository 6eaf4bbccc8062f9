//! Each call that may want memory, with ample memory, and the order on one example of each kind.

use edb_lang::{
    Bindings, Bytes, Captured, Expr, ExprNode, FunValue, Function, FunctionName, Limit, Module,
    Name, Node, Op, Pattern, PatternNode, Term,
};
use std::alloc::{AllocError, Global};
use std::test::Fail;

fn name(alloc: Global, text: &str) -> Result<Name, AllocError> {
    Name::from_str(alloc, text)
}

fn list(alloc: Global, height: u32) -> Result<Result<Term, Limit>, AllocError> {
    let mut list = Term::nil();
    for _ in 0..height {
        match Term::cons(alloc, Term::int(0), list)? {
            Ok(longer) => list = longer,
            Err(limit) => return Ok(Err(limit)),
        }
    }
    Ok(Ok(list))
}

fn tuple(alloc: Global, elements: u32) -> Result<Result<Term, Limit>, AllocError> {
    let mut items = Vec::new(alloc);
    for _ in 0..elements {
        items.push(Term::nil())?;
    }
    Term::tuple(alloc, items)
}

#[test]
fn limits(rt: HostRuntime) -> Result<(), Fail> {
    let alloc = rt.alloc();
    let long = list(alloc, 4_000)??;
    assert!(rt; long.copy(alloc)?.same(&long));
    assert!(rt; list(alloc, 4_001)?.is_err());
    let wide = tuple(alloc, 99_999)??;
    assert!(rt; wide.copy(alloc)?.same(&wide));
    assert!(rt; tuple(alloc, 100_000)?.is_err());
    Ok(())
}

/// A list of so many zeros, its cells made at once, that ends in this term.
fn zeros(alloc: Global, count: u32, tail: Term) -> Result<Result<Term, Limit>, AllocError> {
    let mut items = Vec::new(alloc);
    for _ in 0..count {
        items.push(Term::int(0))?;
    }
    Term::list(alloc, items, tail)
}

#[test]
fn lists(rt: HostRuntime) -> Result<(), Fail> {
    let alloc = rt.alloc();
    let at_once = zeros(alloc, 4_000, Term::nil())??;
    assert!(rt; at_once.same(&list(alloc, 4_000)??));
    assert!(rt; zeros(alloc, 4_001, Term::nil())?.is_err());
    assert!(rt; zeros(alloc, 100_000, Term::nil())?.is_err());
    let elements = at_once.elements(alloc)?.ok_or("not a list")?;
    assert_eq!(rt; elements.len(), 4_000);
    let improper = zeros(alloc, 2, Term::int(7))??;
    assert!(rt; improper.elements(alloc)?.is_none());
    Ok(())
}

#[test]
fn names_and_bytes(rt: HostRuntime) -> Result<(), Fail> {
    let alloc = rt.alloc();
    let shop = name(alloc, "shop")?;
    assert!(rt; shop.clone()? == shop);
    assert!(rt; shop != name(alloc, "till")?);
    let bytes = Bytes::from_slice(alloc, b"ab")?;
    assert!(rt; bytes.clone()? == bytes);
    Ok(())
}

fn made(alloc: Global) -> Result<Term, AllocError> {
    let mut captured = Vec::new(alloc);
    captured.push(pair(alloc, "X", 1)?)?;
    let fun = FunValue::Made {
        module: name(alloc, "m")?,
        version: 1,
        index: 0,
        arity: 2,
        captured,
    };
    Ok(Term {
        node: Node::Fun(Box::new(alloc, fun)?),
    })
}

fn named(alloc: Global) -> Result<Term, AllocError> {
    let fun = FunValue::Named {
        module: name(alloc, "a")?,
        name: name(alloc, "a")?,
        arity: 0,
    };
    Ok(Term {
        node: Node::Fun(Box::new(alloc, fun)?),
    })
}

fn pair(alloc: Global, text: &str, value: i128) -> Result<Captured, AllocError> {
    Ok(Captured {
        name: name(alloc, text)?,
        value: Term::int(value),
    })
}

// One term of each kind, and two where the kind has more to compare, ascending.
fn ascending(alloc: Global) -> Result<Vec<Term>, AllocError> {
    let mut terms = Vec::new(alloc);
    terms.push(Term::int(-1))?;
    terms.push(Term::int(5))?;
    terms.push(Term::atom(name(alloc, "a")?))?;
    terms.push(Term::reference(0))?;
    terms.push(made(alloc)?)?;
    terms.push(named(alloc)?)?;
    terms.push(Term::pid(0))?;
    push_within(&mut terms, tuple(alloc, 0)?)?;
    push_within(&mut terms, tuple(alloc, 2)?)?;
    terms.push(Term::nil())?;
    push_within(&mut terms, list(alloc, 1)?)?;
    Ok(terms)
}

fn push_within(terms: &mut Vec<Term>, term: Result<Term, Limit>) -> Result<(), AllocError> {
    if let Ok(term) = term {
        terms.push(term)?;
    }
    Ok(())
}

#[test]
fn order(rt: HostRuntime) -> Result<(), Fail> {
    let alloc = rt.alloc();
    let terms = ascending(alloc)?;
    assert_eq!(rt; terms.len(), 11);
    for (i, left) in terms.iter().enumerate() {
        let copy = left.copy(alloc)?;
        for (j, right) in terms.iter().enumerate() {
            assert_eq!(rt; copy.cmp(right), i.cmp(&j), "{i} and {j}");
        }
    }
    Ok(())
}

#[test]
fn bindings(rt: HostRuntime) -> Result<(), Fail> {
    let alloc = rt.alloc();
    let mut bindings = Bindings::new(alloc);
    for (text, value) in [("Y", 2), ("Z", 3), ("X", 1)] {
        let variable = name(alloc, text)?;
        if bindings.get(&variable).is_none() {
            bindings.bind(variable, Term::int(value))?;
        }
    }
    let pairs = bindings.captured(alloc)?;
    assert_eq!(rt; pairs.len(), 3);
    assert_eq!(rt; pairs[0].name.as_str(), "X");
    assert_eq!(rt; pairs[2].name.as_str(), "Z");

    let mut given = Vec::new(alloc);
    for (text, value) in [("Y", 2), ("X", 1), ("Y", 9)] {
        given.push(pair(alloc, text, value)?)?;
    }
    let copy = Bindings::of(alloc, &given)?.copy(alloc)?;
    for (text, value) in [("X", 1), ("Y", 2)] {
        let found = copy.get(&name(alloc, text)?).ok_or("not bound")?;
        assert!(rt; found.same(&Term::int(value)), "{text}");
    }
    assert!(rt; copy.get(&name(alloc, "Z")?).is_none());
    Ok(())
}

fn leaf(node: ExprNode) -> Expr {
    Expr { node, line: 3 }
}

fn boxed(alloc: Global, node: ExprNode) -> Result<Box<Expr>, AllocError> {
    Ok(Box::new(alloc, leaf(node))?)
}

fn pattern(alloc: Global) -> Result<Pattern, AllocError> {
    Ok(Pattern {
        node: PatternNode::Var(name(alloc, "X")?),
        line: 2,
    })
}

// X = 1 + 2
fn first(alloc: Global) -> Result<Expr, AllocError> {
    let left = boxed(alloc, ExprNode::Int(1))?;
    let right = boxed(alloc, ExprNode::Int(2))?;
    let op = Op::Add;
    let value = boxed(alloc, ExprNode::Binary { op, left, right })?;
    let pattern = pattern(alloc)?;
    Ok(leaf(ExprNode::Match { pattern, value }))
}

// X, g()
fn arguments(alloc: Global) -> Result<Vec<Expr>, AllocError> {
    let mut arguments = Vec::new(alloc);
    arguments.push(leaf(ExprNode::Var(name(alloc, "X")?)))?;
    let name = name(alloc, "g")?;
    let args = Vec::new(alloc);
    arguments.push(leaf(ExprNode::Call { name, args }))?;
    Ok(arguments)
}

// m:f(X, g())
fn second(alloc: Global) -> Result<Expr, AllocError> {
    let module = boxed(alloc, ExprNode::Atom(name(alloc, "m")?))?;
    let name = boxed(alloc, ExprNode::Atom(name(alloc, "f")?))?;
    let args = arguments(alloc)?;
    Ok(leaf(ExprNode::Remote { module, name, args }))
}

fn function(alloc: Global) -> Result<Function, AllocError> {
    let name = name(alloc, "f")?;
    let mut parameters = Vec::new(alloc);
    parameters.push(pattern(alloc)?)?;
    let first = first(alloc)?;
    let mut rest = Vec::new(alloc);
    rest.push(second(alloc)?)?;
    Ok(Function {
        name,
        parameters,
        first,
        rest,
    })
}

fn module(alloc: Global) -> Result<Module, AllocError> {
    let mut exports = Vec::new(alloc);
    exports.push(FunctionName {
        name: name(alloc, "f")?,
        arity: 1,
    })?;
    let mut functions = Vec::new(alloc);
    functions.push(function(alloc)?)?;
    Ok(Module {
        name: name(alloc, "m")?,
        exports,
        functions,
    })
}

#[test]
fn syntax(rt: HostRuntime) -> Result<(), Fail> {
    let alloc = rt.alloc();
    let copy = module(alloc)?.copy(alloc)?;
    assert_eq!(rt; copy.name.as_str(), "m");
    assert_eq!(rt; copy.exports.len(), 1);
    assert_eq!(rt; copy.exports[0].arity, 1);
    assert_eq!(rt; copy.functions.len(), 1);
    assert_eq!(rt; copy.functions[0].parameters.len(), 1);
    assert_eq!(rt; copy.functions[0].first.line, 3);
    assert_eq!(rt; copy.functions[0].rest.len(), 1);
    Ok(())
}
