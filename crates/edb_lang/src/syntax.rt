//! The syntax trees of a module.

ghost use Rattle.std.specs.Prelude.{◌≡◌, IfOk};

use crate::{Name, Op};
use std::alloc::{AllocError, Global};
use std::marker::Model;

/// An expression, with the line of its first token. Contracts see an `Exp`.
#[cycle(syntax)]
#[derive(Drop)]
pub struct Expr {
    pub node: ExprNode,
    pub line: u32,
}

/// What an expression is. `Call` calls a function of the module itself, `Remote` one of the module
/// that its first operand gives.
#[cycle(syntax)]
#[derive(Drop)]
pub enum ExprNode {
    Int(i128),
    Atom(Name),
    Var(Name),
    Match {
        pattern: Pattern,
        value: Box<Expr>,
    },
    Binary {
        op: Op,
        left: Box<Expr>,
        right: Box<Expr>,
    },
    Call {
        name: Name,
        args: Vec<Expr>,
    },
    Remote {
        module: Box<Expr>,
        name: Box<Expr>,
        args: Vec<Expr>,
    },
}

impl Model for Expr {
    ghost use Rattle.edb_lang.specs.Syntax.{Exp, nodes};
    ghost use Rattle.edb_lang.specs.SyntaxCodes.{coded_exp};

    ghost Value = { Exp };

    ghost coded = { coded_exp };

    ghost use Rattle.edb_lang.specs.SyntaxViews.{exp_of};

    ghost view = { λ e. exp_of e.line e.node };

    ghost size = { nodes };

    ghost use Rattle.edb_lang.specs.SyntaxFalls.{exp_falls};

    ghost size_decreases = { λ e h. exp_falls e.line e.node };
}

impl Expr {
    ghost use Rattle.edb_lang.specs.SyntaxViews.{exp_of};

    fn new(line: u32, node: ExprNode) -> Expr
        ensures { result ≡ exp_of line node }
    {
        Expr { node, line }
    }

    /// An equal expression; refused only for want of memory.
    #[cycle(copy_syntax)]
    pub fn copy(&self, alloc: Global) -> Result<Expr, AllocError>
        ensures { IfOk result (λ e. e ≡ self.now) }
    {
        let line = self.line;
        match &self.node {
            ExprNode::Int(value) => Ok(Expr::new(line, ExprNode::Int(*value))),
            ExprNode::Atom(name) => Ok(Expr::new(line, ExprNode::Atom(name.copy(alloc)?))),
            ExprNode::Var(name) => Ok(Expr::new(line, ExprNode::Var(name.copy(alloc)?))),
            ExprNode::Match { pattern, value } => {
                let pattern = pattern.copy(alloc)?;
                let value = Box::new(alloc, value.copy(alloc)?)?;
                Ok(Expr::new(line, ExprNode::Match { pattern, value }))
            }
            ExprNode::Binary { op, left, right } => {
                let op = *op;
                let left = Box::new(alloc, left.copy(alloc)?)?;
                let right = Box::new(alloc, right.copy(alloc)?)?;
                Ok(Expr::new(line, ExprNode::Binary { op, left, right }))
            }
            ExprNode::Call { name, args } => {
                let name = name.copy(alloc)?;
                let args = copy_exprs(alloc, args)?;
                Ok(Expr::new(line, ExprNode::Call { name, args }))
            }
            ExprNode::Remote { module, name, args } => {
                let module = Box::new(alloc, module.copy(alloc)?)?;
                let name = Box::new(alloc, name.copy(alloc)?)?;
                let args = copy_exprs(alloc, args)?;
                Ok(Expr::new(line, ExprNode::Remote { module, name, args }))
            }
        }
    }
}

#[cycle(copy_syntax)]
fn copy_exprs(alloc: Global, exprs: &[Expr]) -> Result<Vec<Expr>, AllocError>
    ensures { IfOk result (λ copies. copies.items ≡ exprs.now) }
{
    let mut copies = Vec::new(alloc);
    for expr in exprs {
        copies.push(expr.copy(alloc)?)?;
    }
    Ok(copies)
}

/// A pattern, with the line of its first token. Contracts see a `Pat`.
#[derive(Drop)]
pub struct Pattern {
    pub node: PatternNode,
    pub line: u32,
}

/// What a pattern is.
#[derive(Drop)]
pub enum PatternNode {
    Var(Name),
}

impl Model for Pattern {
    ghost use Rattle.edb_lang.specs.Syntax.{Pat};
    ghost use Rattle.edb_lang.specs.SyntaxCodes.{coded_pat};

    ghost Value = { Pat };

    ghost coded = { coded_pat };

    ghost use Rattle.edb_lang.specs.SyntaxViews.{pat_of};

    ghost view = { λ p. pat_of p.line p.node };
}

impl Pattern {
    /// An equal pattern; refused only for want of memory.
    pub fn copy(&self, alloc: Global) -> Result<Pattern, AllocError>
        ensures { IfOk result (λ p. p ≡ self.now) }
    {
        let line = self.line;
        match &self.node {
            PatternNode::Var(name) => Ok(Pattern {
                node: PatternNode::Var(name.copy(alloc)?),
                line,
            }),
        }
    }
}

fn copy_patterns(alloc: Global, patterns: &[Pattern]) -> Result<Vec<Pattern>, AllocError>
    ensures { IfOk result (λ copies. copies.items ≡ patterns.now) }
{
    let mut copies = Vec::new(alloc);
    for pattern in patterns {
        copies.push(pattern.copy(alloc)?)?;
    }
    Ok(copies)
}

/// A function: one pattern a parameter, and a body of one expression or more. Contracts see a
/// `FunctionTree`.
#[derive(Drop)]
pub struct Function {
    pub name: Name,
    pub parameters: Vec<Pattern>,
    pub first: Expr,
    pub rest: Vec<Expr>,
}

impl Model for Function {
    ghost use Rattle.edb_lang.specs.Syntax.{FunctionTree, exps_of};
    ghost use Rattle.edb_lang.specs.SyntaxCodes.{coded_function};

    ghost Value = { FunctionTree };

    ghost coded = { coded_function };

    ghost view = { λ f. record { name = f.name; parameters = f.parameters.items; first = f.first; rest = exps_of f.rest.items } };
}

impl Function {
    /// An equal function; refused only for want of memory.
    pub fn copy(&self, alloc: Global) -> Result<Function, AllocError>
        ensures { IfOk result (λ f. f ≡ self.now) }
    {
        let name = self.name.copy(alloc)?;
        let parameters = copy_patterns(alloc, &self.parameters)?;
        let first = self.first.copy(alloc)?;
        let rest = copy_exprs(alloc, &self.rest)?;
        Ok(Function {
            name,
            parameters,
            first,
            rest,
        })
    }
}

fn copy_functions(alloc: Global, functions: &[Function]) -> Result<Vec<Function>, AllocError>
    ensures { IfOk result (λ copies. copies.items ≡ functions.now) }
{
    let mut copies = Vec::new(alloc);
    for function in functions {
        copies.push(function.copy(alloc)?)?;
    }
    Ok(copies)
}

/// A function as an export names it: its name and how many parameters it has.
#[derive(Drop)]
pub struct FunctionName {
    pub name: Name,
    pub arity: u32,
}

impl FunctionName {
    /// An equal name and arity; refused only for want of memory.
    pub fn copy(&self, alloc: Global) -> Result<FunctionName, AllocError>
        ensures { IfOk result (λ f. f ≡ self.now) }
    {
        Ok(FunctionName {
            name: self.name.copy(alloc)?,
            arity: self.arity,
        })
    }
}

fn copy_names(alloc: Global, names: &[FunctionName]) -> Result<Vec<FunctionName>, AllocError>
    ensures { IfOk result (λ copies. copies.items ≡ names.now) }
{
    let mut copies = Vec::new(alloc);
    for name in names {
        copies.push(name.copy(alloc)?)?;
    }
    Ok(copies)
}

/// A module: its name, what it exports, and its functions. Contracts see a `ModuleTree`.
#[derive(Drop)]
pub struct Module {
    pub name: Name,
    pub exports: Vec<FunctionName>,
    pub functions: Vec<Function>,
}

impl Model for Module {
    ghost use Rattle.edb_lang.specs.Syntax.{ModuleTree};
    ghost use Rattle.edb_lang.specs.SyntaxCodes.{coded_module};

    ghost Value = { ModuleTree };

    ghost coded = { coded_module };

    ghost view = { λ m. record { name = m.name; exports = m.exports.items; functions = m.functions.items } };
}

impl Module {
    /// An equal module; refused only for want of memory.
    pub fn copy(&self, alloc: Global) -> Result<Module, AllocError>
        ensures { IfOk result (λ m. m ≡ self.now) }
    {
        let name = self.name.copy(alloc)?;
        let exports = copy_names(alloc, &self.exports)?;
        let functions = copy_functions(alloc, &self.functions)?;
        Ok(Module {
            name,
            exports,
            functions,
        })
    }
}
