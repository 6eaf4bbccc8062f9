//! Expressions.

ghost use Rattle.std.specs.Prelude.{◌≡◌, IfOk, IsTrue, nat_le};
ghost use Rattle.edb_syntax.specs.Syntax.{exps_of, line_of};
ghost use Rattle.edb_syntax.specs.Depths.{depth, depths};

use crate::clause::{
    CatchClause, Clause, catches_within, clauses_within, copy_catches, copy_clauses,
};
use crate::operation::Operation;
use crate::pattern::Pattern;
use crate::qualifier::{Qualifier, copy_qualifiers, qualifiers_within};
use crate::sequence::{Sequence, after_within, copy_after};
use edb_lang::Name;
use std::alloc::{AllocError, Global};
use std::marker::Model;

/// An expression, with the line of its first token. Contracts see an `Exp`.
#[cycle(expression)]
#[derive(Drop)]
pub struct Expr {
    pub node: ExprNode,
    pub line: u32,
}

/// What an expression is.
#[cycle(expression)]
#[derive(Drop)]
pub enum ExprNode {
    /// An integer, or a character's code point.
    Int(i128),
    Atom(Name),
    /// A string: its code points.
    Str(Vec<u32>),
    /// A number with a fraction, which the checker refuses; its value isn't kept.
    Float,
    /// A variable; nothing binds the one that is named `_`.
    Var(Name),
    /// An operation on operands that are evaluated from left to right: an operator, a tuple, a list, a
    /// send or a call.
    Apply(Operation, Vec<Expr>),
    /// `A andalso B`
    AndAlso(Box<Expr>, Box<Expr>),
    /// `A orelse B`
    OrElse(Box<Expr>, Box<Expr>),
    /// `P = E`
    Match(Pattern, Box<Expr>),
    /// `catch E`
    Catch(Box<Expr>),
    /// `begin .. end`
    Begin(Sequence),
    /// `case E of .. end`; each clause has one pattern.
    Case(Box<Expr>, Vec<Clause>),
    /// `if .. end`; its clauses have no pattern.
    If(Vec<Clause>),
    /// `receive .. end`; each clause has one pattern.
    Receive(Vec<Clause>),
    /// `receive .. after E -> .. end`: the clauses, the timeout, and what follows it.
    ReceiveAfter(Vec<Clause>, Box<Expr>, Sequence),
    /// `try .. of .. catch .. after .. end`: the body, the clauses behind `of` and those behind `catch`, of
    /// each of which there may be none, and what stands behind `after`, where there is one.
    Try(Sequence, Vec<Clause>, Vec<CatchClause>, Option<Sequence>),
    /// `fun (..) -> .. end`, which has this place among the fun forms of its module.
    Fun { index: u32, clauses: Vec<Clause> },
    /// `fun f/2`, which has this place among the fun forms of its module.
    FunLocal { index: u32, name: Name, arity: u32 },
    /// `fun m:f/2`
    FunRemote { home: Name, name: Name, arity: u32 },
    /// `[E || Q, ..]`
    Comprehension(Box<Expr>, Vec<Qualifier>),
}

impl Model for Expr {
    ghost use Rattle.edb_syntax.specs.Syntax.{Exp};
    ghost use Rattle.edb_syntax.specs.Codes.{coded_exp};
    ghost use Rattle.edb_syntax.specs.Sizes.{size as exp_size};

    ghost Value = { Exp };

    ghost coded = { coded_exp };

    ghost use Rattle.edb_syntax.specs.Views.{exp_of};

    ghost view = { λ e. exp_of e.line e.node };

    ghost size = { exp_size };

    ghost use Rattle.edb_syntax.specs.Falls.{exp_falls};

    ghost size_decreases = { λ e h. exp_falls e.line e.node };
}

impl Expr {
    ghost use Rattle.edb_syntax.specs.Views.{exp_of};

    /// The expression of this line and node.
    pub fn new(line: u32, node: ExprNode) -> Expr
        ensures { result ≡ exp_of line node }
    {
        Expr { node, line }
    }

    /// An equal expression; refused only for want of memory.
    #[cycle(copy_expression)]
    pub fn copy(&self, alloc: Global) -> Result<Expr, AllocError>
        ensures { IfOk result (λ e. e ≡ self.now) }
    {
        let line = self.line;
        match &self.node {
            ExprNode::Int(value) => Ok(Expr::new(line, ExprNode::Int(*value))),
            ExprNode::Atom(name) => Ok(Expr::new(line, ExprNode::Atom(name.copy(alloc)?))),
            ExprNode::Str(points) => {
                let points = Vec::from_slice(alloc, points)?;
                Ok(Expr::new(line, ExprNode::Str(points)))
            }
            ExprNode::Float => Ok(Expr::new(line, ExprNode::Float)),
            ExprNode::Var(name) => Ok(Expr::new(line, ExprNode::Var(name.copy(alloc)?))),
            ExprNode::Apply(..) => self.node.copy_operands(alloc, line),
            ExprNode::AndAlso(..) => self.node.copy_operands(alloc, line),
            ExprNode::OrElse(..) => self.node.copy_operands(alloc, line),
            ExprNode::Match(..) => self.node.copy_operands(alloc, line),
            ExprNode::Catch(_) => self.node.copy_operands(alloc, line),
            ExprNode::Begin(_) => self.node.copy_choice(alloc, line),
            ExprNode::Case(..) => self.node.copy_choice(alloc, line),
            ExprNode::If(_) => self.node.copy_choice(alloc, line),
            ExprNode::Receive(_) => self.node.copy_choice(alloc, line),
            ExprNode::ReceiveAfter(..) => self.node.copy_choice(alloc, line),
            ExprNode::Try(..) => self.node.copy_choice(alloc, line),
            ExprNode::Fun { .. } => self.node.copy_fun(alloc, line),
            ExprNode::FunLocal { .. } => self.node.copy_fun(alloc, line),
            ExprNode::FunRemote { .. } => self.node.copy_fun(alloc, line),
            ExprNode::Comprehension(value, qualifiers) => {
                let value = copy_boxed(alloc, value)?;
                let qualifiers = copy_qualifiers(alloc, qualifiers)?;
                Ok(Expr::new(line, ExprNode::Comprehension(value, qualifiers)))
            }
        }
    }

    /// The line of its first token.
    #[tactic(auto, using(crate::proofs::Lines::lines))]
    pub fn line(&self) -> u32
        ensures { result ≡ line_of self.now }
    {
        self.line
    }

    /// Whether the expression is at most so deep.
    #[cycle(expression_within)]
    #[tactic(auto, using(crate::proofs::Lists::lists, crate::proofs::Levels::levels))]
    pub fn is_within(&self, levels: u32) -> bool
        ensures { result ≡ nat_le (depth self.now) levels }
    {
        if levels == 0 {
            return false;
        }
        let inside = levels - 1;
        match &self.node {
            ExprNode::Int(_) => true,
            ExprNode::Atom(_) => true,
            ExprNode::Str(_) => true,
            ExprNode::Float => true,
            ExprNode::Var(_) => true,
            ExprNode::Apply(operation, operands) => operation.is_within(inside)
                && exprs_within(operands, inside),
            ExprNode::AndAlso(left, right) => left.is_within(inside) && right.is_within(inside),
            ExprNode::OrElse(left, right) => left.is_within(inside) && right.is_within(inside),
            ExprNode::Match(pattern, value) => pattern.is_within(inside) && value.is_within(inside),
            ExprNode::Catch(value) => value.is_within(inside),
            ExprNode::Begin(body) => body.is_within(inside),
            ExprNode::Case(value, clauses) => value.is_within(inside)
                && clauses_within(clauses, inside),
            ExprNode::If(clauses) => clauses_within(clauses, inside),
            ExprNode::Receive(clauses) => clauses_within(clauses, inside),
            ExprNode::ReceiveAfter(clauses, time, body) => clauses_within(clauses, inside)
                && time.is_within(inside)
                && body.is_within(inside),
            ExprNode::Try(body, of, catches, after) => body.is_within(inside)
                && clauses_within(of, inside)
                && catches_within(catches, inside)
                && after_within(after, inside),
            ExprNode::Fun { clauses, .. } => clauses_within(clauses, inside),
            ExprNode::FunLocal { .. } => true,
            ExprNode::FunRemote { .. } => true,
            ExprNode::Comprehension(value, qualifiers) => value.is_within(inside)
                && qualifiers_within(qualifiers, inside),
        }
    }
}

impl ExprNode {
    ghost use Rattle.edb_syntax.specs.Views.{exp_of};
    ghost use Rattle.edb_syntax.specs.Kinds.{has_operands, is_choice, is_fun};

    // An equal node whose parts are operands or a value.
    #[cycle(copy_expression)]
    fn copy_operands(&self, alloc: Global, line: u32) -> Result<Expr, AllocError>
        requires { IsTrue (has_operands self.now) }
        ensures { IfOk result (λ e. e ≡ exp_of line self.now) }
    {
        match self {
            ExprNode::Apply(operation, operands) => {
                let operation = operation.copy(alloc)?;
                let operands = copy_exprs(alloc, operands)?;
                Ok(Expr::new(line, ExprNode::Apply(operation, operands)))
            }
            ExprNode::AndAlso(left, right) => {
                let left = copy_boxed(alloc, left)?;
                let right = copy_boxed(alloc, right)?;
                Ok(Expr::new(line, ExprNode::AndAlso(left, right)))
            }
            ExprNode::OrElse(left, right) => {
                let left = copy_boxed(alloc, left)?;
                let right = copy_boxed(alloc, right)?;
                Ok(Expr::new(line, ExprNode::OrElse(left, right)))
            }
            ExprNode::Match(pattern, value) => {
                let value = copy_boxed(alloc, value)?;
                let pattern = pattern.copy(alloc)?;
                Ok(Expr::new(line, ExprNode::Match(pattern, value)))
            }
            ExprNode::Catch(value) => {
                let value = copy_boxed(alloc, value)?;
                Ok(Expr::new(line, ExprNode::Catch(value)))
            }
            _ => unreachable!(),
        }
    }

    // An equal node whose parts are sequences or clauses.
    #[cycle(copy_expression)]
    fn copy_choice(&self, alloc: Global, line: u32) -> Result<Expr, AllocError>
        requires { IsTrue (is_choice self.now) }
        ensures { IfOk result (λ e. e ≡ exp_of line self.now) }
    {
        match self {
            ExprNode::Begin(body) => Ok(Expr::new(line, ExprNode::Begin(body.copy(alloc)?))),
            ExprNode::Case(value, clauses) => {
                let value = copy_boxed(alloc, value)?;
                let clauses = copy_clauses(alloc, clauses)?;
                Ok(Expr::new(line, ExprNode::Case(value, clauses)))
            }
            ExprNode::If(clauses) => {
                let clauses = copy_clauses(alloc, clauses)?;
                Ok(Expr::new(line, ExprNode::If(clauses)))
            }
            ExprNode::Receive(clauses) => {
                let clauses = copy_clauses(alloc, clauses)?;
                Ok(Expr::new(line, ExprNode::Receive(clauses)))
            }
            ExprNode::ReceiveAfter(clauses, time, body) => {
                let clauses = copy_clauses(alloc, clauses)?;
                let time = copy_boxed(alloc, time)?;
                let body = body.copy(alloc)?;
                Ok(Expr::new(line, ExprNode::ReceiveAfter(clauses, time, body)))
            }
            ExprNode::Try(body, of, catches, after) => {
                let of = copy_clauses(alloc, of)?;
                let catches = copy_catches(alloc, catches)?;
                let body = body.copy(alloc)?;
                let after = copy_after(alloc, after)?;
                Ok(Expr::new(line, ExprNode::Try(body, of, catches, after)))
            }
            _ => unreachable!(),
        }
    }

    // An equal fun form.
    #[cycle(copy_expression)]
    fn copy_fun(&self, alloc: Global, line: u32) -> Result<Expr, AllocError>
        requires { IsTrue (is_fun self.now) }
        ensures { IfOk result (λ e. e ≡ exp_of line self.now) }
    {
        match self {
            ExprNode::Fun { index, clauses } => {
                let index = *index;
                let clauses = copy_clauses(alloc, clauses)?;
                Ok(Expr::new(line, ExprNode::Fun { index, clauses }))
            }
            ExprNode::FunLocal { index, name, arity } => {
                let index = *index;
                let name = name.copy(alloc)?;
                let arity = *arity;
                Ok(Expr::new(line, ExprNode::FunLocal { index, name, arity }))
            }
            ExprNode::FunRemote { home, name, arity } => {
                let home = home.copy(alloc)?;
                let name = name.copy(alloc)?;
                let arity = *arity;
                Ok(Expr::new(line, ExprNode::FunRemote { home, name, arity }))
            }
            _ => unreachable!(),
        }
    }
}

// An equal expression in a box; refused only for want of memory.
#[cycle(copy_expression)]
fn copy_boxed(alloc: Global, expr: &Expr) -> Result<Box<Expr>, AllocError>
    ensures { IfOk result (λ copy. copy.value ≡ expr.now) }
{
    let copy = expr.copy(alloc)?;
    Ok(Box::new(alloc, copy)?)
}

/// Equal expressions; refused only for want of memory.
#[cycle(copy_expression)]
pub(crate) fn copy_exprs(alloc: Global, exprs: &[Expr]) -> Result<Vec<Expr>, AllocError>
    ensures { IfOk result (λ copies. copies.items ≡ exprs.now) }
{
    let mut copies = Vec::new(alloc);
    for expr in exprs {
        copies.push(expr.copy(alloc)?)?;
    }
    Ok(copies)
}

/// Whether each expression is at most so deep.
#[cycle(expression_within)]
pub(crate) fn exprs_within(exprs: &[Expr], levels: u32) -> bool
    ensures { result ≡ nat_le (depths (exps_of exprs.now)) levels }
{
    for expr in exprs {
        if !expr.is_within(levels) {
            return false;
        }
    }
    true
}
