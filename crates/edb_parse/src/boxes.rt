//! Expressions in boxes: the descent hands them on so, since in each call as many bytes as an expression has
//! would take too much of the stack.

ghost use Rattle.std.specs.Prelude.{◌≡◌, ◌++◌, ◌∷◌, [], IfOk, MatchOption, Some};
ghost use Rattle.edb_syntax.specs.Forms as forms;
ghost use Rattle.edb_syntax.specs.Syntax.{exps_of};
ghost use Rattle.edb_syntax.specs.Views.{exp_of};
ghost use Rattle.edb_parse.specs.Cursors.{toks};
ghost use Rattle.edb_parse.specs.Gives.{Gives};

use crate::cursor::Cursor;
use crate::unread::Unread;
use edb_lang::UnaryOp;
use edb_syntax::{Expr, ExprNode, Operation};
use std::alloc::{AllocError, Global};

/// The expression of this line and node; refused only for want of memory.
#[inline(never)]
pub fn boxed(alloc: Global, line: u32, node: ExprNode) -> Result<Box<Expr>, AllocError>
    ensures { IfOk result (λ e. e.value ≡ exp_of line node) }
{
    Ok(Box::new(alloc, Expr::new(line, node))?)
}

/// The expression of this line and node, and what stands behind it.
#[inline(never)]
pub fn built<'a>(
    alloc: Global,
    line: u32,
    node: ExprNode,
    rest: Cursor<'a>,
) -> Result<(Box<Expr>, Cursor<'a>), Unread>
    ensures gives { Gives (λ e. e.value) result (Some (exp_of line node, toks rest.entry)) }
    ensures rest { IfOk result (λ x. x.1 ≡ rest.entry) }
{
    Ok((boxed(alloc, line, node)?, rest))
}

/// Puts what is in this box behind those; refused only for want of memory.
#[inline(never)]
pub fn add<T: Drop>(items: &mut Vec<T>, next: Box<T>) -> Result<(), AllocError>
    ensures items { IfOk result (λ _. items.new.items ≡ items.old.items ++ (next.value ∷ [])) }
{
    items.push(Box::into_inner(next))?;
    Ok(())
}

/// What is in this box, alone; refused only for want of memory.
pub fn one<T: Drop>(alloc: Global, first: Box<T>) -> Result<Vec<T>, AllocError>
    ensures items { IfOk result (λ v. v.items ≡ first.value ∷ []) }
{
    let mut items = Vec::new(alloc);
    add(&mut items, first)?;
    Ok(items)
}

/// These two expressions; refused only for want of memory.
#[inline(never)]
pub fn two(alloc: Global, left: Box<Expr>, right: Box<Expr>) -> Result<Vec<Expr>, AllocError>
    ensures items { IfOk result (λ v. v.items ≡ left.value ∷ right.value ∷ []) }
{
    let operands = [Box::into_inner(left), Box::into_inner(right)];
    Ok(Vec::from_array(alloc, operands)?)
}

/// This expression and the others behind it; refused only for want of memory.
#[inline(never)]
pub fn before(first: Box<Expr>, others: Vec<Expr>) -> Result<Vec<Expr>, AllocError>
    ensures items { IfOk result (λ v. v.items ≡ first.value ∷ others.items) }
{
    let mut exprs = others;
    exprs.insert(0, Box::into_inner(first))?;
    Ok(exprs)
}

/// An operator before its operand; refused only for want of memory.
pub fn unary(
    alloc: Global,
    line: u32,
    op: UnaryOp,
    operand: Box<Expr>,
) -> Result<Box<Expr>, AllocError>
    ensures { IfOk result (λ e. e.value ≡ forms.unary line op operand.value) }
{
    let operands = one(alloc, operand)?;
    let node = ExprNode::Apply(Operation::Unary(op), operands);
    Ok(boxed(alloc, line, node)?)
}

/// `[A, B | T]`; refused only for want of memory.
#[inline(never)]
pub fn list_before(
    alloc: Global,
    line: u32,
    elements: Vec<Expr>,
    tail: Box<Expr>,
) -> Result<Box<Expr>, AllocError>
    ensures { IfOk result (λ e. e.value ≡ forms.list_with_tail line (exps_of elements.items) tail.value) }
{
    let list = Expr::list_with_tail(line, elements, Box::into_inner(tail))?;
    Ok(Box::new(alloc, list)?)
}

/// The call of this function, or of the function of this name in a module; refused only for want of memory.
#[inline(never)]
pub fn call_of(
    alloc: Global,
    line: u32,
    home: Option<Box<Expr>>,
    name: Box<Expr>,
    args: Vec<Expr>,
) -> Result<Box<Expr>, AllocError>
    ensures { MatchOption home (IfOk result (λ e. e.value ≡ forms.call line name.value (exps_of args.items))) (λ h. IfOk result (λ e. e.value ≡ forms.remote_call line h.value name.value (exps_of args.items))) }
{
    let name = Box::into_inner(name);
    let call = match home {
        Some(home) => Expr::remote_call(alloc, line, Box::into_inner(home), name, args)?,
        None => Expr::call(line, name, args)?,
    };
    Ok(Box::new(alloc, call)?)
}
