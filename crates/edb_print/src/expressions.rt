//! Expressions.

ghost use Rattle.std.specs.Prelude.{◌≡◌, ◌++◌, ◌∷◌, [], ◌+◌, ℕ, OnOk, drop, true};
ghost use Rattle.edb_syntax.specs.Syntax.{exps_of, apply};
ghost use Rattle.edb_syntax.specs.declared.operation.Operation.TheVariants as operation;
ghost use Rattle.edb_print.specs.Pieces.{sign, bytes_of};
ghost use Rattle.edb_print.specs.Layout.{is_operator, is_open, grouped, lay, lay_body, lay_end};
ghost use Rattle.edb_print.specs.Parts.{all_left, lay_item, tail_left, lay_tail_item, lay_behind, lay_braces, lay_infix, lay_arguments};
ghost use Rattle.edb_print.specs.Views.{gap_of};

use crate::clauses::{
    Opening, put_block, put_catch, put_clauses, put_end_of_try, put_of, put_opened, put_qualifiers,
};
use crate::gaps::{Gap, deeper};
use crate::operators::{infix, is_loose, is_looser, prefix, prefix_gap};
use crate::patterns::put_pattern;
use crate::tokens::{
    put_entry, put_float, put_integer, put_name, put_sign, put_string, put_variable,
};
use edb_lang::UnaryOp;
use edb_scan::Mark;
use edb_syntax::{Expr, ExprNode, Operation, Sequence};
use std::alloc::{AllocError, Global};

/// Puts an expression. `depth` is how deep the line is on which it begins.
#[cycle(put_expression)]
pub(crate) fn put_expression(
    out: &mut Vec<u8>,
    alloc: Global,
    gap: Gap,
    depth: usize,
    expr: &Expr,
) -> Result<(), AllocError>
    ensures { OnOk result (out.new.items ≡ out.old.items ++ bytes_of (lay (gap_of gap) depth expr.now)) }
{
    match &expr.node {
        ExprNode::Int(value) => put_integer(out, alloc, gap, *value),
        ExprNode::Atom(name) => put_name(out, gap, name.as_bytes()),
        ExprNode::Str(points) => put_string(out, alloc, gap, points),
        ExprNode::Float => put_float(out, gap),
        ExprNode::Var(name) => put_variable(out, gap, name.as_bytes()),
        ExprNode::Apply(operation, operands) => put_operation(
            out, alloc, gap, depth, operation, operands,
        ),
        ExprNode::AndAlso(left, right) => {
            put_operand(out, alloc, gap, depth, left)?;
            put_behind(out, alloc, depth, Mark::AndAlso, right)
        }
        ExprNode::OrElse(left, right) => {
            put_operand(out, alloc, gap, depth, left)?;
            put_behind(out, alloc, depth, Mark::OrElse, right)
        }
        ExprNode::Match(pattern, value) => {
            put_pattern(out, alloc, gap, pattern)?;
            put_sign(out, Gap::Blank, Mark::Match)?;
            put_expression(out, alloc, Gap::Blank, depth, value)
        }
        ExprNode::Catch(value) => {
            put_sign(out, gap, Mark::Catch)?;
            put_operand(out, alloc, Gap::Blank, depth, value)
        }
        ExprNode::Begin(body) => put_enclosed(out, alloc, gap, depth, Mark::Begin, body),
        ExprNode::Case(value, clauses) => {
            put_sign(out, gap, Mark::Case)?;
            put_expression(out, alloc, Gap::Blank, depth, value)?;
            put_sign(out, Gap::Blank, Mark::Of)?;
            put_block(out, alloc, Opening::Pattern, depth, clauses)?;
            put_sign(out, Gap::Line(depth), Mark::End)
        }
        ExprNode::If(clauses) => {
            put_sign(out, gap, Mark::If)?;
            put_block(out, alloc, Opening::Guard, depth, clauses)?;
            put_sign(out, Gap::Line(depth), Mark::End)
        }
        ExprNode::Receive(clauses) => {
            put_sign(out, gap, Mark::Receive)?;
            put_block(out, alloc, Opening::Pattern, depth, clauses)?;
            put_sign(out, Gap::Line(depth), Mark::End)
        }
        ExprNode::ReceiveAfter(clauses, time, body) => {
            put_opened(out, alloc, gap, depth, Mark::Receive, clauses)?;
            put_sign(out, Gap::Line(depth), Mark::After)?;
            put_expression(out, alloc, Gap::Blank, depth, time)?;
            put_enclosed(out, alloc, Gap::Blank, depth, Mark::Arrow, body)
        }
        ExprNode::Try(body, of, catches, after) => {
            put_indented(out, alloc, gap, depth, Mark::Try, body)?;
            put_of(out, alloc, depth, of)?;
            put_catch(out, alloc, depth, catches)?;
            put_end_of_try(out, alloc, depth, after)
        }
        ExprNode::Fun { clauses, .. } => {
            put_sign(out, gap, Mark::Fun)?;
            put_clauses(
                out,
                alloc,
                Opening::Parameters,
                Gap::Tight,
                depth,
                deeper(depth)?,
                clauses,
            )?;
            put_sign(out, Gap::Line(depth), Mark::End)
        }
        ExprNode::FunLocal { name, arity, .. } => {
            put_sign(out, gap, Mark::Fun)?;
            put_entry(out, alloc, Gap::Blank, name, *arity)
        }
        ExprNode::FunRemote { home, name, arity } => {
            put_sign(out, gap, Mark::Fun)?;
            put_name(out, Gap::Blank, home.as_bytes())?;
            put_sign(out, Gap::Tight, Mark::Colon)?;
            put_entry(out, alloc, Gap::Tight, name, *arity)
        }
        ExprNode::Comprehension(value, qualifiers) => {
            put_sign(out, gap, Mark::BracketOpen)?;
            put_expression(out, alloc, Gap::Tight, depth, value)?;
            put_sign(out, Gap::Blank, Mark::BarBar)?;
            put_qualifiers(out, alloc, depth, qualifiers)?;
            put_sign(out, Gap::Tight, Mark::BracketClose)
        }
    }
}

/// Puts an operation on its operands; these in braces if they are fewer than it takes.
#[cycle(put_expression)]
#[tactic(auto, using(edb_syntax::proofs::Lists::lists, crate::proofs::Texts::texts, crate::proofs::Laid::binary_laid, crate::proofs::Laid::send_laid))]
fn put_operation(
    out: &mut Vec<u8>,
    alloc: Global,
    gap: Gap,
    depth: usize,
    operation: &Operation,
    operands: &[Expr],
) -> Result<(), AllocError>
    ensures { OnOk result ((l : ℕ) → out.new.items ≡ out.old.items ++ bytes_of (lay (gap_of gap) depth (apply l operation.now (exps_of operands.now)))) }
{
    match operation {
        Operation::Tuple => put_braces(out, alloc, gap, depth, operands),
        Operation::List => {
            put_sign(out, gap, Mark::BracketOpen)?;
            put_items(out, alloc, true, Gap::Tight, Gap::Blank, depth, operands, 0)?;
            put_sign(out, Gap::Tight, Mark::BracketClose)
        }
        Operation::ListWithTail => put_list_with_tail(out, alloc, gap, depth, operands),
        Operation::Unary(op) => put_unary(out, alloc, gap, depth, *op, operands),
        Operation::Binary(op) => put_infix(out, alloc, gap, depth, infix(*op), operands),
        Operation::Send => put_infix(out, alloc, gap, depth, Mark::Bang, operands),
        Operation::LocalCall(name) => {
            put_name(out, gap, name.as_bytes())?;
            put_arguments(out, alloc, depth, operands, 0)
        }
        Operation::RemoteCall => put_remote_call(out, alloc, gap, depth, operands),
        Operation::FunCall => put_fun_call(out, alloc, gap, depth, operands),
    }
}

/// Puts expressions in braces.
#[cycle(put_expression)]
fn put_braces(
    out: &mut Vec<u8>,
    alloc: Global,
    gap: Gap,
    depth: usize,
    operands: &[Expr],
) -> Result<(), AllocError>
    ensures { OnOk result (out.new.items ≡ out.old.items ++ bytes_of (lay_braces (gap_of gap) depth (exps_of operands.now))) }
{
    put_sign(out, gap, Mark::BraceOpen)?;
    put_items(out, alloc, true, Gap::Tight, Gap::Blank, depth, operands, 0)?;
    put_sign(out, Gap::Tight, Mark::BraceClose)
}

/// Puts an operator before the first of its operands.
#[cycle(put_expression)]
fn put_unary(
    out: &mut Vec<u8>,
    alloc: Global,
    gap: Gap,
    depth: usize,
    op: UnaryOp,
    operands: &[Expr],
) -> Result<(), AllocError>
    ensures { OnOk result ((l : ℕ) → out.new.items ≡ out.old.items ++ bytes_of (lay (gap_of gap) depth (apply l (operation.Unary op) (exps_of operands.now)))) }
{
    match operands {
        [operand, ..] => {
            put_sign(out, gap, prefix(op))?;
            put_operand(out, alloc, prefix_gap(op), depth, operand)
        }
        _ => put_braces(out, alloc, gap, depth, operands),
    }
}

/// Puts an operator between the first two of its operands.
#[cycle(put_expression)]
fn put_infix(
    out: &mut Vec<u8>,
    alloc: Global,
    gap: Gap,
    depth: usize,
    mark: Mark,
    operands: &[Expr],
) -> Result<(), AllocError>
    ensures { OnOk result (out.new.items ≡ out.old.items ++ bytes_of (lay_infix (gap_of gap) depth mark (exps_of operands.now))) }
{
    match operands {
        [left, right, ..] => {
            put_operand(out, alloc, gap, depth, left)?;
            put_behind(out, alloc, depth, mark, right)
        }
        _ => put_braces(out, alloc, gap, depth, operands),
    }
}

/// Puts an operator and the operand after it.
#[cycle(put_expression)]
fn put_behind(
    out: &mut Vec<u8>,
    alloc: Global,
    depth: usize,
    mark: Mark,
    right: &Expr,
) -> Result<(), AllocError>
    ensures { OnOk result (out.new.items ≡ out.old.items ++ bytes_of (lay_behind depth mark right.now)) }
{
    put_sign(out, Gap::Blank, mark)?;
    put_operand(out, alloc, Gap::Blank, depth, right)
}

/// Puts an operand: an operator, a send, a match or a catch is in parentheses.
#[cycle(put_expression)]
fn put_operand(
    out: &mut Vec<u8>,
    alloc: Global,
    gap: Gap,
    depth: usize,
    expr: &Expr,
) -> Result<(), AllocError>
    ensures { OnOk result (out.new.items ≡ out.old.items ++ bytes_of (grouped (is_operator expr.now) (λ h. lay h depth expr.now) (gap_of gap))) }
{
    if is_loose(expr) {
        put_sign(out, gap, Mark::ParenOpen)?;
        put_expression(out, alloc, Gap::Tight, depth, expr)?;
        put_sign(out, Gap::Tight, Mark::ParenClose)
    } else {
        put_expression(out, alloc, gap, depth, expr)
    }
}

/// Puts what is called, or the module or the name of a call: a call is in parentheses too.
#[cycle(put_expression)]
fn put_callee(
    out: &mut Vec<u8>,
    alloc: Global,
    gap: Gap,
    depth: usize,
    expr: &Expr,
) -> Result<(), AllocError>
    ensures { OnOk result (out.new.items ≡ out.old.items ++ bytes_of (grouped (is_open expr.now) (λ h. lay h depth expr.now) (gap_of gap))) }
{
    if is_looser(expr) {
        put_sign(out, gap, Mark::ParenOpen)?;
        put_expression(out, alloc, Gap::Tight, depth, expr)?;
        put_sign(out, Gap::Tight, Mark::ParenClose)
    } else {
        put_expression(out, alloc, gap, depth, expr)
    }
}

/// Puts the arguments of a call: all operands but so many.
#[cycle(put_expression)]
fn put_arguments(
    out: &mut Vec<u8>,
    alloc: Global,
    depth: usize,
    operands: &[Expr],
    skip: usize,
) -> Result<(), AllocError>
    ensures { OnOk result (out.new.items ≡ out.old.items ++ bytes_of (lay_arguments depth (exps_of (drop skip operands.now)))) }
{
    put_sign(out, Gap::Tight, Mark::ParenOpen)?;
    put_items(
        out,
        alloc,
        true,
        Gap::Tight,
        Gap::Blank,
        depth,
        operands,
        skip,
    )?;
    put_sign(out, Gap::Tight, Mark::ParenClose)
}

/// Puts a call of a function of another module.
#[cycle(put_expression)]
fn put_remote_call(
    out: &mut Vec<u8>,
    alloc: Global,
    gap: Gap,
    depth: usize,
    operands: &[Expr],
) -> Result<(), AllocError>
    ensures { OnOk result ((l : ℕ) → out.new.items ≡ out.old.items ++ bytes_of (lay (gap_of gap) depth (apply l operation.RemoteCall (exps_of operands.now)))) }
{
    match operands {
        [home, name, ..] => {
            put_callee(out, alloc, gap, depth, home)?;
            put_sign(out, Gap::Tight, Mark::Colon)?;
            put_callee(out, alloc, Gap::Tight, depth, name)?;
            put_arguments(out, alloc, depth, operands, 2)
        }
        _ => put_braces(out, alloc, gap, depth, operands),
    }
}

/// Puts a call of a fun.
#[cycle(put_expression)]
fn put_fun_call(
    out: &mut Vec<u8>,
    alloc: Global,
    gap: Gap,
    depth: usize,
    operands: &[Expr],
) -> Result<(), AllocError>
    ensures { OnOk result ((l : ℕ) → out.new.items ≡ out.old.items ++ bytes_of (lay (gap_of gap) depth (apply l operation.FunCall (exps_of operands.now)))) }
{
    match operands {
        [callee, ..] => {
            put_callee(out, alloc, gap, depth, callee)?;
            put_arguments(out, alloc, depth, operands, 1)
        }
        _ => put_braces(out, alloc, gap, depth, operands),
    }
}

/// Puts a list with a tail.
#[cycle(put_expression)]
fn put_list_with_tail(
    out: &mut Vec<u8>,
    alloc: Global,
    gap: Gap,
    depth: usize,
    operands: &[Expr],
) -> Result<(), AllocError>
    ensures { OnOk result ((l : ℕ) → out.new.items ≡ out.old.items ++ bytes_of (lay (gap_of gap) depth (apply l operation.ListWithTail (exps_of operands.now)))) }
{
    if operands.is_empty() {
        return put_braces(out, alloc, gap, depth, operands);
    }
    put_sign(out, gap, Mark::BracketOpen)?;
    put_with_tail(out, alloc, depth, operands)?;
    put_sign(out, Gap::Tight, Mark::BracketClose)
}

/// Puts elements and the tail after them.
#[cycle(put_expression)]
fn put_with_tail(
    out: &mut Vec<u8>,
    alloc: Global,
    depth: usize,
    operands: &[Expr],
) -> Result<(), AllocError>
    ensures { OnOk result (out.new.items ≡ out.old.items ++ bytes_of (tail_left true depth (exps_of operands.now))) }
{
    let mut left = operands.len();
    let mut first = true;
    for operand in operands {
        put_tail_item(out, alloc, first, left == 1, depth, operand)?;
        first = false;
        left -= 1;
    }
    Ok(())
}

/// Puts an element of a list with a tail, or the tail.
#[cycle(put_expression)]
fn put_tail_item(
    out: &mut Vec<u8>,
    alloc: Global,
    first: bool,
    last: bool,
    depth: usize,
    expr: &Expr,
) -> Result<(), AllocError>
    ensures { OnOk result (out.new.items ≡ out.old.items ++ bytes_of (lay_tail_item first last depth expr.now)) }
{
    if first {
        return put_expression(out, alloc, Gap::Tight, depth, expr);
    }
    if last {
        put_sign(out, Gap::Blank, Mark::Bar)?;
        return put_expression(out, alloc, Gap::Blank, depth, expr);
    }
    put_sign(out, Gap::Tight, Mark::Comma)?;
    put_expression(out, alloc, Gap::Blank, depth, expr)
}

/// Puts expressions with commas between them, all but so many. `first`: no comma comes before the first one.
#[cycle(put_expression)]
pub(crate) fn put_items(
    out: &mut Vec<u8>,
    alloc: Global,
    first: bool,
    gap: Gap,
    next: Gap,
    depth: usize,
    exprs: &[Expr],
    skip: usize,
) -> Result<(), AllocError>
    ensures { OnOk result (out.new.items ≡ out.old.items ++ bytes_of (all_left first (gap_of gap) (gap_of next) depth (exps_of (drop skip exprs.now)))) }
{
    let mut first = first;
    let mut skip = skip;
    for expr in exprs {
        if skip > 0 {
            skip -= 1;
            continue;
        }
        put_item(out, alloc, first, gap, next, depth, expr)?;
        first = false;
    }
    Ok(())
}

/// Puts an expression, after a comma if it isn't the first one.
#[cycle(put_expression)]
fn put_item(
    out: &mut Vec<u8>,
    alloc: Global,
    first: bool,
    gap: Gap,
    next: Gap,
    depth: usize,
    expr: &Expr,
) -> Result<(), AllocError>
    ensures { OnOk result (out.new.items ≡ out.old.items ++ bytes_of (lay_item first (gap_of gap) (gap_of next) depth expr.now)) }
{
    if first {
        return put_expression(out, alloc, gap, depth, expr);
    }
    put_sign(out, Gap::Tight, Mark::Comma)?;
    put_expression(out, alloc, next, depth, expr)
}

/// Puts a mark, a body four deeper than the line, and `end`.
#[cycle(put_expression)]
fn put_enclosed(
    out: &mut Vec<u8>,
    alloc: Global,
    gap: Gap,
    depth: usize,
    mark: Mark,
    body: &Sequence,
) -> Result<(), AllocError>
    ensures { OnOk result (out.new.items ≡ out.old.items ++ bytes_of (sign (gap_of gap) mark ∷ (lay_body (depth + 4) body.now ++ lay_end depth))) }
{
    put_indented(out, alloc, gap, depth, mark, body)?;
    put_sign(out, Gap::Line(depth), Mark::End)
}

/// Puts a mark, and a body four deeper than the line.
#[cycle(put_expression)]
pub(crate) fn put_indented(
    out: &mut Vec<u8>,
    alloc: Global,
    gap: Gap,
    depth: usize,
    mark: Mark,
    body: &Sequence,
) -> Result<(), AllocError>
    ensures { OnOk result (out.new.items ≡ out.old.items ++ bytes_of (sign (gap_of gap) mark ∷ lay_body (depth + 4) body.now)) }
{
    put_sign(out, gap, mark)?;
    put_body(out, alloc, deeper(depth)?, body)
}

/// Puts a body: each expression on a line of its own, so deep.
#[cycle(put_expression)]
pub(crate) fn put_body(
    out: &mut Vec<u8>,
    alloc: Global,
    depth: usize,
    body: &Sequence,
) -> Result<(), AllocError>
    ensures { OnOk result (out.new.items ≡ out.old.items ++ bytes_of (lay_body depth body.now)) }
{
    put_expression(out, alloc, Gap::Line(depth), depth, &body.first)?;
    put_items(
        out,
        alloc,
        false,
        Gap::Line(depth),
        Gap::Line(depth),
        depth,
        &body.rest,
        0,
    )
}
