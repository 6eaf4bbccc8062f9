//! Sums and their operands.

ghost use Rattle.std.specs.Prelude.{◌≡◌, ◌<◌, ◌≤◌, IfOk, IfSome, length, [], ◌∷◌};
ghost use Rattle.edb_lang.specs.Syntax as syntax;
ghost use Rattle.edb_scan.specs.declared.lexeme.Mark.TheVariants as mark;
ghost use Rattle.edb_small.specs.Descent as descent;
ghost use Rattle.edb_small.specs.Descent.{Finds};

use crate::tokens::{atom, behind, first, is_capital, is_display};
use edb_lang::{Expr, ExprNode, Name, Op};
use edb_scan::{Mark, Placed, Token};
use std::alloc::{AllocError, Global};

/// A sum with at most so many levels of calls, and what stands behind it; refused only for want of memory.
#[cycle(sums)]
pub fn sum(
    alloc: Global,
    levels: u32,
    tokens: &[Placed],
) -> Result<Option<(Expr, &[Placed])>, AllocError>
    ensures finds { IfOk result (λ r. Finds (λ x. (x.0, x.1.now)) r (descent.sum_at levels tokens.now)) }
    ensures shorter { IfOk result (λ r. IfSome r (λ x. length x.1.now < length tokens.now)) }
{
    if levels == 0 {
        return Ok(None);
    }
    sum_within(alloc, levels - 1, tokens)
}

/// A sum whose calls' arguments have at most so many levels of calls.
#[cycle(sums)]
#[tactic(auto, using(edb_lang::proofs::Lists::lists), unfolding(crate::specs::Descent::sum_with))]
fn sum_within(
    alloc: Global,
    levels: u32,
    tokens: &[Placed],
) -> Result<Option<(Expr, &[Placed])>, AllocError>
    ensures finds { IfOk result (λ r. Finds (λ x. (x.0, x.1.now)) r (descent.sum_with (descent.sum_at levels) tokens.now)) }
    ensures shorter { IfOk result (λ r. IfSome r (λ x. length x.1.now < length tokens.now)) }
{
    let Some((left, rest)) = operand(alloc, levels, tokens)? else {
        return Ok(None);
    };
    match behind(Mark::Plus, rest) {
        Some(after) => added(alloc, levels, left, after),
        None => Ok(Some((left, rest))),
    }
}

/// A sum of this operand and the one that the tokens begin with.
#[cycle(sums)]
#[tactic(auto, using(edb_lang::proofs::Lists::lists), unfolding(crate::specs::Descent::added_at))]
fn added(
    alloc: Global,
    levels: u32,
    left: Expr,
    tokens: &[Placed],
) -> Result<Option<(Expr, &[Placed])>, AllocError>
    ensures finds { IfOk result (λ r. Finds (λ x. (x.0, x.1.now)) r (descent.added_at (descent.sum_at levels) left tokens.now)) }
    ensures shorter { IfOk result (λ r. IfSome r (λ x. length x.1.now < length tokens.now)) }
{
    match operand(alloc, levels, tokens)? {
        Some((right, rest)) => {
            let line = left.line;
            let left = Box::new(alloc, left)?;
            let right = Box::new(alloc, right)?;
            let node = ExprNode::Binary {
                op: Op::Add,
                left,
                right,
            };
            Ok(Some((Expr { node, line }, rest)))
        }
        None => Ok(None),
    }
}

/// An integer, a variable or a call.
#[cycle(sums)]
#[tactic(auto, using(edb_lang::proofs::Lists::lists), unfolding(crate::specs::Descent::operand_at))]
fn operand(
    alloc: Global,
    levels: u32,
    tokens: &[Placed],
) -> Result<Option<(Expr, &[Placed])>, AllocError>
    ensures finds { IfOk result (λ r. Finds (λ x. (x.0, x.1.now)) r (descent.operand_at (descent.sum_at levels) tokens.now)) }
    ensures shorter { IfOk result (λ r. IfSome r (λ x. length x.1.now < length tokens.now)) }
{
    let Some((placed, rest)) = first(tokens) else {
        return Ok(None);
    };
    let line = placed.line;
    match &placed.token {
        Token::Int(value) if *value <= i128::MAX as u128 => {
            let node = ExprNode::Int(*value as i128);
            Ok(Some((Expr { node, line }, rest)))
        }
        Token::Var(name) if is_capital(name) => {
            let node = ExprNode::Var(name.copy(alloc)?);
            Ok(Some((Expr { node, line }, rest)))
        }
        Token::Atom(name) => applied(alloc, levels, line, name, rest),
        _ => Ok(None),
    }
}

/// What begins with an atom: a call of the module itself, or of `erlang:display`.
#[cycle(sums)]
#[tactic(auto, using(edb_lang::proofs::Lists::lists), unfolding(crate::specs::Descent::applied_at))]
fn applied<'a>(
    alloc: Global,
    levels: u32,
    line: u32,
    name: &Name,
    tokens: &'a [Placed],
) -> Result<Option<(Expr, &'a [Placed])>, AllocError>
    ensures finds { IfOk result (λ r. Finds (λ x. (x.0, x.1.now)) r (descent.applied_at (descent.sum_at levels) line name.now tokens.now)) }
    ensures shorter { IfOk result (λ r. IfSome r (λ x. length x.1.now < length tokens.now)) }
{
    match behind(Mark::ParenOpen, tokens) {
        Some(inner) => called(alloc, levels, line, name, inner),
        None => displayed(alloc, levels, line, name, tokens),
    }
}

/// A call, behind its opening parenthesis.
#[cycle(sums)]
#[tactic(auto, using(edb_lang::proofs::Lists::lists), unfolding(crate::specs::Descent::called_at))]
fn called<'a>(
    alloc: Global,
    levels: u32,
    line: u32,
    name: &Name,
    tokens: &'a [Placed],
) -> Result<Option<(Expr, &'a [Placed])>, AllocError>
    ensures finds { IfOk result (λ r. Finds (λ x. (x.0, x.1.now)) r (descent.called_at (descent.sum_at levels) line name.now tokens.now)) }
    ensures shorter { IfOk result (λ r. IfSome r (λ x. length x.1.now < length tokens.now)) }
{
    match arguments(alloc, levels, tokens)? {
        Some((args, rest)) => {
            let node = ExprNode::Call {
                name: name.copy(alloc)?,
                args,
            };
            Ok(Some((Expr { node, line }, rest)))
        }
        None => Ok(None),
    }
}

/// A call of `erlang:display`, behind the name of its module.
#[cycle(sums)]
#[tactic(auto, using(edb_lang::proofs::Lists::lists), unfolding(crate::specs::Descent::displayed_at))]
fn displayed<'a>(
    alloc: Global,
    levels: u32,
    line: u32,
    module: &Name,
    tokens: &'a [Placed],
) -> Result<Option<(Expr, &'a [Placed])>, AllocError>
    ensures finds { IfOk result (λ r. Finds (λ x. (x.0, x.1.now)) r (descent.displayed_at (descent.sum_at levels) line «module».now tokens.now)) }
    ensures shorter { IfOk result (λ r. IfSome r (λ x. length x.1.now < length tokens.now)) }
{
    let Some((name_line, name, inner)) = display_name(module, tokens) else {
        return Ok(None);
    };
    match sum(alloc, levels, inner)? {
        Some((value, after)) => match behind(Mark::ParenClose, after) {
            Some(rest) => Ok(Some((
                display_of(alloc, line, module, name_line, name, value)?,
                rest,
            ))),
            None => Ok(None),
        },
        None => Ok(None),
    }
}

/// The call of `display` with this value.
fn display_of(
    alloc: Global,
    line: u32,
    module: &Name,
    name_line: u32,
    name: &Name,
    value: Expr,
) -> Result<Expr, AllocError>
    ensures { IfOk result (λ e. e ≡ syntax.remote line (syntax.atom line «module».now) (syntax.atom name_line name.now) (syntax.more value syntax.none)) }
{
    let module = Box::new(
        alloc,
        Expr {
            node: ExprNode::Atom(module.copy(alloc)?),
            line,
        },
    )?;
    let name = Box::new(
        alloc,
        Expr {
            node: ExprNode::Atom(name.copy(alloc)?),
            line: name_line,
        },
    )?;
    let mut args = Vec::new(alloc);
    args.push(value)?;
    let node = ExprNode::Remote { module, name, args };
    Ok(Expr { node, line })
}

/// The line and the name of the function behind the colon, and what stands behind its opening parenthesis.
#[tactic(auto, unfolding(crate::specs::Descent::display_name_at))]
fn display_name<'a>(module: &Name, tokens: &'a [Placed]) -> Option<(u32, &'a Name, &'a [Placed])>
    ensures finds { Finds (λ x. ((x.0, x.1.now), x.2.now)) result (descent.display_name_at «module».now tokens.now) }
    ensures shorter { IfSome result (λ x. length x.2.now < length tokens.now) }
{
    let named = behind(Mark::Colon, tokens)?;
    let (line, name, paren) = atom(named)?;
    let inner = behind(Mark::ParenOpen, paren)?;
    is_display(module, name).then_some((line, name, inner))
}

/// The arguments of a call, and what stands behind its closing parenthesis.
#[cycle(sums)]
#[tactic(auto, using(edb_lang::proofs::Lists::lists), unfolding(crate::specs::Descent::closed))]
fn arguments(
    alloc: Global,
    levels: u32,
    tokens: &[Placed],
) -> Result<Option<(Vec<Expr>, &[Placed])>, AllocError>
    ensures finds { IfOk result (λ r. Finds (λ x. (x.0.items, x.1.now)) r (descent.closed (descent.sum_at levels) mark.ParenClose tokens.now)) }
    ensures shorter { IfOk result (λ r. IfSome r (λ x. length x.1.now < length tokens.now)) }
{
    match behind(Mark::ParenClose, tokens) {
        Some(rest) => Ok(Some((Vec::new(alloc), rest))),
        None => some_arguments(alloc, levels, tokens),
    }
}

/// One argument or more, and what stands behind the closing parenthesis.
#[cycle(sums)]
#[tactic(auto, using(edb_lang::proofs::Lists::lists), unfolding(crate::specs::Descent::some_closed))]
fn some_arguments(
    alloc: Global,
    levels: u32,
    tokens: &[Placed],
) -> Result<Option<(Vec<Expr>, &[Placed])>, AllocError>
    ensures finds { IfOk result (λ r. Finds (λ x. (x.0.items, x.1.now)) r (descent.some_closed (descent.sum_at levels) mark.ParenClose tokens.now)) }
    ensures shorter { IfOk result (λ r. IfSome r (λ x. length x.1.now < length tokens.now)) }
{
    let Some((first, after)) = sum(alloc, levels, tokens)? else {
        return Ok(None);
    };
    let Some((args, end)) = other_arguments(alloc, levels, first, after)? else {
        return Ok(None);
    };
    match behind(Mark::ParenClose, end) {
        Some(rest) => Ok(Some((args, rest))),
        None => Ok(None),
    }
}

/// An argument and those behind it, and what stands behind them.
#[cycle(sums)]
fn other_arguments(
    alloc: Global,
    levels: u32,
    first: Expr,
    tokens: &[Placed],
) -> Result<Option<(Vec<Expr>, &[Placed])>, AllocError>
    ensures finds { IfOk result (λ r. Finds (λ x. (x.0.items, x.1.now)) r (descent.others (descent.sum_at levels) (first ∷ []) tokens.now)) }
    ensures shorter { IfOk result (λ r. IfSome r (λ x. length x.1.now ≤ length tokens.now)) }
{
    let mut args = Vec::new(alloc);
    args.push(first)?;
    let mut rest = tokens;
    while let Some(after) = behind(Mark::Comma, rest) {
        let Some((arg, end)) = sum(alloc, levels, after)? else {
            return Ok(None);
        };
        args.push(arg)?;
        rest = end;
    }
    Ok(Some((args, rest)))
}
