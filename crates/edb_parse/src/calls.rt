//! Operators before their operands, and calls.

ghost use Rattle.std.specs.Prelude.{◌≡◌, IfOk, IfSome};
ghost use Rattle.std.specs.Option.{option_map};
ghost use Rattle.edb_syntax.specs.Forms.{unary as unary_tree};
ghost use Rattle.edb_syntax.specs.Syntax.{exps_of};
ghost use Rattle.edb_grammar.specs.Operators.{prefix_of};
ghost use Rattle.edb_grammar.specs.Reading.{made};
ghost use Rattle.edb_grammar.specs.ExpressionReading as reading;
ghost use Rattle.edb_parse.specs.Cursors.{toks, Fits, Moves, Stays};
ghost use Rattle.edb_parse.specs.Descent.{inside, called_of, local_of, remote_of};
ghost use Rattle.edb_parse.specs.Gives.{Gives};

use crate::boxes::{call_of, unary};
use crate::cursor::Cursor;
use crate::expressions::expression;
use crate::keeping::{beside, both_fitting, close, fitting};
use crate::lists::until;
use crate::primaries::primary;
use crate::unread::Unread;
use edb_lang::UnaryOp;
use edb_scan::{Mark, Token};
use edb_syntax::Expr;
use std::alloc::Global;

/// The operator before its operand that this mark writes, where it writes one.
fn prefix_of_mark(mark: Mark) -> Option<UnaryOp>
    ensures { result ≡ prefix_of mark }
{
    match mark {
        Mark::Plus => Some(UnaryOp::Plus),
        Mark::Minus => Some(UnaryOp::Minus),
        Mark::BitNot => Some(UnaryOp::BitNot),
        Mark::Not => Some(UnaryOp::Not),
        _ => None,
    }
}

/// The operator that stands before its operand, where one stands first, and what stands behind it.
fn prefix<'a>(tokens: Cursor<'a>) -> Option<(UnaryOp, Cursor<'a>)>
    requires fits { Fits tokens }
    ensures finds { option_map (λ x. x.0) result ≡ reading.prefix_at (toks tokens.entry) }
    ensures behind { IfSome result (λ x. toks x.1 ≡ reading.tail (toks tokens.entry)) }
    ensures moves { IfSome result (λ x. Moves tokens.entry x.1) }
{
    let (_, token, rest) = tokens.first()?;
    match token {
        Token::Mark(mark) => {
            let op = prefix_of_mark(*mark)?;
            Some((op, rest))
        }
        _ => None,
    }
}

/// An operator and its operand, or a call.
#[cycle(expression)]
pub fn operand<'a>(
    alloc: Global,
    levels: u32,
    brackets: u32,
    tokens: Cursor<'a>,
) -> Result<(Box<Expr>, Cursor<'a>), Unread>
    requires fits { Fits tokens }
    ensures gives { Gives (λ e. e.value) result (reading.read_operand brackets levels (reading.read_expression levels) (inside levels brackets) (toks tokens.entry)) }
    ensures moves { IfOk result (λ x. Moves tokens.entry x.1) }
{
    match prefix(tokens) {
        Some((op, after)) => prefixed(alloc, levels, brackets, tokens.line(), op, after),
        None => call(alloc, levels, brackets, tokens),
    }
}

/// An operator on this line, which was read, and its operand.
#[cycle(expression)]
fn prefixed<'a>(
    alloc: Global,
    levels: u32,
    brackets: u32,
    line: u32,
    op: UnaryOp,
    tokens: Cursor<'a>,
) -> Result<(Box<Expr>, Cursor<'a>), Unread>
    requires fits { Fits tokens }
    ensures gives { Gives (λ e. e.value) result (made (unary_tree line op) (reading.read_expression levels brackets 2 (toks tokens.entry))) }
    ensures moves { IfOk result (λ x. Moves tokens.entry x.1) }
{
    let (operand, rest) = expression(alloc, levels, brackets, 2, tokens)?;
    Ok((unary(alloc, line, op, operand)?, rest))
}

/// What stands by itself, or a call of it.
#[cycle(expression)]
fn call<'a>(
    alloc: Global,
    levels: u32,
    brackets: u32,
    tokens: Cursor<'a>,
) -> Result<(Box<Expr>, Cursor<'a>), Unread>
    requires fits { Fits tokens }
    ensures gives { Gives (λ e. e.value) result (reading.read_call brackets levels (reading.read_expression levels) (inside levels brackets) (toks tokens.entry)) }
    ensures moves { IfOk result (λ x. Moves tokens.entry x.1) }
{
    let (callee, after) = primary(alloc, levels, brackets, tokens)?;
    called(alloc, levels, brackets, tokens.line(), callee, after)
}

/// What stands by itself, from this line on, or a call of it.
#[cycle(expression)]
fn called<'a>(
    alloc: Global,
    levels: u32,
    brackets: u32,
    line: u32,
    callee: Box<Expr>,
    tokens: Cursor<'a>,
) -> Result<(Box<Expr>, Cursor<'a>), Unread>
    requires fits { Fits tokens }
    ensures gives { Gives (λ e. e.value) result (called_of levels brackets line callee.value (toks tokens.entry)) }
    ensures stays { IfOk result (λ x. Stays tokens.entry x.1) }
{
    match tokens.behind(Mark::ParenOpen) {
        Some(behind) => local_call(alloc, levels, brackets, line, callee, behind),
        None => match tokens.behind(Mark::Colon) {
            Some(behind) => remote_call(alloc, levels, brackets, line, callee, behind),
            None => Ok((callee, tokens)),
        },
    }
}

/// The call of this expression, on this line, behind its parenthesis.
#[cycle(expression)]
fn local_call<'a>(
    alloc: Global,
    levels: u32,
    brackets: u32,
    line: u32,
    callee: Box<Expr>,
    tokens: Cursor<'a>,
) -> Result<(Box<Expr>, Cursor<'a>), Unread>
    requires fits { Fits tokens }
    ensures gives { Gives (λ e. e.value) result (local_of levels brackets line callee.value (toks tokens.entry)) }
    ensures moves { IfOk result (λ x. Moves tokens.entry x.1) }
{
    let callee = fitting(callee, levels)?;
    let (callee, args, rest) = beside(callee, arguments(alloc, levels, brackets, tokens))?;
    Ok((call_of(alloc, line, None, callee, args)?, rest))
}

/// The call of a function of this module, on this line, behind the colon.
#[cycle(expression)]
fn remote_call<'a>(
    alloc: Global,
    levels: u32,
    brackets: u32,
    line: u32,
    home: Box<Expr>,
    tokens: Cursor<'a>,
) -> Result<(Box<Expr>, Cursor<'a>), Unread>
    requires fits { Fits tokens }
    ensures gives { Gives (λ e. e.value) result (remote_of levels brackets line home.value (toks tokens.entry)) }
    ensures moves { IfOk result (λ x. Moves tokens.entry x.1) }
{
    let (home, name, after) = beside(home, primary(alloc, levels, brackets, tokens))?;
    let (names, behind) = close((home, name), after, Mark::ParenOpen)?;
    let names = both_fitting(names, levels)?;
    let (names, args, rest) = beside(names, arguments(alloc, levels, brackets, behind))?;
    let (home, name) = names;
    Ok((call_of(alloc, line, Some(home), name, args)?, rest))
}

/// The arguments of a call behind its parenthesis, for which one round bracket has to be left.
#[cycle(expression)]
#[tactic(auto, using(crate::proofs::Steps::read_arguments_some, crate::proofs::Steps::read_arguments_none))]
fn arguments<'a>(
    alloc: Global,
    levels: u32,
    brackets: u32,
    tokens: Cursor<'a>,
) -> Result<(Vec<Expr>, Cursor<'a>), Unread>
    requires fits { Fits tokens }
    ensures gives { Gives (λ v. exps_of v.items) result (reading.read_arguments brackets (reading.read_expression levels) (toks tokens.entry)) }
    ensures moves { IfOk result (λ x. Moves tokens.entry x.1) }
{
    if brackets == 0 {
        return Err(Unread::Refused);
    }
    until(alloc, levels, brackets - 1, Mark::ParenClose, tokens)
}
