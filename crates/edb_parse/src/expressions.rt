//! Expressions: the descent through the levels of operators.

ghost use Rattle.std.specs.Prelude.{◌≡◌, IfOk, IfSome, length, suc};
ghost use Rattle.edb_scan.specs.declared.lexeme.Mark.TheVariants as mark;
ghost use Rattle.edb_syntax.specs.Syntax.{catch, match as match_tree};
ghost use Rattle.edb_grammar.specs.Reading.{closed, made};
ghost use Rattle.edb_grammar.specs.PatternReading.{read_single};
ghost use Rattle.edb_grammar.specs.ExpressionReading as reading;
ghost use Rattle.edb_parse.specs.Cursors.{toks, Fits, Moves, Stays};
ghost use Rattle.edb_parse.specs.Descent.{inside, node as node_at, part};
ghost use Rattle.edb_parse.specs.Gives.{Gives};
ghost use Rattle.edb_parse.specs.Handling.{Tries};

use crate::boxes::built;
use crate::calls::operand;
use crate::cursor::Cursor;
use crate::keeping::{beside, fitting};
use crate::operators::taken;
use crate::patterns::single_pattern;
use crate::unread::Unread;
use edb_scan::Mark;
use edb_syntax::{Expr, ExprNode, Pattern};
use std::alloc::{AllocError, Global};

/// The expression at the front, at most so many levels deep, with at most so many round brackets open at
/// once, and no looser than asked.
#[cycle(expression)]
#[tactic(auto, using(crate::proofs::Steps::read_expression_some, crate::proofs::Steps::read_expression_none))]
pub fn expression<'a>(
    alloc: Global,
    levels: u32,
    brackets: u32,
    loosest: u32,
    tokens: Cursor<'a>,
) -> Result<(Box<Expr>, Cursor<'a>), Unread>
    requires fits { Fits tokens }
    ensures gives { Gives (λ e. e.value) result (reading.read_expression levels brackets loosest (toks tokens.entry)) }
    ensures moves { IfOk result (λ x. Moves tokens.entry x.1) }
{
    if levels == 0 {
        return Err(Unread::Refused);
    }
    node(alloc, levels - 1, brackets, loosest, tokens)
}

/// The expression at the front, whose parts are at most so many levels deep.
#[cycle(expression)]
pub fn node<'a>(
    alloc: Global,
    levels: u32,
    brackets: u32,
    loosest: u32,
    tokens: Cursor<'a>,
) -> Result<(Box<Expr>, Cursor<'a>), Unread>
    requires fits { Fits tokens }
    ensures gives { Gives (λ e. e.value) result (node_at levels brackets loosest (toks tokens.entry)) }
    ensures moves { IfOk result (λ x. Moves tokens.entry x.1) }
{
    if loosest < 10 {
        return matched(alloc, levels, brackets, loosest, tokens);
    }
    match tokens.behind(Mark::Catch) {
        Some(after) => caught(alloc, levels, brackets, tokens.line(), after),
        None => matched(alloc, levels, brackets, loosest, tokens),
    }
}

/// `catch E` on this line, of which `catch` was read.
#[cycle(expression)]
fn caught<'a>(
    alloc: Global,
    levels: u32,
    brackets: u32,
    line: u32,
    tokens: Cursor<'a>,
) -> Result<(Box<Expr>, Cursor<'a>), Unread>
    requires fits { Fits tokens }
    ensures gives { Gives (λ e. e.value) result (made (catch line) (part levels brackets (toks tokens.entry))) }
    ensures moves { IfOk result (λ x. Moves tokens.entry x.1) }
{
    let (operand, rest) = expression(alloc, levels, brackets, 10, tokens)?;
    built(alloc, line, ExprNode::Catch(operand), rest)
}

/// The pattern without `=` at its top at the front, and what stands behind the `=` behind it, where both stand
/// there; refused only for want of memory.
fn left_side<'a>(
    alloc: Global,
    levels: u32,
    tokens: Cursor<'a>,
) -> Result<Option<(Pattern, Cursor<'a>)>, AllocError>
    requires fits { Fits tokens }
    ensures gives { IfOk result (λ found. Tries found (closed mark.Match (read_single levels (toks tokens.entry)))) }
    ensures moves { IfOk result (λ found. IfSome found (λ x. Moves tokens.entry x.1)) }
{
    match single_pattern(alloc, levels, tokens) {
        Ok((pattern, after)) => match after.behind(Mark::Match) {
            Some(rest) => Ok(Some((pattern, rest))),
            None => {
                drop(pattern);
                Ok(None)
            }
        },
        Err(Unread::Refused) => Ok(None),
        Err(Unread::Memory) => Err(AllocError),
    }
}

/// `P = E` on this line, of which `P =` was read.
#[cycle(expression)]
fn bound<'a>(
    alloc: Global,
    levels: u32,
    brackets: u32,
    line: u32,
    pattern: Pattern,
    tokens: Cursor<'a>,
) -> Result<(Box<Expr>, Cursor<'a>), Unread>
    requires fits { Fits tokens }
    ensures gives { Gives (λ e. e.value) result (made (match_tree line pattern) (part levels brackets (toks tokens.entry))) }
    ensures moves { IfOk result (λ x. Moves tokens.entry x.1) }
{
    let value = expression(alloc, levels, brackets, 10, tokens);
    let (pattern, value, rest) = beside(pattern, value)?;
    built(alloc, line, ExprNode::Match(pattern, value), rest)
}

/// The match at the front, or the operands and the operators.
#[cycle(expression)]
fn matched<'a>(
    alloc: Global,
    levels: u32,
    brackets: u32,
    loosest: u32,
    tokens: Cursor<'a>,
) -> Result<(Box<Expr>, Cursor<'a>), Unread>
    requires fits { Fits tokens }
    ensures gives { Gives (λ e. e.value) result (reading.read_match brackets levels (reading.read_expression levels) (inside levels brackets) loosest (toks tokens.entry)) }
    ensures moves { IfOk result (λ x. Moves tokens.entry x.1) }
{
    if loosest < 9 {
        return operated(alloc, levels, brackets, loosest, tokens);
    }
    match left_side(alloc, levels, tokens)? {
        Some((pattern, after)) => bound(alloc, levels, brackets, tokens.line(), pattern, after),
        None => operated(alloc, levels, brackets, loosest, tokens),
    }
}

/// An operand, and the operators behind it.
#[cycle(expression)]
fn operated<'a>(
    alloc: Global,
    levels: u32,
    brackets: u32,
    loosest: u32,
    tokens: Cursor<'a>,
) -> Result<(Box<Expr>, Cursor<'a>), Unread>
    requires fits { Fits tokens }
    ensures gives { Gives (λ e. e.value) result (reading.read_operators brackets levels (reading.read_expression levels) (inside levels brackets) loosest (toks tokens.entry)) }
    ensures moves { IfOk result (λ x. Moves tokens.entry x.1) }
{
    let (first, rest) = operand(alloc, levels, brackets, tokens)?;
    climb(alloc, levels, brackets, loosest, tokens.line(), first, rest)
}

/// This operand, which begins on this line, with the operators behind it.
#[cycle(expression)]
fn climb<'a>(
    alloc: Global,
    levels: u32,
    brackets: u32,
    loosest: u32,
    line: u32,
    first: Box<Expr>,
    tokens: Cursor<'a>,
) -> Result<(Box<Expr>, Cursor<'a>), Unread>
    requires fits { Fits tokens }
    ensures gives { Gives (λ e. e.value) result (reading.climb brackets levels (reading.read_expression levels) loosest line (suc (length (toks tokens.entry))) 2 first.value (toks tokens.entry)) }
    ensures stays { IfOk result (λ x. Stays tokens.entry x.1) }
{
    let mut left = first;
    let mut level = 2;
    let mut rest = tokens;
    while let Some((operator, after)) = taken(loosest, level, rest) {
        let shallow = fitting(left, levels)?;
        let right = expression(alloc, levels, brackets, operator.right(), after);
        let (operand, right, behind) = beside(shallow, right)?;
        left = operator.between(alloc, line, operand, right)?;
        level = operator.level();
        rest = behind;
    }
    Ok((left, rest))
}
