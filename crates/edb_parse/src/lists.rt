//! Expressions one behind the other.

ghost use Rattle.std.specs.Prelude.{◌≡◌, IfOk};
ghost use Rattle.edb_syntax.specs.Syntax.{exps_of};
ghost use Rattle.edb_grammar.specs.ExpressionReading as reading;
ghost use Rattle.edb_parse.specs.Cursors.{toks, at_place, Fits, Moves, Stays};
ghost use Rattle.edb_parse.specs.Descent.{part, comprehension_of};
ghost use Rattle.edb_parse.specs.Gives.{Gives};

use crate::boxes::{add, before, built, list_before, one};
use crate::cursor::{Cursor, Place};
use crate::expressions::expression;
use crate::keeping::{beside, close};
use crate::qualifiers::qualifiers;
use crate::unread::Unread;
use edb_scan::Mark;
use edb_syntax::{Expr, ExprNode, Operation};
use std::alloc::Global;

/// Expressions with commas between them, one at least.
#[cycle(expression)]
pub fn all<'a>(
    alloc: Global,
    levels: u32,
    brackets: u32,
    tokens: Cursor<'a>,
) -> Result<(Vec<Expr>, Cursor<'a>), Unread>
    requires fits { Fits tokens }
    ensures gives { Gives (λ v. exps_of v.items) result (reading.read_all (part levels brackets) (toks tokens.entry)) }
    ensures moves { IfOk result (λ x. Moves tokens.entry x.1) }
{
    let (first, behind) = expression(alloc, levels, brackets, 10, tokens)?;
    let mut exprs = one(alloc, first)?;
    let mut rest = behind;
    while let Some(after) = rest.behind(Mark::Comma) {
        let (next, behind) = expression(alloc, levels, brackets, 10, after)?;
        add(&mut exprs, next)?;
        rest = behind;
    }
    Ok((exprs, rest))
}

/// Expressions or none, and the mark that closes them.
#[cycle(expression)]
pub fn until<'a>(
    alloc: Global,
    levels: u32,
    brackets: u32,
    mark: Mark,
    tokens: Cursor<'a>,
) -> Result<(Vec<Expr>, Cursor<'a>), Unread>
    requires fits { Fits tokens }
    ensures gives { Gives (λ v. exps_of v.items) result (reading.read_until mark (part levels brackets) (toks tokens.entry)) }
    ensures moves { IfOk result (λ x. Moves tokens.entry x.1) }
{
    match tokens.behind(mark) {
        Some(rest) => Ok((Vec::new(alloc), rest)),
        None => {
            let (exprs, after) = all(alloc, levels, brackets, tokens)?;
            close(exprs, after, mark)
        }
    }
}

/// The elements of a list, of which the first has been read.
#[cycle(expression)]
fn elements<'a>(
    alloc: Global,
    levels: u32,
    brackets: u32,
    first: Box<Expr>,
    tokens: Cursor<'a>,
) -> Result<(Vec<Expr>, Cursor<'a>), Unread>
    requires fits { Fits tokens }
    ensures gives { Gives (λ v. exps_of v.items) result (reading.read_elements (part levels brackets) first.value (toks tokens.entry)) }
    ensures stays { IfOk result (λ x. Stays tokens.entry x.1) }
{
    match tokens.behind(Mark::Comma) {
        Some(after) => {
            let (first, others, rest) = beside(first, all(alloc, levels, brackets, after))?;
            Ok((before(first, others)?, rest))
        }
        None => Ok((one(alloc, first)?, tokens)),
    }
}

/// The end of a list behind its elements: `]`, or `|`, a tail and `]`.
#[cycle(expression)]
fn list_end<'a>(
    alloc: Global,
    levels: u32,
    brackets: u32,
    place: Place,
    elements: Vec<Expr>,
    tokens: Cursor<'a>,
) -> Result<(Box<Expr>, Cursor<'a>), Unread>
    requires fits { Fits tokens }
    ensures gives { Gives (λ e. e.value) result (reading.read_list (part levels brackets) (at_place place) (exps_of elements.items) (toks tokens.entry)) }
    ensures moves { IfOk result (λ x. Moves tokens.entry x.1) }
{
    if let Some(rest) = tokens.behind(Mark::BracketClose) {
        let node = ExprNode::Apply(Operation::List, elements);
        return built(alloc, place.line, node, rest);
    }
    let after = tokens.expect(Mark::Bar)?;
    let tail = expression(alloc, levels, brackets, 10, after);
    let (elements, tail, behind) = beside(elements, tail)?;
    let ((elements, tail), rest) = close((elements, tail), behind, Mark::BracketClose)?;
    Ok((list_before(alloc, place.line, elements, tail)?, rest))
}

/// The end of a comprehension of this expression, behind `||`.
#[cycle(expression)]
fn comprehension<'a>(
    alloc: Global,
    levels: u32,
    brackets: u32,
    place: Place,
    value: Box<Expr>,
    tokens: Cursor<'a>,
) -> Result<(Box<Expr>, Cursor<'a>), Unread>
    requires fits { Fits tokens }
    ensures gives { Gives (λ e. e.value) result (comprehension_of levels brackets (at_place place) value.value (toks tokens.entry)) }
    ensures moves { IfOk result (λ x. Moves tokens.entry x.1) }
{
    let (qualifiers, behind) = qualifiers(alloc, levels, brackets, tokens)?;
    let rest = behind.expect(Mark::BracketClose)?;
    let node = ExprNode::Comprehension(value, qualifiers);
    built(alloc, place.line, node, rest)
}

/// A list or a comprehension, of which `[` was read.
#[cycle(expression)]
pub fn bracketed<'a>(
    alloc: Global,
    levels: u32,
    brackets: u32,
    place: Place,
    tokens: Cursor<'a>,
) -> Result<(Box<Expr>, Cursor<'a>), Unread>
    requires fits { Fits tokens }
    ensures gives { Gives (λ e. e.value) result (reading.read_bracketed levels (part levels brackets) (at_place place) (toks tokens.entry)) }
    ensures moves { IfOk result (λ x. Moves tokens.entry x.1) }
{
    if let Some(rest) = tokens.behind(Mark::BracketClose) {
        let node = ExprNode::Apply(Operation::List, Vec::new(alloc));
        return built(alloc, place.line, node, rest);
    }
    let (first, behind) = expression(alloc, levels, brackets, 10, tokens)?;
    match behind.behind(Mark::BarBar) {
        Some(after) => comprehension(alloc, levels, brackets, place, first, after),
        None => {
            let (exprs, after) = elements(alloc, levels, brackets, first, behind)?;
            list_end(alloc, levels, brackets, place, exprs, after)
        }
    }
}
