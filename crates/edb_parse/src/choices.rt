//! `case`, `if`, `receive` and `try`.

ghost use Rattle.std.specs.Prelude.{◌≡◌, IfOk};
ghost use Rattle.edb_syntax.specs.Syntax.{clauses_of, catches_of};
ghost use Rattle.edb_syntax.specs.Views.{after_of};
ghost use Rattle.edb_grammar.specs.Expressions.{handles};
ghost use Rattle.edb_grammar.specs.ExpressionReading as reading;
ghost use Rattle.edb_parse.specs.Cursors.{toks, at_place, Fits, Moves, Stays};
ghost use Rattle.edb_parse.specs.Descent.{part};
ghost use Rattle.edb_parse.specs.Choosing.{case_at, if_at};
ghost use Rattle.edb_parse.specs.Gives.{Gives};

use crate::bodies::body;
use crate::boxes::built;
use crate::clauses::{Head, clauses};
use crate::cursor::{Cursor, Place};
use crate::expressions::expression;
use crate::handlers::handlers;
use crate::keeping::close;
use crate::unread::Unread;
use edb_scan::Mark;
use edb_syntax::{CatchClause, Clause, Expr, ExprNode, Sequence};
use std::alloc::Global;

/// `case E of .. end`, of which `case` was read.
#[cycle(expression)]
pub fn case<'a>(
    alloc: Global,
    levels: u32,
    brackets: u32,
    place: Place,
    tokens: Cursor<'a>,
) -> Result<(Box<Expr>, Cursor<'a>), Unread>
    requires fits { Fits tokens }
    ensures gives { Gives (λ e. e.value) result (case_at levels brackets (at_place place) (toks tokens.entry)) }
    ensures moves { IfOk result (λ x. Moves tokens.entry x.1) }
{
    let (value, behind) = expression(alloc, levels, brackets, 10, tokens)?;
    let (value, after) = close(value, behind, Mark::Of)?;
    let (clauses, behind) = clauses(alloc, levels, brackets, Head::Pattern, after)?;
    let rest = behind.expect(Mark::End)?;
    let node = ExprNode::Case(value, clauses);
    built(alloc, place.line, node, rest)
}

/// `if .. end`, of which `if` was read.
#[cycle(expression)]
pub fn conditions<'a>(
    alloc: Global,
    levels: u32,
    brackets: u32,
    place: Place,
    tokens: Cursor<'a>,
) -> Result<(Box<Expr>, Cursor<'a>), Unread>
    requires fits { Fits tokens }
    ensures gives { Gives (λ e. e.value) result (if_at levels brackets (at_place place) (toks tokens.entry)) }
    ensures moves { IfOk result (λ x. Moves tokens.entry x.1) }
{
    let (clauses, behind) = clauses(alloc, levels, brackets, Head::Guard, tokens)?;
    let rest = behind.expect(Mark::End)?;
    built(alloc, place.line, ExprNode::If(clauses), rest)
}

/// `receive .. end` or `receive .. after .. end`, of which `receive` was read.
#[cycle(expression)]
pub fn receive<'a>(
    alloc: Global,
    levels: u32,
    brackets: u32,
    place: Place,
    tokens: Cursor<'a>,
) -> Result<(Box<Expr>, Cursor<'a>), Unread>
    requires fits { Fits tokens }
    ensures gives { Gives (λ e. e.value) result (reading.read_receive levels (part levels brackets) (at_place place) (toks tokens.entry)) }
    ensures moves { IfOk result (λ x. Moves tokens.entry x.1) }
{
    if let Some(after) = tokens.behind(Mark::After) {
        let none = Vec::new(alloc);
        return timeout(alloc, levels, brackets, place, none, after);
    }
    let (clauses, behind) = clauses(alloc, levels, brackets, Head::Pattern, tokens)?;
    if let Some(rest) = behind.behind(Mark::End) {
        let node = ExprNode::Receive(clauses);
        return built(alloc, place.line, node, rest);
    }
    let after = behind.expect(Mark::After)?;
    timeout(alloc, levels, brackets, place, clauses, after)
}

/// `E -> ..` behind the `after` of a `receive`, and its `end`.
#[cycle(expression)]
fn timeout<'a>(
    alloc: Global,
    levels: u32,
    brackets: u32,
    place: Place,
    clauses: Vec<Clause>,
    tokens: Cursor<'a>,
) -> Result<(Box<Expr>, Cursor<'a>), Unread>
    requires fits { Fits tokens }
    ensures gives { Gives (λ e. e.value) result (reading.read_timeout (part levels brackets) (at_place place) (clauses_of clauses.items) (toks tokens.entry)) }
    ensures moves { IfOk result (λ x. Moves tokens.entry x.1) }
{
    let (time, behind) = expression(alloc, levels, brackets, 10, tokens)?;
    let (time, after) = close(time, behind, Mark::Arrow)?;
    let (body, behind) = body(alloc, levels, brackets, after)?;
    let rest = behind.expect(Mark::End)?;
    let node = ExprNode::ReceiveAfter(clauses, time, body);
    built(alloc, place.line, node, rest)
}

/// The clauses behind `of`, of which there may be none.
#[cycle(expression)]
fn of<'a>(
    alloc: Global,
    levels: u32,
    brackets: u32,
    tokens: Cursor<'a>,
) -> Result<(Vec<Clause>, Cursor<'a>), Unread>
    requires fits { Fits tokens }
    ensures gives { Gives (λ v. clauses_of v.items) result (reading.read_of levels (part levels brackets) (toks tokens.entry)) }
    ensures stays { IfOk result (λ x. Stays tokens.entry x.1) }
{
    match tokens.behind(Mark::Of) {
        Some(after) => clauses(alloc, levels, brackets, Head::Pattern, after),
        None => Ok((Vec::new(alloc), tokens)),
    }
}

/// The clauses behind `catch`, of which there may be none.
#[cycle(expression)]
fn caught<'a>(
    alloc: Global,
    levels: u32,
    brackets: u32,
    tokens: Cursor<'a>,
) -> Result<(Vec<CatchClause>, Cursor<'a>), Unread>
    requires fits { Fits tokens }
    ensures gives { Gives (λ v. catches_of v.items) result (reading.read_catch levels (part levels brackets) (toks tokens.entry)) }
    ensures stays { IfOk result (λ x. Stays tokens.entry x.1) }
{
    match tokens.behind(Mark::Catch) {
        Some(after) => handlers(alloc, levels, brackets, after),
        None => Ok((Vec::new(alloc), tokens)),
    }
}

/// What stands behind `after`, where there is one.
#[cycle(expression)]
fn afterwards<'a>(
    alloc: Global,
    levels: u32,
    brackets: u32,
    tokens: Cursor<'a>,
) -> Result<(Option<Sequence>, Cursor<'a>), Unread>
    requires fits { Fits tokens }
    ensures gives { Gives (λ a. after_of a) result (reading.read_after (part levels brackets) (toks tokens.entry)) }
    ensures stays { IfOk result (λ x. Stays tokens.entry x.1) }
{
    match tokens.behind(Mark::After) {
        Some(after) => {
            let (body, rest) = body(alloc, levels, brackets, after)?;
            Ok((Some(body), rest))
        }
        None => Ok((None, tokens)),
    }
}

/// Whether a `try` with these has clauses behind `catch` or an `after`.
fn is_handled(handlers: &[CatchClause], after: &Option<Sequence>) -> bool
    ensures { result ≡ handles (catches_of handlers.now) (after_of after.now) }
{
    match after {
        Some(_) => true,
        None => match handlers.split_first() {
            Some(_) => true,
            None => false,
        },
    }
}

/// `try .. of .. catch .. after .. end`, of which `try` was read; it has a `catch` or an `after`.
#[cycle(expression)]
pub fn attempt<'a>(
    alloc: Global,
    levels: u32,
    brackets: u32,
    place: Place,
    tokens: Cursor<'a>,
) -> Result<(Box<Expr>, Cursor<'a>), Unread>
    requires fits { Fits tokens }
    ensures gives { Gives (λ e. e.value) result (reading.read_try levels (part levels brackets) (at_place place) (toks tokens.entry)) }
    ensures moves { IfOk result (λ x. Moves tokens.entry x.1) }
{
    let (body, behind) = body(alloc, levels, brackets, tokens)?;
    let (clauses, behind) = of(alloc, levels, brackets, behind)?;
    let (handlers, behind) = caught(alloc, levels, brackets, behind)?;
    let (after, behind) = afterwards(alloc, levels, brackets, behind)?;
    let rest = behind.expect(Mark::End)?;
    if !is_handled(&handlers, &after) {
        return Err(Unread::Refused);
    }
    let node = ExprNode::Try(body, clauses, handlers, after);
    built(alloc, place.line, node, rest)
}
