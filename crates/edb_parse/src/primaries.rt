//! What stands by itself.

ghost use Rattle.std.specs.Prelude.{◌≡◌, IfOk};
ghost use Rattle.edb_syntax.specs.Forms.{tuple as tuple_tree};
ghost use Rattle.edb_syntax.specs.Syntax.{begin as begin_tree};
ghost use Rattle.edb_grammar.specs.Reading as front;
ghost use Rattle.edb_grammar.specs.ExpressionReading as reading;
ghost use Rattle.edb_scan.specs.declared.lexeme.Mark.TheVariants as mark;
ghost use Rattle.edb_parse.specs.Cursors.{toks, at_place, Fits, Moves, Stays};
ghost use Rattle.edb_parse.specs.Descent.{part, inside, plain_of};
ghost use Rattle.edb_parse.specs.Gives.{Gives};

use crate::bodies::body;
use crate::boxes::built;
use crate::choices::{attempt, case, conditions, receive};
use crate::cursor::{Cursor, Place, integer};
use crate::expressions::node;
use crate::funs::fun;
use crate::keeping::close;
use crate::lists::{bracketed, until};
use crate::unread::Unread;
use edb_scan::{Mark, Token};
use edb_syntax::{Expr, ExprNode, Operation};
use std::alloc::Global;

/// What stands by itself.
#[cycle(expression)]
pub fn primary<'a>(
    alloc: Global,
    levels: u32,
    brackets: u32,
    tokens: Cursor<'a>,
) -> Result<(Box<Expr>, Cursor<'a>), Unread>
    requires fits { Fits tokens }
    ensures gives { Gives (λ e. e.value) result (reading.read_primary brackets levels (part levels brackets) (inside levels brackets) (toks tokens.entry)) }
    ensures moves { IfOk result (λ x. Moves tokens.entry x.1) }
{
    let (place, token, rest) = tokens.require()?;
    match token {
        Token::Mark(mark) => marked(alloc, levels, brackets, place, *mark, rest),
        _ => plain(alloc, place.line, token, rest),
    }
}

/// The expression that this token is, on this line; the strings behind a string belong to it.
fn plain<'a>(
    alloc: Global,
    line: u32,
    token: &Token,
    tokens: Cursor<'a>,
) -> Result<(Box<Expr>, Cursor<'a>), Unread>
    requires fits { Fits tokens }
    ensures gives { Gives (λ e. e.value) result (plain_of line token.now (toks tokens.entry)) }
    ensures stays { IfOk result (λ x. Stays tokens.entry x.1) }
{
    match token {
        Token::Var(name) => built(alloc, line, ExprNode::Var(name.copy(alloc)?), tokens),
        Token::Atom(name) => built(alloc, line, ExprNode::Atom(name.copy(alloc)?), tokens),
        Token::Int(value) => built(alloc, line, ExprNode::Int(integer(*value)?), tokens),
        Token::Char(point) => built(alloc, line, ExprNode::Int(i128::from(*point)), tokens),
        Token::Float => built(alloc, line, ExprNode::Float, tokens),
        Token::Str(text) => {
            let (points, rest) = tokens.joined(alloc, text.as_slice())?;
            built(alloc, line, ExprNode::Str(points), rest)
        }
        _ => Err(Unread::Refused),
    }
}

/// What begins with this mark, behind which the tokens stand.
#[cycle(expression)]
fn marked<'a>(
    alloc: Global,
    levels: u32,
    brackets: u32,
    place: Place,
    mark: Mark,
    tokens: Cursor<'a>,
) -> Result<(Box<Expr>, Cursor<'a>), Unread>
    requires fits { Fits tokens }
    ensures gives { Gives (λ e. e.value) result (reading.read_marked brackets levels (part levels brackets) (inside levels brackets) (at_place place) mark (toks tokens.entry)) }
    ensures moves { IfOk result (λ x. Moves tokens.entry x.1) }
{
    match mark {
        Mark::BracketOpen => bracketed(alloc, levels, brackets, place, tokens),
        Mark::BraceOpen => tuple(alloc, levels, brackets, place, tokens),
        Mark::ParenOpen => parentheses(alloc, levels, brackets, tokens),
        Mark::Begin => begin(alloc, levels, brackets, place, tokens),
        Mark::Case => case(alloc, levels, brackets, place, tokens),
        Mark::If => conditions(alloc, levels, brackets, place, tokens),
        Mark::Receive => receive(alloc, levels, brackets, place, tokens),
        Mark::Try => attempt(alloc, levels, brackets, place, tokens),
        Mark::Fun => fun(alloc, levels, brackets, place, tokens),
        _ => Err(Unread::Refused),
    }
}

/// A tuple, of which `{` was read.
#[cycle(expression)]
fn tuple<'a>(
    alloc: Global,
    levels: u32,
    brackets: u32,
    place: Place,
    tokens: Cursor<'a>,
) -> Result<(Box<Expr>, Cursor<'a>), Unread>
    requires fits { Fits tokens }
    ensures gives { Gives (λ e. e.value) result (front.made (tuple_tree place.line) (reading.read_until mark.BraceClose (part levels brackets) (toks tokens.entry))) }
    ensures moves { IfOk result (λ x. Moves tokens.entry x.1) }
{
    let (elements, rest) = until(alloc, levels, brackets, Mark::BraceClose, tokens)?;
    let node = ExprNode::Apply(Operation::Tuple, elements);
    built(alloc, place.line, node, rest)
}

/// An expression in parentheses, of which the first was read.
#[cycle(expression)]
#[tactic(auto, using(crate::proofs::Steps::inside_some, crate::proofs::Steps::inside_none))]
fn parentheses<'a>(
    alloc: Global,
    levels: u32,
    brackets: u32,
    tokens: Cursor<'a>,
) -> Result<(Box<Expr>, Cursor<'a>), Unread>
    requires fits { Fits tokens }
    ensures gives { Gives (λ e. e.value) result (front.closed mark.ParenClose (inside levels brackets (toks tokens.entry))) }
    ensures moves { IfOk result (λ x. Moves tokens.entry x.1) }
{
    if brackets == 0 {
        return Err(Unread::Refused);
    }
    let (expr, after) = node(alloc, levels, brackets - 1, 10, tokens)?;
    close(expr, after, Mark::ParenClose)
}

/// `begin .. end`, of which `begin` was read.
#[cycle(expression)]
fn begin<'a>(
    alloc: Global,
    levels: u32,
    brackets: u32,
    place: Place,
    tokens: Cursor<'a>,
) -> Result<(Box<Expr>, Cursor<'a>), Unread>
    requires fits { Fits tokens }
    ensures gives { Gives (λ e. e.value) result (front.made (begin_tree place.line) (front.closed mark.End (reading.read_body (part levels brackets) (toks tokens.entry)))) }
    ensures moves { IfOk result (λ x. Moves tokens.entry x.1) }
{
    let (body, behind) = body(alloc, levels, brackets, tokens)?;
    let rest = behind.expect(Mark::End)?;
    built(alloc, place.line, ExprNode::Begin(body), rest)
}
