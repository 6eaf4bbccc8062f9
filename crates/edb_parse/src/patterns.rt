//! Patterns.

ghost use Rattle.std.specs.Prelude.{◌≡◌, IfOk};
ghost use Rattle.edb_scan.specs.declared.lexeme.Mark.TheVariants as mark;
ghost use Rattle.edb_syntax.specs.Patterns.{pats_of};
ghost use Rattle.edb_grammar.specs.Reading.{behind};
ghost use Rattle.edb_grammar.specs.PatternReading as reading;
ghost use Rattle.edb_parse.specs.Cursors.{toks, at_place, Fits, Moves, Stays};
ghost use Rattle.edb_parse.specs.Gives.{Gives, GivesTree};

use crate::cursor::{Cursor, Place, integer, is_blank};
use crate::unread::Unread;
use edb_lang::Name;
use edb_scan::{Mark, Token};
use edb_syntax::{Pattern, PatternNode};
use std::alloc::{AllocError, Global};

/// How many levels deep the deepest form is.
pub const DEEPEST: u32 = 200;

/// The pattern at the front, at most so many levels deep.
#[cycle(pattern)]
pub fn pattern<'a>(
    alloc: Global,
    levels: u32,
    tokens: Cursor<'a>,
) -> Result<(Pattern, Cursor<'a>), Unread>
    requires fits { Fits tokens }
    ensures gives { GivesTree result (reading.read_pat levels (toks tokens.entry)) }
    ensures moves { IfOk result (λ x. Moves tokens.entry x.1) }
{
    if levels == 0 {
        return Err(Unread::Refused);
    }
    let (left, rest) = single(alloc, levels - 1, tokens)?;
    joined(alloc, levels - 1, left, rest)
}

/// A pattern and the `=` and the patterns behind it, where there are such.
#[cycle(pattern)]
fn joined<'a>(
    alloc: Global,
    levels: u32,
    left: Pattern,
    tokens: Cursor<'a>,
) -> Result<(Pattern, Cursor<'a>), Unread>
    requires fits { Fits tokens }
    ensures gives { GivesTree result (reading.both_at levels (reading.read_pat levels) left (toks tokens.entry) (behind mark.Match (toks tokens.entry))) }
    ensures stays { IfOk result (λ x. Stays tokens.entry x.1) }
{
    match tokens.behind(Mark::Match) {
        None => Ok((left, tokens)),
        Some(after) => {
            if !left.is_within(levels) {
                return Err(Unread::Refused);
            }
            let (right, rest) = pattern(alloc, levels, after)?;
            let line = left.line();
            let left = Box::new(alloc, left)?;
            let right = Box::new(alloc, right)?;
            Ok((Pattern::new(line, PatternNode::Both(left, right)), rest))
        }
    }
}

/// The pattern without `=` at its top at the front, at most so many levels deep.
pub fn single_pattern<'a>(
    alloc: Global,
    levels: u32,
    tokens: Cursor<'a>,
) -> Result<(Pattern, Cursor<'a>), Unread>
    requires fits { Fits tokens }
    ensures gives { GivesTree result (reading.read_single levels (toks tokens.entry)) }
    ensures moves { IfOk result (λ x. Moves tokens.entry x.1) }
{
    if levels == 0 {
        return Err(Unread::Refused);
    }
    single(alloc, levels - 1, tokens)
}

/// The pattern without `=` at its top at the front, whose parts are at most so many levels deep.
#[cycle(pattern)]
fn single<'a>(
    alloc: Global,
    levels: u32,
    tokens: Cursor<'a>,
) -> Result<(Pattern, Cursor<'a>), Unread>
    requires fits { Fits tokens }
    ensures gives { GivesTree result (reading.single_pat (reading.read_pat levels) (toks tokens.entry)) }
    ensures moves { IfOk result (λ x. Moves tokens.entry x.1) }
{
    let (place, token, rest) = tokens.require()?;
    let line = place.line;
    match token {
        Token::Var(name) => Ok((variable(alloc, line, name)?, rest)),
        Token::Int(value) => Ok((Pattern::new(line, PatternNode::Int(integer(*value)?)), rest)),
        Token::Char(point) => Ok((
            Pattern::new(line, PatternNode::Int(i128::from(*point))),
            rest,
        )),
        Token::Atom(name) => Ok((
            Pattern::new(line, PatternNode::Atom(name.copy(alloc)?)),
            rest,
        )),
        Token::Str(text) => {
            let (points, rest) = rest.joined(alloc, text.as_slice())?;
            Ok((Pattern::new(line, PatternNode::Str(points)), rest))
        }
        Token::Mark(mark) => marked(alloc, levels, place, *mark, rest),
        _ => Err(Unread::Refused),
    }
}

/// A variable, or `_`; refused only for want of memory.
pub fn variable(alloc: Global, line: u32, name: &Name) -> Result<Pattern, AllocError>
    ensures { IfOk result (λ p. p ≡ reading.variable_pattern line name.now) }
{
    if is_blank(name) {
        return Ok(Pattern::new(line, PatternNode::Any));
    }
    Ok(Pattern::new(line, PatternNode::Var(name.copy(alloc)?)))
}

/// What begins with this mark, behind which the tokens stand.
#[cycle(pattern)]
fn marked<'a>(
    alloc: Global,
    levels: u32,
    place: Place,
    mark: Mark,
    tokens: Cursor<'a>,
) -> Result<(Pattern, Cursor<'a>), Unread>
    requires fits { Fits tokens }
    ensures gives { GivesTree result (reading.marked_pat (reading.read_pat levels) (at_place place) mark (toks tokens.entry)) }
    ensures moves { IfOk result (λ x. Moves tokens.entry x.1) }
{
    match mark {
        Mark::Minus => negative(place, tokens),
        Mark::BraceOpen => tuple(alloc, levels, place, tokens),
        Mark::BracketOpen => list(alloc, levels, place, tokens),
        _ => Err(Unread::Refused),
    }
}

/// A negative integer, of which `-` was read.
fn negative<'a>(place: Place, tokens: Cursor<'a>) -> Result<(Pattern, Cursor<'a>), Unread>
    requires fits { Fits tokens }
    ensures gives { GivesTree result (reading.negative_at (at_place place) (toks tokens.entry)) }
    ensures moves { IfOk result (λ x. Moves tokens.entry x.1) }
{
    let (_, token, rest) = tokens.require()?;
    match token {
        Token::Int(value) => {
            let value = integer(*value)?;
            Ok((Pattern::new(place.line, PatternNode::Int(-value)), rest))
        }
        _ => Err(Unread::Refused),
    }
}

/// A tuple, of which `{` was read.
#[cycle(pattern)]
fn tuple<'a>(
    alloc: Global,
    levels: u32,
    place: Place,
    tokens: Cursor<'a>,
) -> Result<(Pattern, Cursor<'a>), Unread>
    requires fits { Fits tokens }
    ensures gives { GivesTree result (reading.tuple_at (reading.read_pat levels) (at_place place) (toks tokens.entry) (behind mark.BraceClose (toks tokens.entry))) }
    ensures moves { IfOk result (λ x. Moves tokens.entry x.1) }
{
    if let Some(rest) = tokens.behind(Mark::BraceClose) {
        let none = Vec::new(alloc);
        return Ok((Pattern::new(place.line, PatternNode::Tuple(none)), rest));
    }
    let (elements, rest) = patterns(alloc, levels, tokens)?;
    let rest = rest.expect(Mark::BraceClose)?;
    Ok((Pattern::new(place.line, PatternNode::Tuple(elements)), rest))
}

/// A list, of which `[` was read.
#[cycle(pattern)]
fn list<'a>(
    alloc: Global,
    levels: u32,
    place: Place,
    tokens: Cursor<'a>,
) -> Result<(Pattern, Cursor<'a>), Unread>
    requires fits { Fits tokens }
    ensures gives { GivesTree result (reading.list_at (reading.read_pat levels) (at_place place) (toks tokens.entry) (behind mark.BracketClose (toks tokens.entry))) }
    ensures moves { IfOk result (λ x. Moves tokens.entry x.1) }
{
    if let Some(rest) = tokens.behind(Mark::BracketClose) {
        let none = Vec::new(alloc);
        return Ok((Pattern::new(place.line, PatternNode::List(none)), rest));
    }
    let (elements, rest) = patterns(alloc, levels, tokens)?;
    list_end(alloc, levels, place, elements, rest)
}

/// The end of a list behind its elements: `]`, or `|`, a tail and `]`.
#[cycle(pattern)]
fn list_end<'a>(
    alloc: Global,
    levels: u32,
    place: Place,
    elements: Vec<Pattern>,
    tokens: Cursor<'a>,
) -> Result<(Pattern, Cursor<'a>), Unread>
    requires fits { Fits tokens }
    ensures gives { GivesTree result (reading.end_at (reading.read_pat levels) (at_place place) (pats_of elements.items) (toks tokens.entry) (behind mark.BracketClose (toks tokens.entry))) }
    ensures moves { IfOk result (λ x. Moves tokens.entry x.1) }
{
    if let Some(rest) = tokens.behind(Mark::BracketClose) {
        return Ok((Pattern::new(place.line, PatternNode::List(elements)), rest));
    }
    let after = tokens.expect(Mark::Bar)?;
    let (tail, rest) = pattern(alloc, levels, after)?;
    let rest = rest.expect(Mark::BracketClose)?;
    let tail = Box::new(alloc, tail)?;
    let node = PatternNode::ListWithTail(elements, tail);
    Ok((Pattern::new(place.line, node), rest))
}

/// Patterns with commas between them, one at least.
#[cycle(pattern)]
pub fn patterns<'a>(
    alloc: Global,
    levels: u32,
    tokens: Cursor<'a>,
) -> Result<(Vec<Pattern>, Cursor<'a>), Unread>
    requires fits { Fits tokens }
    ensures gives { Gives (λ v. pats_of v.items) result (reading.read_pats (reading.read_pat levels) (toks tokens.entry)) }
    ensures moves { IfOk result (λ x. Moves tokens.entry x.1) }
{
    let (first, rest) = pattern(alloc, levels, tokens)?;
    let mut patterns = Vec::from_array(alloc, [first])?;
    let mut rest = rest;
    while let Some(after) = rest.behind(Mark::Comma) {
        let (next, behind) = pattern(alloc, levels, after)?;
        patterns.push(next)?;
        rest = behind;
    }
    Ok((patterns, rest))
}
