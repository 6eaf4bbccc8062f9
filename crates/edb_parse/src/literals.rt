//! Literal terms.

ghost use Rattle.std.specs.Prelude.{◌≡◌, ◌++◌, ℕ, List, Option, None, Some, IfOk, MatchResult, Ok, Err, map, pos};
ghost use Rattle.edb_lang.specs.Terms.{Datum, Datums, IsWithin, int, tuple, nil, cons, none, of_list};
ghost use Rattle.edb_lang.specs.Limits.{limited};
ghost use Rattle.edb_grammar.specs.Literals.{IsLiteral, text_term, list_term};
ghost use Rattle.edb_grammar.specs.Faults.{term_fault_line};
ghost use Rattle.edb_grammar.specs.Reading.{more_text, behind_text};
ghost use Rattle.edb_grammar.specs.LiteralReading as reading;
ghost use Rattle.edb_grammar.specs.Toks.{line_at};
ghost use Rattle.edb_parse.specs.Cursors.{toks, Fits, Moves, Stays};
ghost use Rattle.edb_parse.specs.Gives.{Gives, GivesTree};
ghost use Rattle.edb_parse.specs.LiteralGives.{GivesAll};

use crate::cursor::{Cursor, integer};
use crate::fault::FormFault;
use crate::unread::Unread;
use edb_lang::{Cell, Limit, Node, Term};
use edb_scan::{LONGEST_FILE, Mark, Token, Tokens};
use std::alloc::{AllocError, Global};

// How many brackets and braces may stand in one another: a term that is within the limits has no more.
const DEEPEST: u32 = 4_001;

// How high a term may be, and so how many elements a list may have.
const MOST_HIGH: usize = 4_000;

/// The literal term of the tokens, from the first to the last: an integer, `-` and an integer, a character,
/// an atom, a string, or a tuple or list of such terms, a list also with a tail. It is at most 4,000 high
/// and 100,000 large. Where the tokens are no such term, the fault is form 1 at the line of the first
/// token, or at line 1 where there is none. `AllocError` only for want of memory.
pub fn parse_term(alloc: Global, tokens: &Tokens) -> Result<Result<Term, FormFault>, AllocError>
    ensures sound { IfOk result (λ r. MatchResult r (λ t. IsLiteral tokens.now t) (λ f. ((t : Datum) → IsLiteral tokens.now t → ⊥) × (f.form ≡ 1) × (f.line ≡ term_fault_line tokens.now))) }
    ensures complete { (t : Datum) → IsLiteral tokens.now t → IfOk result (λ r. r ≡ Ok t) }
{
    let count = tokens.len();
    prove!(count <= LONGEST_FILE);
    let cursor = Cursor {
        tokens: tokens.as_slice(),
        funs: 0,
    };
    match literal(alloc, cursor) {
        Ok(term) => Ok(Ok(term)),
        Err(Unread::Refused) => {
            let line = first_line(cursor);
            Ok(Err(FormFault { form: 1, line }))
        }
        Err(Unread::Memory) => Err(AllocError),
    }
}

/// The line of the first token, or 1 where there is none.
fn first_line<'a>(tokens: Cursor<'a>) -> u32
    requires fits { Fits tokens }
    ensures { result ≡ line_at (toks tokens.entry) }
{
    match tokens.first() {
        Some((place, _, _)) => place.line,
        None => 1,
    }
}

/// The literal term of the tokens, from the first to the last.
pub fn literal<'a>(alloc: Global, tokens: Cursor<'a>) -> Result<Term, Unread>
    requires fits { Fits tokens }
    ensures gives { GivesAll result (reading.read_literal (toks tokens.entry)) }
{
    let (term, rest) = term(alloc, DEEPEST, tokens)?;
    match rest.first() {
        Some(_) => Err(Unread::Refused),
        None => Ok(term),
    }
}

/// The term at the front, with at most so many brackets and braces in one another.
#[cycle(literal)]
fn term<'a>(alloc: Global, levels: u32, tokens: Cursor<'a>) -> Result<(Term, Cursor<'a>), Unread>
    requires fits { Fits tokens }
    ensures gives { GivesTree result (reading.read_term levels (toks tokens.entry)) }
    ensures moves { IfOk result (λ x. Moves tokens.entry x.1) }
{
    if levels == 0 {
        return Err(Unread::Refused);
    }
    single(alloc, levels - 1, tokens)
}

/// The term at the front, in whose parts at most so many brackets and braces stand in one another.
#[cycle(literal)]
fn single<'a>(alloc: Global, levels: u32, tokens: Cursor<'a>) -> Result<(Term, Cursor<'a>), Unread>
    requires fits { Fits tokens }
    ensures gives { GivesTree result (reading.term_at (reading.read_term levels) (toks tokens.entry)) }
    ensures moves { IfOk result (λ x. Moves tokens.entry x.1) }
{
    let (_, token, rest) = tokens.require()?;
    match token {
        Token::Int(value) => Ok((Term::int(integer(*value)?), rest)),
        Token::Char(point) => Ok((Term::int(i128::from(*point)), rest)),
        Token::Atom(name) => Ok((Term::atom(name.copy(alloc)?), rest)),
        Token::Str(front) => text(alloc, front.as_slice(), rest),
        Token::Mark(mark) => marked(alloc, levels, *mark, rest),
        _ => Err(Unread::Refused),
    }
}

/// What begins with this mark, behind which the tokens stand.
#[cycle(literal)]
fn marked<'a>(
    alloc: Global,
    levels: u32,
    mark: Mark,
    tokens: Cursor<'a>,
) -> Result<(Term, Cursor<'a>), Unread>
    requires fits { Fits tokens }
    ensures gives { GivesTree result (reading.marked_term (reading.read_term levels) mark (toks tokens.entry)) }
    ensures moves { IfOk result (λ x. Moves tokens.entry x.1) }
{
    match mark {
        Mark::Minus => negative(tokens),
        Mark::BraceOpen => tuple(alloc, levels, tokens),
        Mark::BracketOpen => list(alloc, levels, tokens),
        _ => Err(Unread::Refused),
    }
}

/// A negative integer, of which `-` was read.
fn negative<'a>(tokens: Cursor<'a>) -> Result<(Term, Cursor<'a>), Unread>
    requires fits { Fits tokens }
    ensures gives { GivesTree result (reading.read_negative (toks tokens.entry)) }
    ensures moves { IfOk result (λ x. Moves tokens.entry x.1) }
{
    let (_, token, rest) = tokens.require()?;
    match token {
        Token::Int(value) => {
            let value = integer(*value)?;
            Ok((Term::int(-value), rest))
        }
        _ => Err(Unread::Refused),
    }
}

/// A tuple, of which `{` was read.
#[cycle(literal)]
fn tuple<'a>(alloc: Global, levels: u32, tokens: Cursor<'a>) -> Result<(Term, Cursor<'a>), Unread>
    requires fits { Fits tokens }
    ensures gives { GivesTree result (reading.kept (reading.read_tuple (reading.read_term levels) (toks tokens.entry))) }
    ensures moves { IfOk result (λ x. Moves tokens.entry x.1) }
{
    if let Some(rest) = tokens.behind(Mark::BraceClose) {
        let none = Vec::new(alloc);
        return kept(Term::tuple(alloc, none)?, rest);
    }
    let (elements, rest) = terms(alloc, levels, tokens)?;
    let rest = rest.expect(Mark::BraceClose)?;
    kept(Term::tuple(alloc, elements)?, rest)
}

/// A list, of which `[` was read.
#[cycle(literal)]
fn list<'a>(alloc: Global, levels: u32, tokens: Cursor<'a>) -> Result<(Term, Cursor<'a>), Unread>
    requires fits { Fits tokens }
    ensures gives { GivesTree result (reading.kept (reading.read_list_term (reading.read_term levels) (toks tokens.entry))) }
    ensures moves { IfOk result (λ x. Moves tokens.entry x.1) }
{
    if let Some(rest) = tokens.behind(Mark::BracketClose) {
        return Ok((Term::nil(), rest));
    }
    let (elements, rest) = terms(alloc, levels, tokens)?;
    list_end(alloc, levels, elements, rest)
}

/// The end of a list behind its elements: `]`, or `|`, a tail and `]`.
#[cycle(literal)]
fn list_end<'a>(
    alloc: Global,
    levels: u32,
    elements: Vec<Term>,
    tokens: Cursor<'a>,
) -> Result<(Term, Cursor<'a>), Unread>
    requires fits { Fits tokens }
    ensures gives { GivesTree result (reading.kept (reading.read_end (reading.read_term levels) (of_list elements.items) (toks tokens.entry))) }
    ensures moves { IfOk result (λ x. Moves tokens.entry x.1) }
{
    if let Some(rest) = tokens.behind(Mark::BracketClose) {
        return list_of(alloc, elements, Term::nil(), rest);
    }
    let after = tokens.expect(Mark::Bar)?;
    let (tail, rest) = term(alloc, levels, after)?;
    let rest = rest.expect(Mark::BracketClose)?;
    list_of(alloc, elements, tail, rest)
}

/// Terms with commas between them, one at least.
#[cycle(literal)]
fn terms<'a>(
    alloc: Global,
    levels: u32,
    tokens: Cursor<'a>,
) -> Result<(Vec<Term>, Cursor<'a>), Unread>
    requires fits { Fits tokens }
    ensures gives { Gives (λ v. of_list v.items) result (reading.read_terms (reading.read_term levels) (toks tokens.entry)) }
    ensures moves { IfOk result (λ x. Moves tokens.entry x.1) }
{
    let (first, rest) = term(alloc, levels, tokens)?;
    let mut terms = Vec::from_array(alloc, [first])?;
    let mut rest = rest;
    while let Some(after) = rest.behind(Mark::Comma) {
        let (next, behind) = term(alloc, levels, after)?;
        terms.push(next)?;
        rest = behind;
    }
    Ok((terms, rest))
}

/// A string that begins with these characters, to which those of the string tokens at the front belong.
fn text<'a>(alloc: Global, front: &[u32], tokens: Cursor<'a>) -> Result<(Term, Cursor<'a>), Unread>
    requires fits { Fits tokens }
    ensures gives { GivesTree result (reading.kept (Some (text_term (front.now ++ more_text (toks tokens.entry)), behind_text (toks tokens.entry)))) }
    ensures stays { IfOk result (λ x. Stays tokens.entry x.1) }
{
    let (points, rest) = tokens.joined(alloc, front)?;
    text_of(alloc, points.as_slice(), rest)
}

/// The list of these characters, where it is within the limits.
fn text_of<'a>(
    alloc: Global,
    points: &[u32],
    rest: Cursor<'a>,
) -> Result<(Term, Cursor<'a>), Unread>
    ensures gives { GivesTree result (reading.kept (Some (text_term points.now, toks rest.entry))) }
    ensures rest { IfOk result (λ x. x.1 ≡ rest.entry) }
{
    if points.len() > MOST_HIGH {
        return Err(Unread::Refused);
    }
    let characters = characters(alloc, points)?;
    list_of(alloc, characters, Term::nil(), rest)
}

/// These characters, each as the integer of its code point; refused only for want of memory.
fn characters(alloc: Global, points: &[u32]) -> Result<Vec<Term>, AllocError>
    ensures { IfOk result (λ terms. terms.items ≡ map (λ c. int (pos c)) points.now) }
{
    let mut terms = Vec::new(alloc);
    for point in points {
        terms.push(Term::int(i128::from(*point)))?;
    }
    Ok(terms)
}

/// The list of these elements, behind which the tail stands, where it is within the limits.
fn list_of<'a>(
    alloc: Global,
    elements: Vec<Term>,
    tail: Term,
    rest: Cursor<'a>,
) -> Result<(Term, Cursor<'a>), Unread>
    requires within { IsWithin tail }
    ensures gives { GivesTree result (reading.kept (Some (list_term (of_list elements.items) tail, toks rest.entry))) }
    ensures rest { IfOk result (λ x. x.1 ≡ rest.entry) }
{
    if elements.len() > MOST_HIGH {
        return Err(Unread::Refused);
    }
    if elements.len() + tail.height() as usize > MOST_HIGH {
        return Err(Unread::Refused);
    }
    cells(alloc, elements, tail, rest)
}

/// The same, of so few elements that the cells can be built before the whole is tested.
fn cells<'a>(
    alloc: Global,
    mut elements: Vec<Term>,
    mut tail: Term,
    rest: Cursor<'a>,
) -> Result<(Term, Cursor<'a>), Unread>
    requires within { IsWithin tail }
    ensures gives { GivesTree result (reading.kept (Some (list_term (of_list elements.items) tail, toks rest.entry))) }
    ensures rest { IfOk result (λ x. x.1 ≡ rest.entry) }
{
    let Some(mut head) = elements.pop() else {
        return Ok((tail, rest));
    };
    while let Some(element) = elements.pop() {
        let cell = Box::new(alloc, Cell { head, tail })?;
        tail = Term {
            node: Node::List(cell),
        };
        head = element;
    }
    kept(Term::cons(alloc, head, tail)?, rest)
}

/// What was made, where it is within the limits.
fn kept<'a>(made: Result<Term, Limit>, rest: Cursor<'a>) -> Result<(Term, Cursor<'a>), Unread>
    ensures gives { (d : Datum) → made ≡ limited d → GivesTree result (reading.kept (Some (d, toks rest.entry))) }
    ensures rest { IfOk result (λ x. x.1 ≡ rest.entry) }
{
    match made {
        Ok(term) => Ok((term, rest)),
        Err(_) => Err(Unread::Refused),
    }
}
