//! Clauses behind `catch`.

ghost use Rattle.std.specs.Prelude.{◌≡◌, IfOk, MatchOption, IfSome, None, Some};
ghost use Rattle.edb_syntax.specs.Syntax.{catches_of};
ghost use Rattle.edb_grammar.specs.Reading.{made};
ghost use Rattle.edb_grammar.specs.ExpressionReading as reading;
ghost use Rattle.edb_parse.specs.Cursors.{toks, Fits, Moves};
ghost use Rattle.edb_parse.specs.Descent.{part};
ghost use Rattle.edb_parse.specs.Gives.{Gives, GivesTree};
ghost use Rattle.edb_parse.specs.Handling.{Tries, handlers_at, thrown_at, classed_at};

use crate::bodies::guarded;
use crate::cursor::Cursor;
use crate::keeping::beside;
use crate::patterns::{pattern, variable};
use crate::unread::Unread;
use edb_lang::Name;
use edb_scan::{Mark, Token};
use edb_syntax::{CatchClause, Pattern, PatternNode};
use std::alloc::{AllocError, Global};

/// Clauses behind `catch` with semicolons between them, one at least.
#[cycle(expression)]
pub fn handlers<'a>(
    alloc: Global,
    levels: u32,
    brackets: u32,
    tokens: Cursor<'a>,
) -> Result<(Vec<CatchClause>, Cursor<'a>), Unread>
    requires fits { Fits tokens }
    ensures gives { Gives (λ v. catches_of v.items) result (handlers_at levels brackets (toks tokens.entry)) }
    ensures moves { IfOk result (λ x. Moves tokens.entry x.1) }
{
    let (first, behind) = handler(alloc, levels, brackets, tokens)?;
    let mut handlers = Vec::from_array(alloc, [first])?;
    let mut rest = behind;
    while let Some(after) = rest.behind(Mark::Semicolon) {
        let (next, behind) = handler(alloc, levels, brackets, after)?;
        handlers.push(next)?;
        rest = behind;
    }
    Ok((handlers, rest))
}

/// A clause behind `catch`.
#[cycle(expression)]
fn handler<'a>(
    alloc: Global,
    levels: u32,
    brackets: u32,
    tokens: Cursor<'a>,
) -> Result<(CatchClause, Cursor<'a>), Unread>
    requires fits { Fits tokens }
    ensures gives { GivesTree result (reading.read_handler levels (part levels brackets) (toks tokens.entry)) }
    ensures moves { IfOk result (λ x. Moves tokens.entry x.1) }
{
    match class(alloc, tokens)? {
        Some((class, behind)) => classed(alloc, levels, brackets, class, behind),
        None => thrown(alloc, levels, brackets, tokens),
    }
}

/// The class and the `:` behind it, where both stand first; refused only for want of memory.
fn class<'a>(alloc: Global, tokens: Cursor<'a>) -> Result<Option<(Pattern, Cursor<'a>)>, AllocError>
    requires fits { Fits tokens }
    ensures gives { IfOk result (λ found. Tries found (reading.read_class (toks tokens.entry))) }
    ensures moves { IfOk result (λ found. IfSome found (λ x. Moves tokens.entry x.1)) }
{
    match tokens.first() {
        Some((place, token, behind)) => match behind.behind(Mark::Colon) {
            Some(rest) => match token {
                Token::Atom(name) => {
                    let node = PatternNode::Atom(name.copy(alloc)?);
                    Ok(Some((Pattern::new(place.line, node), rest)))
                }
                Token::Var(name) => Ok(Some((variable(alloc, place.line, name)?, rest))),
                _ => Ok(None),
            },
            None => Ok(None),
        },
        None => Ok(None),
    }
}

/// The variable for the stack.
fn stack<'a>(alloc: Global, tokens: Cursor<'a>) -> Result<(Pattern, Cursor<'a>), Unread>
    requires fits { Fits tokens }
    ensures gives { GivesTree result (reading.read_stack (toks tokens.entry)) }
    ensures moves { IfOk result (λ x. Moves tokens.entry x.1) }
{
    let (place, token, rest) = tokens.require()?;
    match token {
        Token::Var(name) => Ok((variable(alloc, place.line, name)?, rest)),
        _ => Err(Unread::Refused),
    }
}

/// What stands behind the class.
#[cycle(expression)]
fn classed<'a>(
    alloc: Global,
    levels: u32,
    brackets: u32,
    class: Pattern,
    tokens: Cursor<'a>,
) -> Result<(CatchClause, Cursor<'a>), Unread>
    requires fits { Fits tokens }
    ensures gives { GivesTree result (classed_at levels brackets class (toks tokens.entry)) }
    ensures moves { IfOk result (λ x. Moves tokens.entry x.1) }
{
    let (class, pattern, behind) = beside(class, pattern(alloc, levels, tokens))?;
    let (head, behind) = match behind.behind(Mark::Colon) {
        Some(after) => {
            let (kept, variable, behind) = beside((class, pattern), stack(alloc, after))?;
            let (class, pattern) = kept;
            ((class, pattern, Some(variable)), behind)
        }
        None => ((class, pattern, None), behind),
    };
    headed(alloc, levels, brackets, head, behind)
}

/// What stands behind the class, the pattern and the variable for the stack.
#[cycle(expression)]
fn headed<'a>(
    alloc: Global,
    levels: u32,
    brackets: u32,
    head: (Pattern, Pattern, Option<Pattern>),
    tokens: Cursor<'a>,
) -> Result<(CatchClause, Cursor<'a>), Unread>
    requires fits { Fits tokens }
    ensures gives { GivesTree result (made (reading.catch_of head.0 head.1 head.2) (reading.read_rest (part levels brackets) (toks tokens.entry))) }
    ensures moves { IfOk result (λ x. Moves tokens.entry x.1) }
{
    let (head, (guard, body), rest) = beside(head, guarded(alloc, levels, brackets, tokens))?;
    let (class, pattern, stack) = head;
    let handler = CatchClause {
        class,
        pattern,
        stack,
        guard,
        body,
    };
    Ok((handler, rest))
}

/// A clause without a class, which is `throw` then.
#[cycle(expression)]
fn thrown<'a>(
    alloc: Global,
    levels: u32,
    brackets: u32,
    tokens: Cursor<'a>,
) -> Result<(CatchClause, Cursor<'a>), Unread>
    requires fits { Fits tokens }
    ensures gives { GivesTree result (thrown_at levels brackets (toks tokens.entry)) }
    ensures moves { IfOk result (λ x. Moves tokens.entry x.1) }
{
    let (pattern, behind) = pattern(alloc, levels, tokens)?;
    match Name::from_str(alloc, "throw") {
        Ok(name) => {
            let class = Pattern::new(pattern.line(), PatternNode::Atom(name));
            headed(alloc, levels, brackets, (class, pattern, None), behind)
        }
        Err(_) => {
            drop(pattern);
            Err(Unread::Memory)
        }
    }
}
