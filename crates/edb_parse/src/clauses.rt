//! Clauses.

ghost use Rattle.std.specs.Prelude.{◌≡◌, IfOk};
ghost use Rattle.edb_syntax.specs.Patterns.{pats_of};
ghost use Rattle.edb_syntax.specs.Syntax.{clauses_of};
ghost use Rattle.edb_grammar.specs.ExpressionReading as reading;
ghost use Rattle.edb_grammar.specs.FormReading as forms;
ghost use Rattle.edb_parse.specs.Cursors.{toks, Fits, Moves};
ghost use Rattle.edb_parse.specs.Descent.{part};
ghost use Rattle.edb_parse.specs.Gives.{Gives, GivesTree};
ghost use Rattle.edb_parse.specs.Heads.{read_headed};

use crate::bodies::{body, guard, guarded};
use crate::cursor::Cursor;
use crate::patterns::{pattern, patterns};
use crate::unread::Unread;
use edb_lang::Name;
use edb_scan::Mark;
use edb_syntax::{Clause, Pattern};
use std::alloc::Global;

/// How clauses begin.
#[derive(Clone, Copy)]
pub enum Head<'n> {
    /// With a pattern, as in `case`.
    Pattern,
    /// With a guard alone, as in `if`.
    Guard,
    /// With patterns in parentheses, as in a fun.
    Parameters,
    /// With this name and patterns in parentheses, as in a function.
    Named(&'n Name),
}

/// Clauses that begin so, with semicolons between them, one at least.
#[cycle(expression)]
pub fn clauses<'a>(
    alloc: Global,
    levels: u32,
    brackets: u32,
    head: Head<'_>,
    tokens: Cursor<'a>,
) -> Result<(Vec<Clause>, Cursor<'a>), Unread>
    requires fits { Fits tokens }
    ensures gives { Gives (λ v. clauses_of v.items) result (reading.read_clauses (read_headed levels brackets head.entry) (toks tokens.entry)) }
    ensures moves { IfOk result (λ x. Moves tokens.entry x.1) }
{
    let (first, behind) = clause(alloc, levels, brackets, head, tokens)?;
    let mut clauses = Vec::from_array(alloc, [first])?;
    let mut rest = behind;
    while let Some(after) = rest.behind(Mark::Semicolon) {
        let (next, behind) = clause(alloc, levels, brackets, head, after)?;
        clauses.push(next)?;
        rest = behind;
    }
    Ok((clauses, rest))
}

/// A clause that begins so.
#[cycle(expression)]
fn clause<'a>(
    alloc: Global,
    levels: u32,
    brackets: u32,
    head: Head<'_>,
    tokens: Cursor<'a>,
) -> Result<(Clause, Cursor<'a>), Unread>
    requires fits { Fits tokens }
    ensures gives { GivesTree result (read_headed levels brackets head.entry (toks tokens.entry)) }
    ensures moves { IfOk result (λ x. Moves tokens.entry x.1) }
{
    match head {
        Head::Pattern => pattern_clause(alloc, levels, brackets, tokens),
        Head::Guard => guard_clause(alloc, levels, brackets, tokens),
        Head::Parameters => parameters_clause(alloc, levels, brackets, tokens),
        Head::Named(name) => named_clause(alloc, levels, brackets, name, tokens),
    }
}

/// A clause with one pattern.
#[cycle(expression)]
fn pattern_clause<'a>(
    alloc: Global,
    levels: u32,
    brackets: u32,
    tokens: Cursor<'a>,
) -> Result<(Clause, Cursor<'a>), Unread>
    requires fits { Fits tokens }
    ensures gives { GivesTree result (reading.read_pattern_clause levels (part levels brackets) (toks tokens.entry)) }
    ensures moves { IfOk result (λ x. Moves tokens.entry x.1) }
{
    let (first, behind) = pattern(alloc, levels, tokens)?;
    let patterns = Vec::from_array(alloc, [first])?;
    let ((guard, body), rest) = guarded(alloc, levels, brackets, behind)?;
    Ok((
        Clause {
            patterns,
            guard,
            body,
        },
        rest,
    ))
}

/// A clause with a guard alone.
#[cycle(expression)]
fn guard_clause<'a>(
    alloc: Global,
    levels: u32,
    brackets: u32,
    tokens: Cursor<'a>,
) -> Result<(Clause, Cursor<'a>), Unread>
    requires fits { Fits tokens }
    ensures gives { GivesTree result (reading.read_guard_clause (part levels brackets) (toks tokens.entry)) }
    ensures moves { IfOk result (λ x. Moves tokens.entry x.1) }
{
    let (guard, behind) = guard(alloc, levels, brackets, tokens)?;
    let after = behind.expect(Mark::Arrow)?;
    let (body, rest) = body(alloc, levels, brackets, after)?;
    let patterns = Vec::new(alloc);
    Ok((
        Clause {
            patterns,
            guard,
            body,
        },
        rest,
    ))
}

/// Patterns or none, and the parenthesis that closes them.
fn parameters<'a>(
    alloc: Global,
    levels: u32,
    tokens: Cursor<'a>,
) -> Result<(Vec<Pattern>, Cursor<'a>), Unread>
    requires fits { Fits tokens }
    ensures gives { Gives (λ v. pats_of v.items) result (reading.read_parameters levels (toks tokens.entry)) }
    ensures moves { IfOk result (λ x. Moves tokens.entry x.1) }
{
    if let Some(rest) = tokens.behind(Mark::ParenClose) {
        return Ok((Vec::new(alloc), rest));
    }
    let (patterns, behind) = patterns(alloc, levels, tokens)?;
    let rest = behind.expect(Mark::ParenClose)?;
    Ok((patterns, rest))
}

/// A clause with parameters in parentheses.
#[cycle(expression)]
fn parameters_clause<'a>(
    alloc: Global,
    levels: u32,
    brackets: u32,
    tokens: Cursor<'a>,
) -> Result<(Clause, Cursor<'a>), Unread>
    requires fits { Fits tokens }
    ensures gives { GivesTree result (reading.read_parameters_clause levels (part levels brackets) (toks tokens.entry)) }
    ensures moves { IfOk result (λ x. Moves tokens.entry x.1) }
{
    let after = tokens.expect(Mark::ParenOpen)?;
    let (patterns, behind) = parameters(alloc, levels, after)?;
    let ((guard, body), rest) = guarded(alloc, levels, brackets, behind)?;
    Ok((
        Clause {
            patterns,
            guard,
            body,
        },
        rest,
    ))
}

/// A clause of the function of this name.
#[cycle(expression)]
fn named_clause<'a>(
    alloc: Global,
    levels: u32,
    brackets: u32,
    name: &Name,
    tokens: Cursor<'a>,
) -> Result<(Clause, Cursor<'a>), Unread>
    requires fits { Fits tokens }
    ensures gives { GivesTree result (forms.read_named_clause name.now levels (part levels brackets) (toks tokens.entry)) }
    ensures moves { IfOk result (λ x. Moves tokens.entry x.1) }
{
    let (own, behind) = tokens.name()?;
    if !own.same(name) {
        return Err(Unread::Refused);
    }
    parameters_clause(alloc, levels, brackets, behind)
}
