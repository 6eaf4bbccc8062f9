//! Bodies and guards of clauses.

ghost use Rattle.std.specs.Prelude.{◌≡◌, ◌≤◌, ◌++◌, ◌∷◌, [], IfOk};
ghost use Rattle.edb_syntax.specs.Syntax.{exps_of, guards_of};
ghost use Rattle.edb_grammar.specs.ExpressionReading as reading;
ghost use Rattle.edb_parse.specs.Cursors.{toks, Fits, Moves};
ghost use Rattle.edb_parse.specs.Descent.{part};
ghost use Rattle.edb_parse.specs.Gives.{Gives, GivesTree};

use crate::cursor::Cursor;
use crate::expressions::expression;
use crate::lists::all;
use crate::unread::Unread;
use edb_scan::Mark;
use edb_syntax::{Alternative, Expr, Guard, GuardTest, Sequence};
use std::alloc::{AllocError, Global};

/// A body: expressions with commas between them.
#[cycle(expression)]
pub fn body<'a>(
    alloc: Global,
    levels: u32,
    brackets: u32,
    tokens: Cursor<'a>,
) -> Result<(Sequence, Cursor<'a>), Unread>
    requires fits { Fits tokens }
    ensures gives { GivesTree result (reading.read_body (part levels brackets) (toks tokens.entry)) }
    ensures moves { IfOk result (λ x. Moves tokens.entry x.1) }
{
    let (exprs, rest) = all(alloc, levels, brackets, tokens)?;
    let mut exprs = exprs;
    if exprs.is_empty() {
        return Err(Unread::Refused);
    }
    let first = Box::new(alloc, exprs.remove(0))?;
    Ok((Sequence { first, rest: exprs }, rest))
}

/// The test that this expression is, alone; refused only for want of memory.
fn one_test(alloc: Global, expr: Box<Expr>) -> Result<Vec<GuardTest>, AllocError>
    ensures items { IfOk result (λ v. v.items ≡ expr.value ∷ []) }
{
    let mut tests = Vec::new(alloc);
    add_test(&mut tests, expr)?;
    Ok(tests)
}

/// Puts the test that this expression is behind those; refused only for want of memory.
#[inline(never)]
fn add_test(tests: &mut Vec<GuardTest>, next: Box<Expr>) -> Result<(), AllocError>
    ensures items { IfOk result (λ _. tests.new.items ≡ tests.old.items ++ (next.value ∷ [])) }
{
    tests.push(GuardTest {
        expr: Box::into_inner(next),
    })?;
    Ok(())
}

/// The tests of an alternative, with commas between them, one at least.
#[cycle(expression)]
fn tests<'a>(
    alloc: Global,
    levels: u32,
    brackets: u32,
    tokens: Cursor<'a>,
) -> Result<(Alternative, Cursor<'a>), Unread>
    requires fits { Fits tokens }
    ensures gives { GivesTree result (reading.read_all (part levels brackets) (toks tokens.entry)) }
    ensures moves { IfOk result (λ x. Moves tokens.entry x.1) }
{
    let (first, behind) = expression(alloc, levels, brackets, 10, tokens)?;
    let mut tests = one_test(alloc, first)?;
    let mut rest = behind;
    while let Some(after) = rest.behind(Mark::Comma) {
        let (next, behind) = expression(alloc, levels, brackets, 10, after)?;
        add_test(&mut tests, next)?;
        rest = behind;
    }
    Ok((Alternative { tests }, rest))
}

/// A guard: alternatives with semicolons between them, one at least.
#[cycle(expression)]
pub fn guard<'a>(
    alloc: Global,
    levels: u32,
    brackets: u32,
    tokens: Cursor<'a>,
) -> Result<(Guard, Cursor<'a>), Unread>
    requires fits { Fits tokens }
    ensures gives { GivesTree result (reading.read_guard (part levels brackets) (toks tokens.entry)) }
    ensures moves { IfOk result (λ x. Moves tokens.entry x.1) }
{
    let (first, behind) = tests(alloc, levels, brackets, tokens)?;
    let mut alternatives = Vec::from_array(alloc, [first])?;
    let mut rest = behind;
    while let Some(after) = rest.behind(Mark::Semicolon) {
        let (next, behind) = tests(alloc, levels, brackets, after)?;
        alternatives.push(next)?;
        rest = behind;
    }
    Ok((Guard { alternatives }, rest))
}

/// A guard, where there is one, the arrow and the body.
#[cycle(expression)]
pub fn guarded<'a>(
    alloc: Global,
    levels: u32,
    brackets: u32,
    tokens: Cursor<'a>,
) -> Result<((Guard, Sequence), Cursor<'a>), Unread>
    requires fits { Fits tokens }
    ensures gives { GivesTree result (reading.read_rest (part levels brackets) (toks tokens.entry)) }
    ensures moves { IfOk result (λ x. Moves tokens.entry x.1) }
{
    if let Some(after) = tokens.behind(Mark::Arrow) {
        let (body, rest) = body(alloc, levels, brackets, after)?;
        let alternatives = Vec::new(alloc);
        return Ok(((Guard { alternatives }, body), rest));
    }
    let after = tokens.expect(Mark::When)?;
    let (guard, behind) = guard(alloc, levels, brackets, after)?;
    let after = behind.expect(Mark::Arrow)?;
    let (body, rest) = body(alloc, levels, brackets, after)?;
    Ok(((guard, body), rest))
}
