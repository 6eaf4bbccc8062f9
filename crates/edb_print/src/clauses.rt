//! Clauses, and what they have in them; qualifiers.

ghost use Rattle.std.specs.Prelude.{◌≡◌, ◌++◌, ◌∷◌, OnOk, true};
ghost use Rattle.edb_syntax.specs.Syntax.{clauses_of, catches_of, qualifiers_of};
ghost use Rattle.edb_syntax.specs.Views.{after_of};
ghost use Rattle.edb_print.specs.Pieces.{blank, sign, bytes_of};
ghost use Rattle.edb_print.specs.Layout.{with_pattern, lay_end, lay_all, lay_guard, lay_when, lay_clause, lay_clauses, lay_of, lay_catch, lay_after, lay_handler, lay_stack, lay_qualifiers, lay_qualifier};
ghost use Rattle.edb_print.specs.Parts.{lay_block, lay_handlers};
ghost use Rattle.edb_print.specs.Views.{gap_of, opening_of};

use crate::expressions::{put_expression, put_indented};
use crate::gaps::{Gap, deeper};
use crate::patterns::{put_pattern, put_patterns};
use crate::tokens::put_sign;
use edb_scan::Mark;
use edb_syntax::{
    Alternative, CatchClause, Clause, Guard, Pattern, Qualifier, QualifierNode, Sequence,
};
use std::alloc::{AllocError, Global};

/// How clauses begin: with a pattern, with a guard, or with patterns in parentheses.
#[derive(Clone, Copy)]
pub(crate) enum Opening {
    Pattern,
    Guard,
    Parameters,
}

/// Puts tests of a guard with `, ` between them.
#[cycle(put_expression)]
fn put_tests(
    out: &mut Vec<u8>,
    alloc: Global,
    gap: Gap,
    depth: usize,
    alternative: &Alternative,
) -> Result<(), AllocError>
    ensures { OnOk result (out.new.items ≡ out.old.items ++ bytes_of (lay_all (gap_of gap) blank depth alternative.now)) }
{
    let mut first = true;
    for test in &alternative.tests {
        if first {
            put_expression(out, alloc, gap, depth, &test.expr)?;
            first = false;
        } else {
            put_sign(out, Gap::Tight, Mark::Comma)?;
            put_expression(out, alloc, Gap::Blank, depth, &test.expr)?;
        }
    }
    Ok(())
}

/// Puts the alternatives of a guard with `; ` between them.
#[cycle(put_expression)]
fn put_guard(
    out: &mut Vec<u8>,
    alloc: Global,
    gap: Gap,
    depth: usize,
    guard: &Guard,
) -> Result<(), AllocError>
    ensures { OnOk result (out.new.items ≡ out.old.items ++ bytes_of (lay_guard (gap_of gap) depth guard.now)) }
{
    let mut first = true;
    for alternative in &guard.alternatives {
        if first {
            put_tests(out, alloc, gap, depth, alternative)?;
            first = false;
        } else {
            put_sign(out, Gap::Tight, Mark::Semicolon)?;
            put_tests(out, alloc, Gap::Blank, depth, alternative)?;
        }
    }
    Ok(())
}

/// Puts the guard of a clause after its patterns, if it has one.
#[cycle(put_expression)]
fn put_when(out: &mut Vec<u8>, alloc: Global, depth: usize, guard: &Guard) -> Result<(), AllocError>
    ensures { OnOk result (out.new.items ≡ out.old.items ++ bytes_of (lay_when depth guard.now)) }
{
    if guard.alternatives.is_empty() {
        return Ok(());
    }
    put_sign(out, Gap::Blank, Mark::When)?;
    put_guard(out, alloc, Gap::Blank, depth, guard)
}

/// Puts a clause.
#[cycle(put_expression)]
pub(crate) fn put_clause(
    out: &mut Vec<u8>,
    alloc: Global,
    opening: Opening,
    gap: Gap,
    depth: usize,
    clause: &Clause,
) -> Result<(), AllocError>
    ensures { OnOk result (out.new.items ≡ out.old.items ++ bytes_of (lay_clause (opening_of opening) (gap_of gap) depth clause.now)) }
{
    match opening {
        Opening::Pattern => {
            put_patterns(out, alloc, gap, &clause.patterns)?;
            put_when(out, alloc, depth, &clause.guard)?;
            put_indented(out, alloc, Gap::Blank, depth, Mark::Arrow, &clause.body)
        }
        Opening::Guard => {
            put_guard(out, alloc, gap, depth, &clause.guard)?;
            put_indented(out, alloc, Gap::Blank, depth, Mark::Arrow, &clause.body)
        }
        Opening::Parameters => {
            put_sign(out, gap, Mark::ParenOpen)?;
            put_patterns(out, alloc, Gap::Tight, &clause.patterns)?;
            put_sign(out, Gap::Tight, Mark::ParenClose)?;
            put_when(out, alloc, depth, &clause.guard)?;
            put_indented(out, alloc, Gap::Blank, depth, Mark::Arrow, &clause.body)
        }
    }
}

/// Puts clauses with `;` between them: the first on a line `depth` deep, the others on lines of their own, `next` deep.
#[cycle(put_expression)]
pub(crate) fn put_clauses(
    out: &mut Vec<u8>,
    alloc: Global,
    opening: Opening,
    gap: Gap,
    depth: usize,
    next: usize,
    clauses: &[Clause],
) -> Result<(), AllocError>
    ensures { OnOk result (out.new.items ≡ out.old.items ++ bytes_of (lay_clauses (opening_of opening) (gap_of gap) depth next (clauses_of clauses.now))) }
{
    let mut first = true;
    for clause in clauses {
        if first {
            put_clause(out, alloc, opening, gap, depth, clause)?;
            first = false;
        } else {
            put_sign(out, Gap::Tight, Mark::Semicolon)?;
            put_clause(out, alloc, opening, Gap::Line(next), next, clause)?;
        }
    }
    Ok(())
}

/// Puts clauses four deeper than the line, each on lines of its own.
#[cycle(put_expression)]
pub(crate) fn put_block(
    out: &mut Vec<u8>,
    alloc: Global,
    opening: Opening,
    depth: usize,
    clauses: &[Clause],
) -> Result<(), AllocError>
    ensures { OnOk result (out.new.items ≡ out.old.items ++ bytes_of (lay_block (opening_of opening) depth (clauses_of clauses.now))) }
{
    let inner = deeper(depth)?;
    put_clauses(out, alloc, opening, Gap::Line(inner), inner, inner, clauses)
}

/// Puts a mark, and clauses with a pattern after it.
#[cycle(put_expression)]
pub(crate) fn put_opened(
    out: &mut Vec<u8>,
    alloc: Global,
    gap: Gap,
    depth: usize,
    mark: Mark,
    clauses: &[Clause],
) -> Result<(), AllocError>
    ensures { OnOk result (out.new.items ≡ out.old.items ++ bytes_of (sign (gap_of gap) mark ∷ lay_block with_pattern depth (clauses_of clauses.now))) }
{
    put_sign(out, gap, mark)?;
    put_block(out, alloc, Opening::Pattern, depth, clauses)
}

/// Puts the part of a `try` from `of` on, if there is one.
#[cycle(put_expression)]
pub(crate) fn put_of(
    out: &mut Vec<u8>,
    alloc: Global,
    depth: usize,
    clauses: &[Clause],
) -> Result<(), AllocError>
    ensures { OnOk result (out.new.items ≡ out.old.items ++ bytes_of (lay_of depth (clauses_of clauses.now))) }
{
    if clauses.is_empty() {
        return Ok(());
    }
    put_opened(out, alloc, Gap::Line(depth), depth, Mark::Of, clauses)
}

/// Puts the part of a `try` from `catch` on, if there is one.
#[cycle(put_expression)]
pub(crate) fn put_catch(
    out: &mut Vec<u8>,
    alloc: Global,
    depth: usize,
    clauses: &[CatchClause],
) -> Result<(), AllocError>
    ensures { OnOk result (out.new.items ≡ out.old.items ++ bytes_of (lay_catch depth (catches_of clauses.now))) }
{
    if clauses.is_empty() {
        return Ok(());
    }
    let inner = deeper(depth)?;
    put_sign(out, Gap::Line(depth), Mark::Catch)?;
    put_handlers(out, alloc, inner, clauses)
}

/// Puts clauses after `catch` with `;` between them, each on lines of its own, so deep.
#[cycle(put_expression)]
fn put_handlers(
    out: &mut Vec<u8>,
    alloc: Global,
    depth: usize,
    clauses: &[CatchClause],
) -> Result<(), AllocError>
    ensures { OnOk result (out.new.items ≡ out.old.items ++ bytes_of (lay_handlers depth (catches_of clauses.now))) }
{
    let mut first = true;
    for clause in clauses {
        if first {
            put_handler(out, alloc, depth, clause)?;
            first = false;
        } else {
            put_sign(out, Gap::Tight, Mark::Semicolon)?;
            put_handler(out, alloc, depth, clause)?;
        }
    }
    Ok(())
}

/// Puts a clause after `catch`, with its class.
#[cycle(put_expression)]
fn put_handler(
    out: &mut Vec<u8>,
    alloc: Global,
    depth: usize,
    clause: &CatchClause,
) -> Result<(), AllocError>
    ensures { OnOk result (out.new.items ≡ out.old.items ++ bytes_of (lay_handler depth clause.now)) }
{
    put_pattern(out, alloc, Gap::Line(depth), &clause.class)?;
    put_sign(out, Gap::Tight, Mark::Colon)?;
    put_pattern(out, alloc, Gap::Tight, &clause.pattern)?;
    put_stack(out, alloc, &clause.stack)?;
    put_when(out, alloc, depth, &clause.guard)?;
    put_indented(out, alloc, Gap::Blank, depth, Mark::Arrow, &clause.body)
}

/// Puts the variable for the stack, if there is one.
fn put_stack(out: &mut Vec<u8>, alloc: Global, stack: &Option<Pattern>) -> Result<(), AllocError>
    ensures { OnOk result (out.new.items ≡ out.old.items ++ bytes_of (lay_stack stack.now)) }
{
    match stack {
        None => Ok(()),
        Some(variable) => {
            put_sign(out, Gap::Tight, Mark::Colon)?;
            put_pattern(out, alloc, Gap::Tight, variable)
        }
    }
}

/// Puts the part of a `try` from `after` on, if there is one.
#[cycle(put_expression)]
fn put_after(
    out: &mut Vec<u8>,
    alloc: Global,
    depth: usize,
    after: &Option<Sequence>,
) -> Result<(), AllocError>
    ensures { OnOk result (out.new.items ≡ out.old.items ++ bytes_of (lay_after depth (after_of after.now))) }
{
    match after {
        None => Ok(()),
        Some(body) => { put_indented(out, alloc, Gap::Line(depth), depth, Mark::After, body) }
    }
}

/// Puts the end of a `try`.
#[cycle(put_expression)]
pub(crate) fn put_end_of_try(
    out: &mut Vec<u8>,
    alloc: Global,
    depth: usize,
    after: &Option<Sequence>,
) -> Result<(), AllocError>
    ensures { OnOk result (out.new.items ≡ out.old.items ++ bytes_of (lay_after depth (after_of after.now) ++ lay_end depth)) }
{
    put_after(out, alloc, depth, after)?;
    put_sign(out, Gap::Line(depth), Mark::End)
}

/// Puts qualifiers with `, ` between them.
#[cycle(put_expression)]
pub(crate) fn put_qualifiers(
    out: &mut Vec<u8>,
    alloc: Global,
    depth: usize,
    qualifiers: &[Qualifier],
) -> Result<(), AllocError>
    ensures { OnOk result (out.new.items ≡ out.old.items ++ bytes_of (lay_qualifiers depth (qualifiers_of qualifiers.now))) }
{
    let mut first = true;
    for qualifier in qualifiers {
        if first {
            put_qualifier(out, alloc, depth, qualifier)?;
            first = false;
        } else {
            put_sign(out, Gap::Tight, Mark::Comma)?;
            put_qualifier(out, alloc, depth, qualifier)?;
        }
    }
    Ok(())
}

/// Puts a qualifier.
#[cycle(put_expression)]
fn put_qualifier(
    out: &mut Vec<u8>,
    alloc: Global,
    depth: usize,
    qualifier: &Qualifier,
) -> Result<(), AllocError>
    ensures { OnOk result (out.new.items ≡ out.old.items ++ bytes_of (lay_qualifier depth qualifier.now)) }
{
    match &qualifier.node {
        QualifierNode::Generator(pattern, list) => {
            put_pattern(out, alloc, Gap::Blank, pattern)?;
            put_sign(out, Gap::Blank, Mark::From)?;
            put_expression(out, alloc, Gap::Blank, depth, list)
        }
        QualifierNode::Filter(test) => put_expression(out, alloc, Gap::Blank, depth, test),
    }
}
