//! Fun forms.

ghost use Rattle.std.specs.Prelude.{◌≡◌, ◌&&◌, ◌≤◌, IfOk, IsTrue, length};
ghost use Rattle.edb_syntax.specs.Patterns.{pats_of};
ghost use Rattle.edb_syntax.specs.Syntax.{clauses_of};
ghost use Rattle.edb_grammar.specs.ExpressionReading as reading;
ghost use Rattle.edb_parse.specs.Cursors.{toks, at_place, Fits, Moves};
ghost use Rattle.edb_parse.specs.Descent.{part};
ghost use Rattle.edb_parse.specs.Gives.{Gives};

use crate::boxes::built;
use crate::clauses::{Head, clauses};
use crate::cursor::{Cursor, Place};
use crate::unread::Unread;
use edb_scan::Mark;
use edb_syntax::{Clause, Expr, ExprNode};
use std::alloc::Global;

/// How many parameters a function or a fun may have.
pub const MOST_PARAMETERS: usize = 255;

/// A fun form, of which `fun` was read.
#[cycle(expression)]
pub fn fun<'a>(
    alloc: Global,
    levels: u32,
    brackets: u32,
    place: Place,
    tokens: Cursor<'a>,
) -> Result<(Box<Expr>, Cursor<'a>), Unread>
    requires fits { Fits tokens }
    ensures gives { Gives (λ e. e.value) result (reading.read_fun brackets levels (part levels brackets) (at_place place) (toks tokens.entry)) }
    ensures moves { IfOk result (λ x. Moves tokens.entry x.1) }
{
    match tokens.behind(Mark::ParenOpen) {
        Some(_) => fun_clauses(alloc, levels, brackets, place, tokens),
        None => fun_name(alloc, place, tokens),
    }
}

/// Clauses behind `fun`, which have one arity.
#[cycle(expression)]
fn fun_clauses<'a>(
    alloc: Global,
    levels: u32,
    brackets: u32,
    place: Place,
    tokens: Cursor<'a>,
) -> Result<(Box<Expr>, Cursor<'a>), Unread>
    requires fits { Fits tokens }
    ensures gives { Gives (λ e. e.value) result (reading.read_fun_clauses brackets levels (part levels brackets) (at_place place) (toks tokens.entry)) }
    ensures moves { IfOk result (λ x. Moves tokens.entry x.1) }
{
    if brackets == 0 {
        return Err(Unread::Refused);
    }
    let (clauses, behind) = clauses(alloc, levels, brackets, Head::Parameters, tokens)?;
    let rest = behind.expect(Mark::End)?;
    if !are_alike(&clauses) {
        return Err(Unread::Refused);
    }
    let index = place.funs;
    let node = ExprNode::Fun { index, clauses };
    built(alloc, place.line, node, rest)
}

/// How many parameters a clause has.
fn arity(clause: &Clause) -> usize
    ensures { result ≡ reading.clause_arity clause.now }
{
    clause.patterns.as_slice().len()
}

/// How many parameters the first clause has.
pub fn first_arity(clauses: &[Clause]) -> usize
    ensures { result ≡ reading.first_arity (clauses_of clauses.now) }
{
    match clauses.split_first() {
        Some((clause, _)) => arity(clause),
        None => 0,
    }
}

/// Whether each clause has so many parameters.
fn have_all(clauses: &[Clause], count: usize) -> bool
    ensures { result ≡ reading.all_have count (clauses_of clauses.now) }
{
    let mut rest = clauses;
    while let Some((clause, behind)) = rest.split_first() {
        if arity(clause) != count {
            return false;
        }
        rest = behind;
    }
    true
}

/// Whether each clause has as many parameters as the first one, and not too many.
pub fn are_alike(clauses: &[Clause]) -> bool
    ensures { result ≡ reading.is_fun (clauses_of clauses.now) }
{
    let count = first_arity(clauses);
    have_all(clauses, count) && count <= MOST_PARAMETERS
}

/// A name, or a module and a name, behind `fun`.
fn fun_name<'a>(
    alloc: Global,
    place: Place,
    tokens: Cursor<'a>,
) -> Result<(Box<Expr>, Cursor<'a>), Unread>
    requires fits { Fits tokens }
    ensures gives { Gives (λ e. e.value) result (reading.read_fun_name (at_place place) (toks tokens.entry)) }
    ensures moves { IfOk result (λ x. Moves tokens.entry x.1) }
{
    let (first, behind) = tokens.name()?;
    if let Some(after) = behind.behind(Mark::Slash) {
        let (arity, rest) = after.arity()?;
        let name = first.copy(alloc)?;
        let index = place.funs;
        let node = ExprNode::FunLocal { index, name, arity };
        return built(alloc, place.line, node, rest);
    }
    let after = behind.expect(Mark::Colon)?;
    let (second, behind) = after.name()?;
    let after = behind.expect(Mark::Slash)?;
    let (arity, rest) = after.arity()?;
    let home = first.copy(alloc)?;
    let name = second.copy(alloc)?;
    let node = ExprNode::FunRemote { home, name, arity };
    built(alloc, place.line, node, rest)
}
