//! A pattern and a term, by reference: nothing is copied.

ghost use Rattle.std.specs.Prelude.{◌≡◌, IfOk, map};
ghost use Rattle.std.specs.Option.{option_map};
ghost use Rattle.edb_syntax.specs.Patterns.{pats_of};
ghost use Rattle.edb_moves.specs.Matching.{matched, all_matched, cells_matched, matched_variable};
ghost use Rattle.edb_match.specs.Views.{known_pairs, with_lent, left};

use crate::known::Known;
use crate::lent::{Lent, find};
use crate::texts::{is_atom, is_int, is_nil, is_string};
use edb_lang::{Name, Node, Term};
use edb_syntax::{Pattern, PatternNode};
use std::alloc::AllocError;

/// Whether the term matches. What is bound is pushed; if the term doesn't match, what was pushed means nothing.
#[cycle(matching)]
pub(crate) fn match_pattern<'a>(
    pattern: &'a Pattern,
    term: &'a Term,
    known: &Known,
    lent: &mut Vec<Lent<'a>>,
) -> Result<bool, AllocError>
    ensures { IfOk result (λ ok. matched pattern.now term.now (with_lent lent.old.items (known_pairs known.now)) ≡ left ok (with_lent lent.new.items (known_pairs known.now))) }
{
    match &pattern.node {
        PatternNode::Int(value) => Ok(is_int(*value, term)),
        PatternNode::Atom(name) => Ok(is_atom(name, term)),
        PatternNode::Str(points) => Ok(is_string(points, term)),
        PatternNode::Var(name) => match_variable(name, term, known, lent),
        PatternNode::Any => Ok(true),
        PatternNode::Tuple(patterns) => {
            let Node::Tuple(items) = &term.node else {
                return Ok(false);
            };
            match_terms(patterns, items, known, lent)
        }
        PatternNode::List(patterns) => {
            let Some(rest) = match_cells(patterns, term, known, lent)? else {
                return Ok(false);
            };
            Ok(is_nil(rest))
        }
        PatternNode::ListWithTail(patterns, tail) => {
            let Some(rest) = match_cells(patterns, term, known, lent)? else {
                return Ok(false);
            };
            match_pattern(tail, rest, known, lent)
        }
        PatternNode::Both(first, second) => {
            if !match_pattern(first, term, known, lent)? {
                return Ok(false);
            }
            match_pattern(second, term, known, lent)
        }
    }
}

/// A variable that has a value matches that one, and another one takes the term.
fn match_variable<'a>(
    name: &'a Name,
    term: &'a Term,
    known: &Known,
    lent: &mut Vec<Lent<'a>>,
) -> Result<bool, AllocError>
    ensures { IfOk result (λ ok. matched_variable name.now term.now (with_lent lent.old.items (known_pairs known.now)) ≡ left ok (with_lent lent.new.items (known_pairs known.now))) }
{
    match find(lent, known, name) {
        Some(value) => Ok(value.cmp(term).is_eq()),
        None => {
            lent.push(Lent { name, value: term })?;
            Ok(true)
        }
    }
}

/// Patterns and as many terms, one by one.
#[cycle(matching)]
fn match_terms<'a>(
    patterns: &'a [Pattern],
    terms: &'a [Term],
    known: &Known,
    lent: &mut Vec<Lent<'a>>,
) -> Result<bool, AllocError>
    ensures { IfOk result (λ ok. all_matched (pats_of patterns.now) terms.now (with_lent lent.old.items (known_pairs known.now)) ≡ left ok (with_lent lent.new.items (known_pairs known.now))) }
{
    let mut rest = terms;
    for pattern in patterns {
        let Some((term, others)) = rest.split_first() else {
            return Ok(false);
        };
        if !match_pattern(pattern, term, known, lent)? {
            return Ok(false);
        }
        rest = others;
    }
    Ok(rest.is_empty())
}

/// Patterns and as many terms, one by one, where the terms don't stand together.
pub(crate) fn match_arguments<'a>(
    patterns: &'a [Pattern],
    terms: &[&'a Term],
    known: &Known,
    lent: &mut Vec<Lent<'a>>,
) -> Result<bool, AllocError>
    ensures { IfOk result (λ ok. all_matched (pats_of patterns.now) (map (λ t. t.now) terms.now) (with_lent lent.old.items (known_pairs known.now)) ≡ left ok (with_lent lent.new.items (known_pairs known.now))) }
{
    if patterns.len() != terms.len() {
        return Ok(false);
    }
    for index in 0..terms.len() {
        if !match_pattern(&patterns[index], terms[index], known, lent)? {
            return Ok(false);
        }
    }
    Ok(true)
}

/// Patterns and the first elements of a list: what is behind them, if all match.
#[cycle(matching)]
fn match_cells<'a>(
    patterns: &'a [Pattern],
    term: &'a Term,
    known: &Known,
    lent: &mut Vec<Lent<'a>>,
) -> Result<Option<&'a Term>, AllocError>
    ensures { IfOk result (λ found. cells_matched (pats_of patterns.now) term.now (with_lent lent.old.items (known_pairs known.now)) ≡ option_map (λ rest. (rest.now, with_lent lent.new.items (known_pairs known.now))) found) }
{
    let mut rest = term;
    for pattern in patterns {
        let Node::List(cell) = &rest.node else {
            return Ok(None);
        };
        if !match_pattern(pattern, &cell.head, known, lent)? {
            return Ok(None);
        }
        rest = &cell.tail;
    }
    Ok(Some(rest))
}
