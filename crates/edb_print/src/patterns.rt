//! Patterns.

ghost use Rattle.std.specs.Prelude.{◌≡◌, ◌++◌, OnOk, true};
ghost use Rattle.edb_syntax.specs.Patterns.{pats_of};
ghost use Rattle.edb_print.specs.Pieces.{bytes_of};
ghost use Rattle.edb_print.specs.Layout.{lay_pattern, lay_patterns};
ghost use Rattle.edb_print.specs.Views.{gap_of};

use crate::gaps::Gap;
use crate::tokens::{put_integer, put_name, put_sign, put_string, put_variable};
use edb_scan::Mark;
use edb_syntax::{Pattern, PatternNode};
use std::alloc::{AllocError, Global};

/// Puts a pattern.
#[cycle(put_pattern)]
pub(crate) fn put_pattern(
    out: &mut Vec<u8>,
    alloc: Global,
    gap: Gap,
    pattern: &Pattern,
) -> Result<(), AllocError>
    ensures { OnOk result (out.new.items ≡ out.old.items ++ bytes_of (lay_pattern (gap_of gap) pattern.now)) }
{
    match &pattern.node {
        PatternNode::Int(value) => put_integer(out, alloc, gap, *value),
        PatternNode::Atom(name) => put_name(out, gap, name.as_bytes()),
        PatternNode::Str(points) => put_string(out, alloc, gap, points),
        PatternNode::Var(name) => put_variable(out, gap, name.as_bytes()),
        PatternNode::Any => put_variable(out, gap, b"_"),
        PatternNode::Tuple(elements) => {
            put_sign(out, gap, Mark::BraceOpen)?;
            put_patterns(out, alloc, Gap::Tight, elements)?;
            put_sign(out, Gap::Tight, Mark::BraceClose)
        }
        PatternNode::List(elements) => {
            put_sign(out, gap, Mark::BracketOpen)?;
            put_patterns(out, alloc, Gap::Tight, elements)?;
            put_sign(out, Gap::Tight, Mark::BracketClose)
        }
        PatternNode::ListWithTail(elements, tail) => {
            put_sign(out, gap, Mark::BracketOpen)?;
            put_patterns(out, alloc, Gap::Tight, elements)?;
            put_sign(out, Gap::Blank, Mark::Bar)?;
            put_pattern(out, alloc, Gap::Blank, tail)?;
            put_sign(out, Gap::Tight, Mark::BracketClose)
        }
        PatternNode::Both(left, right) => {
            put_pattern(out, alloc, gap, left)?;
            put_sign(out, Gap::Blank, Mark::Match)?;
            put_pattern(out, alloc, Gap::Blank, right)
        }
    }
}

/// Puts patterns with `, ` between them.
#[cycle(put_pattern)]
pub(crate) fn put_patterns(
    out: &mut Vec<u8>,
    alloc: Global,
    gap: Gap,
    patterns: &[Pattern],
) -> Result<(), AllocError>
    ensures { OnOk result (out.new.items ≡ out.old.items ++ bytes_of (lay_patterns (gap_of gap) (pats_of patterns.now))) }
{
    let mut first = true;
    for pattern in patterns {
        if first {
            put_pattern(out, alloc, gap, pattern)?;
            first = false;
        } else {
            put_sign(out, Gap::Tight, Mark::Comma)?;
            put_pattern(out, alloc, Gap::Blank, pattern)?;
        }
    }
    Ok(())
}
