//! Qualifiers of comprehensions.

ghost use Rattle.std.specs.Prelude.{◌≡◌, IfOk, IfSome};
ghost use Rattle.edb_scan.specs.declared.lexeme.Mark.TheVariants as mark;
ghost use Rattle.edb_syntax.specs.Syntax.{qualifiers_of};
ghost use Rattle.edb_grammar.specs.Reading.{closed};
ghost use Rattle.edb_grammar.specs.PatternReading.{read_pat};
ghost use Rattle.edb_grammar.specs.ExpressionReading as reading;
ghost use Rattle.edb_parse.specs.Cursors.{toks, Fits, Moves};
ghost use Rattle.edb_parse.specs.Descent.{part};
ghost use Rattle.edb_parse.specs.Gives.{Gives};
ghost use Rattle.edb_parse.specs.Handling.{Tries};

use crate::boxes::{add, one};
use crate::cursor::Cursor;
use crate::expressions::expression;
use crate::keeping::beside;
use crate::patterns::pattern;
use crate::unread::Unread;
use edb_scan::Mark;
use edb_syntax::{Pattern, Qualifier, QualifierNode};
use std::alloc::{AllocError, Global};

/// Qualifiers with commas between them, one at least.
#[cycle(expression)]
pub fn qualifiers<'a>(
    alloc: Global,
    levels: u32,
    brackets: u32,
    tokens: Cursor<'a>,
) -> Result<(Vec<Qualifier>, Cursor<'a>), Unread>
    requires fits { Fits tokens }
    ensures gives { Gives (λ v. qualifiers_of v.items) result (reading.read_qualifiers levels (part levels brackets) (toks tokens.entry)) }
    ensures moves { IfOk result (λ x. Moves tokens.entry x.1) }
{
    let (first, behind) = qualifier(alloc, levels, brackets, tokens)?;
    let mut qualifiers = one(alloc, first)?;
    let mut rest = behind;
    while let Some(after) = rest.behind(Mark::Comma) {
        let (next, behind) = qualifier(alloc, levels, brackets, after)?;
        add(&mut qualifiers, next)?;
        rest = behind;
    }
    Ok((qualifiers, rest))
}

/// A qualifier: `P <- E`, or a filter.
#[cycle(expression)]
fn qualifier<'a>(
    alloc: Global,
    levels: u32,
    brackets: u32,
    tokens: Cursor<'a>,
) -> Result<(Box<Qualifier>, Cursor<'a>), Unread>
    requires fits { Fits tokens }
    ensures gives { Gives (λ q. q.value) result (reading.read_qualifier levels (part levels brackets) (toks tokens.entry)) }
    ensures moves { IfOk result (λ x. Moves tokens.entry x.1) }
{
    match drawn(alloc, levels, tokens)? {
        Some((pattern, after)) => {
            let source = expression(alloc, levels, brackets, 10, after);
            let (pattern, source, rest) = beside(pattern, source)?;
            let node = QualifierNode::Generator(pattern, Box::into_inner(source));
            Ok((Box::new(alloc, Qualifier { node })?, rest))
        }
        None => {
            let (test, rest) = expression(alloc, levels, brackets, 10, tokens)?;
            let node = QualifierNode::Filter(Box::into_inner(test));
            Ok((Box::new(alloc, Qualifier { node })?, rest))
        }
    }
}

/// The pattern of a generator and the `<-` behind it, where both stand first; refused only for want of
/// memory.
fn drawn<'a>(
    alloc: Global,
    levels: u32,
    tokens: Cursor<'a>,
) -> Result<Option<(Pattern, Cursor<'a>)>, AllocError>
    requires fits { Fits tokens }
    ensures gives { IfOk result (λ found. Tries found (closed mark.From (read_pat levels (toks tokens.entry)))) }
    ensures moves { IfOk result (λ found. IfSome found (λ x. Moves tokens.entry x.1)) }
{
    match pattern(alloc, levels, tokens) {
        Ok((pattern, behind)) => match behind.behind(Mark::From) {
            Some(rest) => Ok(Some((pattern, rest))),
            None => {
                drop(pattern);
                Ok(None)
            }
        },
        Err(Unread::Refused) => Ok(None),
        Err(Unread::Memory) => Err(AllocError),
    }
}
