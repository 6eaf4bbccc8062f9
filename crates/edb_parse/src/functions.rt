//! Functions.

ghost use Rattle.std.specs.Prelude.{◌≡◌, ◌≤◌};
ghost use Rattle.edb_grammar.specs.Forms.{deepest};
ghost use Rattle.edb_grammar.specs.ExpressionReading.{read_clauses};
ghost use Rattle.edb_grammar.specs.FormReading as reading;
ghost use Rattle.edb_parse.specs.Cursors.{toks, Fits};
ghost use Rattle.edb_parse.specs.FormViews.{Is};

use crate::attributes::MOST_BRACKETS;
use crate::clauses::{Head, clauses};
use crate::cursor::Cursor;
use crate::funs::{are_alike, first_arity};
use crate::unread::Unread;
use edb_lang::Name;
use edb_scan::Token;
use edb_syntax::Function;
use std::alloc::Global;

/// How many levels deep a function may be.
const DEEPEST: u32 = 200;

/// The function that these tokens are, the dot at their end included.
pub fn function<'a>(alloc: Global, tokens: Cursor<'a>) -> Result<Function, Unread>
    requires fits { Fits tokens }
    ensures { Is (λ f. f) result (reading.read_function (toks tokens.entry)) }
{
    let (place, token, _) = tokens.require()?;
    match token {
        Token::Atom(name) => named_function(alloc, place.line, name, tokens),
        _ => Err(Unread::Refused),
    }
}

/// The function of this name, whose first token is on this line.
fn named_function<'a>(
    alloc: Global,
    line: u32,
    name: &Name,
    tokens: Cursor<'a>,
) -> Result<Function, Unread>
    requires fits { Fits tokens }
    ensures { Is (λ f. f) result (reading.function_at line name.now (read_clauses (reading.read_named_clause name.now deepest reading.part_of_form) (toks tokens.entry))) }
{
    let (clauses, rest) = clauses(alloc, DEEPEST, MOST_BRACKETS, Head::Named(name), tokens)?;
    rest.expect_end()?;
    if !are_alike(&clauses) {
        return Err(Unread::Refused);
    }
    let name = name.copy(alloc)?;
    let arity = first_arity(&clauses) as u32;
    let function = Function {
        name,
        arity,
        line,
        clauses,
    };
    if !function.is_within(DEEPEST) {
        return Err(Unread::Refused);
    }
    Ok(function)
}
