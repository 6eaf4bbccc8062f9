//! What stands behind the name of an attribute.

ghost use Rattle.std.specs.Prelude.{◌≡◌, ◌≤◌, nat_le, IfOk};
ghost use Rattle.edb_grammar.specs.Toks.{most_open};
ghost use Rattle.edb_grammar.specs.Files as files;
ghost use Rattle.edb_grammar.specs.Forms.{most_brackets};
ghost use Rattle.edb_grammar.specs.FormReading as reading;
ghost use Rattle.edb_parse.specs.Cursors.{toks, Fits, Moves};
ghost use Rattle.edb_parse.specs.FormViews.{Is, all_entries, open_with};
ghost use Rattle.edb_parse.specs.Gives.{Gives, GivesTree};

use crate::cursor::Cursor;
use crate::unread::Unread;
use edb_lang::Name;
use edb_scan::{Mark, Token};
use edb_syntax::Export;
use std::alloc::Global;

/// How many round brackets may be open at once in a form.
pub const MOST_BRACKETS: u32 = 500;

/// `(m).` behind the name of the module form.
pub fn naming<'a>(alloc: Global, tokens: Cursor<'a>) -> Result<Name, Unread>
    requires fits { Fits tokens }
    ensures { Is (λ m. m) result (reading.read_naming (toks tokens.entry)) }
{
    let rest = tokens.expect(Mark::ParenOpen)?;
    let (name, rest) = rest.name()?;
    let rest = rest.expect(Mark::ParenClose)?;
    rest.expect_end()?;
    Ok(name.copy(alloc)?)
}

/// `([f/1, g/2]).` behind the name of an export.
pub fn export<'a>(alloc: Global, tokens: Cursor<'a>) -> Result<Vec<Export>, Unread>
    requires fits { Fits tokens }
    ensures { Is (λ v. v.items) result (reading.read_export (toks tokens.entry)) }
{
    let rest = tokens.expect(Mark::ParenOpen)?;
    let rest = rest.expect(Mark::BracketOpen)?;
    let (entries, rest) = entries(alloc, rest)?;
    let rest = rest.expect(Mark::ParenClose)?;
    rest.expect_end()?;
    Ok(entries)
}

/// Entries or none, and the bracket that closes them.
fn entries<'a>(alloc: Global, tokens: Cursor<'a>) -> Result<(Vec<Export>, Cursor<'a>), Unread>
    requires fits { Fits tokens }
    ensures gives { Gives (λ v. v.items) result (reading.read_entries (toks tokens.entry)) }
    ensures moves { IfOk result (λ x. Moves tokens.entry x.1) }
{
    if let Some(rest) = tokens.behind(Mark::BracketClose) {
        return Ok((Vec::new(alloc), rest));
    }
    let (entries, rest) = some_entries(alloc, tokens)?;
    let rest = rest.expect(Mark::BracketClose)?;
    Ok((entries, rest))
}

/// Entries with commas between them, one at least.
fn some_entries<'a>(alloc: Global, tokens: Cursor<'a>) -> Result<(Vec<Export>, Cursor<'a>), Unread>
    requires fits { Fits tokens }
    ensures gives { Gives (λ v. v.items) result (all_entries (toks tokens.entry)) }
    ensures moves { IfOk result (λ x. Moves tokens.entry x.1) }
{
    let (first, behind) = entry(alloc, tokens)?;
    let mut entries = Vec::from_array(alloc, [first])?;
    let mut rest = behind;
    while let Some(after) = rest.behind(Mark::Comma) {
        let (next, behind) = entry(alloc, after)?;
        entries.push(next)?;
        rest = behind;
    }
    Ok((entries, rest))
}

/// `f/2`, on the line of its name.
fn entry<'a>(alloc: Global, tokens: Cursor<'a>) -> Result<(Export, Cursor<'a>), Unread>
    requires fits { Fits tokens }
    ensures gives { GivesTree result (reading.read_entry (toks tokens.entry)) }
    ensures moves { IfOk result (λ x. Moves tokens.entry x.1) }
{
    let line = tokens.line();
    let (name, rest) = tokens.name()?;
    let rest = rest.expect(Mark::Slash)?;
    let (arity, rest) = rest.arity()?;
    let name = name.copy(alloc)?;
    Ok((Export { name, arity, line }, rest))
}

/// Whether these tokens, behind the name of an attribute that is passed over, end with a dot, and not too
/// many round brackets are open at once.
pub fn is_skipped<'a>(tokens: Cursor<'a>) -> bool
    requires fits { Fits tokens }
    ensures { result ≡ reading.is_skipped (toks tokens.entry) }
{
    ends_in_dot(tokens) && are_few_open(tokens)
}

/// Whether the last token is a dot.
fn ends_in_dot<'a>(tokens: Cursor<'a>) -> bool
    requires fits { Fits tokens }
    ensures { result ≡ reading.last_is_dot (toks tokens.entry) }
{
    match tokens.tokens.split_last() {
        Some((placed, _)) => is_dot(&placed.token),
        None => false,
    }
}

/// Whether a token is the dot.
pub fn is_dot(token: &Token) -> bool
    ensures { result ≡ files.is_dot token.now }
{
    match token {
        Token::Dot => true,
        _ => false,
    }
}

/// Whether at most so many round brackets are open at once as may be.
fn are_few_open<'a>(tokens: Cursor<'a>) -> bool
    requires fits { Fits tokens }
    ensures { result ≡ nat_le (most_open 0 (toks tokens.entry)) most_brackets }
{
    let mut count = 0;
    let mut rest = tokens;
    while let Some((_, token, behind)) = rest.first() {
        count = open_behind(count, token);
        if count > MOST_BRACKETS {
            return false;
        }
        rest = behind;
    }
    true
}

/// How many round brackets are open behind a token, where so many are before it.
fn open_behind(count: u32, token: &Token) -> u32
    requires { count ≤ most_brackets }
    ensures { result ≡ open_with count token.now }
{
    match token {
        Token::Mark(Mark::ParenOpen) => count + 1,
        Token::Mark(Mark::ParenClose) => count.saturating_sub(1),
        _ => count,
    }
}
