//! Forms: the module form, exports, attributes that are passed over, and functions.

ghost use Rattle.std.specs.Prelude.{◌≡◌, IfOk};
ghost use Rattle.std.specs.List.{list_any};
ghost use Rattle.edb_lang.specs.TermText.{same_name};
ghost use Rattle.edb_grammar.specs.Forms.{known_attributes};
ghost use Rattle.edb_grammar.specs.FormReading as reading;
ghost use Rattle.edb_parse.specs.Cursors.{toks, Fits, Moves};
ghost use Rattle.edb_parse.specs.FormViews.{GivesForm, conditional_attributes};

use crate::attributes::{export, is_skipped, naming};
use crate::cursor::Cursor;
use crate::functions::function;
use crate::unread::Unread;
use edb_lang::Name;
use edb_scan::{Mark, Token};
use edb_syntax::{Export, Function};
use std::alloc::Global;

/// What a form is.
#[derive(Drop)]
pub enum Form {
    /// The module form, with its line: it names the module.
    Names { line: u32, name: Name },
    /// An export.
    Exports(Vec<Export>),
    /// An attribute that is passed over.
    Skipped,
    /// A function.
    Defines(Function),
}

/// The form that these tokens are, the dot at their end included.
pub fn read_form<'a>(alloc: Global, tokens: Cursor<'a>) -> Result<Form, Unread>
    requires fits { Fits tokens }
    ensures { GivesForm result (reading.read_form (toks tokens.entry)) }
{
    match tokens.behind(Mark::Minus) {
        Some(rest) => attribute(alloc, tokens.line(), rest),
        None => Ok(Form::Defines(function(alloc, tokens)?)),
    }
}

/// The attribute whose `-`, on this line, stands before these tokens.
fn attribute<'a>(alloc: Global, line: u32, tokens: Cursor<'a>) -> Result<Form, Unread>
    requires fits { Fits tokens }
    ensures { GivesForm result (reading.read_attribute line (toks tokens.entry)) }
{
    let (_, token, rest) = tokens.require()?;
    match token {
        Token::Atom(name) => named(alloc, line, name, rest),
        _ => Err(Unread::Refused),
    }
}

/// The attribute of this name, behind which the tokens stand.
fn named<'a>(alloc: Global, line: u32, name: &Name, tokens: Cursor<'a>) -> Result<Form, Unread>
    requires fits { Fits tokens }
    ensures { GivesForm result (reading.attribute_of line name.now (toks tokens.entry)) }
{
    if name.as_bytes() == b"module".as_slice() {
        let name = naming(alloc, tokens)?;
        return Ok(Form::Names { line, name });
    }
    if name.as_bytes() == b"export".as_slice() {
        return Ok(Form::Exports(export(alloc, tokens)?));
    }
    if !is_known(name.as_bytes()) && is_skipped(tokens) {
        return Ok(Form::Skipped);
    }
    Err(Unread::Refused)
}

/// Whether this is the name of an attribute that isn't passed over.
fn is_known(name: &[u8]) -> bool
    ensures { result ≡ list_any (same_name name.now) known_attributes }
{
    name == b"module".as_slice()
        || name == b"export".as_slice()
        || name == b"import".as_slice()
        || name == b"include".as_slice()
        || name == b"include_lib".as_slice()
        || name == b"define".as_slice()
        || name == b"undef".as_slice()
        || is_conditional(name)
        || name == b"record".as_slice()
}

/// Whether this is the name of an attribute of conditional compilation.
fn is_conditional(name: &[u8]) -> bool
    ensures { result ≡ list_any (same_name name.now) conditional_attributes }
{
    name == b"ifdef".as_slice()
        || name == b"ifndef".as_slice()
        || name == b"if".as_slice()
        || name == b"else".as_slice()
        || name == b"elif".as_slice()
        || name == b"endif".as_slice()
}
