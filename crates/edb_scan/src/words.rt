//! Bare atoms, reserved words and variables.

ghost use Rattle.std.specs.Prelude.{◌≡◌, ◌≤◌, IfOk, MatchOption, map, true, List, ℕ};
ghost use Rattle.std.specs.List.{list_all};
ghost use Rattle.edb_scan.specs.declared.classes.Class.TheVariants.{Lower, Upper};
ghost use Rattle.edb_scan.specs.declared.lexeme.Mark.{Mark};
ghost use Rattle.edb_scan.specs.FirstByte.{Heads};
ghost use Rattle.edb_scan.specs.Fronts.{Finds};
ghost use Rattle.edb_scan.specs.RowFronts.{table_of};
ghost use Rattle.edb_scan.specs.Letters.{is_name_char};
ghost use Rattle.edb_scan.specs.Spellings.{Lists};

use crate::lexeme::{LONGEST_ATOM, Mark, Token};
use crate::runs::split_name;
use crate::tables::WORDS;
use edb_lang::Name;
use std::alloc::{AllocError, Global};

/// The mark of the table's row with this text.
fn find_text(table: &[(&'static [u8], Mark)], text: &[u8]) -> Option<Mark>
    ensures { MatchOption result ((m : Mark) → Lists (table_of table.now) text.now m → ⊥) (λ m. Lists (table_of table.now) text.now m) }
{
    for (spelling, mark) in table {
        if *spelling == text {
            return Some(*mark);
        }
    }
    None
}

/// The name of these bytes; fails only when out of memory.
fn named(alloc: Global, text: &[u8]) -> Result<Name, AllocError>
    requires { list_all is_name_char text.now ≡ true }
    ensures { IfOk result (λ name. name ≡ text.now) }
{
    match str::from_utf8(text) {
        Ok(text) => Name::from_str(alloc, text),
        Err(_) => unreachable!(),
    }
}

/// A reserved word or a bare atom.
pub fn word(alloc: Global, bytes: &[u8]) -> Result<Option<(Option<Token>, &[u8])>, AllocError>
    requires { Heads Lower bytes.now }
    ensures { IfOk result (λ found. Finds bytes.now found) }
{
    let (text, after) = split_name(bytes);
    match find_text(&WORDS, text) {
        Some(mark) => Ok(Some((Some(Token::Mark(mark)), after))),
        None => {
            if text.len() > LONGEST_ATOM {
                return Ok(None);
            }
            let name = named(alloc, text)?;
            Ok(Some((Some(Token::Atom(name)), after)))
        }
    }
}

/// A variable.
pub fn variable(alloc: Global, bytes: &[u8]) -> Result<Option<(Option<Token>, &[u8])>, AllocError>
    requires { Heads Upper bytes.now }
    ensures { IfOk result (λ found. Finds bytes.now found) }
{
    let (text, after) = split_name(bytes);
    let name = named(alloc, text)?;
    Ok(Some((Some(Token::Var(name)), after)))
}
