//! The scan of a whole text.

ghost use Rattle.std.specs.Prelude.{◌≡◌, ◌++◌, ◌-◌, ℕ, List, [], IfOk, MatchOption, MatchResult};
ghost use Rattle.edb_scan.specs.Fronts.{Finds, NoneStands, Stands};
ghost use Rattle.edb_scan.specs.Lexis as lexis;
ghost use Rattle.edb_scan.specs.Parting.{AreTokens, IsFault, placed};
ghost use Rattle.edb_scan.specs.declared.lexeme.Placed.{Placed};

use crate::classes::{Class, classify};
use crate::lexeme::{Placed, Token};
use crate::marks::mark;
use crate::numerals::numeral;
use crate::quotes::{character, quoted_atom, string};
use crate::runs::{comment, newlines};
use crate::token_list::Tokens;
use crate::words::{variable, word};
use std::alloc::{AllocError, Global};

/// How many bytes a file may have.
pub const LONGEST_FILE: usize = 1_000_000;

/// The first fault of a text.
#[derive(Clone, Copy, PartialEq, Eq, Debug)]
pub struct ScanFault {
    /// The offset of the first byte at which no token, white space or comment begins.
    pub at: u32,
}

/// The piece that begins a text, and what comes after it; fails only when out of memory.
pub fn piece(alloc: Global, bytes: &[u8]) -> Result<Option<(Option<Token>, &[u8])>, AllocError>
    ensures { IfOk result (λ found. Finds bytes.now found) }
{
    match bytes.split_first() {
        Some((first, rest)) => match classify(*first) {
            Class::Space => Ok(Some((None, rest))),
            Class::Percent => Ok(comment(rest)),
            Class::Digit => Ok(numeral(bytes)),
            Class::Lower => word(alloc, bytes),
            Class::Upper => variable(alloc, bytes),
            Class::Quote => string(alloc, rest),
            Class::Tick => quoted_atom(alloc, rest),
            Class::Dollar => Ok(character(rest)),
            Class::Other => Ok(mark(bytes)),
        },
        None => Ok(None),
    }
}

/// Whether a piece is a string.
fn is_string(piece: &Option<Token>) -> bool
    ensures { result ≡ lexis.is_string piece.now }
{
    match piece {
        Some(Token::Str(_)) => true,
        _ => false,
    }
}

/// The piece that begins a text, if it may follow a string or another piece; fails only when out of
/// memory.
fn standing(
    alloc: Global,
    bytes: &[u8],
    behind_string: bool,
) -> Result<Option<(Option<Token>, &[u8])>, AllocError>
    ensures { IfOk result (λ found. MatchOption found (NoneStands behind_string bytes.now) (λ x. Stands behind_string bytes.now x.0 x.1.now)) }
{
    match piece(alloc, bytes)? {
        Some((piece, after)) => {
            if behind_string && is_string(&piece) {
                return Ok(None);
            }
            Ok(Some((piece, after)))
        }
        None => Ok(None),
    }
}

/// Puts a piece after the tokens, if it is a token; fails only when out of memory.
fn put(items: &mut Vec<Placed>, line: u32, piece: Option<Token>) -> Result<(), AllocError>
    ensures { IfOk result (λ _. items.new.items ≡ items.old.items ++ placed line piece []) }
{
    match piece {
        Some(token) => {
            items.push(Placed { line, token })?;
            Ok(())
        }
        None => Ok(()),
    }
}

/// The tokens of a source text, each with its line; or its first fault, which is the first byte at
/// which no token, white space or comment may begin, if that is within the longest file, and else the
/// limit of a file that is too long. `AllocError` only when out of memory.
pub fn scan(alloc: Global, bytes: &[u8]) -> Result<Result<Tokens, ScanFault>, AllocError>
    ensures { IfOk result (λ r. MatchResult r (λ ts. AreTokens bytes.now ts) (λ e. IsFault bytes.now e.at)) }
{
    let mut items = Vec::new(alloc);
    let mut rest = bytes;
    let mut lines = 0;
    let mut behind_string = false;
    while !rest.is_empty() {
        let at = bytes.len() - rest.len();
        if at >= LONGEST_FILE {
            return Ok(Err(ScanFault {
                at: LONGEST_FILE as u32,
            }));
        }
        match standing(alloc, rest, behind_string)? {
            Some((piece, after)) => {
                behind_string = is_string(&piece);
                put(&mut items, 1 + lines as u32, piece)?;
                lines += newlines(&rest[..rest.len() - after.len()]);
                rest = after;
            }
            None => return Ok(Err(ScanFault { at: at as u32 })),
        }
    }
    if bytes.len() > LONGEST_FILE {
        return Ok(Err(ScanFault {
            at: LONGEST_FILE as u32,
        }));
    }
    Ok(Ok(Tokens::from_vec(items)))
}

/// The law that a text has one answer: no two lists of tokens, no two first faults, and never both.
pub fn one_answer()
    ensures tokens { (bytes : List ℕ) (ts us : List Placed) → AreTokens bytes ts → AreTokens bytes us → ts ≡ us }
    ensures fault { (bytes : List ℕ) (at by : ℕ) → IsFault bytes at → IsFault bytes by → at ≡ by }
    ensures never_both { (bytes : List ℕ) (ts : List Placed) (at : ℕ) → AreTokens bytes ts → IsFault bytes at → ⊥ }
{}
