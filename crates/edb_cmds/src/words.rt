//! The words of a line.

ghost use Rattle.std.specs.Prelude.{◌≡◌, ◌≤◌, ◌∷◌, List, ℕ, length, IfOk, MatchOption, Some};
ghost use Rattle.edb_lang.specs.Terms.{Datum};
ghost use Rattle.edb_scan.specs.declared.lexeme.Token.TheVariants.{Atom};
ghost use Rattle.edb_cmds.specs.Script.{longest_script};
ghost use Rattle.edb_cmds.specs.Words.{SplitsSpaces, SplitsGap, SplitsStart, SplitsAtom, SplitsList};

use crate::list::read_list;
use edb_lang::{Name, Term};
use edb_scan::{Token, first_piece};
use std::alloc::{AllocError, Global};

/// What comes behind the spaces at the head of a text.
pub fn skip_spaces(text: &[u8]) -> &[u8]
    ensures { SplitsSpaces text.now result.now }
{
    for (count, byte) in text.iter().enumerate() {
        if *byte != b' ' {
            return &text[count..];
        }
    }
    &text[text.len()..]
}

// What comes behind the first byte of a text, where that is a space.
fn skip_space(text: &[u8]) -> Option<&[u8]>
    ensures { MatchOption result ((rest : List ℕ) → text.now ≡ 32 ∷ rest → ⊥) (λ rest. text.now ≡ 32 ∷ rest.now) }
{
    let (first, rest) = text.split_first()?;
    if *first == b' ' { Some(rest) } else { None }
}

/// What comes behind the gap at the head of a text.
pub fn skip_gap(text: &[u8]) -> Option<&[u8]>
    ensures { MatchOption result ((rest : List ℕ) → SplitsGap text.now rest → ⊥) (λ rest. SplitsGap text.now rest.now) }
{
    let rest = skip_space(text)?;
    Some(skip_spaces(rest))
}

/// What comes behind the word `start`, before which spaces may stand, where the line begins with it.
pub fn skip_start(line: &[u8]) -> Option<&[u8]>
    ensures { MatchOption result ((rest : List ℕ) → SplitsStart line.now rest → ⊥) (λ rest. SplitsStart line.now rest.now) }
{
    let text = skip_spaces(line);
    text.strip_prefix(b"start".as_slice())
}

// The name of a piece that is an atom.
fn atom_of(piece: Option<Token>) -> Option<Name>
    ensures { MatchOption result ((name : List ℕ) → piece ≡ Some (Atom name) → ⊥) (λ name. piece ≡ Some (Atom name)) }
{
    match piece {
        Some(Token::Atom(name)) => Some(name),
        _ => None,
    }
}

/// The atom behind the gap at the head of a text, and what comes behind it, where there are both.
pub fn read_atom(alloc: Global, text: &[u8]) -> Result<Option<(Name, &[u8])>, AllocError>
    ensures { IfOk result (λ r. MatchOption r ((name rest : List ℕ) → SplitsAtom text.now name rest → ⊥) (λ x. SplitsAtom text.now x.0 x.1.now)) }
{
    let Some(word) = skip_gap(text) else {
        return Ok(None);
    };
    let Some((piece, rest)) = first_piece(alloc, word)? else {
        return Ok(None);
    };
    let Some(name) = atom_of(piece) else {
        return Ok(None);
    };
    Ok(Some((name, rest)))
}

/// The list behind the gap at the head of a text, where there are both and the text ends with the list.
pub fn read_arguments(alloc: Global, text: &[u8]) -> Result<Option<Term>, AllocError>
    requires { length text.now ≤ longest_script }
    ensures { IfOk result (λ r. MatchOption r ((list : Datum) → SplitsList text.now list → ⊥) (λ list. SplitsList text.now list)) }
{
    match skip_space(text) {
        Some(list_text) => read_list(alloc, list_text),
        None => Ok(None),
    }
}
