//! What stands behind the first word of a command.

ghost use Rattle.std.specs.Prelude.{◌≡◌, List, ℕ, [], ◌∷◌, IfOk, MatchOption, MatchBool};
ghost use Rattle.edb_event.specs.declared.call.ProcStatus.{ProcStatus as Status};
ghost use Rattle.edb_event.specs.declared.call.Word.{Word as Process};
ghost use Rattle.edb_scan.specs.Fronts.{SplitsRun};
ghost use Rattle.edb_cmds.specs.Fields.{atom, line, process, status, AreFields, WritesProcess};
ghost use Rattle.edb_cmds.specs.Kinds.{stays_in_word, SplitsWord};
ghost use Rattle.edb_cmds.specs.Numbers.{WritesLine, WritesNumber};
ghost use Rattle.edb_cmds.specs.Words.{SplitsGap};

use crate::words::{read_atom, skip_gap, skip_spaces};
use edb_event::{ProcStatus, Word};
use edb_lang::Name;
use edb_words::status_named;
use std::alloc::{AllocError, Global};

// The most digits of a number.
const MOST_DIGITS: usize = 7;

/// Splits a text at its first space.
pub fn split_word(text: &[u8]) -> (&[u8], &[u8])
    ensures { SplitsRun stays_in_word text.now result.0.now result.1.now }
{
    for (len, byte) in text.iter().enumerate() {
        if *byte == b' ' {
            return text.split_at(len);
        }
    }
    text.split_at(text.len())
}

// The word behind the gap at the head of a text, and what comes behind it.
fn take_word(text: &[u8]) -> Option<(&[u8], &[u8])>
    ensures { MatchOption result ((from : List ℕ) → SplitsGap text.now from → ⊥) (λ x. SplitsWord text.now x.0.now x.1.now) }
{
    match skip_gap(text) {
        Some(from) => Some(split_word(from)),
        None => None,
    }
}

// The number that a word writes.
fn number_of(word: &[u8]) -> Option<u32>
    ensures { MatchOption result ((n : ℕ) → WritesNumber word.now n → ⊥) (λ n. WritesNumber word.now n) }
{
    if word.is_empty() || word.len() > MOST_DIGITS {
        return None;
    }
    let mut value = 0u32;
    for byte in word {
        let Some(digit) = char::from(*byte).to_digit(10) else {
            return None;
        };
        value = value * 10 + digit;
    }
    Some(value)
}

// The line of a source file that a word writes.
fn line_of(word: &[u8]) -> Option<u32>
    ensures { MatchOption result ((n : ℕ) → WritesLine word.now n → ⊥) (λ n. WritesLine word.now n) }
{
    match number_of(word) {
        Some(number) => {
            if number == 0 {
                return None;
            }
            if number > 999_999 {
                return None;
            }
            Some(number)
        }
        None => None,
    }
}

// The process that a word names.
fn process_of(word: &[u8]) -> Option<Word>
    ensures { MatchOption result ((w : Process) → WritesProcess word.now w → ⊥) (λ w. WritesProcess word.now w) }
{
    match word.strip_prefix(b"$".as_slice()) {
        Some(digits) => match number_of(digits) {
            Some(place) => Some(Word::Own(place)),
            None => None,
        },
        None => match number_of(word) {
            Some(pid) => Some(Word::Number(pid)),
            None => None,
        },
    }
}

// Whether nothing but spaces is left.
fn is_end(text: &[u8]) -> bool
    ensures { MatchBool result (AreFields text.now []) (AreFields text.now [] → ⊥) }
{
    skip_spaces(text).is_empty()
}

// The line that is all of a text.
fn read_last_line(text: &[u8]) -> Option<u32>
    ensures { MatchOption result ((n : ℕ) → AreFields text.now (line n ∷ []) → ⊥) (λ n. AreFields text.now (line n ∷ [])) }
{
    let (word, rest) = take_word(text)?;
    let number = line_of(word)?;
    if is_end(rest) { Some(number) } else { None }
}

// The status that is all of a text.
fn read_last_status(text: &[u8]) -> Option<ProcStatus>
    ensures { MatchOption result ((s : Status) → AreFields text.now (status s ∷ []) → ⊥) (λ s. AreFields text.now (status s ∷ [])) }
{
    let (word, rest) = take_word(text)?;
    let found = status_named(word)?;
    if is_end(rest) { Some(found) } else { None }
}

/// The process that is all of a text.
pub fn read_process(text: &[u8]) -> Option<Word>
    ensures { MatchOption result ((w : Process) → AreFields text.now (process w ∷ []) → ⊥) (λ w. AreFields text.now (process w ∷ [])) }
{
    let (word, rest) = take_word(text)?;
    let found = process_of(word)?;
    if is_end(rest) { Some(found) } else { None }
}

/// The process and the status that are all of a text.
pub fn read_process_status(text: &[u8]) -> Option<(Word, ProcStatus)>
    ensures { MatchOption result ((w : Process) (s : Status) → AreFields text.now (process w ∷ status s ∷ []) → ⊥) (λ x. AreFields text.now (process x.0 ∷ status x.1 ∷ [])) }
{
    let (word, rest) = take_word(text)?;
    let found = process_of(word)?;
    let last = read_last_status(rest)?;
    Some((found, last))
}

/// The atom that is all of a text.
pub fn read_module(alloc: Global, text: &[u8]) -> Result<Option<Name>, AllocError>
    ensures { IfOk result (λ r. MatchOption r ((m : List ℕ) → AreFields text.now (atom m ∷ []) → ⊥) (λ m. AreFields text.now (atom m ∷ []))) }
{
    let Some((name, rest)) = read_atom(alloc, text)? else {
        return Ok(None);
    };
    if is_end(rest) {
        Ok(Some(name))
    } else {
        Ok(None)
    }
}

/// The atom and the line that are all of a text.
pub fn read_module_line(alloc: Global, text: &[u8]) -> Result<Option<(Name, u32)>, AllocError>
    ensures { IfOk result (λ r. MatchOption r ((m : List ℕ) (l : ℕ) → AreFields text.now (atom m ∷ line l ∷ []) → ⊥) (λ x. AreFields text.now (atom x.0 ∷ line x.1 ∷ []))) }
{
    let Some((name, rest)) = read_atom(alloc, text)? else {
        return Ok(None);
    };
    let Some(number) = read_last_line(rest) else {
        return Ok(None);
    };
    Ok(Some((name, number)))
}
