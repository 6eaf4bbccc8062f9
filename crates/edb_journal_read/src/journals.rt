//! The text of a journal.

ghost use Rattle.std.specs.Prelude.{◌≡◌, ◌≤◌, ◌<◌, ◌+◌, ◌++◌, ◌⊎◌, ℕ, List, length, nat_le, IfOk, IfErr, MatchOption, MatchResult};
ghost use Rattle.edb_event.specs.declared.entry.Entry.{Entry as Happened};
ghost use Rattle.edb_event.specs.Ranges.{most_weight};
ghost use Rattle.edb_event.specs.Weights as spec;
ghost use Rattle.edb_journal.specs.Accepted.{Reads, IsFault, most_bytes};
ghost use Rattle.edb_journal.specs.Texts.{first_line};
ghost use Rattle.edb_journal_read.specs.Entries.{IsNext, NoneIsNext, Explains, told};
ghost use Rattle.edb_journal_read.specs.declared.journals.JournalError.TheVariants.{Memory, Fault};

use crate::entries::{discard, read_entry};
use edb_event::{Entry, Journal};
use edb_fields::{ReadError, read_text};
use std::alloc::{AllocError, AllocFailed, Global};

// The greatest weight of a journal.
const MOST_WEIGHT: u32 = 1_007_000;

// The most bytes of a journal's text.
const MOST_BYTES: usize = 200_000_000;

/// Why no journal was read.
#[derive(Clone, Copy, Debug, PartialEq, Eq, Drop)]
pub enum JournalError {
    /// Out of memory.
    Memory,
    /// The text is refused at this line, counted from 1.
    Fault(u32),
}

impl From<AllocError> for JournalError {
    ghost from_gives = { λ _ r. r ≡ Memory };

    fn from(_error: AllocError) -> JournalError {
        JournalError::Memory
    }
}

impl<T: Drop> From<AllocFailed<T>> for JournalError {
    ghost from_gives = { λ _ r. r ≡ Memory };

    fn from(_error: AllocFailed<T>) -> JournalError {
        JournalError::Memory
    }
}

/// What an entry weighs, however much that is.
fn weight_of(entry: &Entry) -> u64
    ensures { result ≡ spec.weight_of entry.now }
{
    match entry {
        Entry::Ran { moves, cond, .. } => u64::max(1, u64::from(*moves) + u64::from(*cond)),
        _ => 1,
    }
}

/// What the entries weigh with this one, if that is not too much.
fn heavier(heavy: u32, entry: &Entry) -> Option<u32>
    requires { heavy ≤ most_weight }
    ensures { MatchOption result (most_weight < heavy + spec.weight_of entry.now) (λ more. (more ≡ heavy + spec.weight_of entry.now) × (more ≤ most_weight)) }
{
    let room = MOST_WEIGHT - heavy;
    let weight = weight_of(entry);
    if weight <= u64::from(room) {
        Some(heavy + weight as u32)
    } else {
        None
    }
}

/// Whether what comes before the last bytes of a text is not too long.
fn is_short(total: usize, left: usize) -> bool
    ensures { result ≡ nat_le total (most_bytes + left) }
{
    total <= MOST_BYTES || total - MOST_BYTES <= left
}

/// The next entry of a text, what the entries weigh with it, and what comes after its line. The entries so far weigh
/// `heavy`, and the whole text has `total` bytes.
fn next_entry<'a>(
    alloc: Global,
    scratch: &mut Vec<u8>,
    total: usize,
    heavy: u32,
    bytes: &'a [u8],
) -> Result<(Entry, u32, &'a [u8]), ReadError>
    requires { heavy ≤ most_weight }
    ensures found { IfOk result (λ x. IsNext total heavy bytes.now x.0 x.1 x.2.now) }
    ensures none { IfErr result (λ e. NoneIsNext total heavy bytes.now e) }
{
    let (entry, rest) = match read_entry(alloc, scratch, bytes) {
        Ok(read) => read,
        Err(error) => return Err(error),
    };
    if !is_short(total, rest.len()) {
        discard(entry);
        return Err(ReadError::Refused);
    }
    match heavier(heavy, &entry) {
        Some(more) => Ok((entry, more, rest)),
        None => {
            discard(entry);
            Err(ReadError::Refused)
        }
    }
}

/// What is told where reading stops behind these entries.
#[tactic(auto, using(crate::proofs::JournalLaws::few))]
fn stopped(error: ReadError, journal: &Journal) -> JournalError
    ensures { result ≡ told error (length journal.now.entries) }
{
    match error {
        ReadError::Memory => JournalError::Memory,
        ReadError::Refused => JournalError::Fault(journal.entries().len() as u32 + 2),
    }
}

/// The journal whose text this is; `rest` is what comes after its first line.
fn read_lines(alloc: Global, bytes: &[u8], rest: &[u8]) -> Result<Journal, JournalError>
    requires { bytes.now ≡ first_line ++ rest.now }
    ensures found { IfOk result (λ j. Reads bytes.now j.entries) }
    ensures fault { IfErr result (λ e. Explains bytes.now e) }
{
    let mut journal = Journal::new(alloc);
    let mut scratch = Vec::new(alloc);
    let mut heavy = 0;
    let mut rest = rest;
    while !rest.is_empty() {
        match next_entry(alloc, &mut scratch, bytes.len(), heavy, rest) {
            Ok((entry, more, after)) => {
                journal.push(entry)?;
                heavy = more;
                rest = after;
            }
            Err(error) => return Err(stopped(error, &journal)),
        }
    }
    Ok(journal)
}

/// The journal whose text this is.
fn read_all(alloc: Global, bytes: &[u8]) -> Result<Journal, JournalError>
    ensures found { IfOk result (λ j. Reads bytes.now j.entries) }
    ensures fault { IfErr result (λ e. Explains bytes.now e) }
{
    match read_text(b"edb 1\n".as_slice(), bytes) {
        Ok(rest) => read_lines(alloc, bytes, rest),
        Err(_) => Err(JournalError::Fault(1)),
    }
}

/// The journal whose text this is, first version: each entry as `entry_line` writes it, in range, none too heavy, the text
/// of at most 200,000,000 bytes. `Fault` names the first line at which the text is refused, counted from 1; `Memory` comes
/// only if out of memory, and says nothing of the text.
pub fn read_journal(alloc: Global, bytes: &[u8]) -> Result<Journal, JournalError>
    ensures found { IfOk result (λ j. Reads bytes.now j.entries) }
    ensures fault { IfErr result (λ e. Explains bytes.now e) }
    ensures only { (es : List Happened) → Reads bytes.now es → MatchResult result (λ j. j.entries ≡ es) (λ e. e ≡ Memory) }
    ensures each { (n : ℕ) → IsFault bytes.now n → MatchResult result (λ _. ⊥) (λ e. (e ≡ Memory) ⊎ (e ≡ Fault n)) }
{
    read_all(alloc, bytes)
}
