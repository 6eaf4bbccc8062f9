//! How a journal is written.

ghost use Rattle.std.specs.Prelude.{◌≡◌, ◌≤◌, true, OnOk, OnErr, IfOk};
ghost use Rattle.std.specs.List.{flat_map};
ghost use Rattle.std.specs.Result.{IsErrOf};
ghost use Rattle.edb_io.specs.Faults.{Rose};
ghost use Rattle.edb_io.specs.Writes.{Appended, AppendedPart};
ghost use Rattle.edb_files.specs.Lines.{IsKeptOrSet};
ghost use Rattle.edb_session.specs.Texts.{form_by, text_in};

use edb_event::Entry;
use edb_io::{Sink, SinkFault};
use edb_journal::entry_line;
use edb_lang::Bytes;
use edb_report::entry_text;
use std::alloc::{AllocError, Global};

/// What stands before the entries: the first line of the journal's text, or nothing.
fn head(as_journal: bool) -> &'static [u8]
    ensures { result.now ≡ (form_by as_journal).head }
{
    if as_journal {
        return b"edb 1\n";
    }
    b""
}

/// What an entry adds: its line in the journal's text, or its lines in the transcript.
fn entry_bytes(alloc: Global, as_journal: bool, entry: &Entry) -> Result<Bytes, AllocError>
    ensures { IfOk result (λ bytes. bytes ≡ (form_by as_journal).piece entry.now) }
{
    if as_journal {
        return entry_line(alloc, entry);
    }
    entry_text(alloc, entry)
}

/// Writes a piece in one write, and nothing if it is empty.
fn write_piece<S: Sink>(piece: &[u8], sink: &mut S) -> Result<(), SinkFault>
    ensures ok { OnOk result (Appended (S.written sink.old) (S.written sink.new) piece.now) }
    ensures part { OnErr result (AppendedPart (S.written sink.old) (S.written sink.new) piece.now) }
    ensures later { S.faults sink.old ≤ S.faults sink.new }
    ensures cause { IsErrOf result SinkFault.Failed → Rose (S.faults sink.old) (S.faults sink.new) }
    ensures kept { OnOk result (S.flagged sink.new ≡ S.flagged sink.old) }
    ensures set { IsErrOf result SinkFault.Failed → S.flagged sink.new ≡ true }
    ensures either { OnErr result (IsKeptOrSet (S.flagged sink.old) (S.flagged sink.new)) }
{
    if piece.is_empty() {
        return Ok(());
    }
    sink.write(piece)
}

/// Writes what one entry adds.
fn write_entry<S: Sink>(
    alloc: Global,
    as_journal: bool,
    entry: &Entry,
    sink: &mut S,
) -> Result<(), SinkFault>
    ensures ok { OnOk result (Appended (S.written sink.old) (S.written sink.new) ((form_by as_journal).piece entry.now)) }
    ensures part { OnErr result (AppendedPart (S.written sink.old) (S.written sink.new) ((form_by as_journal).piece entry.now)) }
    ensures later { S.faults sink.old ≤ S.faults sink.new }
    ensures cause { IsErrOf result SinkFault.Failed → Rose (S.faults sink.old) (S.faults sink.new) }
    ensures kept { OnOk result (S.flagged sink.new ≡ S.flagged sink.old) }
    ensures set { IsErrOf result SinkFault.Failed → S.flagged sink.new ≡ true }
    ensures either { OnErr result (IsKeptOrSet (S.flagged sink.old) (S.flagged sink.new)) }
{
    match entry_bytes(alloc, as_journal, entry) {
        Err(_) => Err(SinkFault::NoMemory),
        Ok(bytes) => write_piece(bytes.as_slice(), sink),
    }
}

/// Writes the pieces of these entries, one write for each that isn't empty; after a fault no more.
fn write_pieces<S: Sink>(
    alloc: Global,
    as_journal: bool,
    entries: &[Entry],
    sink: &mut S,
) -> Result<(), SinkFault>
    ensures ok { OnOk result (Appended (S.written sink.old) (S.written sink.new) (flat_map (form_by as_journal).piece entries.now)) }
    ensures part { OnErr result (AppendedPart (S.written sink.old) (S.written sink.new) (flat_map (form_by as_journal).piece entries.now)) }
    ensures later { S.faults sink.old ≤ S.faults sink.new }
    ensures cause { IsErrOf result SinkFault.Failed → Rose (S.faults sink.old) (S.faults sink.new) }
    ensures kept { OnOk result (S.flagged sink.new ≡ S.flagged sink.old) }
    ensures set { IsErrOf result SinkFault.Failed → S.flagged sink.new ≡ true }
    ensures either { OnErr result (IsKeptOrSet (S.flagged sink.old) (S.flagged sink.new)) }
{
    for entry in entries {
        match write_entry(alloc, as_journal, entry, sink) {
            Ok(()) => {}
            Err(fault) => return Err(fault),
        }
    }
    Ok(())
}

/// Writes the transcript of these entries or, if `as_journal`, the journal's text: what stands before the entries in one
/// write, and then one write for each entry that adds something; after a fault no more.
pub(crate) fn write_entries<S: Sink>(
    alloc: Global,
    as_journal: bool,
    entries: &[Entry],
    sink: &mut S,
) -> Result<(), SinkFault>
    ensures ok { OnOk result (Appended (S.written sink.old) (S.written sink.new) (text_in (form_by as_journal) entries.now)) }
    ensures part { OnErr result (AppendedPart (S.written sink.old) (S.written sink.new) (text_in (form_by as_journal) entries.now)) }
    ensures later { S.faults sink.old ≤ S.faults sink.new }
    ensures cause { IsErrOf result SinkFault.Failed → Rose (S.faults sink.old) (S.faults sink.new) }
    ensures kept { OnOk result (S.flagged sink.new ≡ S.flagged sink.old) }
    ensures set { IsErrOf result SinkFault.Failed → S.flagged sink.new ≡ true }
    ensures either { OnErr result (IsKeptOrSet (S.flagged sink.old) (S.flagged sink.new)) }
{
    match write_piece(head(as_journal), sink) {
        Ok(()) => write_pieces(alloc, as_journal, entries, sink),
        Err(fault) => Err(fault),
    }
}
