//! The tool.

ghost use Rattle.std.specs.Prelude.{◌≡◌, List, Option, Some, map, string_bytes};
ghost use Rattle.edb_io.specs.OneRead.{Read};
ghost use Rattle.edb_tools.specs.Requests.{Request, request_of};
ghost use Rattle.edb_tools.specs.Views.{seen, IsAsked};
ghost use Rattle.edb_tools.specs.Ends.{HasCause, HasReads, IsEarly, IsWritten, KeepsFlag, name_in, status_of};
ghost use Rattle.edb_tools.specs.Causes.{IsOnly, WordsComes, RefusalComes, DoneComes};

use crate::ToolEnd;
use crate::lines::{name_of, write_pieces, write_refusal};
use crate::sources::prepare;
use crate::words::{AskedFor, find_request};
use edb_files::LineWrite;
use edb_io::{Files, Sink, SinkFault};
use std::alloc::Global;

/// The status of an end.
fn status(end: ToolEnd) -> u8
    ensures { result ≡ status_of end }
{
    match end {
        ToolEnd::Done => 0,
        ToolEnd::Words => 2,
        ToolEnd::FileFault { .. } => 3,
        ToolEnd::ModuleRefused { .. } => 4,
        ToolEnd::WriteFault => 7,
        ToolEnd::NoMemory => 8,
    }
}

/// Writes the line of an end that comes before what Done writes, its file having this name, and ends so; a fault of
/// that write changes nothing, and the end is `NoMemory` if it is out of memory.
fn refuse<S: Sink>(alloc: Global, name: &str, end: ToolEnd, sink: &mut S) -> (ToolEnd, u8)
    requires { IsEarly end }
    ensures end { IsOnly end result.0 }
    ensures written { (request : Option Request) (old new : List Read) → name_in request end ≡ name.now
        → IsWritten request old new (S.written sink.old) (S.written sink.new) (S.faults sink.old) (S.faults sink.new) (S.flagged sink.old) (S.flagged sink.new) result.0 }
    ensures flag { KeepsFlag (S.flagged sink.old) (S.flagged sink.new) result.0 }
    ensures status { result.1 ≡ status_of result.0 }
{
    match write_refusal(alloc, name, end, sink) {
        LineWrite::Tried => (end, status(end)),
        LineWrite::NoMemory => (ToolEnd::NoMemory, 8),
    }
}

/// Does what is asked for to the tool's end, and gives the program's status.
fn serve<F: Files, S: Sink>(
    alloc: Global,
    asked: &AskedFor<'_>,
    files: &mut F,
    sink: &mut S,
) -> (ToolEnd, u8)
    requires { IsAsked asked.now }
    ensures cause { HasCause (Some (seen asked.now)) (F.reads files.old) (F.reads files.new) (F.faults files.old) (F.faults files.new) result.0 }
    ensures reads { HasReads (Some (seen asked.now)) (F.reads files.old) (F.reads files.new) result.0 }
    ensures written { IsWritten (Some (seen asked.now)) (F.reads files.old) (F.reads files.new) (S.written sink.old) (S.written sink.new) (S.faults sink.old) (S.faults sink.new) (S.flagged sink.old) (S.flagged sink.new) result.0 }
    ensures flag { KeepsFlag (S.flagged sink.old) (S.flagged sink.new) result.0 }
    ensures status { result.1 ≡ status_of result.0 }
{
    match prepare(alloc, asked, files) {
        Ok(pieces) => match write_pieces(pieces.as_slice(), sink) {
            Ok(()) => (ToolEnd::Done, 0),
            Err(SinkFault::Failed) => (ToolEnd::WriteFault, 7),
            Err(SinkFault::NoMemory) => (ToolEnd::NoMemory, 8),
        },
        Err(end) => refuse(alloc, name_of(asked.files.as_slice(), end), end, sink),
    }
}

/// Runs the tool to its end, and gives the program's status.
fn run_tool<F: Files, S: Sink>(
    alloc: Global,
    words: &[String],
    files: &mut F,
    sink: &mut S,
) -> (ToolEnd, u8)
    ensures cause { HasCause (request_of (map string_bytes words.now)) (F.reads files.old) (F.reads files.new) (F.faults files.old) (F.faults files.new) result.0 }
    ensures reads { HasReads (request_of (map string_bytes words.now)) (F.reads files.old) (F.reads files.new) result.0 }
    ensures written { IsWritten (request_of (map string_bytes words.now)) (F.reads files.old) (F.reads files.new) (S.written sink.old) (S.written sink.new) (S.faults sink.old) (S.faults sink.new) (S.flagged sink.old) (S.flagged sink.new) result.0 }
    ensures flag { KeepsFlag (S.flagged sink.old) (S.flagged sink.new) result.0 }
    ensures status { result.1 ≡ status_of result.0 }
{
    match find_request(alloc, words) {
        Ok(Some(asked)) => serve(alloc, &asked, files, sink),
        Ok(None) => refuse(alloc, "", ToolEnd::Words, sink),
        Err(_) => (ToolEnd::NoMemory, 8),
    }
}

/// Runs the tool to its end, and gives the program's status.
///
/// The words are `check` and the names of one file or more, `fmt` and the name of one file, or `gen` and a number of 1 to
/// 200. No name begins with `-` and has a character more, and there are fewer than 4,294,967,295 words in all (`Words`,
/// status 2, if they aren't so). Each file is read, in the order of the words, up to 1,000,001 bytes (`FileFault`, status 3, at the
/// first whose read fails). Then each is scanned, parsed and checked (`ModuleRefused`, status 4, at the first that has
/// a fault: the first of its scan, else its first form that is none, else the checker's first). Then `check` writes
/// the line `FILE: ok` for each, in one write, `fmt` the text of the file's module, in one write, and `gen` the
/// generated module, the line `%% script` and the script for so many workers, in one write (`Done`, status 0). After a write that fails no more is written (`WriteFault`, status 7). `NoMemory`, status 8, comes if it
/// is out of memory. Each of the first three writes its one line, and a fault of that write changes nothing. Files are
/// counted from 0. The commands are those of docs/COMMANDS.md.
pub fn tool<F: Files, S: Sink>(
    alloc: Global,
    words: &[String],
    files: &mut F,
    sink: &mut S,
) -> (ToolEnd, u8)
    // Why it ended so, what was read, what was written, the sink's flag, and the status.
    ensures cause { HasCause (request_of (map string_bytes words.now)) (F.reads files.old) (F.reads files.new) (F.faults files.old) (F.faults files.new) result.0 }
    ensures reads { HasReads (request_of (map string_bytes words.now)) (F.reads files.old) (F.reads files.new) result.0 }
    ensures written { IsWritten (request_of (map string_bytes words.now)) (F.reads files.old) (F.reads files.new) (S.written sink.old) (S.written sink.new) (S.faults sink.old) (S.faults sink.new) (S.flagged sink.old) (S.flagged sink.new) result.0 }
    ensures flag { KeepsFlag (S.flagged sink.old) (S.flagged sink.new) result.0 }
    ensures status { result.1 ≡ status_of result.0 }

    // Each of these ends comes wherever its cause holds, unless it is out of memory.
    ensures words_come { WordsComes (request_of (map string_bytes words.now)) result.0 }
    ensures refusal_comes { RefusalComes (request_of (map string_bytes words.now)) (F.reads files.old) (F.reads files.new) result.0 }
    ensures done_comes { DoneComes (request_of (map string_bytes words.now)) (F.reads files.old) (F.reads files.new) (F.faults files.old) (F.faults files.new) (S.faults sink.old) (S.faults sink.new) result.0 }
{
    run_tool(alloc, words, files, sink)
}
