//! The lines that the tool writes.

ghost use Rattle.std.specs.Prelude.{◌≡◌, ◌≤◌, map, true, IfOk, OnOk, OnErr};
ghost use Rattle.std.specs.List.{flat_map};
ghost use Rattle.std.specs.Result.{IsErrOf};
ghost use Rattle.edb_io.specs.Faults.{Rose};
ghost use Rattle.edb_io.specs.Writes.{Appended, AppendedPart};
ghost use Rattle.edb_files.specs.Asking.{asked_of};
ghost use Rattle.edb_files.specs.InOrder.{name_at};
ghost use Rattle.edb_files.specs.Lines.{TriesLine};
ghost use Rattle.edb_tools.specs.Ends.{file_of, joined, ok_line, refusal_line};

use crate::ToolEnd;
use edb_files::{AskedFile, LineWrite, write_line};
use edb_io::{Sink, SinkFault};
use edb_lang::Bytes;
use edb_verdict::fault_text;
use std::alloc::{AllocError, Global};

/// The name of the end's file, which is one of these; an empty text if it is about none.
pub(crate) fn name_of<'a>(files: &[AskedFile<'a>], end: ToolEnd) -> &'a str
    ensures { result.now ≡ name_at (map asked_of files.now) (file_of end) }
{
    match files.get(place_of(end) as usize) {
        Some(file) => file.name,
        None => "",
    }
}

/// The place of the end's file, counted from 0; 0 if it is about none.
fn place_of(end: ToolEnd) -> u32
    ensures { result ≡ file_of end }
{
    match end {
        ToolEnd::FileFault { file } => file,
        ToolEnd::ModuleRefused { file, .. } => file,
        ToolEnd::Done => 0,
        ToolEnd::Words => 0,
        ToolEnd::WriteFault => 0,
        ToolEnd::NoMemory => 0,
    }
}

/// The line of an end whose file has this name, or an empty text. `Err` comes only out of memory.
fn refusal_text(alloc: Global, name: &str, end: ToolEnd) -> Result<Bytes, AllocError>
    ensures { IfOk result (λ line. line ≡ refusal_line name.now end) }
{
    match end {
        ToolEnd::Words => Bytes::from_slice(alloc, b"edbtool: words\n"),
        ToolEnd::FileFault { .. } => {
            let mut line = Bytes::from_slice(alloc, b"edbtool: cannot read ")?;
            line.extend(name.as_bytes())?;
            line.extend(b"\n")?;
            Ok(line)
        }
        ToolEnd::ModuleRefused { fault, .. } => fault_text(alloc, name, fault),
        ToolEnd::Done => Ok(Bytes::new(alloc)),
        ToolEnd::WriteFault => Ok(Bytes::new(alloc)),
        ToolEnd::NoMemory => Ok(Bytes::new(alloc)),
    }
}

/// Writes the line of an end whose file has this name, in one write, and nothing if it has none.
pub(crate) fn write_refusal<S: Sink>(
    alloc: Global,
    name: &str,
    end: ToolEnd,
    sink: &mut S,
) -> LineWrite
    ensures { TriesLine (refusal_line name.now end) (S.written sink.old) (S.written sink.new) (S.faults sink.old) (S.faults sink.new) (S.flagged sink.old) (S.flagged sink.new) result }
{
    match refusal_text(alloc, name, end) {
        Err(_) => LineWrite::NoMemory,
        Ok(line) => write_line(&line, sink),
    }
}

/// The line of an accepted file. `Err` comes only out of memory.
fn ok_text(alloc: Global, name: &str) -> Result<Bytes, AllocError>
    ensures { IfOk result (λ line. line ≡ ok_line name.now) }
{
    let mut line = Bytes::from_slice(alloc, name.as_bytes())?;
    line.extend(b": ok\n")?;
    Ok(line)
}

/// The lines of accepted files, in order, each a piece. `Err` comes only out of memory.
pub(crate) fn ok_texts(alloc: Global, files: &[AskedFile<'_>]) -> Result<Vec<Bytes>, AllocError>
    ensures { IfOk result (λ lines. joined lines.items ≡ flat_map (λ file. ok_line file.name) (map asked_of files.now)) }
{
    let mut lines = Vec::new(alloc);
    for file in files {
        let line = ok_text(alloc, file.name)?;
        lines.push(line)?;
    }
    Ok(lines)
}

/// Writes pieces in order, one write each; after a write that isn't Ok no more is written, and the
/// fault is that write's.
pub(crate) fn write_pieces<S: Sink>(pieces: &[Bytes], sink: &mut S) -> Result<(), SinkFault>
    ensures ok { OnOk result (Appended (S.written sink.old) (S.written sink.new) (joined pieces.now)) }
    ensures part { OnErr result (AppendedPart (S.written sink.old) (S.written sink.new) (joined pieces.now)) }
    ensures cause { IsErrOf result SinkFault.Failed → Rose (S.faults sink.old) (S.faults sink.new) }
    ensures kept { OnOk result (S.flagged sink.new ≡ S.flagged sink.old) }
    ensures set { OnErr result (S.flagged sink.new ≡ true) }
{
    for piece in pieces {
        match sink.write(piece.as_slice()) {
            Ok(()) => {}
            Err(fault) => return Err(fault),
        }
    }
    Ok(())
}
