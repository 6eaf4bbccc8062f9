//! The line of a refusal.

ghost use Rattle.edb_files.specs.Lines.{TriesLine};

use edb_io::{Sink, SinkFault};
use edb_lang::Bytes;

/// How writing the line of a refusal went.
#[derive(Clone, Copy, Debug, PartialEq, Eq)]
pub enum LineWrite {
    /// It was written, or the sink failed.
    Tried,
    /// Out of memory, and nothing was written.
    NoMemory,
}

/// Writes a line in one write, and nothing if it is empty. A fault of the sink changes nothing in the answer; `NoMemory`
/// comes if the write is out of memory.
pub fn write_line<S: Sink>(line: &Bytes, sink: &mut S) -> LineWrite
    ensures { TriesLine line.now (S.written sink.old) (S.written sink.new) (S.faults sink.old) (S.faults sink.new) (S.flagged sink.old) (S.flagged sink.new) result }
{
    if line.is_empty() {
        return LineWrite::Tried;
    }
    match sink.write(line.as_slice()) {
        Ok(()) => LineWrite::Tried,
        Err(SinkFault::Failed) => LineWrite::Tried,
        Err(SinkFault::NoMemory) => LineWrite::NoMemory,
    }
}
