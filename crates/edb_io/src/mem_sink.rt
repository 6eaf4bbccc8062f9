//! A sink in memory, of which chosen writes fail.

ghost use Rattle.std.specs.Prelude.{◌≡◌, ◌≢◌, ◌≤◌, ◌++◌, ◌∷◌, [], ◌↔◌, true, false, OnOk, OnErr, IsOk, Some};
ghost use Rattle.std.specs.Result.{IsErrOf};
ghost use Rattle.edb_io.specs.Calls.{calls_after};
ghost use Rattle.edb_io.specs.Faults.{Rose};
ghost use Rattle.edb_io.specs.Writes.{Appended, AppendedPart};

use crate::writing::{Sink, SinkFault};
use edb_lang::Bytes;
use std::alloc::{AllocError, Global};

/// A sink in memory. The writes of pieces that are not empty are counted from 1, and those whose
/// numbers were given to `fail` fail and write nothing.
#[derive(Drop)]
pub struct MemSink {
    bytes: Bytes,
    failing: Vec<u64>,
    calls: u64,
    faults: u64,
    flagged: bool,
}

impl MemSink {
    ghost use Rattle.edb_io.specs.MemSink.{failing_writes, write_count};

    /// Nothing is written, no write is to fail, and the flag is false.
    pub fn new(alloc: Global) -> Self
        ensures written { ⟦<MemSink as Sink>⟧.written result ≡ Some [] }
        ensures faults { ⟦<MemSink as Sink>⟧.faults result ≡ 0 }
        ensures flagged { ⟦<MemSink as Sink>⟧.flagged result ≡ false }
        ensures failing { failing_writes result ≡ [] }
        ensures count { write_count result ≡ 0 }
    {
        MemSink {
            bytes: Bytes::new(alloc),
            failing: Vec::new(alloc),
            calls: 0,
            faults: 0,
            flagged: false,
        }
    }

    /// Lets the write with this number fail, counted from 1 without the writes of empty pieces.
    /// If it is out of memory everything stays as it was.
    pub fn fail(&mut self, call: u32) -> Result<(), AllocError>
        ensures ok { OnOk result (failing_writes self.new ≡ failing_writes self.old ++ call ∷ []) }
        ensures err { OnErr result (failing_writes self.new ≡ failing_writes self.old) }
        ensures written { ⟦<MemSink as Sink>⟧.written self.new
            ≡ ⟦<MemSink as Sink>⟧.written self.old }
        ensures faults { ⟦<MemSink as Sink>⟧.faults self.new ≡ ⟦<MemSink as Sink>⟧.faults self.old }
        ensures flagged { ⟦<MemSink as Sink>⟧.flagged self.new
            ≡ ⟦<MemSink as Sink>⟧.flagged self.old }
        ensures count { write_count self.new ≡ write_count self.old }
    {
        self.failing.push(u64::from(call))?;
        Ok(())
    }

    /// What was written.
    pub fn written(&self) -> &[u8]
        ensures { ⟦<MemSink as Sink>⟧.written self.now ≡ Some result.now }
    {
        self.bytes.as_slice()
    }
}

impl Sink for MemSink {
    ghost use Rattle.edb_io.specs.MemSink.{failing_writes, write_count, IsToFail};

    ghost written = { λ sink. Some sink.bytes };

    ghost faults = { λ sink. sink.faults };

    ghost flagged = { λ sink. sink.flagged };

    /// Writes the piece. `Failed` comes exactly where the piece is not empty and this write is one
    /// that is to fail, and then nothing of it is written.
    fn write(&mut self, piece: &[u8]) -> Result<(), SinkFault>
        ensures ok { OnOk result (
            Appended (⟦<MemSink as Sink>⟧.written self.old)
            (⟦<MemSink as Sink>⟧.written self.new) piece.now) }
        ensures part { OnErr result (
            AppendedPart (⟦<MemSink as Sink>⟧.written self.old)
            (⟦<MemSink as Sink>⟧.written self.new) piece.now) }
        ensures none { IsErrOf result SinkFault.NoMemory
            → ⟦<MemSink as Sink>⟧.written self.new ≡ ⟦<MemSink as Sink>⟧.written self.old }
        ensures later { ⟦<MemSink as Sink>⟧.faults self.old ≤ ⟦<MemSink as Sink>⟧.faults self.new }
        ensures cause { IsErrOf result SinkFault.Failed
            → Rose (⟦<MemSink as Sink>⟧.faults self.old) (⟦<MemSink as Sink>⟧.faults self.new) }
        ensures uncounted { IsErrOf result SinkFault.NoMemory
            → ⟦<MemSink as Sink>⟧.faults self.new ≡ ⟦<MemSink as Sink>⟧.faults self.old }
        ensures kept { OnOk result (
            ⟦<MemSink as Sink>⟧.flagged self.new ≡ ⟦<MemSink as Sink>⟧.flagged self.old) }
        ensures set { OnErr result (⟦<MemSink as Sink>⟧.flagged self.new ≡ true) }

        ensures empty { piece.now ≡ [] → IsOk result }
        ensures failed { IsErrOf result SinkFault.Failed ↔ ((piece.now ≢ []) × IsToFail self.old) }
        ensures steady { OnOk result (⟦<MemSink as Sink>⟧.faults self.new
            ≡ ⟦<MemSink as Sink>⟧.faults self.old) }
        ensures nothing { OnErr result (
            ⟦<MemSink as Sink>⟧.written self.new ≡ ⟦<MemSink as Sink>⟧.written self.old) }
        ensures counted { write_count self.new ≡ calls_after (write_count self.old) piece.now }
        ensures failing { failing_writes self.new ≡ failing_writes self.old }
    {
        if piece.is_empty() {
            return Ok(());
        }
        self.calls = self.calls.saturating_add(1);
        if self.failing.contains(&self.calls) {
            self.faults = self.faults.saturating_add(1);
            self.flagged = true;
            return Err(SinkFault::Failed);
        }
        if self.bytes.extend(piece).is_err() {
            self.flagged = true;
            return Err(SinkFault::NoMemory);
        }
        Ok(())
    }
}
