//! A sink in memory that no write fails on.

ghost use Rattle.std.specs.Prelude.{◌≡◌, [], false, Some};

use crate::writing::{Sink, SinkFault};
use edb_lang::Bytes;
use std::alloc::Global;

/// A sink in memory on which a write fails only out of memory.
#[derive(Drop)]
pub struct CleanSink {
    bytes: Bytes,
    flagged: bool,
}

impl CleanSink {
    /// Nothing is written, and the flag is false.
    pub fn new(alloc: Global) -> Self
        ensures written { ⟦<CleanSink as Sink>⟧.written result ≡ Some [] }
        ensures flagged { ⟦<CleanSink as Sink>⟧.flagged result ≡ false }
    {
        CleanSink {
            bytes: Bytes::new(alloc),
            flagged: false,
        }
    }

    /// What was written.
    pub fn written(&self) -> &[u8]
        ensures { ⟦<CleanSink as Sink>⟧.written self.now ≡ Some result.now }
    {
        self.bytes.as_slice()
    }
}

impl Sink for CleanSink {
    ghost written = { λ sink. Some sink.bytes };

    ghost faults = { λ _. 0 };

    ghost flagged = { λ sink. sink.flagged };

    fn write(&mut self, piece: &[u8]) -> Result<(), SinkFault> {
        if piece.is_empty() {
            return Ok(());
        }
        if self.bytes.extend(piece).is_err() {
            self.flagged = true;
            return Err(SinkFault::NoMemory);
        }
        Ok(())
    }
}
