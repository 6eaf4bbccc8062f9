//! The standard output.

ghost use Rattle.std.specs.Prelude.{◌≡◌, ◌≤◌, [], true, false, None, OnOk, OnErr, IsOk};
ghost use Rattle.std.specs.Result.{IsErrOf};
ghost use Rattle.edb_io.specs.Faults.{Rose};
ghost use Rattle.edb_io.specs.Writes.{Appended, AppendedPart};

use crate::writing::{Sink, SinkFault};

/// The standard output. What was written to it is not told to contracts. Each error of the system is a
/// fault that is counted, and so is a write that takes nothing.
#[derive(Drop)]
pub struct StdSink<R: Print + Drop> {
    rt: R,
    faults: u64,
    flagged: bool,
}

impl<R: Print + Drop> StdSink<R> {
    /// The standard output of this runtime, with the flag false.
    pub fn new(rt: R) -> Self
        ensures faults { ⟦<StdSink<R> as Sink>⟧.faults result ≡ 0 }
        ensures flagged { ⟦<StdSink<R> as Sink>⟧.flagged result ≡ false }
    {
        StdSink {
            rt,
            faults: 0,
            flagged: false,
        }
    }
}

impl<R: Print + Drop> Sink for StdSink<R> {
    ghost written = { λ _. None };

    ghost faults = { λ sink. sink.faults };

    ghost flagged = { λ sink. sink.flagged };

    /// Writes the piece. The count of faults rises only with a `Failed`.
    fn write(&mut self, piece: &[u8]) -> Result<(), SinkFault>
        ensures ok { OnOk result (
            Appended (⟦<StdSink<R> as Sink>⟧.written self.old)
            (⟦<StdSink<R> as Sink>⟧.written self.new) piece.now) }
        ensures part { OnErr result (
            AppendedPart (⟦<StdSink<R> as Sink>⟧.written self.old)
            (⟦<StdSink<R> as Sink>⟧.written self.new) piece.now) }
        ensures none { IsErrOf result SinkFault.NoMemory
            → ⟦<StdSink<R> as Sink>⟧.written self.new ≡ ⟦<StdSink<R> as Sink>⟧.written self.old }
        ensures later { ⟦<StdSink<R> as Sink>⟧.faults self.old
            ≤ ⟦<StdSink<R> as Sink>⟧.faults self.new }
        ensures cause { IsErrOf result SinkFault.Failed
            → Rose (⟦<StdSink<R> as Sink>⟧.faults self.old) (⟦<StdSink<R> as Sink>⟧.faults self.new) }
        ensures uncounted { IsErrOf result SinkFault.NoMemory
            → ⟦<StdSink<R> as Sink>⟧.faults self.new ≡ ⟦<StdSink<R> as Sink>⟧.faults self.old }
        ensures kept { OnOk result (
            ⟦<StdSink<R> as Sink>⟧.flagged self.new ≡ ⟦<StdSink<R> as Sink>⟧.flagged self.old) }
        ensures set { OnErr result (⟦<StdSink<R> as Sink>⟧.flagged self.new ≡ true) }
        ensures empty { piece.now ≡ [] → IsOk result }

        ensures steady { OnOk result (⟦<StdSink<R> as Sink>⟧.faults self.new
            ≡ ⟦<StdSink<R> as Sink>⟧.faults self.old) }
    {
        if piece.is_empty() {
            return Ok(());
        }
        let mut rest = piece;
        while !rest.is_empty() {
            match self.rt.write_some(rest) {
                Ok(0) | Err(_) => {
                    self.faults = self.faults.saturating_add(1);
                    self.flagged = true;
                    return Err(SinkFault::Failed);
                }
                Ok(count) => rest = &rest[count..],
            }
        }
        Ok(())
    }
}
