//! A sink that pieces of bytes are written to.

ghost use Rattle.std.specs.Prelude.{◌≡◌, ◌≤◌, ℕ, List, [], Option, Bool, true, OnOk, OnErr, IsOk};
ghost use Rattle.std.specs.Result.{IsErrOf};
ghost use Rattle.edb_io.specs.Faults.{Rose};
ghost use Rattle.edb_io.specs.Writes.{Appended, AppendedPart};

/// Why a write failed.
#[derive(Clone, Copy, Debug, PartialEq, Eq)]
pub enum SinkFault {
    /// The sink did not take the whole piece; the count of faults rose.
    Failed,
    /// Out of memory; nothing was written.
    NoMemory,
}

/// Takes bytes, piece by piece. Contracts see three things of a sink: what was written, where that
/// is told; a count of the faults so far; and a flag, false at first, that a failed write sets.
pub trait Sink {
    ghost written: { Self → Option (List ℕ) };

    ghost faults: { Self → ℕ };

    ghost flagged: { Self → Bool };

    /// Writes the piece after what was written.
    ///
    /// After `Failed` a prefix of the piece was written, and it comes only where the count of
    /// faults rose. After `NoMemory` nothing was written, and the count is as it was. A write of an
    /// empty piece is `Ok`.
    fn write(&mut self, piece: &[u8]) -> Result<(), SinkFault>
        ensures ok { OnOk result (Appended (written self.old) (written self.new) piece.now) }
        ensures part { OnErr result (AppendedPart (written self.old) (written self.new) piece.now) }
        ensures none { IsErrOf result SinkFault.NoMemory → written self.new ≡ written self.old }
        ensures later { faults self.old ≤ faults self.new }
        ensures cause { IsErrOf result SinkFault.Failed → Rose (faults self.old) (faults self.new) }
        ensures uncounted { IsErrOf result SinkFault.NoMemory → faults self.new ≡ faults self.old }
        ensures kept { OnOk result (flagged self.new ≡ flagged self.old) }
        ensures set { OnErr result (flagged self.new ≡ true) }
        ensures empty { piece.now ≡ [] → IsOk result };
}
