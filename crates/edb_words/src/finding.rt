//! Words that are read.

ghost use Rattle.std.specs.Prelude.{◌≡◌, ◌≢◌, MatchOption};
ghost use Rattle.edb_event.specs.declared.call.ProcStatus.{ProcStatus as Status};
ghost use Rattle.edb_words.specs.Words.{status_word};

use crate::status_name;
use edb_event::ProcStatus;

/// The status whose word this is; `None` exactly if it is the word of no status.
pub fn status_named(word: &[u8]) -> Option<ProcStatus>
    ensures { MatchOption result ((s : Status) → word.now ≢ status_word s) (λ s. word.now ≡ status_word s) }
{
    for status in [
        ProcStatus::Idle,
        ProcStatus::Running,
        ProcStatus::Waiting,
        ProcStatus::Break,
        ProcStatus::Exit,
    ] {
        if word == status_name(status).as_bytes() {
            return Some(status);
        }
    }
    None
}
