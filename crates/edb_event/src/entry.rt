//! The entries of a journal.

ghost use Rattle.std.specs.Prelude.{◌≡◌, ◌<◌, ◌^◌};
ghost use Rattle.edb_event.specs.Weights.{weight_of};

use crate::{Call, Reply};
use edb_lang::{ActKind, Action, Bytes, Name, Term};

/// Why a process stopped: by an order of a console, or by the breakpoint with this serial.
#[derive(Clone, Copy, PartialEq, Eq, Debug)]
pub enum Cause {
    Order,
    Break(u128),
}

/// One entry: what the world did in one hold of its lock, or a part of that.
#[derive(Drop)]
pub enum Entry {
    /// A console started a process with the call of `module:name` with the elements of `args`.
    Start {
        console: u32,
        pid: u32,
        module: Name,
        name: Name,
        args: Term,
    },
    /// A console made this version of the module current.
    Load {
        console: u32,
        module: Name,
        version: u32,
    },
    /// A console left out the expression at which a process stopped. No rule admits it yet.
    Skip {
        console: u32,
        pid: u32,
    },
    /// A console ended a process. No rule admits it yet.
    Kill {
        console: u32,
        pid: u32,
    },
    /// A console let the time of a process that waits for a message run out. No rule admits it yet.
    Expire {
        console: u32,
        pid: u32,
    },
    /// A process was given leave to make pure moves, at most `budget`.
    Lease {
        pid: u32,
        budget: u32,
    },
    /// It made so many moves, and so many were made to ask conditions.
    Ran {
        pid: u32,
        moves: u32,
        cond: u32,
    },
    /// An interpreted process asks for a shared act.
    Ask {
        pid: u32,
        kind: ActKind,
    },
    /// A process made a shared act; the text of its answer, and the bytes that it printed.
    Did {
        pid: u32,
        kind: ActKind,
        value: Bytes,
        bytes: Bytes,
    },
    /// An interpreted process took the answer of its act.
    Took {
        pid: u32,
    },
    /// A message went from the box of an interpreted process to the queue that it reads.
    Forward {
        pid: u32,
    },
    /// A process leaves interpreted code.
    Leave {
        pid: u32,
    },
    /// A process comes to interpreted code, in a call of this function.
    Enter {
        pid: u32,
        module: Name,
        name: Name,
        arity: u32,
    },
    /// A signal was delivered; the text of the reason, where it ended its receiver.
    Signal {
        to: u32,
        ended: Option<Bytes>,
    },
    /// The clock went on to this time, in milliseconds.
    Advance {
        clock: u64,
    },
    /// A process stopped before the expression at this line, in a call of this level.
    Stop {
        pid: u32,
        module: Name,
        line: u32,
        level: u64,
        by: Cause,
    },
    /// What becomes of the breakpoint at which a process stopped, and whether it still was there.
    Trigger {
        pid: u32,
        module: Name,
        line: u32,
        serial: u128,
        action: Action,
        applied: bool,
    },
    /// A console's command was answered.
    Served {
        console: u32,
        call: Call,
        reply: Reply,
    },
}

/// What an entry weighs: a Ran its moves and condition moves, at least 1; any other entry 1.
pub fn entry_weight(entry: &Entry) -> u32
    requires { weight_of entry.now < 2 ^ 32 }
    ensures { result ≡ weight_of entry.now }
{
    match entry {
        Entry::Ran { moves, cond, .. } => u32::max(1, *moves + *cond),
        _ => 1,
    }
}
