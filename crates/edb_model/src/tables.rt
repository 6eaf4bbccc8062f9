//! The tables of a run: what is left of its processes, names, signals, clock and output.

use edb_lang::{Bytes, Name, Rows, Term};

/// A monitor: its reference, and the process that it watches.
#[derive(Clone, Copy, PartialEq, Eq, Debug)]
pub struct MonitorRow {
    pub reference: u32,
    pub target: u32,
}

/// A registered name, and the process that has it.
#[derive(Drop)]
pub struct NameRow {
    pub name: Name,
    pub pid: u32,
}

/// A signal in flight; `from` is the process that sent it. `Link` is the exit signal of a link at the end
/// of a process, `NoProc` that of a call of `link` whose target isn't there, `Exit` one that a process
/// asked for, `Down` the message of a monitor.
#[derive(Drop)]
pub enum SignalRow {
    Link {
        from: u32,
        to: u32,
        reason: Term,
    },
    NoProc {
        from: u32,
        to: u32,
    },
    Exit {
        from: u32,
        to: u32,
        reason: Term,
    },
    Down {
        reference: u32,
        from: u32,
        to: u32,
        reason: Term,
    },
}

/// A process: its mailbox; its links by number, also those to a process that has ended whose exit signal
/// is in flight; the monitors that it made, by reference; whether it traps exits, the deadline of its
/// wait in milliseconds of virtual time, and the reason with which it ended, where it has ended.
#[derive(Drop)]
pub struct ProcRow {
    pub pid: u32,
    pub mailbox: Rows<Term>,
    pub links: Rows<u32>,
    pub monitors: Rows<MonitorRow>,
    pub trap: bool,
    pub deadline: Option<u64>,
    pub exit: Option<Term>,
}

/// The tables of a run: processes by number, names by their bytes, signals in the order of their
/// delivery, the clock in milliseconds, and what was printed.
#[derive(Drop)]
pub struct Tables {
    pub processes: Rows<ProcRow>,
    pub names: Rows<NameRow>,
    pub signals: Rows<SignalRow>,
    pub clock: u64,
    pub output: Bytes,
}
