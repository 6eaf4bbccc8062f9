//! How a session ends.

use edb_event::Journal;
use edb_model::Tables;
use edb_verdict::ModuleFault;

/// How a session ended. Files are counted from the script, which is 0.
#[derive(Clone, Copy, PartialEq, Eq, Debug)]
pub enum End {
    /// All commands were answered and no process could go on, below the greatest weight, and all was
    /// written.
    Done,
    /// The words aren't options, a script's name and the names of FILEs.
    Words,
    /// This file could not be read.
    FileFault { file: u32 },
    /// This FILE is no module that the debugger runs, for this fault.
    ModuleRefused { file: u32, fault: ModuleFault },
    /// The script is bad at this line.
    ScriptRefused { line: u32 },
    /// The journal reached its greatest weight, and all was written.
    Limit,
    /// A write failed.
    WriteFault,
    /// Memory was refused.
    NoMemory,
}

/// What a session leaves: how it ended, its journal, its tables, and the program's status.
#[derive(Drop)]
pub struct Ending {
    pub end: End,
    pub journal: Journal,
    pub tables: Tables,
    pub status: u8,
}
