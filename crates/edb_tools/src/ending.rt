//! How the tool ends.

use edb_verdict::ModuleFault;

/// How a run of the tool ended. Files are counted from 0, in the order of the words.
#[derive(Clone, Copy, PartialEq, Eq, Debug)]
pub enum ToolEnd {
    /// All was done, and all was written.
    Done,
    /// The words aren't a command and what it takes.
    Words,
    /// This file could not be read.
    FileFault { file: u32 },
    /// This file is the first that is refused.
    ModuleRefused { file: u32, fault: ModuleFault },
    /// A write failed.
    WriteFault,
    /// Memory was refused.
    NoMemory,
}
