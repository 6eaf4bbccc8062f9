//! What a console is answered.

ghost use Rattle.std.specs.Prelude.{◌≡◌, IfOk};

use crate::ProcStatus;
use edb_lang::{Bytes, Rows};
use std::alloc::{AllocError, Global};

/// Why a command was refused.
#[derive(Clone, Copy, PartialEq, Eq, Debug)]
pub enum Refusal {
    /// There is a breakpoint at that place.
    BreakExists,
    /// No file holds the module, or its current version has no such function.
    FunctionNotFound,
    /// The module isn't interpreted; or the process isn't, or has ended.
    NotInterpreted,
    /// No file holds the module.
    NoModule,
    /// Fewer files hold the module.
    NoVersion,
    /// No process was made with that number.
    NoProcess,
    /// Some console is attached to the process, this one included.
    AlreadyAttached,
    /// This console isn't attached to the process.
    NotAttached,
    /// The process isn't stopped.
    NotStopped,
    /// As many processes were made as ever may be.
    SystemLimit,
    /// The process doesn't wait for a message. No command is refused so yet.
    NotWaiting,
}

/// The answer to a command: done; refused; a process with the status that was awaited; that nothing
/// else can come, so that it won't have it; or rows of text.
#[derive(Drop)]
pub enum Reply {
    Ok,
    Refused(Refusal),
    Status { pid: u32, status: ProcStatus },
    Quiet,
    Rows(Rows<Bytes>),
}

impl Reply {
    /// An equal reply; refused only for want of memory.
    pub fn copy(&self, alloc: Global) -> Result<Reply, AllocError>
        ensures { IfOk result (λ r. r ≡ self.now) }
    {
        match self {
            Reply::Ok => Ok(Reply::Ok),
            Reply::Refused(why) => Ok(Reply::Refused(*why)),
            Reply::Status { pid, status } => Ok(Reply::Status {
                pid: *pid,
                status: *status,
            }),
            Reply::Quiet => Ok(Reply::Quiet),
            Reply::Rows(rows) => Ok(Reply::Rows(copy_rows(alloc, rows.as_slice())?)),
        }
    }
}

fn copy_rows(alloc: Global, rows: &[Bytes]) -> Result<Rows<Bytes>, AllocError>
    ensures { IfOk result (λ copies. copies ≡ rows.now) }
{
    let mut copies = Rows::new(alloc);
    for row in rows {
        copies.push(row.copy(alloc)?)?;
    }
    Ok(copies)
}
