//! What the server replies.

ghost use Rattle.std.specs.Prelude.{◌≡◌, ◌++◌, codes, true, IfOk};
ghost use Rattle.edb_lang.specs.TermText.{term_text};
ghost use Rattle.edb_rules.specs.ServerRows as rules;
ghost use Rattle.edb_rules.specs.Answers.{has_status, enables, frames_of, innermost_bindings, reply_of};
ghost use Rattle.edb_rules.specs.Replies.{is_served};

use crate::server::{Server, seen_of};
use edb_event::{Call, ProcStatus, Reply};
use edb_lang::{Bindings, Bytes, Captured, Rows};
use edb_text::put_term;
use std::alloc::{AllocError, Global};

/// The line `Name = term` of a variable.
#[tactic(auto, unfolding(edb_lang::specs::TermText::term_text))]
fn binding_row(alloc: Global, pair: &Captured) -> Result<Bytes, AllocError>
    ensures { IfOk result (λ row. row ≡ (pair.now.name ++ codes " = ") ++ term_text pair.now.value) }
{
    let mut row = Vec::from_slice(alloc, pair.name.as_bytes())?;
    row.extend_from_slice(b" = ")?;
    put_term(&mut row, alloc, &pair.value, true, false)?;
    Ok(Bytes::from_vec(row))
}

/// A row for each variable.
fn binding_rows(alloc: Global, bindings: &Bindings) -> Result<Rows<Bytes>, AllocError>
    ensures { IfOk result (λ rows. rows ≡ rules.binding_rows bindings.now) }
{
    let pairs = bindings.captured(alloc)?;
    let mut rows = Rows::new(alloc);
    for pair in &pairs {
        rows.push(binding_row(alloc, pair)?)?;
    }
    Ok(rows)
}

impl<'a> Server<'a> {
    /// Whether a process was made and has this status.
    fn has_status(&self, pid: u32, status: ProcStatus) -> bool
        ensures { result ≡ has_status self.now pid status }
    {
        match seen_of(&self.seen, pid) {
            Some(seen) => seen.status() == status,
            None => false,
        }
    }

    /// Whether a command is enabled: an await where its process has the status, and every other one; of those that are served
    /// yet.
    pub fn enables(&self, call: &Call) -> bool
        requires known { is_served call.now ≡ true }
        ensures { result ≡ enables self.now call.now }
    {
        match call {
            Call::Await { pid, status } => self.has_status(*pid, *status),
            _ => true,
        }
    }

    /// The bindings of the innermost Body of a process that is stopped, as rows.
    fn bindings_of(&self, pid: u32) -> Result<Rows<Bytes>, AllocError>
        ensures { IfOk result (λ rows. rows ≡ rules.binding_rows (innermost_bindings (frames_of self.now pid))) }
    {
        let Some(seen) = seen_of(&self.seen, pid) else {
            return Ok(Rows::new(self.alloc));
        };
        let Some(stop) = seen.stop() else {
            return Ok(Rows::new(self.alloc));
        };
        match stop.frames.first() {
            Some(frame) => binding_rows(self.alloc, &frame.bindings),
            None => Ok(Rows::new(self.alloc)),
        }
    }

    /// The reply to a command of a console; of those that are served yet. Refused only for want of memory.
    pub fn reply(&self, console: u32, call: &Call) -> Result<Reply, AllocError>
        requires known { is_served call.now ≡ true }
        ensures { IfOk result (λ r. r ≡ reply_of self.now console call.now) }
    {
        if let Some(why) = self.refused(console, call) {
            return Ok(Reply::Refused(why));
        }
        match call {
            Call::Bindings { pid } => Ok(Reply::Rows(self.bindings_of(*pid)?)),
            Call::Await { pid, status } => {
                if self.has_status(*pid, *status) {
                    return Ok(Reply::Status {
                        pid: *pid,
                        status: *status,
                    });
                }
                Ok(Reply::Quiet)
            }
            _ => Ok(Reply::Ok),
        }
    }
}
