//! What changes the server: commands that aren't refused, and what the world tells.

ghost use Rattle.std.specs.Prelude.{◌≡◌, ◌<◌, ◌^◌, true, None, OnOk, OnErr, slice_index_or};
ghost use Rattle.edb_lang.specs.declared.small.Action.TheVariants as action;
ghost use Rattle.edb_event.specs.declared.call.Call.TheVariants as call;
ghost use Rattle.edb_breaks.specs.Table.{row_at, has_row};
ghost use Rattle.edb_rules.specs.Called.{called};
ghost use Rattle.edb_rules.specs.Noted as news;
ghost use Rattle.edb_rules.specs.Noted.{placed, noted};
ghost use Rattle.edb_rules.specs.Seen.{new_seen};
ghost use Rattle.edb_rules.specs.Refusals.{refused};
ghost use Rattle.edb_rules.specs.Replies.{is_served};

use crate::seen::{Change, Seen, SeenCall, SeenStop, change_seen};
use crate::server::{Server, is_among, seen_of};
use edb_event::Call;
use edb_lang::{Bytes, Name};
use std::alloc::AllocError;

/// Puts a new process at a place, counted from 0, where none is; places before it that aren't there yet have none. Refused only
/// for want of memory, and then nothing is changed.
fn place_seen(seen: &mut Vec<Option<Seen>>, place: usize) -> Result<(), AllocError>
    requires free { slice_index_or seen.old.items place None ≡ None }
    requires fits { place < 2 ^ 32 }
    ensures ok { OnOk result (seen.new.items ≡ placed place new_seen seen.old.items) }
    ensures err { OnErr result (seen.new.items ≡ seen.old.items) }
{
    if place < seen.len() {
        seen[place] = Some(Seen::new());
        return Ok(());
    }
    let missing = place - seen.len();
    seen.reserve(missing + 1)?;
    for gap in 0..missing {
        seen.push_reserved(None);
    }
    seen.push_reserved(Some(Seen::new()));
    Ok(())
}

impl<'a> Server<'a> {
    /// Interprets a module; where it is interpreted already nothing changes.
    fn interpret(&mut self, console: u32, module: &Name) -> Result<(), AllocError>
        ensures ok { OnOk result (self.new ≡ called self.old console (call.Ii «module».now)) }
        ensures err { OnErr result (self.new ≡ self.old) }
    {
        if is_among(module, &self.interpreted) {
            return Ok(());
        }
        self.interpreted.push(module.copy(self.alloc)?)?;
        Ok(())
    }

    /// Makes a breakpoint where there is none.
    fn break_at(&mut self, console: u32, module: &Name, line: u32) -> Result<(), AllocError>
        requires free { row_at «module».now line self.old.table ≡ None }
        requires few { self.old.table.given < 2 ^ 127 }
        ensures ok { OnOk result (self.new ≡ called self.old console (call.Ib «module».now line)) }
        ensures err { OnErr result (self.new ≡ self.old) }
    {
        match self.table.add(module.copy(self.alloc)?, line)? {
            Ok(_) => Ok(()),
            Err(_) => unreachable!(),
        }
    }

    /// Does what a command of a console does in the server; of those that are served yet. Refused only for want of memory, and
    /// then nothing is changed.
    pub fn call(&mut self, console: u32, call: &Call) -> Result<(), AllocError>
        requires known { is_served call.now ≡ true }
        requires allowed { refused self.old console call.now ≡ None }
        requires few { self.old.table.given < 2 ^ 127 }
        ensures ok { OnOk result (self.new ≡ called self.old console call.now) }
        ensures err { OnErr result (self.new ≡ self.old) }
    {
        match call {
            Call::Ii { module } => self.interpret(console, module),
            Call::Ib { module, line } => self.break_at(console, module, *line),
            Call::Ia { pid } => {
                self.attached.push((*pid, console))?;
                Ok(())
            }
            Call::Continue { pid } => {
                change_seen(&mut self.seen, *pid, Change::Resumes);
                Ok(())
            }
            _ => Ok(()),
        }
    }

    /// A process was made. Refused only for want of memory, and then nothing is changed.
    pub fn start(&mut self, pid: u32) -> Result<(), AllocError>
        requires few { self.old.made < 2 ^ 32 }
        ensures ok { OnOk result (self.new ≡ noted self.old (news.started pid)) }
        ensures err { OnErr result (self.new ≡ self.old) }
    {
        if pid == 0 {
            return Ok(());
        }
        if seen_of(&self.seen, pid).is_some() {
            return Ok(());
        }
        let place = (pid - 1) as usize;
        place_seen(&mut self.seen, place)?;
        self.made += 1;
        Ok(())
    }

    /// A process comes to interpreted code, in this function.
    pub fn enter(&mut self, pid: u32, function: SeenCall)
        ensures { self.new ≡ noted self.old (news.entered pid function.home function.name function.arity) }
    {
        change_seen(&mut self.seen, pid, Change::Enters(function));
    }

    /// A process leaves interpreted code.
    pub fn leave(&mut self, pid: u32)
        ensures { self.new ≡ noted self.old (news.left pid) }
    {
        change_seen(&mut self.seen, pid, Change::Leaves);
    }

    /// A process stops.
    pub fn stop(&mut self, pid: u32, stop: SeenStop)
        ensures { self.new ≡ noted self.old (news.stopped pid stop.home stop.line stop.level stop.frames) }
    {
        change_seen(&mut self.seen, pid, Change::Stops(stop));
    }

    /// A process ends, with the text of its reason.
    pub fn end(&mut self, pid: u32, reason: Bytes)
        ensures { self.new ≡ noted self.old (news.ended pid reason) }
    {
        change_seen(&mut self.seen, pid, Change::Ends(reason));
    }

    /// A trigger with the action `enable` came; tells whether the table has the row.
    pub fn enable(&mut self, module: &Name, line: u32, serial: u128) -> bool
        ensures found { result ≡ has_row serial «module».now line self.old.table }
        ensures table { self.new ≡ noted self.old (news.triggered «module».now line serial action.Enable) }
    {
        self.table.enable_serial(module, line, serial)
    }
}
