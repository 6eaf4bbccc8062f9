//! Why the server refuses a command.

ghost use Rattle.std.specs.Prelude.{◌≡◌, true, is_some};
ghost use Rattle.edb_event.specs.declared.call.Call.TheVariants as call;
ghost use Rattle.edb_rules.specs.Server as rules;
ghost use Rattle.edb_rules.specs.Server.{is_made, is_interpreted, stop_at};
ghost use Rattle.edb_rules.specs.Refusals.{first_case, interpreted_cases, refused};
ghost use Rattle.edb_rules.specs.Replies.{is_served};

use crate::server::{Server, seen_of};
use edb_event::{Call, Refusal};
use edb_lang::Name;

/// The most processes that are ever made.
const MOST_PROCESSES: usize = 65_536;

impl<'a> Server<'a> {
    /// Whether a process with this number was made.
    fn is_made(&self, pid: u32) -> bool
        ensures { result ≡ is_made self.now pid }
    {
        seen_of(&self.seen, pid).is_some()
    }

    /// Whether a meta process interprets a process; one that has ended has none.
    fn is_interpreted(&self, pid: u32) -> bool
        ensures { result ≡ is_interpreted self.now pid }
    {
        match seen_of(&self.seen, pid) {
            Some(seen) => seen.is_interpreted(),
            None => false,
        }
    }

    /// Whether a process is stopped.
    fn is_stopped(&self, pid: u32) -> bool
        ensures { result ≡ is_some (stop_at self.now pid) }
    {
        match seen_of(&self.seen, pid) {
            Some(seen) => seen.stop().is_some(),
            None => false,
        }
    }

    /// Why a command about a process is refused that wants it interpreted.
    fn refused_process(&self, pid: u32) -> Option<Refusal>
        ensures { result ≡ first_case (interpreted_cases self.now pid) }
    {
        if !self.is_made(pid) {
            return Some(Refusal::NoProcess);
        }
        if !self.is_interpreted(pid) {
            return Some(Refusal::NotInterpreted);
        }
        None
    }

    /// Why `ii` is refused, where it is.
    fn refused_ii(&self, console: u32, module: &Name) -> Option<Refusal>
        ensures { result ≡ refused self.now console (call.Ii «module».now) }
    {
        if self.code.holds(module) {
            return None;
        }
        Some(Refusal::NoModule)
    }

    /// Why `ia` is refused, where it is.
    fn refused_ia(&self, console: u32, pid: u32) -> Option<Refusal>
        ensures { result ≡ refused self.now console (call.Ia pid) }
    {
        if let Some(why) = self.refused_process(pid) {
            return Some(why);
        }
        if self.console_of(pid).is_some() {
            return Some(Refusal::AlreadyAttached);
        }
        None
    }

    /// Why `bindings` is refused, where it is.
    fn refused_bindings(&self, console: u32, pid: u32) -> Option<Refusal>
        ensures { result ≡ refused self.now console (call.Bindings pid) }
    {
        if let Some(why) = self.refused_process(pid) {
            return Some(why);
        }
        if !self.is_attached(console, pid) {
            return Some(Refusal::NotAttached);
        }
        if !self.is_stopped(pid) {
            return Some(Refusal::NotStopped);
        }
        None
    }

    /// Why a command of a console is refused, where it is; of those that are served yet.
    pub fn refused(&self, console: u32, call: &Call) -> Option<Refusal>
        requires known { is_served call.now ≡ true }
        ensures { result ≡ refused self.now console call.now }
    {
        match call {
            Call::Start { .. } => {
                if self.made < MOST_PROCESSES {
                    return None;
                }
                Some(Refusal::SystemLimit)
            }
            Call::Ii { module } => self.refused_ii(console, module),
            Call::Ib { module, line } => match self.table.at(module, *line) {
                Some(_) => Some(Refusal::BreakExists),
                None => None,
            },
            Call::Ia { pid } => self.refused_ia(console, *pid),
            Call::Continue { pid } => self.refused_process(*pid),
            Call::Bindings { pid } => self.refused_bindings(console, *pid),
            _ => None,
        }
    }
}
