//! The console's commands: which is next, and what it does.

ghost use Rattle.std.specs.Prelude.{◌≡◌, ◌<◌, ◌+◌, ◌-◌, ◌^◌, true, length, None, Some, IfOk, OnOk};
ghost use Rattle.edb_lang.specs.Terms.{elements};
ghost use Rattle.edb_event.specs.Books.{commands_of};
ghost use Rattle.edb_event.specs.declared.call.Call.{Call};
ghost use Rattle.edb_event.specs.declared.call.Call.TheVariants as call;
ghost use Rattle.edb_event.specs.declared.call.Word.TheVariants as word;
ghost use Rattle.edb_event.specs.declared.entry.Entry.TheVariants as entry;
ghost use Rattle.edb_event.specs.declared.reply.Reply.TheVariants as reply;
ghost use Rattle.edb_rules.specs.Replies as rules;
ghost use Rattle.edb_rules.specs.Facts.{console_at, unseen};
ghost use Rattle.edb_rules.specs.Replies.{next_call, is_enabled, is_served, process_of};
ghost use Rattle.edb_rules.specs.Refusals.{refused};
ghost use Rattle.edb_rules.specs.Answers.{reply_of};
ghost use Rattle.edb_rules.specs.Orders.{resumes, with_order};
ghost use Rattle.edb_model.specs.Procs.{numbered, with_numbered};
ghost use Rattle.edb_frames.specs.declared.mode.Mode.TheVariants as mode;
ghost use Rattle.edb_rules.specs.Ranks.{AtCommand};
ghost use Rattle.edb_world.specs.Known.{noted, command_entry};
ghost use Rattle.edb_world.specs.Served.{IsCounted, counted, served_known, with_newborn};
ghost use Rattle.edb_world.specs.Ranks.{IsNextCommand};

use crate::debuggee::Debuggee;
use crate::live::{Live, Member};
use crate::state::State;
use edb_eval::Process;
use edb_event::{Call, Entry, Reply, Word};
use edb_frames::Mode;
use edb_lang::{Name, Node, Term};
use std::alloc::{AllocError, Global};

/// What the console's next command asks for.
#[derive(Drop)]
pub(crate) enum NextCommand {
    /// It is enabled, so it is to be served.
    Enabled(Call),
    /// It isn't enabled, so it waits.
    Waits(Call),
    /// All were answered.
    Through,
}

/// A command about this process.
fn about(call: Call, pid: u32) -> Call
    ensures { result ≡ rules.about call pid }
{
    match call {
        Call::Ia { .. } => Call::Ia { pid },
        Call::Detach { .. } => Call::Detach { pid },
        Call::Step { .. } => Call::Step { pid },
        Call::Next { .. } => Call::Next { pid },
        Call::Finish { .. } => Call::Finish { pid },
        Call::Halt { .. } => Call::Halt { pid },
        Call::Skip { .. } => Call::Skip { pid },
        Call::Kill { .. } => Call::Kill { pid },
        Call::Timeout { .. } => Call::Timeout { pid },
        Call::Continue { .. } => Call::Continue { pid },
        Call::Bindings { .. } => Call::Bindings { pid },
        Call::Frames { .. } => Call::Frames { pid },
        Call::Await { status, .. } => Call::Await { pid, status },
        other => other,
    }
}

/// The elements of a list term, up to its end.
fn elements_of(alloc: Global, list: &Term) -> Result<Vec<Term>, AllocError>
    ensures { IfOk result (λ items. items.items ≡ elements list.now) }
{
    let mut items = Vec::new(alloc);
    let mut at = list;
    while let Node::List(cell) = &at.node {
        items.push(cell.head.copy(alloc)?)?;
        at = &cell.tail;
    }
    Ok(items)
}

/// Lets a process go on, if it is stopped.
fn resume(debuggees: &mut [Debuggee<'_>], pid: u32)
    ensures { debuggees.new ≡ with_numbered debuggees.old pid (with_order (resumes mode.Run) (numbered unseen debuggees.old pid)) }
{
    if pid == 0 {
        return;
    }
    let place = (pid - 1) as usize;
    if place >= debuggees.len() {
        return;
    }
    debuggees[place].resume(Mode::Run);
}

impl<'a> State<'a> {
    /// The process that a word names; 0 where it names none.
    fn process_of(&self, word: &Word) -> u32
        ensures { result ≡ process_of self.now.facts 1 word.now }
    {
        match word {
            Word::Absent => 0,
            Word::Number(pid) => *pid,
            Word::Own(place) => self.own_process(*place),
            Word::Named(_) => 0,
            Word::Last => self.last,
        }
    }

    /// The process of the console's own start with this number, counted from 1; 0 where there is none.
    fn own_process(&self, place: u32) -> u32
        ensures { result ≡ process_of self.now.facts 1 (word.Own place) }
    {
        if place == 0 {
            return 0;
        }
        match self.own.get((place - 1) as usize) {
            Some(pid) => *pid,
            None => 0,
        }
    }

    /// The console's next command, its word found to be a process; none once all were served.
    fn next_call(&self) -> Result<Option<Call>, AllocError>
        ensures { IfOk result (λ found. found ≡ next_call self.now.plan self.now.facts 1) }
    {
        match self.commands.get(self.served) {
            None => Ok(None),
            Some(command) => {
                let pid = self.process_of(&command.word);
                Ok(Some(about(command.call.copy(self.alloc)?, pid)))
            }
        }
    }

    /// What the console's next command asks for.
    pub(crate) fn next_command(&self) -> Result<NextCommand, AllocError>
        requires at { AtCommand self.now.plan self.now.facts }
        requires known { (x : Call) → next_call self.now.plan self.now.facts 1 ≡ Some x → is_served x ≡ true }
        ensures { IfOk result (λ found. IsNextCommand self.now.plan self.now.facts found) }
    {
        let _ = &self.commands;
        match self.next_call()? {
            None => Ok(NextCommand::Through),
            Some(call) => {
                if self.server.enables(&call) {
                    return Ok(NextCommand::Enabled(call));
                }
                Ok(NextCommand::Waits(call))
            }
        }
    }

    /// Serves a command as one that is enabled, or starts its process.
    pub(crate) fn answer(&mut self, call: Call) -> Result<Entry, AllocError>
        requires known { is_served call ≡ true }
        requires enabled { is_enabled self.old.facts call ≡ true }
        requires left { (console_at self.old.facts 1).served < length (commands_of 1 self.old.plan.commands) }
        requires tied { self.old.facts.server.made ≡ length self.old.facts.plain.running }
        requires fits { self.old.facts.weight + 1 < 2 ^ 32 }
        ensures entry { IfOk result (λ e. e ≡ command_entry self.old call) }
        ensures state { IfOk result (λ e. self.new ≡ noted self.old e) }
    {
        let refused = self.server.refused(1, &call).is_some();
        if refused {
            return self.serve(call);
        }
        self.accept(call)
    }

    /// Serves a command as one that is enabled and isn't refused, or starts its process.
    fn accept(&mut self, call: Call) -> Result<Entry, AllocError>
        requires known { is_served call ≡ true }
        requires enabled { is_enabled self.old.facts call ≡ true }
        requires allowed { refused self.old.facts.server 1 call ≡ None }
        requires left { (console_at self.old.facts 1).served < length (commands_of 1 self.old.plan.commands) }
        requires tied { self.old.facts.server.made ≡ length self.old.facts.plain.running }
        requires fits { self.old.facts.weight + 1 < 2 ^ 32 }
        ensures entry { IfOk result (λ e. e ≡ command_entry self.old call) }
        ensures state { IfOk result (λ e. self.new ≡ noted self.old e) }
    {
        match call {
            Call::Start { module, name, args } => self.start(module, name, args),
            other => self.serve(other),
        }
    }

    /// Starts a process.
    fn start(&mut self, module: Name, name: Name, args: Term) -> Result<Entry, AllocError>
        requires left { (console_at self.old.facts 1).served < length (commands_of 1 self.old.plan.commands) }
        requires few { self.old.facts.server.made < 65536 }
        requires tied { self.old.facts.server.made ≡ length self.old.facts.plain.running }
        requires fits { self.old.facts.weight + 1 < 2 ^ 32 }
        ensures entry { IfOk result (λ e.
            e ≡ entry.Start 1 (length self.old.facts.plain.running + 1) «module» name args) }
        ensures state { IfOk result (λ e. self.new ≡ noted self.old e) }
    {
        let pid = self.processes.len() as u32 + 1;
        let home = module.copy(self.alloc)?;
        let function = name.copy(self.alloc)?;
        let operands = elements_of(self.alloc, &args)?;
        self.server.start(pid)?;
        self.add(Process::open(home, function, operands))?;
        self.own.push(pid)?;
        self.count();
        Ok(Entry::Start {
            console: 1,
            pid,
            module,
            name,
            args,
        })
    }

    /// Adds a process, of which the debugger knows nothing.
    fn add(&mut self, process: Process<'a>) -> Result<(), AllocError>
        ensures { OnOk result (self.new ≡ with_newborn self.old process.entry) }
    {
        self.debuggees.reserve(1)?;
        self.members.reserve(1)?;
        self.processes.push(Live::newborn(process))?;
        self.members.push_reserved(Member::new());
        self.debuggees.push_reserved(Debuggee::unseen(self.alloc));
        Ok(())
    }

    /// Counts a command as served.
    fn count(&mut self)
        requires left { (console_at self.old.facts 1).served < length (commands_of 1 self.old.plan.commands) }
        requires fits { self.old.facts.weight + 1 < 2 ^ 32 }
        ensures state { self.new ≡ counted self.old }
        ensures is_counted { IsCounted self.new }
    {
        self.served += 1;
        self.weight += 1;
    }

    /// Serves an enabled command, which isn't a start that is accepted.
    fn serve(&mut self, call: Call) -> Result<Entry, AllocError>
        requires known { is_served call ≡ true }
        requires enabled { is_enabled self.old.facts call ≡ true }
        requires left { (console_at self.old.facts 1).served < length (commands_of 1 self.old.plan.commands) }
        requires fits { self.old.facts.weight + 1 < 2 ^ 32 }
        ensures entry { IfOk result (λ e. e ≡ entry.Served 1 call (reply_of self.old.facts.server 1 call)) }
        ensures state { IfOk result (λ e. self.new ≡ noted self.old e) }
    {
        let reply = self.server.reply(1, &call)?;
        let refused = self.server.refused(1, &call).is_some();
        self.count();
        if refused {
            return Ok(Entry::Served {
                console: 1,
                call,
                reply,
            });
        }
        self.change(&call)?;
        Ok(Entry::Served {
            console: 1,
            call,
            reply,
        })
    }

    /// Does what a command that isn't refused does, once it is counted.
    fn change(&mut self, call: &Call) -> Result<(), AllocError>
        requires known { is_served call.now ≡ true }
        requires allowed { refused self.old.facts.server 1 call.now ≡ None }
        requires counted { IsCounted self.old }
        ensures { OnOk result (self.new ≡ served_known self.old call.now) }
    {
        self.server.call(1, call)?;
        match call {
            Call::Continue { pid } => resume(&mut self.debuggees, *pid),
            Call::Await { pid, .. } => self.last = *pid,
            _ => {}
        }
        Ok(())
    }

    /// Answers a command that nothing enables any more.
    pub(crate) fn answer_quiet(&mut self, call: Call) -> Entry
        requires known { is_served call ≡ true }
        requires left { (console_at self.old.facts 1).served < length (commands_of 1 self.old.plan.commands) }
        requires fits { self.old.facts.weight + 1 < 2 ^ 32 }
        ensures entry { result ≡ entry.Served 1 call reply.Quiet }
        ensures state { self.new ≡ noted self.old result }
    {
        self.count();
        Entry::Served {
            console: 1,
            call,
            reply: Reply::Quiet,
        }
    }
}
