//! Shared acts: what a process does to the world.

ghost use Rattle.std.specs.Prelude.{◌≡◌, ◌<◌, ◌+◌, ◌^◌, Some, IfOk};
ghost use Rattle.edb_lang.specs.declared.act.ActKind.TheVariants as kind;
ghost use Rattle.edb_model.specs.Move.{next, acts, redex};
ghost use Rattle.edb_model.specs.Acts.{displayed, true_term};
ghost use Rattle.edb_rules.specs.Turns.{Act, does, turn_of};
ghost use Rattle.edb_world.specs.Known.{noted};
ghost use Rattle.edb_world.specs.Turns.{IsActing, act_entry};

use crate::state::State;
use edb_eval::Process;
use edb_event::Entry;
use edb_lang::{ActKind, Bytes, Name, Term};
use edb_text::term_text;
use std::alloc::{AllocError, Global};

/// What a display prints: the text of its operand, and a newline.
fn printed(alloc: Global, process: &Process<'_>) -> Result<Bytes, AllocError>
    requires { next process.now ≡ acts kind.Print }
    ensures { IfOk result (λ bytes. bytes ≡ displayed (redex process.now).1) }
{
    let operand = process.operand(alloc)?;
    let mut bytes = term_text(alloc, &operand)?;
    bytes.push(b'\n')?;
    Ok(bytes)
}

/// The answer of a display.
fn display_answer(alloc: Global) -> Result<Term, AllocError>
    ensures { IfOk result (λ answer. answer ≡ true_term) }
{
    Ok(Term::atom(Name::from_str(alloc, "true")?))
}

impl<'a> State<'a> {
    /// Lets a process make the act that is next for it, which is of this kind. Where memory is refused the output may
    /// have grown.
    pub(crate) fn act(&mut self, pid: u32, kind: ActKind) -> Result<Entry, AllocError>
        requires acting { IsActing self.old.facts pid kind }
        requires fits { self.old.facts.weight + 1 < 2 ^ 32 }
        ensures entry { IfOk result (λ e. (a : Act) → turn_of self.old.facts pid ≡ Some (does a) → e ≡ act_entry pid a) }
        ensures state { IfOk result (λ e. self.new ≡ noted self.old e) }
    {
        match kind {
            ActKind::Print => self.print(pid),
            _ => self.end(pid),
        }
    }

    /// Lets a process print. Where memory is refused the output may have grown.
    fn print(&mut self, pid: u32) -> Result<Entry, AllocError>
        requires acting { IsActing self.old.facts pid kind.Print }
        requires fits { self.old.facts.weight + 1 < 2 ^ 32 }
        ensures entry { IfOk result (λ e. (a : Act) → turn_of self.old.facts pid ≡ Some (does a) → e ≡ act_entry pid a) }
        ensures state { IfOk result (λ e. self.new ≡ noted self.old e) }
    {
        let alloc = self.alloc;
        let place = (pid - 1) as usize;
        let printed = printed(alloc, self.running(pid))?;
        let answer = display_answer(alloc)?;
        let value = term_text(alloc, &answer)?;
        self.output.extend(printed.as_slice())?;
        self.processes[place].answer(alloc, answer)?;
        self.debuggees[place].print();
        self.turn = pid;
        self.weight += 1;
        Ok(Entry::Did {
            pid,
            kind: ActKind::Print,
            value,
            bytes: printed,
        })
    }

    /// Lets a process end.
    fn end(&mut self, pid: u32) -> Result<Entry, AllocError>
        requires acting { IsActing self.old.facts pid kind.End }
        requires fits { self.old.facts.weight + 1 < 2 ^ 32 }
        ensures entry { IfOk result (λ e. (a : Act) → turn_of self.old.facts pid ≡ Some (does a) → e ≡ act_entry pid a) }
        ensures state { IfOk result (λ e. self.new ≡ noted self.old e) }
    {
        let place = (pid - 1) as usize;
        let reason = self.running(pid).reason(self.alloc)?;
        let value = term_text(self.alloc, &reason)?;
        let told = value.copy(self.alloc)?;
        self.processes[place].end();
        self.members[place].end(reason);
        self.debuggees[place].end();
        self.server.end(pid, told);
        self.turn = pid;
        self.weight += 1;
        Ok(Entry::Did {
            pid,
            kind: ActKind::End,
            value,
            bytes: Bytes::new(self.alloc),
        })
    }
}
