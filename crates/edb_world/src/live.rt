//! A process of the plain state: what it has to do, and what else is kept of it.

ghost use Rattle.std.specs.Prelude.{◌≡◌, Some, None, IsSomeAnd, OnOk};
ghost use Rattle.edb_lang.specs.declared.act.ActKind.TheVariants as kind;
ghost use Rattle.edb_model.specs.Procs.{new_member, ended_member};
ghost use Rattle.edb_model.specs.Move.{next, acts, answered};

use edb_eval::Process;
use edb_lang::Term;
use std::alloc::{AllocError, Global};
use std::marker::Model;

/// What a process still has to do, which is nothing once it has ended.
#[derive(Drop)]
pub(crate) struct Live<'a> {
    pub(crate) running: Option<Process<'a>>,
}

impl<'a> Model for Live<'a> {
    ghost use Rattle.std.specs.Prelude.{Option};
    ghost use Rattle.std.specs.Coded.{codes};
    ghost use Rattle.edb_model.specs.Running.{Run};
    ghost use Rattle.edb_model.specs.RunningCodes.{coded_run};

    ghost Value = { Option Run };

    ghost coded = { Prim.hlevel (codes, coded_run) };

    ghost view = { λ l. l.running };
}

impl<'a> Live<'a> {
    /// A process that does this next.
    pub(crate) fn newborn(process: Process<'a>) -> Live<'a>
        ensures { result ≡ Some process.entry }
    {
        Live {
            running: Some(process),
        }
    }

    /// Puts the answer of the display that is next in its place.
    pub(crate) fn answer(&mut self, alloc: Global, value: Term) -> Result<(), AllocError>
        requires { IsSomeAnd self.old (λ t. next t ≡ acts kind.Print) }
        ensures { OnOk result (IsSomeAnd self.old (λ t. self.new ≡ Some (answered value t))) }
    {
        let Some(process) = &mut self.running else {
            unreachable!();
        };
        process.answer(alloc, value)
    }

    /// The process has nothing more to do.
    pub(crate) fn end(&mut self)
        ensures { self.new ≡ None }
    {
        self.running = None;
    }
}

/// What is kept of a process beside what it has to do: its reason, once it has ended. No message, deadline or flag comes
/// yet.
#[derive(Drop)]
pub(crate) struct Member {
    pub(crate) exit: Option<Term>,
}

impl Model for Member {
    ghost use Rattle.std.specs.Prelude.{[], None, false};
    ghost use Rattle.std.specs.Coded.{codes};
    ghost use Rattle.edb_lang.specs.TermCodes.{coded_datum};
    ghost use Rattle.edb_model.specs.Procs as procs;

    ghost Value = { procs.Member };

    ghost coded = { Prim.hlevel (codes, coded_datum) };

    ghost view = { λ m. record { mailbox = []; trap = false; deadline = None; exit = m.exit } };
}

impl Member {
    /// Of a process that was just made.
    pub(crate) fn new() -> Member
        ensures { result ≡ new_member }
    {
        Member { exit: None }
    }

    /// The process ends with this reason.
    pub(crate) fn end(&mut self, reason: Term)
        ensures { self.new ≡ ended_member reason self.old }
    {
        self.exit = Some(reason);
    }
}
