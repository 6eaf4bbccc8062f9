//! What the server has seen of a process.

ghost use Rattle.std.specs.Prelude.{◌≡◌, None};
ghost use Rattle.std.specs.Option.{option_copied, option_map};
ghost use Rattle.edb_model.specs.Procs.{numbered, with_numbered};
ghost use Rattle.edb_rules.specs.Noted.{entered_seen, ended_seen};
ghost use Rattle.edb_rules.specs.Seen as rules;
ghost use Rattle.edb_rules.specs.Seen.{new_seen, status_of};
ghost use Rattle.edb_iserver.specs.Changes.{changed};

use edb_event::ProcStatus;
use edb_lang::{Bindings, Bytes, Name};
use std::marker::Model;

/// A frame of a stopped process: the level of a Body, the module, name and arity of its call, the line of the expression
/// that is next in it, and its variables.
#[derive(Drop)]
pub struct Frame {
    pub level: u64,
    pub module: Name,
    pub name: Name,
    pub arity: usize,
    pub line: u32,
    pub bindings: Bindings,
}

impl Model for Frame {
    ghost use Rattle.std.specs.Coded.{codes};
    ghost use Rattle.edb_lang.specs.TermCodes.{coded_pairs};
    ghost use Rattle.edb_rules.specs.Seen as rules;

    ghost Value = { rules.Frame };

    ghost coded = { Prim.hlevel (codes, coded_pairs) };

    ghost view = { λ f. record { level = f.level; home = f.«module»; name = f.name; arity = f.arity; line = f.line; bindings = f.bindings } };
}

/// A stop: the module and line of the expression that is next, the level of the innermost Body, and the frames, innermost
/// first.
#[derive(Drop)]
pub struct SeenStop {
    pub module: Name,
    pub line: u32,
    pub level: u64,
    pub frames: Vec<Frame>,
}

impl Model for SeenStop {
    ghost use Rattle.std.specs.Coded.{codes};
    ghost use Rattle.edb_lang.specs.TermCodes.{coded_pairs};
    ghost use Rattle.edb_rules.specs.Seen as rules;

    ghost Value = { rules.SeenStop };

    ghost coded = { Prim.hlevel (codes, coded_pairs) };

    ghost view = { λ s. record { home = s.«module»; line = s.line; level = s.level; frames = s.frames.items } };
}

/// A function, by its module, name and arity.
#[derive(Drop)]
pub struct SeenCall {
    pub module: Name,
    pub name: Name,
    pub arity: u32,
}

impl Model for SeenCall {
    ghost use Rattle.edb_rules.specs.Seen as rules;

    ghost Value = { rules.SeenCall };

    ghost view = { λ f. record { home = f.«module»; name = f.name; arity = f.arity } };
}

/// What was seen of a process: the function in which it came to interpreted code for the first time; whether a meta process
/// interprets it; where it is stopped; and the text of its reason, once it has ended. None waits for a message yet.
#[derive(Drop)]
pub(crate) struct Seen {
    first: Option<SeenCall>,
    is_interpreted: bool,
    stop: Option<SeenStop>,
    ended: Option<Bytes>,
}

impl Model for Seen {
    ghost use Rattle.std.specs.Prelude.{false};
    ghost use Rattle.std.specs.Coded.{codes};
    ghost use Rattle.edb_lang.specs.TermCodes.{coded_pairs};
    ghost use Rattle.edb_rules.specs.Seen as rules;

    ghost Value = { rules.Seen };

    ghost coded = { Prim.hlevel (codes, coded_pairs) };

    ghost view = { λ x. record { first = x.first; is_interpreted = x.is_interpreted; is_waiting = false; stop = x.stop; ended = x.ended } };
}

/// What changes of a process.
#[derive(Drop)]
pub(crate) enum Change {
    /// It comes to interpreted code, in this function.
    Enters(SeenCall),
    /// It leaves interpreted code.
    Leaves,
    /// It stops.
    Stops(SeenStop),
    /// It is let go on.
    Resumes,
    /// It ends, with the text of its reason.
    Ends(Bytes),
}

impl Seen {
    /// Of a new process.
    pub(crate) fn new() -> Seen
        ensures { result ≡ new_seen }
    {
        Seen {
            first: None,
            is_interpreted: false,
            stop: None,
            ended: None,
        }
    }

    /// Whether a meta process interprets it.
    pub(crate) fn is_interpreted(&self) -> bool
        ensures { result ≡ self.now.is_interpreted }
    {
        self.is_interpreted
    }

    /// Where it is stopped.
    pub(crate) fn stop(&self) -> Option<&SeenStop>
        ensures { option_copied result ≡ self.now.stop }
    {
        self.stop.as_ref()
    }

    /// Its status.
    pub(crate) fn status(&self) -> ProcStatus
        ensures { result ≡ status_of self.now }
    {
        if self.ended.is_some() {
            return ProcStatus::Exit;
        }
        if self.stop.is_some() {
            return ProcStatus::Break;
        }
        if self.is_interpreted {
            return ProcStatus::Running;
        }
        ProcStatus::Idle
    }

    /// It comes to interpreted code, in this function.
    fn enter(&mut self, function: SeenCall)
        ensures { self.new ≡ entered_seen function self.old }
    {
        if self.first.is_none() {
            self.first = Some(function);
        }
        self.is_interpreted = true;
    }

    /// It ends, with the text of its reason.
    fn end(&mut self, reason: Bytes)
        ensures { self.new ≡ ended_seen reason self.old }
    {
        self.is_interpreted = false;
        self.stop = None;
        self.ended = Some(reason);
    }

    /// Changes what was seen; news of one that has ended changes nothing.
    pub(crate) fn change(&mut self, change: Change)
        ensures { self.new ≡ changed change self.old }
    {
        if let Change::Resumes = change {
            self.stop = None;
            return;
        }
        if self.ended.is_some() {
            return;
        }
        match change {
            Change::Enters(function) => self.enter(function),
            Change::Leaves => self.is_interpreted = false,
            Change::Stops(stop) => self.stop = Some(stop),
            Change::Ends(reason) => self.end(reason),
            Change::Resumes => {}
        }
    }
}

/// Changes what was seen of a process, if it was made.
pub(crate) fn change_seen(seen: &mut [Option<Seen>], pid: u32, change: Change)
    ensures { seen.new ≡ with_numbered seen.old pid (option_map (changed change) (numbered None seen.old pid)) }
{
    if pid == 0 {
        return;
    }
    let place = (pid - 1) as usize;
    if place >= seen.len() {
        return;
    }
    if let Some(process) = &mut seen[place] {
        process.change(change);
    }
}
