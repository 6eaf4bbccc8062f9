//! What the debugger knows of a process.

ghost use Rattle.std.specs.Prelude.{◌≡◌, ◌&&◌, ◌||◌, not, nat_eq, true, false, None, Some, unwrap_or};
ghost use Rattle.edb_lang.specs.declared.act.ActKind.TheVariants as kind;
ghost use Rattle.edb_frames.specs.declared.mode.Mode.TheVariants as mode;
ghost use Rattle.edb_rules.specs.Facts.{no_handout, unseen};
ghost use Rattle.edb_rules.specs.Slices as slices;
ghost use Rattle.edb_rules.specs.Notes.{acted_debuggee, ended_debuggee, entering_mode};
ghost use Rattle.edb_rules.specs.Orders.{resumes, with_order};

use edb_breaks::Breaks;
use edb_event::AutoFlag;
use edb_frames::Mode;
use edb_lang::{ActKind, Action, Name};
use edb_model::Code;
use std::alloc::Global;
use std::marker::Model;

/// What a process took in with a lease: the budget of moves; the code, whose first versions are current; the table,
/// the interpreted modules and the flags of the server; how it goes on; whether a meta process interprets it, and
/// whether one ever did; and whether it was resumed and made no move since. There is no code before a first lease.
#[derive(Drop)]
pub(crate) struct Handout<'a> {
    pub(crate) budget: u32,
    pub(crate) code: Option<&'a Code>,
    pub(crate) table: Breaks,
    pub(crate) modules: Vec<Name>,
    pub(crate) flags: Vec<AutoFlag>,
    pub(crate) mode: Mode,
    pub(crate) is_interpreted: bool,
    pub(crate) was_entered: bool,
    pub(crate) is_resumed: bool,
}

impl<'a> Model for Handout<'a> {
    ghost use Rattle.std.specs.Prelude.{[]};
    ghost use Rattle.std.specs.Option.{option_copied, option_map_or};
    ghost use Rattle.edb_model.specs.Lookup.{first_versions};
    ghost use Rattle.edb_rules.specs.Facts as facts;

    ghost Value = { facts.Handout };

    ghost view = { λ h. record {
      budget = h.budget;
      versions = option_map_or first_versions (option_copied h.code) [];
      rows = h.table.rows;
      modules = h.modules.items;
      flags = h.flags.items;
      mode = h.mode;
      is_interpreted = h.is_interpreted;
      was_entered = h.was_entered;
      is_resumed = h.is_resumed;
    } };
}

/// Whether the flag `init` is among these.
fn has_init(flags: &[AutoFlag]) -> bool
    ensures { result ≡ slices.has_init flags.now }
{
    flags.iter().any(|flag| *flag == AutoFlag::Init)
}

impl<'a> Handout<'a> {
    /// What is taken in before a first lease.
    pub(crate) fn nothing(alloc: Global) -> Handout<'a>
        ensures { result ≡ no_handout }
    {
        Handout {
            budget: 0,
            code: None,
            table: Breaks::new(alloc),
            modules: Vec::new(alloc),
            flags: Vec::new(alloc),
            mode: Mode::Run,
            is_interpreted: false,
            was_entered: false,
            is_resumed: false,
        }
    }

    /// The mode by which a slice goes: `step` for a process that is to be interpreted for the first time, if the flag
    /// `init` was taken in.
    pub(crate) fn slice_mode(&self) -> Mode
        ensures { result ≡ slices.mode_of self.now }
    {
        if self.is_interpreted || self.was_entered || !has_init(&self.flags) {
            return self.mode;
        }
        Mode::Step
    }
}

/// What becomes of the breakpoint at which a process stopped.
#[derive(Drop)]
pub(crate) struct OwedTrigger {
    pub(crate) home: Name,
    pub(crate) line: u32,
    pub(crate) serial: u128,
    pub(crate) action: Action,
}

impl Model for OwedTrigger {
    ghost use Rattle.edb_rules.specs.Facts as facts;

    ghost Value = { facts.OwedTrigger };

    ghost view = { λ t. record { home = t.home; line = t.line; serial = t.serial; action = t.action } };
}

/// What the debugger knows of a process: whether a meta process interprets it, and whether one ever did; whether it is
/// stopped, and whether it stopped and made no move since; what it took in with its last lease, and whether that is out;
/// whether a load came since that lease, and whether it was ever leased again without one; the act that its meta asks
/// for, and whether that is done; how many messages of its mailbox the meta has in its queue; how it goes on, and the order
/// that it was given since its last lease; and the trigger that its stop owes.
#[derive(Drop)]
pub(crate) struct Debuggee<'a> {
    pub(crate) is_interpreted: bool,
    pub(crate) was_entered: bool,
    pub(crate) is_stopped: bool,
    pub(crate) is_resumed: bool,
    pub(crate) handout: Handout<'a>,
    pub(crate) is_out: bool,
    pub(crate) was_crossed: bool,
    pub(crate) was_leased_again: bool,
    pub(crate) asked: Option<ActKind>,
    pub(crate) is_done: bool,
    pub(crate) queue: u32,
    pub(crate) mode: Mode,
    pub(crate) order: Option<Mode>,
    pub(crate) owed: Option<OwedTrigger>,
}

impl<'a> Model for Debuggee<'a> {
    ghost use Rattle.edb_rules.specs.Facts as facts;

    ghost Value = { facts.Debuggee };

    ghost view = { λ d. record {
      is_interpreted = d.is_interpreted;
      was_entered = d.was_entered;
      is_stopped = d.is_stopped;
      is_resumed = d.is_resumed;
      handout = d.handout;
      is_out = d.is_out;
      was_crossed = d.was_crossed;
      was_leased_again = d.was_leased_again;
      asked = d.asked;
      is_done = d.is_done;
      queue = d.queue;
      mode = d.mode;
      order = d.order;
      owed = d.owed;
    } };
}

impl<'a> Debuggee<'a> {
    /// A new process.
    pub(crate) fn unseen(alloc: Global) -> Debuggee<'a>
        ensures { result ≡ unseen }
    {
        Debuggee {
            is_interpreted: false,
            was_entered: false,
            is_stopped: false,
            is_resumed: false,
            handout: Handout::nothing(alloc),
            is_out: false,
            was_crossed: false,
            was_leased_again: false,
            asked: None,
            is_done: false,
            queue: 0,
            mode: Mode::Run,
            order: None,
            owed: None,
        }
    }

    /// How it goes on with its next lease: by the order that it was given since the last one, if it was given one.
    pub(crate) fn next_mode(&self) -> Mode
        ensures { result ≡ unwrap_or self.now.order self.now.mode }
    {
        match self.order {
            Some(mode) => mode,
            None => self.mode,
        }
    }

    /// It takes something in with a lease.
    pub(crate) fn lease(&mut self, handout: Handout<'a>)
        ensures { self.new ≡ record self.old {
          handout = handout.entry;
          is_out = true;
          was_leased_again = self.old.was_leased_again || (self.old.is_out && not self.old.was_crossed);
          was_crossed = false;
          mode = unwrap_or self.old.order self.old.mode;
          order = None;
        } }
    {
        self.mode = self.next_mode();
        self.was_leased_again = self.was_leased_again || (self.is_out && !self.was_crossed);
        self.handout = handout;
        self.is_out = true;
        self.was_crossed = false;
        self.order = None;
    }

    /// It made the moves of a slice.
    pub(crate) fn run(&mut self, moves: u32)
        ensures { self.new ≡ record self.old { is_out = false; is_resumed = self.old.is_resumed && nat_eq moves 0 } }
    {
        self.is_out = false;
        self.is_resumed = self.is_resumed && moves == 0;
    }

    /// It leaves interpreted code.
    pub(crate) fn leave(&mut self)
        ensures { self.new ≡ record self.old { is_interpreted = false; queue = 0; mode = mode.Run } }
    {
        self.is_interpreted = false;
        self.queue = 0;
        self.mode = Mode::Run;
    }

    /// How it goes on once it comes to interpreted code.
    fn entering_mode(&self) -> Mode
        ensures { result ≡ entering_mode self.now }
    {
        if self.was_entered || !has_init(&self.handout.flags) {
            return self.mode;
        }
        Mode::Step
    }

    /// It comes to interpreted code.
    pub(crate) fn enter(&mut self)
        ensures { self.new ≡ record self.old { is_interpreted = true; was_entered = true; queue = 0; mode = entering_mode self.old } }
    {
        self.mode = self.entering_mode();
        self.is_interpreted = true;
        self.was_entered = true;
        self.queue = 0;
    }

    /// It stops, and owes a trigger or none.
    pub(crate) fn stop(&mut self, owed: Option<OwedTrigger>)
        ensures { self.new ≡ record self.old { is_stopped = true; is_resumed = true; owed = owed } }
    {
        self.is_stopped = true;
        self.is_resumed = true;
        self.owed = owed;
    }

    /// The trigger that it owed was applied.
    pub(crate) fn settle(&mut self)
        ensures { self.new ≡ record self.old { owed = None } }
    {
        self.owed = None;
    }

    /// It goes on in a mode, if it is stopped.
    pub(crate) fn resume(&mut self, mode: Mode)
        ensures { self.new ≡ with_order (resumes mode) self.old }
    {
        if !self.is_stopped {
            return;
        }
        self.is_stopped = false;
        self.order = Some(mode);
    }

    /// It made an act that isn't its end.
    pub(crate) fn print(&mut self)
        ensures { self.new ≡ acted_debuggee kind.Print self.old }
    {
        self.is_done = self.asked.is_some();
    }

    /// It ends.
    pub(crate) fn end(&mut self)
        ensures { self.new ≡ ended_debuggee self.old }
    {
        self.is_interpreted = false;
        self.is_stopped = false;
        self.is_out = false;
        self.asked = None;
        self.is_done = false;
        self.queue = 0;
    }
}
