//! The state of a world: all that the rules of a journal look at.

ghost use Rattle.std.specs.Option.{option_copied};
ghost use Rattle.std.specs.Prelude.{◌≡◌, ◌<◌, ◌≤◌, ◌-◌, ◌^◌, ◌∷◌, [], None, false, is_some, unwrap_or, length, MatchBool, IfOk};
ghost use Rattle.edb_rules.specs.Facts.{debuggee_at, unseen};
ghost use Rattle.edb_model.specs.Bonds.{no_bonds};
ghost use Rattle.edb_model.specs.Procs.{process_rows};
ghost use Rattle.edb_model.specs.Plain.{tables_of};
ghost use Rattle.edb_world.specs.Known.{known_first};

use crate::debuggee::Debuggee;
use crate::live::{Live, Member};
use edb_event::Command;
use edb_iserver::Server;
use edb_lang::{Bytes, Rows, Term};
use edb_model::{Code, ProcRow, Tables};
use std::alloc::{AllocError, Global};
use std::marker::Model;
use std::mem;

/// What a session is given, and the facts of its journal so far. Contracts see the two. The commands are those of console
/// 1; the others have none.
#[derive(Drop)]
pub(crate) struct State<'a> {
    pub(crate) alloc: Global,
    pub(crate) code: &'a Code,
    pub(crate) commands: &'a [Command],
    pub(crate) slice_moves: u32,
    pub(crate) weight_limit: u32,
    pub(crate) processes: Vec<Live<'a>>,
    pub(crate) members: Vec<Member>,
    pub(crate) output: Bytes,
    pub(crate) server: Server<'a>,
    pub(crate) debuggees: Vec<Debuggee<'a>>,
    pub(crate) served: usize,
    pub(crate) own: Vec<u32>,
    pub(crate) last: u32,
    pub(crate) turn: u32,
    pub(crate) weight: u32,
}

impl<'a> Model for State<'a> {
    ghost use Rattle.std.specs.Prelude.{◌≡◌, ◌≤◌, ◌∷◌, [], false, length, replicate};
    ghost use Rattle.std.specs.Coded.{codes};
    ghost use Rattle.edb_lang.specs.TermCodes.{coded_datum};
    ghost use Rattle.edb_lang.specs.SyntaxCodes.{coded_module};
    ghost use Rattle.edb_model.specs.Lookup.{first_versions};
    ghost use Rattle.edb_model.specs.RunningCodes.{coded_run};
    ghost use Rattle.edb_model.specs.Bonds.{no_bonds};
    ghost use Rattle.edb_rules.specs.Facts.{new_console};
    ghost use Rattle.edb_world.specs.Known.{Known};

    ghost Value = { Known };

    ghost coded = { Prim.hlevel (codes, coded_datum, coded_module, coded_run) };

    ghost view = { λ s. record {
      plan = record { code = s.code.now; commands = s.commands.now ∷ []; slice_moves = s.slice_moves; weight_limit = s.weight_limit };
      facts = record {
        plain = record {
          procs = record { members = s.members.items; names = []; bonds = no_bonds; clock = 0; references = 0 };
          running = s.processes.items;
          versions = first_versions s.code.now;
          output = s.output;
        };
        server = s.server;
        debuggees = s.debuggees.items;
        consoles = record { served = s.served; own = s.own.items; last = s.last } ∷ replicate 7 new_console;
        turn = s.turn;
        coming = [];
        weight = s.weight;
        has_quit = false;
      };
    } };

    ghost invariant = { λ s. (length s.debuggees.items ≡ length s.processes.items) × (length s.members.items ≡ length s.processes.items) × (s.server.table.given ≤ s.served) };
}

impl<'a> State<'a> {
    /// The state before the first entry; takes no memory.
    pub(crate) fn new(
        alloc: Global,
        code: &'a Code,
        commands: &'a [Command],
        slice_moves: u32,
        weight_limit: u32,
    ) -> State<'a>
        ensures { result ≡ known_first (record { code = code.now; commands = commands.now ∷ []; slice_moves = slice_moves; weight_limit = weight_limit }) }
    {
        State {
            alloc,
            code,
            commands,
            slice_moves,
            weight_limit,
            processes: Vec::new(alloc),
            members: Vec::new(alloc),
            output: Bytes::new(alloc),
            server: Server::new(alloc, code),
            debuggees: Vec::new(alloc),
            served: 0,
            own: Vec::new(alloc),
            last: 0,
            turn: 0,
            weight: 0,
        }
    }

    /// What the debugger knows of a process, where one with this number was made.
    fn debuggee(&self, pid: u32) -> Option<&Debuggee<'a>>
        ensures { unwrap_or (option_copied result) unseen ≡ debuggee_at self.now.facts pid }
    {
        if pid == 0 {
            return None;
        }
        self.debuggees.get((pid - 1) as usize)
    }

    /// Whether a process owes a trigger.
    pub(crate) fn is_owing(&self, pid: u32) -> bool
        ensures { result ≡ is_some (debuggee_at self.now.facts pid).owed }
    {
        match self.debuggee(pid) {
            Some(debuggee) => debuggee.owed.is_some(),
            None => false,
        }
    }

    /// Whether the journal is lighter than the weight at which it is over.
    pub(crate) fn is_light(&self) -> bool
        ensures { MatchBool result (self.now.facts.weight < self.now.plan.weight_limit) (self.now.plan.weight_limit ≤ self.now.facts.weight) }
    {
        self.weight < self.weight_limit
    }

    /// The tables that the run leaves; the state keeps neither the output nor the reasons of its processes.
    pub(crate) fn take_tables(&mut self) -> Result<Tables, AllocError>
        requires few { length self.old.facts.plain.running < 2 ^ 32 - 1 }
        ensures { IfOk result (λ tables. tables ≡ tables_of self.old.facts.plain) }
    {
        let processes = take_rows(self.alloc, &mut self.members)?;
        Ok(Tables {
            processes,
            names: Rows::new(self.alloc),
            signals: Rows::new(self.alloc),
            clock: 0,
            output: mem::replace(&mut self.output, Bytes::new(self.alloc)),
        })
    }
}

/// The rows that show the processes, by number from 1; the processes keep their reasons no longer.
fn take_rows(alloc: Global, members: &mut [Member]) -> Result<Rows<ProcRow>, AllocError>
    requires few { length members.old < 2 ^ 32 - 1 }
    ensures rows { IfOk result (λ rows. rows ≡ process_rows no_bonds 1 members.old) }
    ensures same { length members.new ≡ length members.old }
{
    let mut rows = Rows::new(alloc);
    let mut pid = 0u32;
    for member in members.iter_mut() {
        pid += 1;
        rows.push(process_row(alloc, pid, member.exit.take()))?;
    }
    Ok(rows)
}

/// The row that shows a process.
fn process_row(alloc: Global, pid: u32, exit: Option<Term>) -> ProcRow
    ensures { result ≡ record { pid = pid; mailbox = []; links = []; monitors = []; trap = false; deadline = None; exit = exit } }
{
    ProcRow {
        pid,
        mailbox: Rows::new(alloc),
        links: Rows::new(alloc),
        monitors: Rows::new(alloc),
        trap: false,
        deadline: None,
        exit,
    }
}
