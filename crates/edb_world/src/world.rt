//! The world: the order of its turns, and its journal.

ghost use Rattle.std.specs.Prelude.{◌≡◌, ◌<◌, ◌≤◌, ◌∷◌, [], None, Some, true, false, IfOk, OnOk};
ghost use Rattle.edb_event.specs.declared.entry.Entry.TheVariants as entry;
ghost use Rattle.edb_event.specs.Weights.{weight};
ghost use Rattle.edb_model.specs.Running.{Run};
ghost use Rattle.edb_rules.specs.Turns as rules;
ghost use Rattle.edb_rules.specs.Ranks.{AtCommand, AtTurn, IsNext};
ghost use Rattle.edb_rules.specs.Replies.{next_call, is_enabled};
ghost use Rattle.edb_rules.specs.SliceEnds.{enter_entry};
ghost use Rattle.edb_world.specs.Turns.{HasTurn, IsActing, IsLeastOwing, stopped_by, told_entries};
ghost use Rattle.edb_world.specs.Ranks.{IsStill, IsAllAnswered};
ghost use Rattle.edb_world.specs.Plans.{IsPlan};
ghost use Rattle.edb_world.specs.Worlds.{IsLeased, IsEnding, IsEndNext, IsEndKept, HasEnded, IsGoing, Went, AfterTurn, IsStopped};
ghost use Rattle.edb_world.specs.Outcomes.{IsOutcome};

use crate::commands::NextCommand;
use crate::slices::SliceEnd;
use crate::state::State;
use crate::turns::Turn;
use edb_event::{Call, Cause, Command, Entry, Journal};
use edb_lang::ActKind;
use edb_model::{Code, Tables};
use std::alloc::{AllocError, Global};
use std::mem;

/// The processes, the console's commands and the debugger's state, and the journal.
#[derive(Drop)]
pub(crate) struct World<'a> {
    pub(crate) state: State<'a>,
    pub(crate) journal: Journal,
}

impl<'a> World<'a> {
    /// Applies a trigger that is owed; else serves a command, or gives a process a turn. Tells whether there was anything
    /// to do.
    fn turn(&mut self) -> Result<bool, AllocError>
        requires plan { IsPlan self.old.state.plan }
        requires going { IsGoing self.old }
        requires light { self.old.state.facts.weight < self.old.state.plan.weight_limit }
        ensures { IfOk result (λ went. AfterTurn self.old self.new went) }
    {
        match self.state.first_owing() {
            Some(pid) => {
                self.trigger(pid)?;
                Ok(true)
            }
            None => self.command_or_process(),
        }
    }

    /// Applies the trigger that a process owes.
    fn trigger(&mut self, pid: u32) -> Result<(), AllocError>
        requires plan { IsPlan self.old.state.plan }
        requires going { IsGoing self.old }
        requires light { self.old.state.facts.weight < self.old.state.plan.weight_limit }
        requires owes { IsLeastOwing self.old.state.facts pid }
        ensures { OnOk result (Went self.old self.new) }
    {
        let entry = self.state.trigger(pid)?;
        self.journal.push(entry)?;
        Ok(())
    }

    /// Serves the console's next command where it is enabled; else gives a process a turn.
    fn command_or_process(&mut self) -> Result<bool, AllocError>
        requires plan { IsPlan self.old.state.plan }
        requires going { IsGoing self.old }
        requires at { AtCommand self.old.state.plan self.old.state.facts }
        ensures { IfOk result (λ went. AfterTurn self.old self.new went) }
    {
        match self.state.next_command()? {
            NextCommand::Enabled(call) => {
                self.serve(call)?;
                Ok(true)
            }
            NextCommand::Waits(call) => {
                self.process_or_quiet(call)?;
                Ok(true)
            }
            NextCommand::Through => self.process_or_rest(),
        }
    }

    /// Serves a command that is enabled.
    fn serve(&mut self, call: Call) -> Result<(), AllocError>
        requires plan { IsPlan self.old.state.plan }
        requires going { IsGoing self.old }
        requires at { AtCommand self.old.state.plan self.old.state.facts }
        requires next { IsNext self.old.state.plan self.old.state.facts 1 call }
        requires enabled { is_enabled self.old.state.facts call ≡ true }
        ensures { OnOk result (Went self.old self.new) }
    {
        let entry = self.state.answer(call)?;
        self.journal.push(entry)?;
        Ok(())
    }

    /// Gives a process a turn, where one is ready; else answers the command that waits `quiet`.
    fn process_or_quiet(&mut self, call: Call) -> Result<(), AllocError>
        requires plan { IsPlan self.old.state.plan }
        requires going { IsGoing self.old }
        requires at { AtTurn self.old.state.plan self.old.state.facts }
        requires next { next_call self.old.state.plan self.old.state.facts 1 ≡ Some call }
        ensures { OnOk result (Went self.old self.new) }
    {
        match self.state.next_turn() {
            Some((pid, turn)) => self.process(pid, turn),
            None => self.serve_quiet(call),
        }
    }

    /// Answers a command that nothing enables any more.
    fn serve_quiet(&mut self, call: Call) -> Result<(), AllocError>
        requires plan { IsPlan self.old.state.plan }
        requires going { IsGoing self.old }
        requires at { AtTurn self.old.state.plan self.old.state.facts }
        requires next { next_call self.old.state.plan self.old.state.facts 1 ≡ Some call }
        requires still { IsStill self.old.state.facts }
        ensures { OnOk result (Went self.old self.new) }
    {
        let entry = self.state.answer_quiet(call);
        self.journal.push(entry)?;
        Ok(())
    }

    /// Gives a process a turn, where one is ready. Tells whether one was.
    fn process_or_rest(&mut self) -> Result<bool, AllocError>
        requires plan { IsPlan self.old.state.plan }
        requires going { IsGoing self.old }
        requires at { AtTurn self.old.state.plan self.old.state.facts }
        requires through { IsAllAnswered self.old.state.plan self.old.state.facts }
        ensures { IfOk result (λ went. AfterTurn self.old self.new went) }
    {
        match self.state.next_turn() {
            Some((pid, turn)) => {
                self.process(pid, turn)?;
                Ok(true)
            }
            None => Ok(false),
        }
    }

    /// The turn of a process: it is given a lease, or makes an act.
    fn process(&mut self, pid: u32, turn: Turn) -> Result<(), AllocError>
        requires plan { IsPlan self.old.state.plan }
        requires going { IsGoing self.old }
        requires at { AtTurn self.old.state.plan self.old.state.facts }
        requires first { rules.IsFirst self.old.state.facts pid }
        requires turn { HasTurn self.old.state.facts pid turn }
        ensures { OnOk result (Went self.old self.new) }
    {
        match turn {
            Turn::Leases => self.slice(pid),
            Turn::Does(kind) => self.act(pid, kind),
        }
    }

    /// Lets a process make the act that is next for it.
    fn act(&mut self, pid: u32, kind: ActKind) -> Result<(), AllocError>
        requires plan { IsPlan self.old.state.plan }
        requires going { IsGoing self.old }
        requires at { AtTurn self.old.state.plan self.old.state.facts }
        requires first { rules.IsFirst self.old.state.facts pid }
        requires acting { IsActing self.old.state.facts pid kind }
        ensures { OnOk result (Went self.old self.new) }
    {
        let entry = self.state.act(pid, kind)?;
        self.journal.push(entry)?;
        Ok(())
    }

    /// Gives a process a lease, and lets it run where that didn't reach the greatest weight.
    fn slice(&mut self, pid: u32) -> Result<(), AllocError>
        requires plan { IsPlan self.old.state.plan }
        requires going { IsGoing self.old }
        requires at { AtTurn self.old.state.plan self.old.state.facts }
        requires first { rules.IsFirst self.old.state.facts pid }
        requires turn { rules.turn_of self.old.state.facts pid ≡ Some rules.leases }
        ensures { OnOk result (Went self.old self.new) }
    {
        let entry = self.state.lease(pid)?;
        self.journal.push(entry)?;
        if self.state.is_light() {
            self.run(pid)?;
            return Ok(());
        }
        Ok(())
    }

    /// Lets a leased process run, and keeps what ends its slice.
    fn run(&mut self, pid: u32) -> Result<(), AllocError>
        requires plan { IsPlan self.old.state.plan }
        requires leased { IsLeased self.old pid }
        ensures { OnOk result (Went self.old self.new) }
    {
        let slice = self.state.run(pid)?;
        self.journal.push(Entry::Ran {
            pid,
            moves: slice.moves,
            cond: 0,
        })?;
        self.end(pid, slice.end)?;
        Ok(())
    }

    /// Keeps the entries that end a slice.
    fn end(&mut self, pid: u32, end: SliceEnd) -> Result<(), AllocError>
        requires plan { IsPlan self.old.state.plan }
        requires bound { self.old.state.facts.weight ≤ 1_000_000 }
        requires ending { (t : Run) × IsEnding self.old pid t (told_entries pid t end) }
        ensures { OnOk result (HasEnded self.old self.new) }
    {
        match end {
            SliceEnd::Leaves => {
                self.leave(pid)?;
                Ok(())
            }
            SliceEnd::ActNext => Ok(()),
            SliceEnd::Enters(None) => {
                self.enter(pid)?;
                Ok(())
            }
            SliceEnd::Enters(Some(by)) => {
                self.enter(pid)?;
                self.stop(pid, by)?;
                Ok(())
            }
            SliceEnd::Stops(by) => {
                self.stop(pid, by)?;
                Ok(())
            }
            SliceEnd::Spent => Ok(()),
        }
    }

    /// Keeps that a process leaves interpreted code.
    fn leave(&mut self, pid: u32) -> Result<(), AllocError>
        requires plan { IsPlan self.old.state.plan }
        requires bound { self.old.state.facts.weight ≤ 1_000_002 }
        requires next { IsEndNext self.old pid (λ t. entry.Leave pid) }
        ensures { OnOk result (IsEndKept self.old self.new pid (λ t. entry.Leave pid)) }
    {
        let entry = self.state.leave(pid);
        self.journal.push(entry)?;
        Ok(())
    }

    /// Keeps that a process comes to interpreted code.
    fn enter(&mut self, pid: u32) -> Result<(), AllocError>
        requires plan { IsPlan self.old.state.plan }
        requires bound { self.old.state.facts.weight ≤ 1_000_002 }
        requires next { IsEndNext self.old pid (enter_entry pid) }
        ensures { OnOk result (IsEndKept self.old self.new pid (enter_entry pid)) }
    {
        let entry = self.state.enter(pid)?;
        self.journal.push(entry)?;
        Ok(())
    }

    /// Keeps that a process stops for a cause.
    fn stop(&mut self, pid: u32, by: Cause) -> Result<(), AllocError>
        requires plan { IsPlan self.old.state.plan }
        requires bound { self.old.state.facts.weight ≤ 1_000_002 }
        requires next { IsEndNext self.old pid (stopped_by pid by) }
        ensures { OnOk result (IsEndKept self.old self.new pid (stopped_by pid by)) }
    {
        let entry = self.state.stop(pid, by)?;
        self.journal.push(entry)?;
        Ok(())
    }

    /// Makes turns until nothing is left to do, which it tells, or the weight is reached.
    fn go(&mut self) -> Result<bool, AllocError>
        requires plan { IsPlan self.old.state.plan }
        requires going { IsGoing self.old }
        ensures { IfOk result (λ rests. IsStopped self.old self.new rests) }
    {
        while self.state.is_light() {
            if !self.turn()? {
                return Ok(true);
            }
        }
        Ok(false)
    }

    /// Runs the world until it is over, and gives what it leaves; the world keeps nothing.
    fn finish(&mut self) -> Result<Outcome, AllocError>
        requires plan { IsPlan self.old.state.plan }
        requires going { IsGoing self.old }
        ensures { IfOk result (λ left. IsOutcome self.old.state.plan left) }
    {
        let rests = self.go()?;
        let tables = self.state.take_tables()?;
        Ok(Outcome {
            journal: mem::replace(&mut self.journal, Journal::new(self.state.alloc)),
            tables,
            limit: !rests,
        })
    }
}

/// What a world leaves: its journal, the tables of the plain run in it, and whether the greatest weight ended it
/// (`limit`) or nothing was left to do.
#[derive(Drop)]
pub struct Outcome {
    pub journal: Journal,
    pub tables: Tables,
    pub limit: bool,
}

/// Lets a world go.
fn discard(_world: World<'_>) {}

/// Runs the modules by the commands of console 1 until nothing is left to do, or until the journal's weight
/// reaches `weight_limit`; a slice has at most `slice_moves` moves. What is given has to be a plan that a world runs
/// (`IsPlan`): names and arities in the modules that entries can have, commands in range and of those that are served, a
/// slice of one move at least, and a limit of at most 1,000,000. Refused only for want of memory.
pub fn run_world(
    alloc: Global,
    code: &Code,
    commands: &[Command],
    slice_moves: u32,
    weight_limit: u32,
) -> Result<Outcome, AllocError>
    requires { IsPlan (record { code = code.now; commands = commands.now ∷ []; slice_moves = slice_moves; weight_limit = weight_limit }) }
    ensures { IfOk result (λ left. IsOutcome (record { code = code.now; commands = commands.now ∷ []; slice_moves = slice_moves; weight_limit = weight_limit }) left) }
{
    let mut world = World {
        state: State::new(alloc, code, commands, slice_moves, weight_limit),
        journal: Journal::new(alloc),
    };
    let left = world.finish();
    discard(world);
    left
}
