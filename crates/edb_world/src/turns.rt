//! Whose turn it is, and what is next for it.

ghost use Rattle.std.specs.Option.{option_map};
ghost use Rattle.std.specs.Prelude.{◌≡◌, ◌<◌, ◌≤◌, ◌-◌, ◌^◌, ℕ, length, None, Some, IsSome, MatchOption};
ghost use Rattle.edb_model.specs.Move.{next};
ghost use Rattle.edb_rules.specs.Turns as rules;
ghost use Rattle.edb_rules.specs.Ranks.{MayBegin, AtCommand};
ghost use Rattle.edb_world.specs.Known.{running_at};
ghost use Rattle.edb_world.specs.Turns.{told_turn, HasTurn, HaveNone, IsLeastOwing};

use crate::state::State;
use edb_eval::{Kind, Process};
use edb_lang::ActKind;

/// The turn of a process.
#[derive(Clone, Copy, PartialEq, Eq, Debug)]
pub(crate) enum Turn {
    /// It is given a lease for pure moves.
    Leases,
    /// It makes the act that is next, which is of this kind.
    Does(ActKind),
}

/// The turn of a process that goes on, by what is next for it.
fn turn_at(process: &Process<'_>) -> Option<Turn>
    ensures { result ≡ option_map told_turn (rules.turn_at process.now (next process.now)) }
{
    match process.next_kind() {
        Kind::Pure => Some(Turn::Leases),
        Kind::Begin { .. } => Some(Turn::Leases),
        Kind::Act(kind) => match kind {
            ActKind::Print => Some(Turn::Does(ActKind::Print)),
            ActKind::End => Some(Turn::Does(ActKind::End)),
            _ => None,
        },
    }
}

impl<'a> State<'a> {
    /// The least process that owes a trigger.
    pub(crate) fn first_owing(&self) -> Option<u32>
        requires begin { MayBegin self.now.plan self.now.facts }
        requires few { length self.now.facts.plain.running < 2 ^ 32 - 1 }
        ensures { MatchOption result (AtCommand self.now.plan self.now.facts) (λ p. IsLeastOwing self.now.facts p) }
    {
        let below = self.processes.len() as u32 + 1;
        for pid in 1..below {
            if self.is_owing(pid) {
                return Some(pid);
            }
        }
        None
    }

    /// The turn of a process, if it is ready for one: it has more to do, isn't stopped, and no lease of it is out.
    fn turn_of(&self, pid: u32) -> Option<Turn>
        requires some { 1 ≤ pid }
        ensures { result ≡ option_map told_turn (rules.turn_of self.now.facts pid) }
    {
        let place = (pid - 1) as usize;
        if place >= self.processes.len() || place >= self.debuggees.len() {
            return None;
        }
        let debuggee = &self.debuggees[place];
        if debuggee.is_stopped || debuggee.is_out {
            return None;
        }
        match &self.processes[place].running {
            Some(process) => turn_at(process),
            None => None,
        }
    }

    /// The first ready process among those from one number on and below another, with its turn.
    fn first_ready(&self, from: u32, below: u32) -> Option<(u32, Turn)>
        requires some { 1 ≤ from }
        ensures { MatchOption result (HaveNone self.now.facts from below) (λ x. (from ≤ x.0) × (x.0 < below) × HasTurn self.now.facts x.0 x.1 × HaveNone self.now.facts from x.0) }
    {
        for pid in from..below {
            if let Some(turn) = self.turn_of(pid) {
                return Some((pid, turn));
            }
        }
        None
    }

    /// The process that has the next turn, with its turn: turns go round by number, from the one that had the last.
    pub(crate) fn next_turn(&self) -> Option<(u32, Turn)>
        requires few { length self.now.facts.plain.running < 2 ^ 32 - 1 }
        requires within { self.now.facts.turn ≤ length self.now.facts.plain.running }
        ensures { MatchOption result ((p : ℕ) → rules.turn_of self.now.facts p ≡ None) (λ x. rules.IsFirst self.now.facts x.0 × HasTurn self.now.facts x.0 x.1) }
    {
        let below = self.processes.len() as u32 + 1;
        match self.first_ready(self.turn + 1, below) {
            Some(found) => Some(found),
            None => self.first_ready(1, self.turn + 1),
        }
    }

    /// What a process has left to do, which has more to do.
    pub(crate) fn running(&self, pid: u32) -> &Process<'a>
        requires { IsSome (running_at self.now pid) }
        ensures { running_at self.now pid ≡ Some result.now }
    {
        let Some(process) = &self.processes[(pid - 1) as usize].running else {
            unreachable!();
        };
        process
    }
}
