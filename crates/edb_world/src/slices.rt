//! Leases and slices: how far a process goes, what ends a slice, and the triggers that stops owe.

ghost use Rattle.std.specs.Option.{option_map};
ghost use Rattle.std.specs.Prelude.{◌≡◌, ◌<◌, ◌≤◌, ◌+◌, ◌^◌, ℕ, List, None, Some, IfOk, OnErr, IsSome, length};
ghost use Rattle.edb_lang.specs.Syntax.{ModuleTree};
ghost use Rattle.edb_model.specs.Innermost.{innermost};
ghost use Rattle.edb_model.specs.Running.{Info, Run};
ghost use Rattle.edb_model.specs.Lookup.{first_versions};
ghost use Rattle.edb_model.specs.Move.{next};
ghost use Rattle.edb_event.specs.declared.entry.Cause.TheVariants as cause;
ghost use Rattle.edb_event.specs.declared.entry.Entry.TheVariants as entry;
ghost use Rattle.edb_eval.specs.Levels.{highest};
ghost use Rattle.edb_rules.specs.Facts as facts;
ghost use Rattle.edb_rules.specs.Facts.{debuggee_at};
ghost use Rattle.edb_rules.specs.Slices as rules;
ghost use Rattle.edb_rules.specs.Slices.{if_spent, at_begin, end_before, after_moves, level_in};
ghost use Rattle.edb_rules.specs.SliceEnds as ends;
ghost use Rattle.edb_rules.specs.SliceEnds.{cause_of};
ghost use Rattle.edb_rules.specs.News.{frames_in};
ghost use Rattle.edb_rules.specs.Notes.{handout_now, owed_by};
ghost use Rattle.edb_lang.specs.declared.small.Action.TheVariants as action;
ghost use Rattle.edb_world.specs.Known.{noted, budget_of, running_at, trigger_entry};
ghost use Rattle.edb_world.specs.Turns.{holding, told_end, MakesSlice, IsSliceOf, IsEndNoted, IsLeastOwing, stopped_by};

use crate::debuggee::{Handout, OwedTrigger};
use crate::live::Live;
use crate::state::State;
use edb_eval::{Kind, Process};
use edb_event::{Cause, Entry};
use edb_frames::due as is_due;
use edb_iserver::{Frame, SeenCall, SeenStop, is_among};
use edb_lang::{Action, Break, Name, Status};
use edb_model::Code;
use std::alloc::{AllocError, Global};

/// How a slice ends: the process leaves interpreted code; a shared act is next; it comes to interpreted code, and stops
/// there for a cause, or doesn't; it stops for a cause; its budget is spent.
#[derive(Clone, Copy, PartialEq, Eq, Debug)]
pub(crate) enum SliceEnd {
    Leaves,
    ActNext,
    Enters(Option<Cause>),
    Stops(Cause),
    Spent,
}

/// A slice that was made: how many moves it has, and how it ended.
#[derive(Clone, Copy, PartialEq, Eq, Debug)]
pub(crate) struct Slice {
    pub(crate) moves: u32,
    pub(crate) end: SliceEnd,
}

/// The cause of a stop at a breakpoint: it is active, and has no condition, as none holds yet.
fn break_cause(row: &Break) -> Option<Cause>
    ensures { (code : List ModuleTree) (h : facts.Handout) (p : ℕ) (t : Run) →
        result ≡ option_map cause_of (holding code h p t (rules.if_active row.now)) }
{
    match row.status {
        Status::Active => match row.cond {
            None => Some(Cause::Break(row.serial)),
            Some(_) => None,
        },
        Status::Inactive => None,
    }
}

/// Why a beginning at this module and line is due after so many moves, by what a process took in.
fn due(
    handout: &Handout<'_>,
    moves: u32,
    process: &Process<'_>,
    module: &Name,
    line: u32,
) -> Option<Cause>
    ensures { (code : List ModuleTree) (p : ℕ) →
        result ≡ option_map cause_of (rules.due code handout.now p moves process.now «module».now line) }
{
    if !is_among(module, &handout.modules) || (handout.is_resumed && moves == 0) {
        return None;
    }
    if is_due(handout.slice_mode(), level_of(process), false) {
        return Some(Cause::Order);
    }
    match handout.table.at(module, line) {
        Some(row) => break_cause(row),
        None => None,
    }
}

/// The end of a slice whose budget is spent after so many moves.
fn spent_end(handout: &Handout<'_>, moves: u32) -> Option<SliceEnd>
    ensures { result ≡ option_map told_end (if_spent handout.now moves 0) }
{
    if moves >= 1 && moves >= handout.budget {
        return Some(SliceEnd::Spent);
    }
    None
}

/// How a slice ends after so many moves where something begins at this module and line.
fn begin_end(
    handout: &Handout<'_>,
    moves: u32,
    process: &Process<'_>,
    module: &Name,
    line: u32,
) -> Option<SliceEnd>
    ensures { (code : List ModuleTree) (p : ℕ) → result ≡ option_map told_end
        (at_begin handout.now moves 0 «module».now (rules.due code handout.now p moves process.now «module».now line)) }
{
    let due = due(handout, moves, process, module, line);
    if handout.is_interpreted {
        return match due {
            Some(cause) => Some(SliceEnd::Stops(cause)),
            None => spent_end(handout, moves),
        };
    }
    if is_among(module, &handout.modules) {
        return Some(SliceEnd::Enters(due));
    }
    spent_end(handout, moves)
}

/// How a slice ends after so many moves, where it does.
fn end_at(handout: &Handout<'_>, moves: u32, process: &Process<'_>) -> Option<SliceEnd>
    ensures { (code : List ModuleTree) (p : ℕ) →
        result ≡ option_map told_end (end_before code handout.now p moves 0 process.now) }
{
    if handout.is_interpreted && !process.is_inside(&handout.modules) {
        return Some(SliceEnd::Leaves);
    }
    match process.next_kind() {
        Kind::Act(_) => Some(SliceEnd::ActNext),
        Kind::Begin { module, line } => begin_end(handout, moves, process, module, line),
        Kind::Pure => spent_end(handout, moves),
    }
}

/// Makes the moves of a slice, up to the first place where it ends. Where memory is refused it may have
/// made some.
fn make_slice<'a>(
    process: &mut Process<'a>,
    alloc: Global,
    code: &'a Code,
    handout: &Handout<'a>,
) -> Result<Slice, AllocError>
    requires versions { handout.now.versions ≡ first_versions code.now }
    requires some { 1 ≤ handout.now.budget }
    requires room { highest process.old + handout.now.budget < 2 ^ 63 }
    ensures slice { IfOk result (λ s. (p : ℕ) → MakesSlice code.now handout.now p process.old s) }
    ensures process { IfOk result (λ s. process.new ≡ after_moves code.now handout.now.versions s.moves process.old) }
    ensures bound { IfOk result (λ s. s.moves ≤ handout.now.budget) }
{
    let budget = handout.budget;
    for moves in 0..budget {
        if let Some(end) = end_at(handout, moves, process) {
            return Ok(Slice { moves, end });
        }
        process.step(alloc, code)?;
    }
    match end_at(handout, budget, process) {
        Some(end) => Ok(Slice { moves: budget, end }),
        None => unreachable!(),
    }
}

/// The function of the innermost Body of a process that comes to interpreted code.
fn entered_call(alloc: Global, process: &Process<'_>) -> Result<SeenCall, AllocError>
    requires { (i : Info) → innermost process.now ≡ Some i → i.arity < 2 ^ 32 }
    ensures { IfOk result (λ f. f ≡ record { home = (ends.body_in process.now).home; name = (ends.body_in process.now).name; arity = (ends.body_in process.now).arity }) }
{
    let Some(body) = process.innermost() else {
        return Ok(SeenCall {
            module: Name::from_str(alloc, "")?,
            name: Name::from_str(alloc, "")?,
            arity: 0,
        });
    };
    Ok(SeenCall {
        module: body.module.copy(alloc)?,
        name: body.name.copy(alloc)?,
        arity: body.arity as u32,
    })
}

/// The entry of a process that comes to interpreted code, in this function.
fn enter_entry(alloc: Global, pid: u32, function: &SeenCall) -> Result<Entry, AllocError>
    ensures { IfOk result (λ e. e ≡ entry.Enter pid function.now.home function.now.name function.now.arity) }
{
    Ok(Entry::Enter {
        pid,
        module: function.module.copy(alloc)?,
        name: function.name.copy(alloc)?,
        arity: function.arity,
    })
}

/// The frame of the innermost Body of a process that stops at this line, where it has one.
fn frames_of(alloc: Global, process: &Process<'_>, line: u32) -> Result<Vec<Frame>, AllocError>
    ensures { IfOk result (λ frames. frames.items ≡ frames_in line (Some process.now)) }
{
    let mut frames = Vec::new(alloc);
    let Some(body) = process.innermost() else {
        return Ok(frames);
    };
    let frame = Frame {
        level: body.level,
        module: body.module.copy(alloc)?,
        name: body.name.copy(alloc)?,
        arity: body.arity,
        line,
        bindings: body.bindings.copy(alloc)?,
    };
    frames.push(frame)?;
    Ok(frames)
}

/// The stop of a process, where it is.
fn seen_stop(alloc: Global, process: &Process<'_>) -> Result<SeenStop, AllocError>
    ensures { IfOk result (λ s. s ≡ record {
      home = (ends.place_of (next process.now)).0;
      line = (ends.place_of (next process.now)).1;
      level = level_in process.now;
      frames = frames_in (ends.place_of (next process.now)).1 (Some process.now);
    }) }
{
    let level = level_of(process);
    let (module, line) = place_of(alloc, process)?;
    let frames = frames_of(alloc, process, line)?;
    Ok(SeenStop {
        module,
        line,
        level,
        frames,
    })
}

/// The entry of a process that stops for a cause.
fn stop_entry(alloc: Global, pid: u32, stop: &SeenStop, by: Cause) -> Result<Entry, AllocError>
    ensures { IfOk result (λ e. e ≡ entry.Stop pid stop.now.home stop.now.line stop.now.level by) }
{
    Ok(Entry::Stop {
        pid,
        module: stop.module.copy(alloc)?,
        line: stop.line,
        level: stop.level,
        by,
    })
}

/// The level of the innermost Body; 0 where there is none.
fn level_of(process: &Process<'_>) -> u64
    ensures { result ≡ level_in process.now }
{
    match process.innermost() {
        Some(body) => body.level,
        None => 0,
    }
}

/// The module and the line at which something begins.
fn place_of(alloc: Global, process: &Process<'_>) -> Result<(Name, u32), AllocError>
    ensures { IfOk result (λ place. place ≡ ends.place_of (next process.now)) }
{
    match process.next_kind() {
        Kind::Begin { module, line } => Ok((module.copy(alloc)?, line)),
        Kind::Act(_) => Ok((Name::from_str(alloc, "")?, 0)),
        Kind::Pure => Ok((Name::from_str(alloc, "")?, 0)),
    }
}

/// The trigger that a stop owes: what the row that was taken in says.
fn owed_trigger(
    alloc: Global,
    process: &Process<'_>,
    by: Cause,
    handout: &Handout<'_>,
) -> Result<Option<OwedTrigger>, AllocError>
    ensures { IfOk result (λ owed.
        owed ≡ owed_by handout.now.rows (ends.place_of (next process.now)).0 (ends.place_of (next process.now)).1 by) }
{
    match by {
        Cause::Order => Ok(None),
        Cause::Break(serial) => owed_for(alloc, process, serial, handout),
    }
}

/// The trigger that a stop at the breakpoint of this serial owes.
fn owed_for(
    alloc: Global,
    process: &Process<'_>,
    serial: u128,
    handout: &Handout<'_>,
) -> Result<Option<OwedTrigger>, AllocError>
    ensures { IfOk result (λ owed. owed ≡
        owed_by handout.now.rows (ends.place_of (next process.now)).0 (ends.place_of (next process.now)).1 (cause.Break serial)) }
{
    let (home, line) = place_of(alloc, process)?;
    match handout.table.at(&home, line) {
        None => Ok(None),
        Some(row) => Ok(Some(OwedTrigger {
            home,
            line,
            serial,
            action: row.trigger,
        })),
    }
}

impl<'a> Live<'a> {
    /// Makes the moves of a slice. Where memory is refused it may have made some.
    fn run(
        &mut self,
        alloc: Global,
        code: &'a Code,
        handout: &Handout<'a>,
    ) -> Result<Slice, AllocError>
        requires lives { IsSome self.old }
        requires versions { handout.now.versions ≡ first_versions code.now }
        requires some { 1 ≤ handout.now.budget }
        requires room { (t : Run) → self.old ≡ Some t → highest t + handout.now.budget < 2 ^ 63 }
        ensures slice { IfOk result (λ s. (p : ℕ) (t : Run) → self.old ≡ Some t → MakesSlice code.now handout.now p t s) }
        ensures process { IfOk result (λ s. (t : Run) → self.old ≡ Some t → self.new ≡ Some (after_moves code.now handout.now.versions s.moves t)) }
        ensures bound { IfOk result (λ s. s.moves ≤ handout.now.budget) }
    {
        let Some(process) = &mut self.running else {
            unreachable!();
        };
        make_slice(process, alloc, code, handout)
    }
}

impl<'a> State<'a> {
    /// What a process takes in with a lease of this budget: the server's table and interpreted modules as they are now.
    fn handout(&self, pid: u32, budget: u32) -> Result<Handout<'a>, AllocError>
        requires lives { IsSome (running_at self.now pid) }
        ensures { IfOk result (λ h. h ≡ handout_now self.now.facts budget (debuggee_at self.now.facts pid)) }
    {
        let debuggee = &self.debuggees[(pid - 1) as usize];
        Ok(Handout {
            budget,
            code: Some(self.code),
            table: self.server.copy_table()?,
            modules: self.server.copy_interpreted()?,
            flags: self.server.copy_flags(),
            mode: debuggee.next_mode(),
            is_interpreted: debuggee.is_interpreted,
            was_entered: debuggee.was_entered,
            is_resumed: debuggee.is_resumed,
        })
    }

    /// Gives a process a lease.
    pub(crate) fn lease(&mut self, pid: u32) -> Result<Entry, AllocError>
        requires lives { IsSome (running_at self.old pid) }
        requires light { self.old.facts.weight < self.old.plan.weight_limit }
        ensures entry { IfOk result (λ e. e ≡ entry.Lease pid (budget_of self.old)) }
        ensures state { IfOk result (λ e. self.new ≡ noted self.old e) }
        ensures err { OnErr result (self.new ≡ self.old) }
    {
        let left = self.weight_limit - (self.weight + 1);
        let budget = self.slice_moves.min(left);
        let handout = self.handout(pid, budget)?;
        self.debuggees[(pid - 1) as usize].lease(handout);
        self.turn = pid;
        self.weight += 1;
        Ok(Entry::Lease { pid, budget })
    }

    /// Lets a leased process make the moves of its slice. Where memory is refused it may have made some.
    pub(crate) fn run(&mut self, pid: u32) -> Result<Slice, AllocError>
        requires lives { IsSome (running_at self.old pid) }
        requires versions { (debuggee_at self.old.facts pid).handout.versions ≡ self.old.facts.plain.versions }
        requires some { 1 ≤ (debuggee_at self.old.facts pid).handout.budget }
        requires room { (t : Run) → running_at self.old pid ≡ Some t → highest t + (debuggee_at self.old.facts pid).handout.budget < 2 ^ 63 }
        requires fits { self.old.facts.weight + (debuggee_at self.old.facts pid).handout.budget < 2 ^ 32 }
        ensures { IfOk result (λ s. IsSliceOf self.old self.new pid s) }
    {
        let place = (pid - 1) as usize;
        let handout = &self.debuggees[place].handout;
        let slice = self.processes[place].run(self.alloc, self.code, handout)?;
        self.debuggees[place].run(slice.moves);
        self.weight += slice.moves.max(1);
        Ok(slice)
    }

    /// A process leaves interpreted code.
    pub(crate) fn leave(&mut self, pid: u32) -> Entry
        requires lives { IsSome (running_at self.old pid) }
        requires fits { self.old.facts.weight + 1 < 2 ^ 32 }
        ensures entry { result ≡ entry.Leave pid }
        ensures state { IsEndNoted self.old self.new result }
    {
        let place = (pid - 1) as usize;
        self.debuggees[place].leave();
        self.server.leave(pid);
        self.weight += 1;
        Entry::Leave { pid }
    }

    /// A process comes to interpreted code, in the function of its innermost Body.
    pub(crate) fn enter(&mut self, pid: u32) -> Result<Entry, AllocError>
        requires lives { IsSome (running_at self.old pid) }
        requires fits { self.old.facts.weight + 1 < 2 ^ 32 }
        requires arity { (t : Run) (i : Info) → running_at self.old pid ≡ Some t → innermost t ≡ Some i → i.arity < 2 ^ 32 }
        ensures entry { IfOk result (λ e. (t : Run) → running_at self.old pid ≡ Some t → e ≡ ends.enter_entry pid t) }
        ensures state { IfOk result (λ e. IsEndNoted self.old self.new e) }
        ensures err { OnErr result (self.new ≡ self.old) }
    {
        let function = entered_call(self.alloc, self.running(pid))?;
        let entry = enter_entry(self.alloc, pid, &function)?;
        self.debuggees[(pid - 1) as usize].enter();
        self.server.enter(pid, function);
        self.weight += 1;
        Ok(entry)
    }

    /// A process stops for a cause before the expression that is next, and owes the trigger of the row that it took in.
    pub(crate) fn stop(&mut self, pid: u32, by: Cause) -> Result<Entry, AllocError>
        requires lives { IsSome (running_at self.old pid) }
        requires fits { self.old.facts.weight + 1 < 2 ^ 32 }
        ensures entry { IfOk result (λ e. (t : Run) → running_at self.old pid ≡ Some t → e ≡ stopped_by pid by t) }
        ensures state { IfOk result (λ e. IsEndNoted self.old self.new e) }
        ensures err { OnErr result (self.new ≡ self.old) }
    {
        let place = (pid - 1) as usize;
        let stop = seen_stop(self.alloc, self.running(pid))?;
        let entry = stop_entry(self.alloc, pid, &stop, by)?;
        let handout = &self.debuggees[place].handout;
        let owed = owed_trigger(self.alloc, self.running(pid), by, handout)?;
        self.debuggees[place].stop(owed);
        self.server.stop(pid, stop);
        self.weight += 1;
        Ok(entry)
    }

    /// Applies the trigger that a process owes.
    pub(crate) fn trigger(&mut self, pid: u32) -> Result<Entry, AllocError>
        requires owes { IsLeastOwing self.old.facts pid }
        requires few { pid ≤ length self.old.facts.plain.running }
        requires enable { (o : facts.OwedTrigger) → (debuggee_at self.old.facts pid).owed ≡ Some o → o.action ≡ action.Enable }
        requires fits { self.old.facts.weight + 1 < 2 ^ 32 }
        ensures entry { IfOk result (λ e. (o : facts.OwedTrigger) → (debuggee_at self.old.facts pid).owed ≡ Some o →
            e ≡ trigger_entry self.old.facts.server.table pid o) }
        ensures state { IfOk result (λ e. self.new ≡ noted self.old e) }
        ensures err { OnErr result (self.new ≡ self.old) }
    {
        let place = (pid - 1) as usize;
        let Some(owed) = &self.debuggees[place].owed else {
            unreachable!();
        };
        let module = owed.home.copy(self.alloc)?;
        let (line, serial, action) = (owed.line, owed.serial, owed.action);
        let applied = match action {
            Action::Enable => self.server.enable(&module, line, serial),
            _ => unreachable!(),
        };
        self.debuggees[place].settle();
        self.weight += 1;
        Ok(Entry::Trigger {
            pid,
            module,
            line,
            serial,
            action,
            applied,
        })
    }
}
