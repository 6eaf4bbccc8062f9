//! Laws of legal journals. Each is a function that does nothing and whose contract is the law.

ghost use Rattle.std.specs.Prelude.{◌≡◌, ◌⊎◌, ◌<◌, ◌≤◌, ◌+◌, ℕ, ◌-◌, min, true, false, List, Option, None, Some, is_some, length, slice_get, take};
ghost use Rattle.std.specs.Option.{option_map};
ghost use Rattle.edb_lang.specs.declared.small.Action.TheVariants as action;
ghost use Rattle.edb_event.specs.declared.call.Call.{Call};
ghost use Rattle.edb_event.specs.declared.call.Call.TheVariants as command;
ghost use Rattle.edb_event.specs.declared.call.ProcStatus.{ProcStatus};
ghost use Rattle.edb_event.specs.declared.entry.Cause.{Cause};
ghost use Rattle.edb_event.specs.declared.entry.Cause.TheVariants as cause;
ghost use Rattle.edb_event.specs.declared.entry.Entry.{Entry};
ghost use Rattle.edb_event.specs.declared.entry.Entry.TheVariants as entry;
ghost use Rattle.edb_event.specs.declared.reply.Reply.{Reply};
ghost use Rattle.edb_event.specs.declared.reply.Reply.TheVariants as reply;
ghost use Rattle.edb_model.specs.Labels.{IsPlainRun};
ghost use Rattle.edb_lang.specs.Terms.{Datum};
ghost use Rattle.edb_rules.specs.PlainRuns.{StartsOnce};
ghost use Rattle.edb_rules.specs.Plans.{Plan};
ghost use Rattle.edb_rules.specs.Facts.{debuggee_at, console_at};
ghost use Rattle.edb_rules.specs.Agrees.{AgreesOn};
ghost use Rattle.edb_rules.specs.Consoles.{command_of};
ghost use Rattle.edb_rules.specs.Slices.{Why, due, has_body, level_in};
ghost use Rattle.edb_rules.specs.Server.{is_among, is_made, seen_at, is_interpreted, stop_at};
ghost use Rattle.edb_rules.specs.Seen.{status_of};
ghost use Rattle.edb_rules.specs.SliceEnds.{cause_of, enter_entry};
ghost use Rattle.edb_rules.specs.Turns.{Turn, turn_of, IsSooner};
ghost use Rattle.edb_rules.specs.Ranks.{AtQuiet, IsWaiting};
ghost use Rattle.edb_rules.specs.Nexts.{StandsNext, StandNext, last_turn};
ghost use Rattle.edb_rules.specs.Replies.{next_call, is_enabled, is_served};
ghost use Rattle.edb_rules.specs.Refusals.{refused};
ghost use Rattle.edb_rules.specs.Notes.{facts};
ghost use Rattle.edb_rules.specs.Erasure.{erase};
ghost use Rattle.edb_rules.specs.Legal.{Legal, IsOneHanded, IsAnswer, IsThrough, IsOver};
ghost use Rattle.edb_rules.specs.Stops.{WasDue, StandsBefore, PassesNone};
ghost use Rattle.edb_rules.specs.Begins.{IsBeginning};
ghost use Rattle.edb_rules.specs.Commands.{IsCommandAt, commands_in};
ghost use Rattle.edb_rules.specs.Between.{StandsBetween, IsTurnOf, Resumes, HasMoves};
ghost use Rattle.edb_rules.specs.Taken.{GoesBy, TookIn, KeepsBudget};
ghost use Rattle.edb_rules.specs.Made.{table_of, modules_of, attached_of};
ghost use Rattle.edb_rules.specs.Tells.{TellsLevel, TellsCall};
ghost use Rattle.edb_rules.specs.Inside.{is_inside_by};
ghost use Rattle.edb_rules.specs.Halts.{is_stopped_by};
ghost use Rattle.edb_rules.specs.Own.{starts_of, last_of};
ghost use Rattle.edb_rules.specs.Statuses.{status_by, is_inside, is_halted};
ghost use Rattle.edb_rules.specs.Refused.{refused_by, refusal_in};
ghost use Rattle.edb_event.specs.Weights.{weight};
ghost use Rattle.edb_event.specs.Books.{commands_of};
ghost use Rattle.edb_event.specs.Ranges.{IsConsole};
ghost use Rattle.edb_model.specs.Running.{Run};
ghost use Rattle.edb_model.specs.Move.{begins, next};
ghost use Rattle.edb_model.specs.Plain.{running_at};

/// A legal journal without the debugger's entries is a plain run of the modules, to the plain state that
/// the facts have.
pub fn erasure_is_plain()
    ensures { (plan : Plan) (journal : List Entry) → Legal plan journal → IsPlainRun plan.code (erase journal) (facts plan journal).plain }
{}

/// Each Stop of a legal journal stands where a beginning was due by what the process had last taken in: its module is
/// among those that were taken in, and the mode asks for its level; or the mode doesn't, and an active row there has the
/// serial of the Stop.
pub fn stops_were_due()
    ensures { (plan : Plan) (journal : List Entry) (k : ℕ) (p : ℕ) (m : List ℕ) (l : ℕ) (n : ℕ) (by : Cause) → Legal plan journal → slice_get journal k ≡ Some (entry.Stop p m l n by) → WasDue (debuggee_at (facts plan (take k journal)) p).handout m l n by }
{}

/// A process that stops in a legal journal is about to begin the expression at the module and line of the Stop.
pub fn stops_stand_before()
    ensures { (plan : Plan) (journal : List Entry) (k : ℕ) (p : ℕ) (m : List ℕ) (l : ℕ) (n : ℕ) (by : Cause) → Legal plan journal → slice_get journal k ≡ Some (entry.Stop p m l n by) → StandsBefore (facts plan (take k journal)).plain p m l }
{}

/// A process that stops in a legal journal doesn't stand where it stopped before: it made a move since.
pub fn no_stop_comes_again()
    ensures { (plan : Plan) (journal : List Entry) (k : ℕ) (p : ℕ) (m : List ℕ) (l : ℕ) (n : ℕ) (by : Cause) → Legal plan journal → slice_get journal k ≡ Some (entry.Stop p m l n by) → (debuggee_at (facts plan (take k journal)) p).is_resumed ≡ false }
{}

/// No move of a slice in a legal journal passes a beginning that is due by what the process took in: its slice
/// ends at no expression that it moves on from, so there no beginning is due, and a process that no meta interprets
/// is at none of an interpreted module.
pub fn no_move_passes_a_due_beginning()
    ensures { (plan : Plan) (journal : List Entry) (k : ℕ) (p : ℕ) (n : ℕ) (c : ℕ) → Legal plan journal → slice_get journal k ≡ Some (entry.Ran p n c) → PassesNone plan (facts plan (take k journal)) p n }
{}

/// With one hand the rules leave one journal: of two legal one-handed journals of a plan one begins the other, and
/// two that are over are the same.
pub fn one_journal()
    ensures agree { (plan : Plan) (j : List Entry) (k : List Entry) → Legal plan j → Legal plan k → IsOneHanded plan j → IsOneHanded plan k → IsBeginning j k ⊎ IsBeginning k j }
    ensures one { (plan : Plan) (j : List Entry) (k : List Entry) → Legal plan j → Legal plan k → IsOneHanded plan j → IsOneHanded plan k → IsOver plan (facts plan j) → IsOver plan (facts plan k) → j ≡ k }
{}

/// Each console's commands come once and in order: an entry of a legal journal that answers a command of a console answers
/// its next one, which is the one at the place of as many as were answered before. The facts count the commands that a
/// journal answers; no more are answered than there are, and all once nothing can come and no command is left.
pub fn commands_in_order()
    ensures console { (plan : Plan) (journal : List Entry) (k : ℕ) (e : Entry) (c : ℕ) (x : Call) → Legal plan journal → slice_get journal k ≡ Some e → command_of e ≡ Some (c, x) → IsConsole c }
    ensures next { (plan : Plan) (journal : List Entry) (k : ℕ) (e : Entry) (c : ℕ) (x : Call) → Legal plan journal → slice_get journal k ≡ Some e → command_of e ≡ Some (c, x) → next_call plan (facts plan (take k journal)) c ≡ Some x }
    ensures place { (plan : Plan) (journal : List Entry) (k : ℕ) (e : Entry) (c : ℕ) (x : Call) → Legal plan journal → slice_get journal k ≡ Some e → command_of e ≡ Some (c, x) → IsCommandAt plan (facts plan (take k journal)) c (commands_in c (take k journal)) x }
    ensures count { (plan : Plan) (journal : List Entry) (c : ℕ) → Legal plan journal → (console_at (facts plan journal) c).served ≡ commands_in c journal }
    ensures few { (plan : Plan) (journal : List Entry) (c : ℕ) → Legal plan journal → IsConsole c → (console_at (facts plan journal) c).served ≤ length (commands_of c plan.commands) }
    ensures all { (plan : Plan) (journal : List Entry) (c : ℕ) → Legal plan journal → IsThrough plan (facts plan journal) → IsConsole c → (console_at (facts plan journal) c).served ≡ length (commands_of c plan.commands) }
{}

/// The least console goes first: where an entry of a legal journal answers a command of a console, no console of a lesser
/// number has one that is enabled.
pub fn least_console_goes_first()
    ensures { (plan : Plan) (journal : List Entry) (k : ℕ) (e : Entry) (c : ℕ) (x : Call) → Legal plan journal → slice_get journal k ≡ Some e → command_of e ≡ Some (c, x) → (d : ℕ) → 1 ≤ d → d < c → IsWaiting plan (facts plan (take k journal)) d }
{}

/// Commands go before turns: where a process has a turn in a legal journal, no console has a command that is enabled.
pub fn commands_go_before_turns()
    ensures { (plan : Plan) (journal : List Entry) (k : ℕ) (p : ℕ) (e : Entry) (c : ℕ) → Legal plan journal → slice_get journal k ≡ Some e → IsTurnOf p e → IsConsole c → IsWaiting plan (facts plan (take k journal)) c }
{}

/// Turns go round by number: where a process has a turn in a legal journal, no process that is ready for one stands
/// between it and the process of the last turn before.
pub fn turns_go_round()
    ensures { (plan : Plan) (journal : List Entry) (k : ℕ) (p : ℕ) (e : Entry) (q : ℕ) (turn : Turn) → Legal plan journal → slice_get journal k ≡ Some e → IsTurnOf p e → turn_of (facts plan (take k journal)) q ≡ Some turn → IsSooner (last_turn (take k journal)) q p → ⊥ }
{}

/// An answer `quiet` comes last: where one stands in a legal journal, no trigger is owed, no console has a command that is
/// enabled, no signal is in flight, no process is ready for a turn, no lease is out, and no deadline is above the clock.
pub fn quiet_comes_last()
    ensures { (plan : Plan) (journal : List Entry) (k : ℕ) (c : ℕ) (x : Call) → Legal plan journal → slice_get journal k ≡ Some (entry.Served c x reply.Quiet) → AtQuiet plan (facts plan (take k journal)) }
{}

/// The budget of a lease in a legal journal is the lesser of a slice and of what is left of the weight behind it.
pub fn leases_have_their_budget()
    ensures { (plan : Plan) (journal : List Entry) (k : ℕ) (p : ℕ) (b : ℕ) → Legal plan journal → slice_get journal k ≡ Some (entry.Lease p b) → b ≡ min plan.slice_moves (plan.weight_limit - (weight (take k journal) + 1)) }
{}

/// What is due is stopped at. Behind a slice of a legal journal, where its process is about to begin an expression at which
/// a beginning is due by what it took in, a Stop stands there, by the cause for which it is due, or the journal ends: at
/// once if the process is interpreted and has a Body of an interpreted module, and behind its Enter if it isn't interpreted.
pub fn what_is_due_is_stopped_at()
    ensures stops { (plan : Plan) (journal : List Entry) (k : ℕ) (p : ℕ) (n : ℕ) (c : ℕ) → Legal plan journal → slice_get journal k ≡ Some (entry.Ran p n c) → (t : Run) → running_at (facts plan (take (k + 1) journal)).plain p ≡ Some t
        → (m : List ℕ) (l : ℕ) (why : Why) → next t ≡ begins m l → due plan.code (debuggee_at (facts plan (take k journal)) p).handout p n t m l ≡ Some why
        → (debuggee_at (facts plan (take k journal)) p).handout.is_interpreted ≡ true → has_body (debuggee_at (facts plan (take k journal)) p).handout.modules t ≡ true
        → StandsNext journal k (entry.Stop p m l (level_in t) (cause_of why)) }
    ensures enters { (plan : Plan) (journal : List Entry) (k : ℕ) (p : ℕ) (n : ℕ) (c : ℕ) → Legal plan journal → slice_get journal k ≡ Some (entry.Ran p n c) → (t : Run) → running_at (facts plan (take (k + 1) journal)).plain p ≡ Some t
        → (m : List ℕ) (l : ℕ) (why : Why) → next t ≡ begins m l → due plan.code (debuggee_at (facts plan (take k journal)) p).handout p n t m l ≡ Some why
        → (debuggee_at (facts plan (take k journal)) p).handout.is_interpreted ≡ false → is_among m (debuggee_at (facts plan (take k journal)) p).handout.modules ≡ true
        → StandNext journal k (enter_entry p t) (entry.Stop p m l (level_in t) (cause_of why)) }
{}

/// Behind a slice of a legal journal, a process that isn't interpreted and is about to begin an expression of an interpreted
/// module enters, and an interpreted one that has no Body of an interpreted module leaves, by what it took in; or the
/// journal ends.
pub fn processes_enter_and_leave()
    ensures enters { (plan : Plan) (journal : List Entry) (k : ℕ) (p : ℕ) (n : ℕ) (c : ℕ) → Legal plan journal → slice_get journal k ≡ Some (entry.Ran p n c) → (t : Run) → running_at (facts plan (take (k + 1) journal)).plain p ≡ Some t
        → (m : List ℕ) (l : ℕ) → next t ≡ begins m l → due plan.code (debuggee_at (facts plan (take k journal)) p).handout p n t m l ≡ None
        → (debuggee_at (facts plan (take k journal)) p).handout.is_interpreted ≡ false → is_among m (debuggee_at (facts plan (take k journal)) p).handout.modules ≡ true
        → StandsNext journal k (enter_entry p t) }
    ensures leaves { (plan : Plan) (journal : List Entry) (k : ℕ) (p : ℕ) (n : ℕ) (c : ℕ) → Legal plan journal → slice_get journal k ≡ Some (entry.Ran p n c) → (t : Run) → running_at (facts plan (take (k + 1) journal)).plain p ≡ Some t
        → (debuggee_at (facts plan (take k journal)) p).handout.is_interpreted ≡ true → has_body (debuggee_at (facts plan (take k journal)) p).handout.modules t ≡ false
        → StandsNext journal k (entry.Leave p) }
{}

/// Each reply in a legal journal is the one that one thread would give which serves all commands, by the facts before it:
/// where the command is enabled its reply by the server and the plain state, and else `quiet`, where nothing else can come.
pub fn replies_are_the_servers()
    ensures { (plan : Plan) (journal : List Entry) (k : ℕ) (c : ℕ) (x : Call) (r : Reply) → Legal plan journal → slice_get journal k ≡ Some (entry.Served c x r) → IsAnswer plan (facts plan (take k journal)) c x r }
{}

/// A process that stopped in a legal journal has no turn, neither a lease nor an act, before a command that lets it go on
/// was accepted.
pub fn stopped_processes_have_no_turn()
    ensures { (plan : Plan) (journal : List Entry) (k : ℕ) (p : ℕ) (m : List ℕ) (l : ℕ) (n : ℕ) (by : Cause) (j : ℕ) (e : Entry) → Legal plan journal → slice_get journal k ≡ Some (entry.Stop p m l n by) → k < j → slice_get journal j ≡ Some e → IsTurnOf p e → StandsBetween (Resumes p) journal k j }
{}

/// Directly behind each Stop by a breakpoint in a legal one-handed journal stands its Trigger, of the same process, module,
/// line and serial, with the action `enable`, and it is applied; or the journal ends with the Stop.
pub fn a_stop_is_followed_by_its_trigger()
    ensures { (plan : Plan) (journal : List Entry) (k : ℕ) (p : ℕ) (m : List ℕ) (l : ℕ) (n : ℕ) (serial : ℕ) → Legal plan journal → IsOneHanded plan journal → slice_get journal k ≡ Some (entry.Stop p m l n (cause.Break serial)) → slice_get journal (k + 1) ≡ None ⊎ slice_get journal (k + 1) ≡ Some (entry.Trigger p m l serial action.Enable true) }
{}

/// Between two stops of a process in a legal journal stands a slice of it with a move at least, which may be the slice
/// that the second stop ends, or its expression was left out.
pub fn a_move_stands_between_stops()
    ensures { (plan : Plan) (journal : List Entry) (p : ℕ) (k : ℕ) (m : List ℕ) (l : ℕ) (n : ℕ) (by : Cause) (j : ℕ) (m₂ : List ℕ) (l₂ : ℕ) (n₂ : ℕ) (by₂ : Cause) → Legal plan journal → slice_get journal k ≡ Some (entry.Stop p m l n by) → slice_get journal j ≡ Some (entry.Stop p m₂ l₂ n₂ by₂) → k < j → StandsBetween (HasMoves p) journal k j }
{}

/// What a process goes by in a slice or a stop of a legal journal is what its last lease handed out: the lease's budget;
/// as they were before the lease the current versions, the server's rows, interpreted modules and flags, and whether the
/// process is interpreted, ever was, and was resumed and made no move since.
pub fn taken_in_at_the_lease()
    ensures { (plan : Plan) (journal : List Entry) (k : ℕ) (p : ℕ) (e : Entry) → Legal plan journal → slice_get journal k ≡ Some e → GoesBy p e → TookIn plan journal p k (debuggee_at (facts plan (take k journal)) p).handout }
{}

/// The server after a legal journal has what the journal's entries made: its table, its interpreted modules and its
/// attached consoles are those of folds over the entries alone.
pub fn the_table_is_what_was_made()
    ensures table { (plan : Plan) (journal : List Entry) → Legal plan journal → (facts plan journal).server.table ≡ table_of journal }
    ensures modules { (plan : Plan) (journal : List Entry) → Legal plan journal → (facts plan journal).server.interpreted ≡ modules_of journal }
    ensures attached { (plan : Plan) (journal : List Entry) → Legal plan journal → (facts plan journal).server.attached ≡ attached_of journal }
{}

/// The server agrees with the facts of each legal journal. It has the modules, the current versions of the plain state, and each
/// process that was made and no other. What it has seen of a process is what is: whether a meta process interprets it, where it
/// is stopped, whether it lives, and the text of its reason. A stop that it has seen is where the process stands, with the frames
/// of what that has to do.
pub fn the_server_agrees()
    ensures code { (plan : Plan) (journal : List Entry) → Legal plan journal → (facts plan journal).server.code ≡ plan.code }
    ensures versions { (plan : Plan) (journal : List Entry) → Legal plan journal → (facts plan journal).server.current ≡ (facts plan journal).plain.versions }
    ensures count { (plan : Plan) (journal : List Entry) → Legal plan journal → (facts plan journal).server.made ≡ length (facts plan journal).plain.running }
    ensures made { (plan : Plan) (journal : List Entry) (p : ℕ) → Legal plan journal → 1 ≤ p → p ≤ length (facts plan journal).plain.running → is_made (facts plan journal).server p ≡ true }
    ensures only { (plan : Plan) (journal : List Entry) (p : ℕ) → Legal plan journal → is_made (facts plan journal).server p ≡ true → (1 ≤ p) × (p ≤ length (facts plan journal).plain.running) }
    ensures processes { (plan : Plan) (journal : List Entry) (p : ℕ) → Legal plan journal → AgreesOn (facts plan journal) p }
{}

/// A Stop in a legal journal tells the level of the innermost Body of its process there, and an Enter the module, name
/// and arity of that Body.
pub fn stops_tell_their_level()
    ensures stop { (plan : Plan) (journal : List Entry) (k : ℕ) (p : ℕ) (m : List ℕ) (l : ℕ) (n : ℕ) (by : Cause) → Legal plan journal → slice_get journal k ≡ Some (entry.Stop p m l n by) → TellsLevel (facts plan (take k journal)).plain p n }
    ensures enter { (plan : Plan) (journal : List Entry) (k : ℕ) (p : ℕ) (m : List ℕ) (f : List ℕ) (a : ℕ) → Legal plan journal → slice_get journal k ≡ Some (entry.Enter p m f a) → TellsCall (facts plan (take k journal)).plain p m f a }
{}

/// A slice in a legal journal has no more moves than the budget of its process's last lease, or one.
pub fn slices_keep_to_their_budget()
    ensures { (plan : Plan) (journal : List Entry) (k : ℕ) (p : ℕ) (n : ℕ) (c : ℕ) → Legal plan journal → slice_get journal k ≡ Some (entry.Ran p n c) → KeepsBudget journal p k n }
{}

/// The weight that the facts have is the journal's.
pub fn journals_weigh_so()
    ensures { (plan : Plan) (journal : List Entry) → (facts plan journal).weight ≡ weight journal }
{}

/// A meta process interprets a process after a legal journal exactly where the last Enter, Leave or end of it in the
/// journal is an Enter.
pub fn a_process_is_interpreted_between()
    ensures { (plan : Plan) (journal : List Entry) (p : ℕ) → Legal plan journal → (debuggee_at (facts plan journal) p).is_interpreted ≡ is_inside_by p journal }
{}

/// A process is stopped after a legal journal exactly where the last in the journal of a Stop of it, an accepted command
/// that lets it go on, its expression left out, and its end is a Stop.
pub fn a_process_is_stopped_between()
    ensures { (plan : Plan) (journal : List Entry) (p : ℕ) → Legal plan journal → (debuggee_at (facts plan journal) p).is_stopped ≡ is_stopped_by p journal }
{}

/// The processes by which a console's commands are understood are told by a legal journal's entries: the console's own
/// are those that its starts made, in order, and the last awaited is that of its last await that was answered by a status.
pub fn own_starts_and_last_awaits()
    ensures own { (plan : Plan) (journal : List Entry) (c : ℕ) → Legal plan journal → (console_at (facts plan journal) c).own ≡ starts_of c journal }
    ensures last { (plan : Plan) (journal : List Entry) (c : ℕ) → Legal plan journal → (console_at (facts plan journal) c).last ≡ last_of c journal }
{}

/// The status that the server shows of a process after a legal journal is what the last entry says that speaks of the
/// process, and by it the process is interpreted, or stopped. An await of a status is enabled exactly where the entries
/// before it say that status: there it is answered by the process and the status, and elsewhere only by `quiet`.
pub fn statuses_are_told_by_entries()
    ensures status { (plan : Plan) (journal : List Entry) (p : ℕ) → Legal plan journal → option_map status_of (seen_at (facts plan journal).server p) ≡ status_by p journal }
    ensures interpreted { (plan : Plan) (journal : List Entry) (p : ℕ) → Legal plan journal → is_interpreted (facts plan journal).server p ≡ is_inside (status_by p journal) }
    ensures stopped { (plan : Plan) (journal : List Entry) (p : ℕ) → Legal plan journal → is_some (stop_at (facts plan journal).server p) ≡ is_halted (status_by p journal) }
    ensures enabled { (plan : Plan) (journal : List Entry) (p : ℕ) (s : ProcStatus) → Legal plan journal → status_by p journal ≡ Some s → is_enabled (facts plan journal) (command.Await p s) ≡ true }
    ensures waiting { (plan : Plan) (journal : List Entry) (p : ℕ) (s : ProcStatus) → Legal plan journal → (status_by p journal ≡ Some s → ⊥) → is_enabled (facts plan journal) (command.Await p s) ≡ false }
    ensures met { (plan : Plan) (journal : List Entry) (k : ℕ) (c : ℕ) (p : ℕ) (s : ProcStatus) (r : Reply) → Legal plan journal → slice_get journal k ≡ Some (entry.Served c (command.Await p s) r) → status_by p (take k journal) ≡ Some s → r ≡ reply.Status p s }
    ensures unmet { (plan : Plan) (journal : List Entry) (k : ℕ) (c : ℕ) (p : ℕ) (s : ProcStatus) (r : Reply) → Legal plan journal → slice_get journal k ≡ Some (entry.Served c (command.Await p s) r) → (status_by p (take k journal) ≡ Some s → ⊥) → r ≡ reply.Quiet }
{}

/// A command that is served is refused after a legal journal exactly where the modules and the entries before it refuse it,
/// and by the first refusal that they tell. So each entry of a legal journal that answers a command is answered by that
/// refusal, and by none where they tell none.
pub fn refusals_are_told_by_entries()
    ensures server { (plan : Plan) (journal : List Entry) (c : ℕ) (x : Call) → Legal plan journal → is_served x ≡ true → refused (facts plan journal).server c x ≡ refused_by plan.code journal c x }
    ensures entries { (plan : Plan) (journal : List Entry) (k : ℕ) (e : Entry) (c : ℕ) (x : Call) → Legal plan journal → slice_get journal k ≡ Some e → command_of e ≡ Some (c, x) → refusal_in e ≡ refused_by plan.code (take k journal) c x }
{}

/// What a console does doesn't change what a process does: of two legal journals of the same modules, whatever their
/// commands, their slices and their weights, that start no process but one, with the same call, the plain run of one
/// begins that of the other, and so does what it printed.
pub fn plain_runs_agree()
    ensures runs { (p : Plan) (q : Plan) (j : List Entry) (k : List Entry) (m : List ℕ) (n : List ℕ) (args : Datum) → p.code ≡ q.code → Legal p j → Legal q k → StartsOnce m n args j → StartsOnce m n args k → IsBeginning (erase j) (erase k) ⊎ IsBeginning (erase k) (erase j) }
    ensures outputs { (p : Plan) (q : Plan) (j : List Entry) (k : List Entry) (m : List ℕ) (n : List ℕ) (args : Datum) → p.code ≡ q.code → Legal p j → Legal q k → StartsOnce m n args j → StartsOnce m n args k → IsBeginning (facts p j).plain.output (facts q k).plain.output ⊎ IsBeginning (facts q k).plain.output (facts p j).plain.output }
{}
