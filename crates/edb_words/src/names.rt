//! The small words.

ghost use Rattle.std.specs.Prelude.{◌≡◌};
ghost use Rattle.edb_words.specs.Words.{status_word, action_word, flag_word, trace_word, refusal_word, kind_word};

use edb_event::{AutoFlag, ProcStatus, Refusal, TraceWord};
use edb_lang::{ActKind, Action};

/// How a process is written: as a transcript shows it, `<7>`, or its number alone, `7`.
#[derive(Clone, Copy, PartialEq, Eq, Debug)]
pub enum ProcessForm {
    Angled,
    Plain,
}

/// The word for a status.
pub fn status_name(status: ProcStatus) -> &'static str
    ensures { result.now ≡ status_word status }
{
    match status {
        ProcStatus::Idle => "idle",
        ProcStatus::Running => "running",
        ProcStatus::Waiting => "waiting",
        ProcStatus::Break => "break",
        ProcStatus::Exit => "exit",
    }
}

/// The word for what becomes of a breakpoint.
pub fn action_name(action: Action) -> &'static str
    ensures { result.now ≡ action_word action }
{
    match action {
        Action::Enable => "enable",
        Action::Disable => "disable",
        Action::Delete => "delete",
    }
}

/// The word for a time at which a console is attached by itself.
pub fn flag_name(flag: AutoFlag) -> &'static str
    ensures { result.now ≡ flag_word flag }
{
    match flag {
        AutoFlag::Init => "init",
        AutoFlag::Break => "break",
        AutoFlag::Exit => "exit",
    }
}

/// The word for which calls of a stack are saved.
pub fn trace_name(word: TraceWord) -> &'static str
    ensures { result.now ≡ trace_word word }
{
    match word {
        TraceWord::All => "all",
        TraceWord::True => "true",
        TraceWord::NoTail => "no_tail",
        TraceWord::False => "false",
    }
}

/// The word for a refusal.
pub fn refusal_name(why: Refusal) -> &'static str
    ensures { result.now ≡ refusal_word why }
{
    match why {
        Refusal::BreakExists => "break_exists",
        Refusal::FunctionNotFound => "function_not_found",
        Refusal::NotInterpreted => "not_interpreted",
        Refusal::NoModule => "no_module",
        Refusal::NoVersion => "no_version",
        Refusal::NoProcess => "no_process",
        Refusal::AlreadyAttached => "already_attached",
        Refusal::NotAttached => "not_attached",
        Refusal::NotStopped => "not_stopped",
        Refusal::SystemLimit => "system_limit",
        Refusal::NotWaiting => "not_waiting",
    }
}

/// The word for a kind of shared act.
pub fn kind_name(kind: ActKind) -> &'static str
    ensures { result.now ≡ kind_word kind }
{
    match kind {
        ActKind::Send => "send",
        ActKind::Receive => "receive",
        ActKind::Wait => "wait",
        ActKind::Timeout => "timeout",
        ActKind::Spawn => "spawn",
        ActKind::Link => "link",
        ActKind::Unlink => "unlink",
        ActKind::Monitor => "monitor",
        ActKind::Demonitor => "demonitor",
        ActKind::Exit => "exit",
        ActKind::Register => "register",
        ActKind::Unregister => "unregister",
        ActKind::Whereis => "whereis",
        ActKind::Trap => "trap",
        ActKind::Alive => "alive",
        ActKind::MakeRef => "makeref",
        ActKind::Print => "print",
        ActKind::End => "end",
    }
}
