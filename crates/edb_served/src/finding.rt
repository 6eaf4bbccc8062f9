//! The small words, read back.

ghost use Rattle.std.specs.Prelude.{◌≡◌, IfErr};
ghost use Rattle.edb_words.specs.Words.{status_word, action_word, flag_word, trace_word, refusal_word, kind_word};
ghost use Rattle.edb_fields.specs.Answers.{Gives};
ghost use Rattle.edb_fields.specs.declared.refusal.ReadError.TheVariants.{Refused};
ghost use Rattle.edb_served.specs.Small.{kind_at, status_at, action_at, flag_at, trace_at, refusal_at};
ghost use Rattle.edb_served.specs.Words.{named};

use crate::words::read_word;
use edb_event::{AutoFlag, ProcStatus, Refusal, TraceWord};
use edb_fields::ReadError;
use edb_lang::{ActKind, Action};
use edb_words::{action_name, flag_name, kind_name, refusal_name, status_name, trace_name};

/// The one of these acts whose word this is.
fn kind_among(kinds: &[ActKind], word: &[u8]) -> Option<ActKind>
    ensures { result ≡ named kind_word kinds.now word.now }
{
    for kind in kinds {
        if word == kind_name(*kind).as_bytes() {
            return Some(*kind);
        }
    }
    None
}

/// The kind of act of a field, and what comes after it.
pub fn read_kind(bytes: &[u8]) -> Result<(ActKind, &[u8]), ReadError>
    ensures read { Gives (λ x. (x.0, x.1.now)) result (kind_at bytes.now) }
    ensures cause { IfErr result (λ e. e ≡ Refused) }
{
    let kinds = [
        ActKind::Send,
        ActKind::Receive,
        ActKind::Wait,
        ActKind::Timeout,
        ActKind::Spawn,
        ActKind::Link,
        ActKind::Unlink,
        ActKind::Monitor,
        ActKind::Demonitor,
        ActKind::Exit,
        ActKind::Register,
        ActKind::Unregister,
        ActKind::Whereis,
        ActKind::Trap,
        ActKind::Alive,
        ActKind::MakeRef,
        ActKind::Print,
        ActKind::End,
    ];
    let (word, rest) = read_word(bytes)?;
    match kind_among(&kinds, word) {
        Some(kind) => Ok((kind, rest)),
        None => Err(ReadError::Refused),
    }
}

/// The one of these actions whose word this is.
fn action_among(actions: &[Action], word: &[u8]) -> Option<Action>
    ensures { result ≡ named action_word actions.now word.now }
{
    for action in actions {
        if word == action_name(*action).as_bytes() {
            return Some(*action);
        }
    }
    None
}

/// The action of a field, and what comes after it.
pub fn read_action(bytes: &[u8]) -> Result<(Action, &[u8]), ReadError>
    ensures read { Gives (λ x. (x.0, x.1.now)) result (action_at bytes.now) }
    ensures cause { IfErr result (λ e. e ≡ Refused) }
{
    let actions = [Action::Enable, Action::Disable, Action::Delete];
    let (word, rest) = read_word(bytes)?;
    match action_among(&actions, word) {
        Some(action) => Ok((action, rest)),
        None => Err(ReadError::Refused),
    }
}

/// The one of these statuses whose word this is.
fn status_among(statuses: &[ProcStatus], word: &[u8]) -> Option<ProcStatus>
    ensures { result ≡ named status_word statuses.now word.now }
{
    for status in statuses {
        if word == status_name(*status).as_bytes() {
            return Some(*status);
        }
    }
    None
}

/// The status of a field, and what comes after it.
pub(crate) fn read_status(bytes: &[u8]) -> Result<(ProcStatus, &[u8]), ReadError>
    ensures read { Gives (λ x. (x.0, x.1.now)) result (status_at bytes.now) }
    ensures cause { IfErr result (λ e. e ≡ Refused) }
{
    let statuses = [
        ProcStatus::Idle,
        ProcStatus::Running,
        ProcStatus::Waiting,
        ProcStatus::Break,
        ProcStatus::Exit,
    ];
    let (word, rest) = read_word(bytes)?;
    match status_among(&statuses, word) {
        Some(status) => Ok((status, rest)),
        None => Err(ReadError::Refused),
    }
}

/// The one of these flags whose word this is.
fn flag_among(flags: &[AutoFlag], word: &[u8]) -> Option<AutoFlag>
    ensures { result ≡ named flag_word flags.now word.now }
{
    for flag in flags {
        if word == flag_name(*flag).as_bytes() {
            return Some(*flag);
        }
    }
    None
}

/// The flag of a field, and what comes after it.
pub(crate) fn read_flag(bytes: &[u8]) -> Result<(AutoFlag, &[u8]), ReadError>
    ensures read { Gives (λ x. (x.0, x.1.now)) result (flag_at bytes.now) }
    ensures cause { IfErr result (λ e. e ≡ Refused) }
{
    let flags = [AutoFlag::Init, AutoFlag::Break, AutoFlag::Exit];
    let (word, rest) = read_word(bytes)?;
    match flag_among(&flags, word) {
        Some(flag) => Ok((flag, rest)),
        None => Err(ReadError::Refused),
    }
}

/// The one of these words for saved calls that this is.
fn trace_among(traces: &[TraceWord], word: &[u8]) -> Option<TraceWord>
    ensures { result ≡ named trace_word traces.now word.now }
{
    for trace in traces {
        if word == trace_name(*trace).as_bytes() {
            return Some(*trace);
        }
    }
    None
}

/// The word for saved calls of a field, and what comes after it.
pub(crate) fn read_trace(bytes: &[u8]) -> Result<(TraceWord, &[u8]), ReadError>
    ensures read { Gives (λ x. (x.0, x.1.now)) result (trace_at bytes.now) }
    ensures cause { IfErr result (λ e. e ≡ Refused) }
{
    let traces = [
        TraceWord::All,
        TraceWord::True,
        TraceWord::NoTail,
        TraceWord::False,
    ];
    let (word, rest) = read_word(bytes)?;
    match trace_among(&traces, word) {
        Some(trace) => Ok((trace, rest)),
        None => Err(ReadError::Refused),
    }
}

/// The one of these refusals whose word this is.
fn refusal_among(refusals: &[Refusal], word: &[u8]) -> Option<Refusal>
    ensures { result ≡ named refusal_word refusals.now word.now }
{
    for refusal in refusals {
        if word == refusal_name(*refusal).as_bytes() {
            return Some(*refusal);
        }
    }
    None
}

/// The refusal of a field, and what comes after it. Of those that a journal of the first version may have.
pub(crate) fn read_refusal(bytes: &[u8]) -> Result<(Refusal, &[u8]), ReadError>
    ensures read { Gives (λ x. (x.0, x.1.now)) result (refusal_at bytes.now) }
    ensures cause { IfErr result (λ e. e ≡ Refused) }
{
    let refusals = [
        Refusal::BreakExists,
        Refusal::FunctionNotFound,
        Refusal::NotInterpreted,
        Refusal::NoModule,
        Refusal::NoVersion,
        Refusal::NoProcess,
        Refusal::AlreadyAttached,
        Refusal::NotAttached,
        Refusal::NotStopped,
        Refusal::SystemLimit,
    ];
    let (word, rest) = read_word(bytes)?;
    match refusal_among(&refusals, word) {
        Some(refusal) => Ok((refusal, rest)),
        None => Err(ReadError::Refused),
    }
}
