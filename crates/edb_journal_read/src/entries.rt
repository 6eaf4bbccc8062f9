//! The lines of entries.

ghost use Rattle.std.specs.Prelude.{◌≡◌, Bool, true, Some, IfOk, IfErr};
ghost use Rattle.edb_event.specs.Ranges.{IsConsole, IsEntry, IsReply, MayAnswer};
ghost use Rattle.edb_fields.specs.Answers.{Gives};
ghost use Rattle.edb_fields.specs.Reading.{after_text};
ghost use Rattle.edb_journal.specs.Lines.{line};
ghost use Rattle.edb_journal.specs.Wide.{Is128Bits, Is32Bits, Is64Bits, IsWide, IsWideCause, IsWideReason, IsWideReply};
ghost use Rattle.edb_journal_read.specs.Entries.{IsFirst, NoneIsFirst};
ghost use Rattle.edb_journal_read.specs.Reading as spec;
ghost use Rattle.edb_journal_read.specs.Reading.{short_at, long_at, serial_at, console_at, loose_at, entry_at};

use edb_event::{Call, Cause, Entry, Reply};
use edb_fields::{
    ReadError, read_bytes, read_line_end, read_list, read_name, read_text, read_u32, read_u64,
    read_u128,
};
use edb_journal::put_entry;
use edb_lang::Bytes;
use edb_served::{read_action, read_call, read_kind, read_reply, read_word, split_word};
use std::alloc::Global;

/// A number of 32 bits.
fn short(bytes: &[u8]) -> Result<(u32, &[u8]), ReadError>
    ensures read { Gives (λ x. (x.0, x.1.now)) result (short_at bytes.now) }
    ensures range { IfOk result (λ x. Is32Bits x.0) }
{
    read_u32(0, u32::MAX, bytes)
}

/// A number of 64 bits.
fn long(bytes: &[u8]) -> Result<(u64, &[u8]), ReadError>
    ensures read { Gives (λ x. (x.0, x.1.now)) result (long_at bytes.now) }
    ensures range { IfOk result (λ x. Is64Bits x.0) }
{
    read_u64(0, u64::MAX, bytes)
}

/// The serial of a breakpoint.
fn serial(bytes: &[u8]) -> Result<(u128, &[u8]), ReadError>
    ensures read { Gives (λ x. (x.0, x.1.now)) result (serial_at bytes.now) }
    ensures range { IfOk result (λ x. Is128Bits x.0) }
{
    read_u128(0, u128::MAX, bytes)
}

/// The number of a console.
fn console(bytes: &[u8]) -> Result<(u32, &[u8]), ReadError>
    ensures read { Gives (λ x. (x.0, x.1.now)) result (console_at bytes.now) }
    ensures range { IfOk result (λ x. IsConsole x.0) }
{
    read_u32(1, 8, bytes)
}

/// The fields of a start.
fn start<'a>(
    alloc: Global,
    scratch: &mut Vec<u8>,
    bytes: &'a [u8],
) -> Result<(Entry, &'a [u8]), ReadError>
    ensures read { Gives (λ x. (x.0, x.1.now)) result (spec.start_at bytes.now) }
    ensures range { IfOk result (λ x. IsEntry x.0) }
    ensures wide { IfOk result (λ x. IsWide x.0) }
{
    let (console, rest) = console(bytes)?;
    let (pid, rest) = short(rest)?;
    let (module, rest) = read_name(alloc, scratch, rest)?;
    let (name, rest) = read_name(alloc, scratch, rest)?;
    let (args, rest) = read_list(alloc, scratch, rest)?;
    let rest = read_line_end(rest)?;
    let entry = Entry::Start {
        console,
        pid,
        module,
        name,
        args,
    };
    Ok((entry, rest))
}

/// The fields of a load.
fn load<'a>(
    alloc: Global,
    scratch: &mut Vec<u8>,
    bytes: &'a [u8],
) -> Result<(Entry, &'a [u8]), ReadError>
    ensures read { Gives (λ x. (x.0, x.1.now)) result (spec.load_at bytes.now) }
    ensures range { IfOk result (λ x. IsEntry x.0) }
    ensures wide { IfOk result (λ x. IsWide x.0) }
{
    let (console, rest) = console(bytes)?;
    let (module, rest) = read_name(alloc, scratch, rest)?;
    let (version, rest) = short(rest)?;
    let rest = read_line_end(rest)?;
    let entry = Entry::Load {
        console,
        module,
        version,
    };
    Ok((entry, rest))
}

/// The fields of a lease.
fn lease(bytes: &[u8]) -> Result<(Entry, &[u8]), ReadError>
    ensures read { Gives (λ x. (x.0, x.1.now)) result (spec.lease_at bytes.now) }
    ensures range { IfOk result (λ x. IsEntry x.0) }
    ensures wide { IfOk result (λ x. IsWide x.0) }
{
    let (pid, rest) = short(bytes)?;
    let (budget, rest) = short(rest)?;
    let rest = read_line_end(rest)?;
    Ok((Entry::Lease { pid, budget }, rest))
}

/// The fields of a slice.
fn ran(bytes: &[u8]) -> Result<(Entry, &[u8]), ReadError>
    ensures read { Gives (λ x. (x.0, x.1.now)) result (spec.ran_at bytes.now) }
    ensures range { IfOk result (λ x. IsEntry x.0) }
    ensures wide { IfOk result (λ x. IsWide x.0) }
{
    let (pid, rest) = short(bytes)?;
    let (moves, rest) = short(rest)?;
    let (cond, rest) = short(rest)?;
    let rest = read_line_end(rest)?;
    Ok((Entry::Ran { pid, moves, cond }, rest))
}

/// The fields of a process that asks for an act.
fn ask(bytes: &[u8]) -> Result<(Entry, &[u8]), ReadError>
    ensures read { Gives (λ x. (x.0, x.1.now)) result (spec.ask_at bytes.now) }
    ensures range { IfOk result (λ x. IsEntry x.0) }
    ensures wide { IfOk result (λ x. IsWide x.0) }
{
    let (pid, rest) = short(bytes)?;
    let (kind, rest) = read_kind(rest)?;
    let rest = read_line_end(rest)?;
    Ok((Entry::Ask { pid, kind }, rest))
}

/// The fields of an act.
fn did(alloc: Global, bytes: &[u8]) -> Result<(Entry, &[u8]), ReadError>
    ensures read { Gives (λ x. (x.0, x.1.now)) result (spec.did_at bytes.now) }
    ensures range { IfOk result (λ x. IsEntry x.0) }
    ensures wide { IfOk result (λ x. IsWide x.0) }
{
    let (pid, rest) = short(bytes)?;
    let (kind, rest) = read_kind(rest)?;
    let (value, rest) = read_bytes(alloc, rest)?;
    let (printed, rest) = read_bytes(alloc, rest)?;
    let rest = read_line_end(rest)?;
    let entry = Entry::Did {
        pid,
        kind,
        value,
        bytes: printed,
    };
    Ok((entry, rest))
}

/// The field of a process that took an answer.
fn took(bytes: &[u8]) -> Result<(Entry, &[u8]), ReadError>
    ensures read { Gives (λ x. (x.0, x.1.now)) result (spec.took_at bytes.now) }
    ensures range { IfOk result (λ x. IsEntry x.0) }
    ensures wide { IfOk result (λ x. IsWide x.0) }
{
    let (pid, rest) = short(bytes)?;
    let rest = read_line_end(rest)?;
    Ok((Entry::Took { pid }, rest))
}

/// The field of a message that went to the queue.
fn forward(bytes: &[u8]) -> Result<(Entry, &[u8]), ReadError>
    ensures read { Gives (λ x. (x.0, x.1.now)) result (spec.forward_at bytes.now) }
    ensures range { IfOk result (λ x. IsEntry x.0) }
    ensures wide { IfOk result (λ x. IsWide x.0) }
{
    let (pid, rest) = short(bytes)?;
    let rest = read_line_end(rest)?;
    Ok((Entry::Forward { pid }, rest))
}

/// The field of a process that leaves interpreted code.
fn leave(bytes: &[u8]) -> Result<(Entry, &[u8]), ReadError>
    ensures read { Gives (λ x. (x.0, x.1.now)) result (spec.leave_at bytes.now) }
    ensures range { IfOk result (λ x. IsEntry x.0) }
    ensures wide { IfOk result (λ x. IsWide x.0) }
{
    let (pid, rest) = short(bytes)?;
    let rest = read_line_end(rest)?;
    Ok((Entry::Leave { pid }, rest))
}

/// The fields of a process that comes to interpreted code.
fn enter<'a>(
    alloc: Global,
    scratch: &mut Vec<u8>,
    bytes: &'a [u8],
) -> Result<(Entry, &'a [u8]), ReadError>
    ensures read { Gives (λ x. (x.0, x.1.now)) result (spec.enter_at bytes.now) }
    ensures range { IfOk result (λ x. IsEntry x.0) }
    ensures wide { IfOk result (λ x. IsWide x.0) }
{
    let (pid, rest) = short(bytes)?;
    let (module, rest) = read_name(alloc, scratch, rest)?;
    let (name, rest) = read_name(alloc, scratch, rest)?;
    let (arity, rest) = short(rest)?;
    let rest = read_line_end(rest)?;
    let entry = Entry::Enter {
        pid,
        module,
        name,
        arity,
    };
    Ok((entry, rest))
}

/// The reason of a signal, if the line goes on, and what comes after the line.
fn ended(alloc: Global, bytes: &[u8]) -> Result<(Option<Bytes>, &[u8]), ReadError>
    ensures read { Gives (λ x. (x.0, x.1.now)) result (spec.ended_at bytes.now) }
    ensures range { IfOk result (λ x. IsWideReason x.0) }
{
    if let Ok(rest) = read_line_end(bytes) {
        return Ok((None, rest));
    }
    let (reason, rest) = read_bytes(alloc, bytes)?;
    let rest = read_line_end(rest)?;
    Ok((Some(reason), rest))
}

/// The fields of a signal.
fn signal(alloc: Global, bytes: &[u8]) -> Result<(Entry, &[u8]), ReadError>
    ensures read { Gives (λ x. (x.0, x.1.now)) result (spec.signal_at bytes.now) }
    ensures range { IfOk result (λ x. IsEntry x.0) }
    ensures wide { IfOk result (λ x. IsWide x.0) }
{
    let (to, rest) = short(bytes)?;
    let (ended, rest) = ended(alloc, rest)?;
    Ok((Entry::Signal { to, ended }, rest))
}

/// The field of a clock that went on.
fn advance(bytes: &[u8]) -> Result<(Entry, &[u8]), ReadError>
    ensures read { Gives (λ x. (x.0, x.1.now)) result (spec.advance_at bytes.now) }
    ensures range { IfOk result (λ x. IsEntry x.0) }
    ensures wide { IfOk result (λ x. IsWide x.0) }
{
    let (clock, rest) = long(bytes)?;
    let rest = read_line_end(rest)?;
    Ok((Entry::Advance { clock }, rest))
}

/// Why a process stopped.
fn cause(bytes: &[u8]) -> Result<(Cause, &[u8]), ReadError>
    ensures read { Gives (λ x. (x.0, x.1.now)) result (spec.cause_at bytes.now) }
    ensures range { IfOk result (λ x. IsWideCause x.0) }
{
    let (word, rest) = read_word(bytes)?;
    if word == b"order".as_slice() {
        return Ok((Cause::Order, rest));
    }
    if word == b"break".as_slice() {
        let (serial, rest) = serial(rest)?;
        return Ok((Cause::Break(serial), rest));
    }
    Err(ReadError::Refused)
}

/// The fields of a stop.
fn stop<'a>(
    alloc: Global,
    scratch: &mut Vec<u8>,
    bytes: &'a [u8],
) -> Result<(Entry, &'a [u8]), ReadError>
    ensures read { Gives (λ x. (x.0, x.1.now)) result (spec.stop_at bytes.now) }
    ensures range { IfOk result (λ x. IsEntry x.0) }
    ensures wide { IfOk result (λ x. IsWide x.0) }
{
    let (pid, rest) = short(bytes)?;
    let (module, rest) = read_name(alloc, scratch, rest)?;
    let (line, rest) = short(rest)?;
    let (level, rest) = long(rest)?;
    let (by, rest) = cause(rest)?;
    let rest = read_line_end(rest)?;
    let entry = Entry::Stop {
        pid,
        module,
        line,
        level,
        by,
    };
    Ok((entry, rest))
}

/// Whether a trigger was applied.
fn applied(bytes: &[u8]) -> Result<(bool, &[u8]), ReadError>
    ensures { Gives (λ x. (x.0, x.1.now)) result (spec.applied_at bytes.now) }
{
    let (applied, rest) = read_u32(0, 1, bytes)?;
    Ok((applied == 1, rest))
}

/// The fields of a trigger.
fn trigger<'a>(
    alloc: Global,
    scratch: &mut Vec<u8>,
    bytes: &'a [u8],
) -> Result<(Entry, &'a [u8]), ReadError>
    ensures read { Gives (λ x. (x.0, x.1.now)) result (spec.trigger_at bytes.now) }
    ensures range { IfOk result (λ x. IsEntry x.0) }
    ensures wide { IfOk result (λ x. IsWide x.0) }
{
    let (pid, rest) = short(bytes)?;
    let (module, rest) = read_name(alloc, scratch, rest)?;
    let (line, rest) = short(rest)?;
    let (serial, rest) = serial(rest)?;
    let (action, rest) = read_action(rest)?;
    let (applied, rest) = applied(rest)?;
    let rest = read_line_end(rest)?;
    let entry = Entry::Trigger {
        pid,
        module,
        line,
        serial,
        action,
        applied,
    };
    Ok((entry, rest))
}

/// Whether a command may be answered so: one that has an entry of its own where it is accepted is served only where it is refused.
#[tactic(auto, using(crate::proofs::Answered::may))]
fn may_answer(call: &Call, reply: &Reply) -> bool
    ensures same { result ≡ spec.may_answer call.now reply.now }
    ensures rule { result ≡ true → MayAnswer call.now reply.now }
{
    match call {
        Call::Start { .. } => matches!(reply, Reply::Refused(_)),
        Call::Load { .. } => matches!(reply, Reply::Refused(_)),
        _ => true,
    }
}

/// The reply to this command, after the equals sign and up to the line's end, and what comes after the line.
fn answer<'a>(alloc: Global, call: &Call, bytes: &'a [u8]) -> Result<(Reply, &'a [u8]), ReadError>
    ensures read { Gives (λ x. (x.0, x.1.now)) result (spec.answer_at call.now bytes.now) }
    ensures range { IfOk result (λ x. MayAnswer call.now x.0 × IsReply x.0) }
    ensures wide { IfOk result (λ x. IsWideReply x.0) }
{
    let rest = read_text(b" =".as_slice(), bytes)?;
    let (reply, rest) = read_reply(alloc, rest)?;
    let rest = read_line_end(rest)?;
    if may_answer(call, &reply) {
        Ok((reply, rest))
    } else {
        Err(ReadError::Refused)
    }
}

/// Lets a command go.
fn discard_call(_call: Call) {}

/// The fields of a command that was answered.
fn served<'a>(
    alloc: Global,
    scratch: &mut Vec<u8>,
    bytes: &'a [u8],
) -> Result<(Entry, &'a [u8]), ReadError>
    ensures read { Gives (λ x. (x.0, x.1.now)) result (spec.served_at bytes.now) }
    ensures range { IfOk result (λ x. IsEntry x.0) }
    ensures wide { IfOk result (λ x. IsWide x.0) }
{
    let (console, rest) = console(bytes)?;
    let (call, rest) = read_call(alloc, scratch, rest)?;
    match answer(alloc, &call, rest) {
        Ok((reply, rest)) => {
            let entry = Entry::Served {
                console,
                call,
                reply,
            };
            Ok((entry, rest))
        }
        Err(error) => {
            discard_call(call);
            Err(error)
        }
    }
}

/// The entry that begins with this word, of the kinds that are fewer.
fn other_entry<'a>(
    alloc: Global,
    scratch: &mut Vec<u8>,
    word: &[u8],
    bytes: &'a [u8],
) -> Result<(Entry, &'a [u8]), ReadError>
    ensures read { Gives (λ x. (x.0, x.1.now)) result (spec.other_entry_of word.now bytes.now) }
    ensures range { IfOk result (λ x. IsEntry x.0) }
    ensures wide { IfOk result (λ x. IsWide x.0) }
{
    if word == b"signal".as_slice() {
        return signal(alloc, bytes);
    }
    if word == b"advance".as_slice() {
        return advance(bytes);
    }
    if word == b"enter".as_slice() {
        return enter(alloc, scratch, bytes);
    }
    if word == b"stop".as_slice() {
        return stop(alloc, scratch, bytes);
    }
    if word == b"trigger".as_slice() {
        return trigger(alloc, scratch, bytes);
    }
    if word == b"served".as_slice() {
        return served(alloc, scratch, bytes);
    }
    if word == b"start".as_slice() {
        return start(alloc, scratch, bytes);
    }
    if word == b"load".as_slice() {
        return load(alloc, scratch, bytes);
    }
    Err(ReadError::Refused)
}

/// The entry that begins with this word.
fn entry_of<'a>(
    alloc: Global,
    scratch: &mut Vec<u8>,
    word: &[u8],
    bytes: &'a [u8],
) -> Result<(Entry, &'a [u8]), ReadError>
    ensures read { Gives (λ x. (x.0, x.1.now)) result (spec.entry_of word.now bytes.now) }
    ensures range { IfOk result (λ x. IsEntry x.0) }
    ensures wide { IfOk result (λ x. IsWide x.0) }
{
    if word == b"lease".as_slice() {
        return lease(bytes);
    }
    if word == b"ran".as_slice() {
        return ran(bytes);
    }
    if word == b"did".as_slice() {
        return did(alloc, bytes);
    }
    if word == b"ask".as_slice() {
        return ask(bytes);
    }
    if word == b"took".as_slice() {
        return took(bytes);
    }
    if word == b"forward".as_slice() {
        return forward(bytes);
    }
    if word == b"leave".as_slice() {
        return leave(bytes);
    }
    other_entry(alloc, scratch, word, bytes)
}

/// The entry whose line comes first, however it is spelled.
#[tactic(auto, unfolding(crate::specs::Reading::loose_at))]
fn loose<'a>(
    alloc: Global,
    scratch: &mut Vec<u8>,
    bytes: &'a [u8],
) -> Result<(Entry, &'a [u8]), ReadError>
    ensures read { Gives (λ x. (x.0, x.1.now)) result (loose_at bytes.now) }
    ensures range { IfOk result (λ x. IsEntry x.0) }
    ensures wide { IfOk result (λ x. IsWide x.0) }
{
    let (word, rest) = split_word(bytes);
    entry_of(alloc, scratch, word, rest)
}

/// What comes after the line of an entry.
fn after_line<'a>(
    alloc: Global,
    scratch: &mut Vec<u8>,
    entry: &Entry,
    bytes: &'a [u8],
) -> Result<&'a [u8], ReadError>
    ensures { Gives (λ x. x.now) result (after_text (line entry.now) bytes.now) }
{
    scratch.clear();
    put_entry(scratch, alloc, entry)?;
    read_text(scratch, bytes)
}

/// Lets an entry go.
pub(crate) fn discard(_entry: Entry) {}

/// The entry whose line comes first.
#[tactic(auto, unfolding(crate::specs::Reading::entry_at))]
fn compared<'a>(
    alloc: Global,
    scratch: &mut Vec<u8>,
    bytes: &'a [u8],
) -> Result<(Entry, &'a [u8]), ReadError>
    ensures read { Gives (λ x. (x.0, x.1.now)) result (entry_at bytes.now) }
    ensures range { IfOk result (λ x. IsEntry x.0) }
    ensures wide { IfOk result (λ x. IsWide x.0) }
{
    let (entry, _) = loose(alloc, scratch, bytes)?;
    match after_line(alloc, scratch, &entry, bytes) {
        Ok(rest) => Ok((entry, rest)),
        Err(error) => {
            discard(entry);
            Err(error)
        }
    }
}

/// The entry whose line comes first, its newline included, and what comes after it. No other spelling is read than that of
/// `entry_line`. The scratch is overwritten.
pub fn read_entry<'a>(
    alloc: Global,
    scratch: &mut Vec<u8>,
    bytes: &'a [u8],
) -> Result<(Entry, &'a [u8]), ReadError>
    ensures found { IfOk result (λ x. IsFirst bytes.now x.0 x.1.now) }
    ensures none { IfErr result (λ e. NoneIsFirst bytes.now e) }
{
    compared(alloc, scratch, bytes)
}
