//! The texts of entries.

ghost use Rattle.std.specs.Prelude.{◌≡◌, ◌++◌, [], ◌∷◌, length, IfOk, OnOk, codes};
ghost use Rattle.std.specs.Fmt.{decimal};
ghost use Rattle.edb_lang.specs.Terms.{elements};
ghost use Rattle.edb_lang.specs.TermText.{atom_text};
ghost use Rattle.edb_words.specs.Commands.{call_text};
ghost use Rattle.edb_words.specs.Words.{angled, action_word};
ghost use Rattle.edb_report.specs.Places.{place_text, function_text};
ghost use Rattle.edb_report.specs.Replies.{reply_text};
ghost use Rattle.edb_report.specs.Rendering.{line, exit_line, trigger_line, entry_text, transcript};

use crate::places::{put_function, put_place};
use crate::replies::put_reply;
use edb_event::{Call, Entry, Reply};
use edb_lang::{ActKind, Action, Bytes, Name, Node, Term};
use edb_words::ProcessForm::Angled;
use edb_words::{action_name, put_call, put_name, put_number, put_process, put_text, put_word};
use std::alloc::{AllocError, Global};

// How many elements a list term has, up to its end. It takes no memory. A list of 2^64 cells fits no
// memory, and such a count is answered as out of memory.
fn count_elements(list: &Term) -> Result<u64, AllocError>
    ensures { IfOk result (λ n. n ≡ length (elements list.now)) }
{
    let mut count = 0u64;
    let mut at = list;
    while let Node::List(cell) = &at.node {
        let Some(more) = count.checked_add(1) else {
            return Err(AllocError);
        };
        count = more;
        at = &cell.tail;
    }
    Ok(count)
}

// Puts a space and a function that is called with the elements of a list.
fn put_applied(
    out: &mut Vec<u8>,
    alloc: Global,
    module: &Name,
    name: &Name,
    args: &Term,
) -> Result<(), AllocError>
    ensures { OnOk result (out.new.items ≡ out.old.items
        ++ (codes " " ++ function_text «module».now name.now (length (elements args.now)))) }
{
    let arity = count_elements(args)?;
    put_function(out, alloc, module, name, arity)
}

// Puts the head of a line that says what a console did, in a word.
fn put_head(out: &mut Vec<u8>, alloc: Global, console: u32, word: &str) -> Result<(), AllocError>
    ensures { OnOk result (out.new.items ≡ out.old.items
        ++ (codes "-- " ++ decimal console ++ codes " " ++ word.now)) }
{
    put_text(out, "--")?;
    put_number(out, alloc, u64::from(console))?;
    put_word(out, word)
}

// Puts the line of a start.
fn put_start(
    out: &mut Vec<u8>,
    alloc: Global,
    console: u32,
    pid: u32,
    module: &Name,
    name: &Name,
    args: &Term,
) -> Result<(), AllocError>
    ensures { OnOk result (out.new.items ≡ out.old.items
        ++ line (decimal console ∷ codes "start" ∷ angled pid
        ∷ function_text «module».now name.now (length (elements args.now)) ∷ [])) }
{
    put_head(out, alloc, console, "start")?;
    put_process(out, alloc, pid, Angled)?;
    put_applied(out, alloc, module, name, args)?;
    put_text(out, "\n")
}

// Puts the line of a module that became current.
fn put_load(
    out: &mut Vec<u8>,
    alloc: Global,
    console: u32,
    module: &Name,
    version: u32,
) -> Result<(), AllocError>
    ensures { OnOk result (out.new.items ≡ out.old.items
        ++ line (decimal console ∷ codes "load" ∷ atom_text «module».now ∷ decimal version ∷ [])) }
{
    put_head(out, alloc, console, "load")?;
    put_name(out, module)?;
    put_number(out, alloc, u64::from(version))?;
    put_text(out, "\n")
}

// Puts the lines of a command that was answered.
fn put_served(
    out: &mut Vec<u8>,
    alloc: Global,
    console: u32,
    call: &Call,
    reply: &Reply,
) -> Result<(), AllocError>
    ensures { OnOk result (out.new.items ≡ out.old.items
        ++ line (decimal console ∷ (call_text angled call.now ++ codes ":") ∷ reply_text reply.now ∷ [])) }
{
    put_text(out, "--")?;
    put_number(out, alloc, u64::from(console))?;
    put_text(out, " ")?;
    put_call(out, alloc, call, Angled)?;
    put_text(out, ": ")?;
    put_reply(out, alloc, reply)?;
    put_text(out, "\n")
}

// Puts the line of a process that ended.
fn put_exit(out: &mut Vec<u8>, alloc: Global, pid: u32, reason: &Bytes) -> Result<(), AllocError>
    ensures { OnOk result (out.new.items ≡ out.old.items ++ exit_line pid reason.now) }
{
    put_text(out, "--")?;
    put_process(out, alloc, pid, Angled)?;
    put_text(out, " exit ")?;
    out.extend_from_slice(reason.as_slice())?;
    put_text(out, "\n")
}

// Puts the line of a process that stopped.
fn put_stop(
    out: &mut Vec<u8>,
    alloc: Global,
    pid: u32,
    module: &Name,
    at: u32,
    level: u64,
) -> Result<(), AllocError>
    ensures { OnOk result (out.new.items ≡ out.old.items
        ++ line (angled pid ∷ codes "stop" ∷ place_text «module».now at ∷ codes "level" ∷ decimal level ∷ [])) }
{
    put_text(out, "--")?;
    put_process(out, alloc, pid, Angled)?;
    put_word(out, "stop")?;
    put_place(out, alloc, module, at)?;
    put_word(out, "level")?;
    put_number(out, alloc, level)?;
    put_text(out, "\n")
}

// Puts what a process printed, or the line of its end; nothing for its other acts.
fn put_act(
    out: &mut Vec<u8>,
    alloc: Global,
    pid: u32,
    kind: ActKind,
    value: &Bytes,
    bytes: &Bytes,
) -> Result<(), AllocError>
    ensures { OnOk result (out.new.items ≡ out.old.items
        ++ entry_text (Entry.Did pid kind value.now bytes.now)) }
{
    match kind {
        ActKind::Print => {
            out.extend_from_slice(bytes.as_slice())?;
            Ok(())
        }
        ActKind::End => put_exit(out, alloc, pid, value),
        _ => Ok(()),
    }
}

// Puts the line of a process that a signal ended, if it did.
fn put_signal(
    out: &mut Vec<u8>,
    alloc: Global,
    pid: u32,
    ended: &Option<Bytes>,
) -> Result<(), AllocError>
    ensures { OnOk result (out.new.items ≡ out.old.items ++ entry_text (Entry.Signal pid ended.now)) }
{
    match ended {
        Some(reason) => put_exit(out, alloc, pid, reason),
        None => Ok(()),
    }
}

// Puts the line of what became of a breakpoint.
fn put_trigger(
    out: &mut Vec<u8>,
    alloc: Global,
    pid: u32,
    module: &Name,
    at: u32,
    action: Action,
) -> Result<(), AllocError>
    ensures { OnOk result (out.new.items ≡ out.old.items
        ++ trigger_line pid «module».now at (action_word action)) }
{
    put_text(out, "--")?;
    put_process(out, alloc, pid, Angled)?;
    put_word(out, "trigger")?;
    put_place(out, alloc, module, at)?;
    put_word(out, action_name(action))?;
    put_text(out, "\n")
}

// Puts the line of a clock that went on.
fn put_time(out: &mut Vec<u8>, alloc: Global, clock: u64) -> Result<(), AllocError>
    ensures { OnOk result (out.new.items ≡ out.old.items ++ line (codes "time" ∷ decimal clock ∷ [])) }
{
    put_text(out, "-- time")?;
    put_number(out, alloc, clock)?;
    put_text(out, "\n")
}

// Puts the lines of an entry.
fn put_entry(out: &mut Vec<u8>, alloc: Global, entry: &Entry) -> Result<(), AllocError>
    ensures { OnOk result (out.new.items ≡ out.old.items ++ entry_text entry.now) }
{
    match entry {
        Entry::Start {
            console,
            pid,
            module,
            name,
            args,
        } => put_start(out, alloc, *console, *pid, module, name, args),
        Entry::Load {
            console,
            module,
            version,
        } => put_load(out, alloc, *console, module, *version),
        Entry::Did {
            pid,
            kind,
            value,
            bytes,
        } => put_act(out, alloc, *pid, *kind, value, bytes),
        Entry::Signal { to, ended } => put_signal(out, alloc, *to, ended),
        Entry::Advance { clock } => put_time(out, alloc, *clock),
        Entry::Stop {
            pid,
            module,
            line,
            level,
            ..
        } => put_stop(out, alloc, *pid, module, *line, *level),
        Entry::Trigger {
            pid,
            module,
            line,
            action,
            applied,
            ..
        } if *applied && *action != Action::Enable => put_trigger(
            out, alloc, *pid, module, *line, *action,
        ),
        Entry::Served {
            console,
            call,
            reply,
        } => put_served(out, alloc, *console, call, reply),
        _ => Ok(()),
    }
}

/// The lines of an entry, each with its end: no bytes for one that the transcript passes over, and what a
/// process printed as it was. The only error is out of memory.
pub fn entry_text(alloc: Global, entry: &Entry) -> Result<Bytes, AllocError>
    ensures { IfOk result (λ lines. lines ≡ entry_text entry.now) }
{
    let mut out = Vec::new(alloc);
    put_entry(&mut out, alloc, entry)?;
    Ok(Bytes::from_vec(out))
}

/// The transcript of entries: the lines of each, in order. The only error is out of memory. Only tests
/// call it: a session writes its transcript entry by entry.
pub fn render(alloc: Global, entries: &[Entry]) -> Result<Bytes, AllocError>
    ensures { IfOk result (λ text. text ≡ transcript entries.now) }
{
    let mut out = Vec::new(alloc);
    for entry in entries {
        put_entry(&mut out, alloc, entry)?;
    }
    Ok(Bytes::from_vec(out))
}
