//! The lines of entries.

ghost use Rattle.std.specs.Prelude.{◌≡◌, ◌++◌, ◌∷◌, [], OnOk, IfOk, codes};
ghost use Rattle.std.specs.Fmt.{decimal};
ghost use Rattle.edb_event.specs.declared.entry.Entry.TheVariants as entry;
ghost use Rattle.edb_fields.specs.Separators.{fields};
ghost use Rattle.edb_lang.specs.TermText.{atom_text, plain_text};
ghost use Rattle.edb_words.specs.Words.{after_spaces};
ghost use Rattle.edb_journal.specs.Lines.{line, cause_fields};

use crate::replies::put_reply;
use edb_event::{Call, Cause, Entry, Reply};
use edb_fields::{put_bytes, put_u128};
use edb_lang::{ActKind, Action, Bytes, Name, Term};
use edb_text::put_term;
use edb_words::{
    ProcessForm, action_name, kind_name, put_call, put_name, put_number, put_text, put_word,
};
use std::alloc::{AllocError, Global};

/// Puts a line of a word and a number.
fn put_one(out: &mut Vec<u8>, alloc: Global, word: &str, number: u64) -> Result<(), AllocError>
    ensures { OnOk result (out.new.items ≡ out.old.items ++ (word.now ++ fields (decimal number ∷ []))) }
{
    put_text(out, word)?;
    put_number(out, alloc, number)?;
    put_text(out, "\n")
}

/// Puts a line of a word and two numbers.
fn put_two(
    out: &mut Vec<u8>,
    alloc: Global,
    word: &str,
    first: u32,
    second: u32,
) -> Result<(), AllocError>
    ensures { OnOk result (out.new.items ≡ out.old.items ++ (word.now ++ fields (decimal first ∷ decimal second ∷ []))) }
{
    put_text(out, word)?;
    put_number(out, alloc, u64::from(first))?;
    put_number(out, alloc, u64::from(second))?;
    put_text(out, "\n")
}

/// Puts the line of a slice.
fn put_ran(
    out: &mut Vec<u8>,
    alloc: Global,
    pid: u32,
    moves: u32,
    cond: u32,
) -> Result<(), AllocError>
    ensures { OnOk result (out.new.items ≡ out.old.items ++ line (entry.Ran pid moves cond)) }
{
    put_text(out, "ran")?;
    put_number(out, alloc, u64::from(pid))?;
    put_number(out, alloc, u64::from(moves))?;
    put_number(out, alloc, u64::from(cond))?;
    put_text(out, "\n")
}

/// Puts two numbers, each after a space.
fn put_pair(out: &mut Vec<u8>, alloc: Global, first: u32, second: u32) -> Result<(), AllocError>
    ensures { OnOk result (out.new.items ≡ out.old.items ++ after_spaces (decimal first ∷ decimal second ∷ [])) }
{
    put_number(out, alloc, u64::from(first))?;
    put_number(out, alloc, u64::from(second))
}

/// Puts two atoms, each after a space.
fn put_names(out: &mut Vec<u8>, module: &Name, name: &Name) -> Result<(), AllocError>
    ensures { OnOk result (out.new.items ≡ out.old.items ++ after_spaces (atom_text «module».now ∷ atom_text name.now ∷ [])) }
{
    put_name(out, module)?;
    put_name(out, name)
}

/// Puts a list after a space, and the end of the line.
#[tactic(auto, unfolding(edb_fields::specs::Separators::fields, edb_lang::specs::TermText::plain_text))]
fn put_args(out: &mut Vec<u8>, alloc: Global, args: &Term) -> Result<(), AllocError>
    ensures { OnOk result (out.new.items ≡ out.old.items ++ fields (plain_text args.now ∷ [])) }
{
    put_text(out, " ")?;
    put_term(out, alloc, args, false, false)?;
    put_text(out, "\n")
}

/// Puts the line of a start.
fn put_start(
    out: &mut Vec<u8>,
    alloc: Global,
    console: u32,
    pid: u32,
    module: &Name,
    name: &Name,
    args: &Term,
) -> Result<(), AllocError>
    ensures { OnOk result (out.new.items ≡ out.old.items ++ line (entry.Start console pid «module».now name.now args.now)) }
{
    put_text(out, "start")?;
    put_pair(out, alloc, console, pid)?;
    put_names(out, module, name)?;
    put_args(out, alloc, args)
}

/// Puts the line of a load.
fn put_load(
    out: &mut Vec<u8>,
    alloc: Global,
    console: u32,
    module: &Name,
    version: u32,
) -> Result<(), AllocError>
    ensures { OnOk result (out.new.items ≡ out.old.items ++ line (entry.Load console «module».now version)) }
{
    put_text(out, "load")?;
    put_number(out, alloc, u64::from(console))?;
    put_name(out, module)?;
    put_number(out, alloc, u64::from(version))?;
    put_text(out, "\n")
}

/// Puts the line of a process that asks for an act.
fn put_ask(out: &mut Vec<u8>, alloc: Global, pid: u32, kind: ActKind) -> Result<(), AllocError>
    ensures { OnOk result (out.new.items ≡ out.old.items ++ line (entry.Ask pid kind)) }
{
    put_text(out, "ask")?;
    put_number(out, alloc, u64::from(pid))?;
    put_word(out, kind_name(kind))?;
    put_text(out, "\n")
}

/// Puts the line of an act.
fn put_did(
    out: &mut Vec<u8>,
    alloc: Global,
    pid: u32,
    kind: ActKind,
    value: &Bytes,
    bytes: &Bytes,
) -> Result<(), AllocError>
    ensures { OnOk result (out.new.items ≡ out.old.items ++ line (entry.Did pid kind value.now bytes.now)) }
{
    put_text(out, "did")?;
    put_number(out, alloc, u64::from(pid))?;
    put_word(out, kind_name(kind))?;
    put_bytes(out, value.as_slice())?;
    put_bytes(out, bytes.as_slice())?;
    put_text(out, "\n")
}

/// Puts the line of a process that comes to interpreted code.
fn put_enter(
    out: &mut Vec<u8>,
    alloc: Global,
    pid: u32,
    module: &Name,
    name: &Name,
    arity: u32,
) -> Result<(), AllocError>
    ensures { OnOk result (out.new.items ≡ out.old.items ++ line (entry.Enter pid «module».now name.now arity)) }
{
    put_text(out, "enter")?;
    put_number(out, alloc, u64::from(pid))?;
    put_name(out, module)?;
    put_name(out, name)?;
    put_number(out, alloc, u64::from(arity))?;
    put_text(out, "\n")
}

/// Puts the line of a signal.
fn put_signal(
    out: &mut Vec<u8>,
    alloc: Global,
    to: u32,
    ended: &Option<Bytes>,
) -> Result<(), AllocError>
    ensures { OnOk result (out.new.items ≡ out.old.items ++ line (entry.Signal to ended.now)) }
{
    put_text(out, "signal")?;
    put_number(out, alloc, u64::from(to))?;
    match ended {
        Some(reason) => {
            put_bytes(out, reason.as_slice())?;
            put_text(out, "\n")
        }
        None => put_text(out, "\n"),
    }
}

/// Puts a process, a module and a line of it, each after a space.
fn put_place(
    out: &mut Vec<u8>,
    alloc: Global,
    pid: u32,
    module: &Name,
    place: u32,
) -> Result<(), AllocError>
    ensures { OnOk result (out.new.items ≡ out.old.items ++ after_spaces (decimal pid ∷ atom_text «module».now ∷ decimal place ∷ [])) }
{
    put_number(out, alloc, u64::from(pid))?;
    put_name(out, module)?;
    put_number(out, alloc, u64::from(place))
}

/// Puts why a process stopped, and the end of the line.
fn put_cause(out: &mut Vec<u8>, alloc: Global, by: Cause) -> Result<(), AllocError>
    ensures { OnOk result (out.new.items ≡ out.old.items ++ fields (cause_fields by)) }
{
    match by {
        Cause::Order => put_text(out, " order\n"),
        Cause::Break(serial) => {
            put_word(out, "break")?;
            put_u128(out, alloc, serial)?;
            put_text(out, "\n")
        }
    }
}

/// Puts the line of a stop.
fn put_stop(
    out: &mut Vec<u8>,
    alloc: Global,
    pid: u32,
    module: &Name,
    place: u32,
    level: u64,
    by: Cause,
) -> Result<(), AllocError>
    ensures { OnOk result (out.new.items ≡ out.old.items ++ line (entry.Stop pid «module».now place level by)) }
{
    put_text(out, "stop")?;
    put_place(out, alloc, pid, module, place)?;
    put_number(out, alloc, level)?;
    put_cause(out, alloc, by)
}

/// Puts the line of a trigger.
fn put_trigger(
    out: &mut Vec<u8>,
    alloc: Global,
    pid: u32,
    module: &Name,
    place: u32,
    serial: u128,
    action: Action,
    applied: bool,
) -> Result<(), AllocError>
    ensures { OnOk result (out.new.items ≡ out.old.items ++ line (entry.Trigger pid «module».now place serial action applied)) }
{
    put_text(out, "trigger")?;
    put_place(out, alloc, pid, module, place)?;
    put_u128(out, alloc, serial)?;
    put_word(out, action_name(action))?;
    if applied {
        put_text(out, " 1\n")
    } else {
        put_text(out, " 0\n")
    }
}

/// Puts the line of a command that was answered.
#[tactic(auto, using(crate::proofs::ServedLaws::served_line))]
fn put_served(
    out: &mut Vec<u8>,
    alloc: Global,
    console: u32,
    call: &Call,
    reply: &Reply,
) -> Result<(), AllocError>
    ensures { OnOk result (out.new.items ≡ out.old.items ++ line (entry.Served console call.now reply.now)) }
{
    put_text(out, "served")?;
    put_number(out, alloc, u64::from(console))?;
    put_text(out, " ")?;
    put_call(out, alloc, call, ProcessForm::Plain)?;
    put_text(out, " =")?;
    put_reply(out, alloc, reply)?;
    put_text(out, "\n")
}

/// Puts the line of an entry. `AllocError` only if out of memory: a part of it may then be put.
pub fn put_entry(out: &mut Vec<u8>, alloc: Global, entry: &Entry) -> Result<(), AllocError>
    ensures { OnOk result (out.new.items ≡ out.old.items ++ line entry.now) }
{
    match entry {
        Entry::Start {
            console,
            pid,
            module,
            name,
            args,
        } => put_start(out, alloc, *console, *pid, module, name, args),
        Entry::Load {
            console,
            module,
            version,
        } => put_load(out, alloc, *console, module, *version),
        Entry::Skip { console, pid } => put_two(out, alloc, "skip", *console, *pid),
        Entry::Kill { console, pid } => put_two(out, alloc, "kill", *console, *pid),
        Entry::Expire { console, pid } => put_two(out, alloc, "expire", *console, *pid),
        Entry::Lease { pid, budget } => put_two(out, alloc, "lease", *pid, *budget),
        Entry::Ran { pid, moves, cond } => put_ran(out, alloc, *pid, *moves, *cond),
        Entry::Ask { pid, kind } => put_ask(out, alloc, *pid, *kind),
        Entry::Did {
            pid,
            kind,
            value,
            bytes,
        } => put_did(out, alloc, *pid, *kind, value, bytes),
        Entry::Took { pid } => put_one(out, alloc, "took", u64::from(*pid)),
        Entry::Forward { pid } => put_one(out, alloc, "forward", u64::from(*pid)),
        Entry::Leave { pid } => put_one(out, alloc, "leave", u64::from(*pid)),
        Entry::Enter {
            pid,
            module,
            name,
            arity,
        } => put_enter(out, alloc, *pid, module, name, *arity),
        Entry::Signal { to, ended } => put_signal(out, alloc, *to, ended),
        Entry::Advance { clock } => put_one(out, alloc, "advance", *clock),
        Entry::Stop {
            pid,
            module,
            line,
            level,
            by,
        } => put_stop(out, alloc, *pid, module, *line, *level, *by),
        Entry::Trigger {
            pid,
            module,
            line,
            serial,
            action,
            applied,
        } => put_trigger(out, alloc, *pid, module, *line, *serial, *action, *applied),
        Entry::Served {
            console,
            call,
            reply,
        } => put_served(out, alloc, *console, call, reply),
    }
}

/// The line of an entry. `AllocError` only if out of memory.
pub fn entry_line(alloc: Global, entry: &Entry) -> Result<Bytes, AllocError>
    ensures { IfOk result (λ bytes. bytes ≡ line entry.now) }
{
    let mut out = Vec::new(alloc);
    put_entry(&mut out, alloc, entry)?;
    Ok(Bytes::from_vec(out))
}
