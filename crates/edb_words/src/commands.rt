//! The words of commands.

ghost use Rattle.std.specs.Prelude.{ℕ, List, ◌≡◌, ◌++◌, [], ◌∷◌, drop, slice_index_or, map, OnOk, codes};
ghost use Rattle.std.specs.Fmt.{decimal};
ghost use Rattle.edb_lang.specs.TermText.{atom_text, plain_text};
ghost use Rattle.edb_words.specs.Commands.{call_words, call_text, flag_words};
ghost use Rattle.edb_words.specs.Words.{process_word, status_word, action_word, flag_word, after_spaces};

use crate::pieces::{put_name, put_number, put_process, put_text, put_word};
use crate::{ProcessForm, action_name, flag_name, status_name, trace_name};
use edb_event::{AutoFlag, Call, ProcStatus};
use edb_lang::{Action, Name, Term};
use edb_text::put_term;
use std::alloc::{AllocError, Global};

// The first word of a command.
fn first_word(call: &Call) -> &'static str
    ensures { (process : ℕ → List ℕ) → result.now ≡ slice_index_or (call_words process call.now) 0 [] }
{
    match call {
        Call::Start { .. } => "start",
        Call::Load { .. } => "load",
        Call::Ii { .. } => "ii",
        Call::Iq { .. } => "iq",
        Call::Il => "il",
        Call::Ib { .. } | Call::IbIn { .. } => "ib",
        Call::Ir { .. } | Call::IrModule { .. } | Call::IrAll | Call::IrIn { .. } => "ir",
        Call::Ibd { .. } => "ibd",
        Call::Ibe { .. } => "ibe",
        Call::Iba { .. } => "iba",
        Call::Ibc { .. } => "ibc",
        Call::Ipb | Call::IpbModule { .. } => "ipb",
        Call::Ip => "ip",
        Call::Ic => "ic",
        Call::Iaa { .. } => "iaa",
        Call::Ist { .. } => "ist",
        Call::Ia { .. } => "ia",
        Call::Detach { .. } => "detach",
        Call::Step { .. } => "step",
        Call::Next { .. } => "next",
        Call::Finish { .. } => "finish",
        Call::Halt { .. } => "halt",
        Call::Skip { .. } => "skip",
        Call::Kill { .. } => "kill",
        Call::Timeout { .. } => "timeout",
        Call::Continue { .. } => "continue",
        Call::Bindings { .. } => "bindings",
        Call::Frames { .. } => "frames",
        Call::Await { .. } | Call::AwaitAny { .. } => "await",
        Call::Quit => "quit",
    }
}

// Puts the words of a command after its first.
fn put_others(
    out: &mut Vec<u8>,
    alloc: Global,
    call: &Call,
    form: ProcessForm,
) -> Result<(), AllocError>
    ensures { OnOk result (out.new.items ≡ out.old.items
        ++ after_spaces (drop 1 (call_words (process_word form) call.now))) }
{
    match call {
        Call::Start { module, name, args } => put_start_words(out, alloc, module, name, args),
        Call::Load { module, version } => put_line(out, alloc, module, *version),
        Call::Ii { module }
        | Call::Iq { module }
        | Call::IrModule { module }
        | Call::IpbModule { module } => put_name(out, module),
        Call::Ib { module, line }
        | Call::Ir { module, line }
        | Call::Ibd { module, line }
        | Call::Ibe { module, line } => put_line(out, alloc, module, *line),
        Call::IbIn {
            module,
            name,
            arity,
        }
        | Call::IrIn {
            module,
            name,
            arity,
        } => put_clauses(out, alloc, module, name, *arity),
        Call::Iba {
            module,
            line,
            action,
        } => put_action(out, alloc, module, *line, *action),
        Call::Ibc { module, line, cond } => put_condition(out, alloc, module, *line, cond),
        Call::Iaa { flags } => put_flags(out, flags.as_slice()),
        Call::Ist { word } => put_word(out, trace_name(*word)),
        Call::Ia { pid }
        | Call::Detach { pid }
        | Call::Step { pid }
        | Call::Next { pid }
        | Call::Finish { pid }
        | Call::Halt { pid }
        | Call::Skip { pid }
        | Call::Kill { pid }
        | Call::Timeout { pid }
        | Call::Continue { pid }
        | Call::Bindings { pid }
        | Call::Frames { pid } => put_process(out, alloc, *pid, form),
        Call::Await { pid, status } => put_await(out, alloc, *pid, form, *status),
        Call::AwaitAny { status } => put_await_any(out, *status),
        Call::Il | Call::IrAll | Call::Ipb | Call::Ip | Call::Ic | Call::Quit => Ok(()),
    }
}

// Puts the words of a start after its first.
#[tactic(auto, unfolding(edb_lang::specs::TermText::plain_text))]
fn put_start_words(
    out: &mut Vec<u8>,
    alloc: Global,
    module: &Name,
    name: &Name,
    args: &Term,
) -> Result<(), AllocError>
    ensures { OnOk result (out.new.items ≡ out.old.items
        ++ after_spaces (atom_text «module».now ∷ atom_text name.now ∷ plain_text args.now ∷ [])) }
{
    put_name(out, module)?;
    put_name(out, name)?;
    put_text(out, " ")?;
    put_term(out, alloc, args, false, false)
}

// Puts a module and a number: of a line, or of a version.
fn put_line(out: &mut Vec<u8>, alloc: Global, module: &Name, number: u32) -> Result<(), AllocError>
    ensures { OnOk result (out.new.items ≡ out.old.items
        ++ after_spaces (atom_text «module».now ∷ decimal number ∷ [])) }
{
    put_name(out, module)?;
    put_number(out, alloc, u64::from(number))
}

// Puts a module, a function and an arity.
fn put_clauses(
    out: &mut Vec<u8>,
    alloc: Global,
    module: &Name,
    name: &Name,
    arity: u32,
) -> Result<(), AllocError>
    ensures { OnOk result (out.new.items ≡ out.old.items
        ++ after_spaces (atom_text «module».now ∷ atom_text name.now ∷ decimal arity ∷ [])) }
{
    put_name(out, module)?;
    put_name(out, name)?;
    put_number(out, alloc, u64::from(arity))
}

// Puts a line of a module, and what becomes of its breakpoint.
fn put_action(
    out: &mut Vec<u8>,
    alloc: Global,
    module: &Name,
    line: u32,
    action: Action,
) -> Result<(), AllocError>
    ensures { OnOk result (out.new.items ≡ out.old.items
        ++ after_spaces (atom_text «module».now ∷ decimal line ∷ action_word action ∷ [])) }
{
    put_line(out, alloc, module, line)?;
    put_word(out, action_name(action))
}

// Puts a line of a module, and the module and the name of a condition.
fn put_condition(
    out: &mut Vec<u8>,
    alloc: Global,
    module: &Name,
    line: u32,
    cond: &(Name, Name),
) -> Result<(), AllocError>
    ensures { OnOk result (out.new.items ≡ out.old.items
        ++ after_spaces (atom_text «module».now ∷ decimal line ∷ atom_text cond.now.0 ∷ atom_text cond.now.1 ∷ [])) }
{
    put_line(out, alloc, module, line)?;
    put_name(out, &cond.0)?;
    put_name(out, &cond.1)
}

// Puts a process, and the status that it is waited for to have.
fn put_await(
    out: &mut Vec<u8>,
    alloc: Global,
    pid: u32,
    form: ProcessForm,
    status: ProcStatus,
) -> Result<(), AllocError>
    ensures { OnOk result (out.new.items ≡ out.old.items
        ++ after_spaces (process_word form pid ∷ status_word status ∷ [])) }
{
    put_process(out, alloc, pid, form)?;
    put_word(out, status_name(status))
}

// Puts the word for any process, and the status that it is waited for to have.
fn put_await_any(out: &mut Vec<u8>, status: ProcStatus) -> Result<(), AllocError>
    ensures { OnOk result (out.new.items ≡ out.old.items
        ++ after_spaces (codes "any" ∷ status_word status ∷ [])) }
{
    put_word(out, "any")?;
    put_word(out, status_name(status))
}

// Puts flags, or the word for none.
fn put_flags(out: &mut Vec<u8>, flags: &[AutoFlag]) -> Result<(), AllocError>
    ensures { OnOk result (out.new.items ≡ out.old.items ++ after_spaces (flag_words flags.now)) }
{
    if flags.is_empty() {
        put_word(out, "false")
    } else {
        put_each_flag(out, flags)
    }
}

// Puts the words for flags.
fn put_each_flag(out: &mut Vec<u8>, flags: &[AutoFlag]) -> Result<(), AllocError>
    ensures { OnOk result (out.new.items ≡ out.old.items ++ after_spaces (map flag_word flags.now)) }
{
    for flag in flags {
        put_word(out, flag_name(*flag))?;
    }
    Ok(())
}

/// Puts a command: its words by the commands' table, with one space between them, its process in this
/// form. The only error is out of memory.
pub fn put_call(
    out: &mut Vec<u8>,
    alloc: Global,
    call: &Call,
    form: ProcessForm,
) -> Result<(), AllocError>
    ensures { OnOk result (out.new.items ≡ out.old.items ++ call_text (process_word form) call.now) }
{
    put_text(out, first_word(call))?;
    put_others(out, alloc, call, form)
}
