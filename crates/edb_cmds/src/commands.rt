//! The line of a command.

ghost use Rattle.std.specs.Prelude.{◌≡◌, ◌≢◌, ◌≤◌, List, ℕ, length, IfOk, MatchOption, MatchBool};
ghost use Rattle.edb_event.specs.declared.call.Command.{Command as Spoken};
ghost use Rattle.edb_cmds.specs.declared.commands.Kind.{Kind as Sort};
ghost use Rattle.edb_cmds.specs.CommandLines.{IsBlankLine, IsCommandLine};
ghost use Rattle.edb_cmds.specs.Kinds.{word_of, Behind};
ghost use Rattle.edb_cmds.specs.Script.{longest_script};

use crate::fields::{read_module, read_module_line, read_process, read_process_status, split_word};
use crate::script::read_start;
use crate::words::skip_spaces;
use edb_event::{Call, Command, Word};
use std::alloc::{AllocError, Global};

// The commands, by their first words.
#[derive(Clone, Copy)]
enum Kind {
    Start,
    Ii,
    Ib,
    Await,
    Ia,
    Bindings,
    Continue,
}

// The kind of the command that begins with a word.
fn kind_of(word: &[u8]) -> Option<Kind>
    ensures { MatchOption result ((kind : Sort) → word.now ≢ word_of kind) (λ kind. word.now ≡ word_of kind) }
{
    if word == b"start".as_slice() {
        return Some(Kind::Start);
    }
    if word == b"ii".as_slice() {
        return Some(Kind::Ii);
    }
    if word == b"ib".as_slice() {
        return Some(Kind::Ib);
    }
    if word == b"await".as_slice() {
        return Some(Kind::Await);
    }
    if word == b"ia".as_slice() {
        return Some(Kind::Ia);
    }
    if word == b"bindings".as_slice() {
        return Some(Kind::Bindings);
    }
    if word == b"continue".as_slice() {
        return Some(Kind::Continue);
    }
    None
}

fn start_command(alloc: Global, line: &[u8]) -> Result<Option<Command>, AllocError>
    requires { length line.now ≤ longest_script }
    ensures { (rest : List ℕ) → IfOk result (λ r. MatchOption r ((c : Spoken) → Behind Kind.Start line.now rest c → ⊥) (λ c. Behind Kind.Start line.now rest c)) }
{
    let Some(start) = read_start(alloc, line)? else {
        return Ok(None);
    };
    Ok(Some(Command {
        call: Call::Start {
            module: start.home,
            name: start.name,
            args: start.args,
        },
        word: Word::Absent,
    }))
}

fn ii_command(alloc: Global, rest: &[u8]) -> Result<Option<Command>, AllocError>
    ensures { (line : List ℕ) → IfOk result (λ r. MatchOption r ((c : Spoken) → Behind Kind.Ii line rest.now c → ⊥) (λ c. Behind Kind.Ii line rest.now c)) }
{
    let Some(module) = read_module(alloc, rest)? else {
        return Ok(None);
    };
    Ok(Some(Command {
        call: Call::Ii { module },
        word: Word::Absent,
    }))
}

fn ib_command(alloc: Global, rest: &[u8]) -> Result<Option<Command>, AllocError>
    ensures { (text : List ℕ) → IfOk result (λ r. MatchOption r ((c : Spoken) → Behind Kind.Ib text rest.now c → ⊥) (λ c. Behind Kind.Ib text rest.now c)) }
{
    let Some((module, line)) = read_module_line(alloc, rest)? else {
        return Ok(None);
    };
    Ok(Some(Command {
        call: Call::Ib { module, line },
        word: Word::Absent,
    }))
}

fn await_command(rest: &[u8]) -> Option<Command>
    ensures { (line : List ℕ) → MatchOption result ((c : Spoken) → Behind Kind.Await line rest.now c → ⊥) (λ c. Behind Kind.Await line rest.now c) }
{
    match read_process_status(rest) {
        Some((word, status)) => Some(Command {
            call: Call::Await { pid: 0, status },
            word,
        }),
        None => None,
    }
}

fn ia_command(rest: &[u8]) -> Option<Command>
    ensures { (line : List ℕ) → MatchOption result ((c : Spoken) → Behind Kind.Ia line rest.now c → ⊥) (λ c. Behind Kind.Ia line rest.now c) }
{
    match read_process(rest) {
        Some(word) => Some(Command {
            call: Call::Ia { pid: 0 },
            word,
        }),
        None => None,
    }
}

fn bindings_command(rest: &[u8]) -> Option<Command>
    ensures { (line : List ℕ) → MatchOption result ((c : Spoken) → Behind Kind.Bindings line rest.now c → ⊥) (λ c. Behind Kind.Bindings line rest.now c) }
{
    match read_process(rest) {
        Some(word) => Some(Command {
            call: Call::Bindings { pid: 0 },
            word,
        }),
        None => None,
    }
}

fn continue_command(rest: &[u8]) -> Option<Command>
    ensures { (line : List ℕ) → MatchOption result ((c : Spoken) → Behind Kind.Continue line rest.now c → ⊥) (λ c. Behind Kind.Continue line rest.now c) }
{
    match read_process(rest) {
        Some(word) => Some(Command {
            call: Call::Continue { pid: 0 },
            word,
        }),
        None => None,
    }
}

// The command of a line of this kind, behind whose first word this stands.
fn read_kind(
    alloc: Global,
    kind: Kind,
    line: &[u8],
    rest: &[u8],
) -> Result<Option<Command>, AllocError>
    requires { length line.now ≤ longest_script }
    ensures { IfOk result (λ r. MatchOption r ((c : Spoken) → Behind kind line.now rest.now c → ⊥) (λ c. Behind kind line.now rest.now c)) }
{
    match kind {
        Kind::Start => start_command(alloc, line),
        Kind::Ii => ii_command(alloc, rest),
        Kind::Ib => ib_command(alloc, rest),
        Kind::Await => Ok(await_command(rest)),
        Kind::Ia => Ok(ia_command(rest)),
        Kind::Bindings => Ok(bindings_command(rest)),
        Kind::Continue => Ok(continue_command(rest)),
    }
}

/// The command that a line gives.
pub fn read_command(alloc: Global, line: &[u8]) -> Result<Option<Command>, AllocError>
    requires { length line.now ≤ longest_script }
    ensures { IfOk result (λ r. MatchOption r ((c : Spoken) → IsCommandLine line.now c → ⊥) (λ c. IsCommandLine line.now c)) }
{
    let (word, rest) = split_word(skip_spaces(line));
    match kind_of(word) {
        Some(kind) => read_kind(alloc, kind, line, rest),
        None => Ok(None),
    }
}

/// Whether a line is blank.
pub fn is_blank(line: &[u8]) -> bool
    ensures { MatchBool result (IsBlankLine line.now) (IsBlankLine line.now → ⊥) }
{
    match skip_spaces(line).first() {
        Some(byte) => *byte == b'%',
        None => true,
    }
}
