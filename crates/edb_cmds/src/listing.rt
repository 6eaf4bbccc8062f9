//! Scripts of one console.

ghost use Rattle.std.specs.Prelude.{◌≡◌, ◌+◌, ◌-◌, ◌<◌, ◌≤◌, List, ℕ, [], ◌∷◌, length, IfOk, MatchOption, MatchResult, MatchBool};
ghost use Rattle.edb_event.specs.declared.call.Command.{Command as Spoken};
ghost use Rattle.edb_event.specs.Ranges.{AreCommands};
ghost use Rattle.edb_cmds.specs.Listing.{is_start, starts, IsBad, IsScriptOf, IsScriptFault};
ghost use Rattle.edb_cmds.specs.Progress.{Counts, GoesOn};
ghost use Rattle.edb_cmds.specs.Script.{longest_script};

use crate::commands::{is_blank, read_command};
use crate::script::{LONGEST_SCRIPT, ScriptFault, split_line};
use edb_event::{Call, Command};
use std::alloc::{AllocError, Global};

// Whether a command starts a process.
fn is_start_command(command: &Command) -> bool
    ensures { result ≡ is_start command.now }
{
    match &command.call {
        Call::Start { .. } => true,
        _ => false,
    }
}

fn discard(_command: Command) {}

// The refusal at a line, where these commands were read before.
fn refuse(_commands: Vec<Command>, line: u32) -> ScriptFault
    ensures { result.line ≡ line }
{
    ScriptFault { line }
}

// Puts the command of a line behind the others, and says whether there is a start now; nothing where
// the line is bad.
fn take_line(
    alloc: Global,
    commands: &mut Vec<Command>,
    started: bool,
    line: &[u8],
) -> Result<Option<bool>, AllocError>
    requires short { length line.now ≤ longest_script }
    requires counted { Counts started commands.old.items }
    ensures { IfOk result (λ r. MatchOption r (IsBad (starts commands.old.items) (line.now ∷ [])) (λ now. GoesOn commands.old.items line.now commands.new.items × Counts now commands.new.items)) }
{
    if is_blank(line) {
        return Ok(Some(started));
    }
    let Some(command) = read_command(alloc, line)? else {
        return Ok(None);
    };
    let starts = is_start_command(&command);
    if starts && started {
        discard(command);
        return Ok(None);
    }
    commands.push(command)?;
    Ok(Some(started || starts))
}

// Whether the first line of what is left of a text reaches the limit, where the text passes it.
fn reaches_limit(whole: usize, left: usize, line: usize) -> bool
    requires within { left ≤ whole }
    requires first { line ≤ left }
    ensures { MatchBool result ((longest_script < whole) × (longest_script ≤ whole - left + line)) (longest_script < whole → whole - left + line < longest_script) }
{
    if whole <= LONGEST_SCRIPT {
        return false;
    }
    whole - left + line >= LONGEST_SCRIPT
}

/// The commands of a script of one console, in order; of one that is refused, the first bad line, or the
/// line behind the last where there is no start, but no line past that of the byte at 1,000,000.
/// Refused besides only for want of memory.
pub fn read_commands(
    alloc: Global,
    bytes: &[u8],
) -> Result<Result<Vec<Command>, ScriptFault>, AllocError>
    ensures answer { IfOk result (λ r. MatchResult r (λ commands. IsScriptOf bytes.now commands.items) (λ fault. IsScriptFault bytes.now fault.line)) }
    ensures ranges { IfOk result (λ r. IfOk r (λ commands. AreCommands commands.items)) }
{
    let mut commands = Vec::new(alloc);
    let mut started = false;
    let mut line = 1u32;
    let mut rest = bytes;
    while !rest.is_empty() {
        let (first, others) = split_line(rest);
        if reaches_limit(bytes.len(), rest.len(), first.len()) {
            return Ok(Err(refuse(commands, line)));
        }
        let Some(now) = take_line(alloc, &mut commands, started, first)? else {
            return Ok(Err(refuse(commands, line)));
        };
        started = now;
        rest = others;
        line += 1;
    }
    if !started {
        return Ok(Err(refuse(commands, line)));
    }
    Ok(Ok(commands))
}

/// The law that a text has one answer: no two lists of commands, no two lines at which it is refused, and
/// never both.
pub fn one_listing()
    ensures one { (bytes : List ℕ) (cs ds : List Spoken) → IsScriptOf bytes cs → IsScriptOf bytes ds → cs ≡ ds }
    ensures never_both { (bytes : List ℕ) (cs : List Spoken) (n : ℕ) → IsScriptOf bytes cs → IsScriptFault bytes n → ⊥ }
    ensures one_line { (bytes : List ℕ) (n k : ℕ) → IsScriptFault bytes n → IsScriptFault bytes k → n ≡ k }
{}
