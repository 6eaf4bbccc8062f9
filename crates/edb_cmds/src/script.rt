//! The lines of a script, and the line of a start.

ghost use Rattle.std.specs.Prelude.{◌≡◌, ◌≤◌, length, IfOk, MatchOption};
ghost use Rattle.edb_cmds.specs.Script.{IsStart, first_line, other_lines, longest_script};

use crate::words::{read_arguments, read_atom, skip_start};
use edb_lang::{Name, Term};
use std::alloc::{AllocError, Global};

/// How many bytes a script may have.
pub const LONGEST_SCRIPT: usize = 1_000_000;

/// A process to be started with the call of `home:name` with the elements of `args`, a proper list.
#[derive(Drop)]
pub struct StartCommand {
    pub home: Name,
    pub name: Name,
    pub args: Term,
}

/// The refusal of a script.
#[derive(Clone, Copy, Drop)]
pub struct ScriptFault {
    /// The first bad line: 1 for the first.
    pub line: u32,
}

/// The first line, and the lines behind it.
pub fn split_line(bytes: &[u8]) -> (&[u8], &[u8])
    ensures line { result.0.now ≡ first_line bytes.now }
    ensures others { result.1.now ≡ other_lines bytes.now }
{
    for (len, byte) in bytes.iter().enumerate() {
        if *byte == b'\n' {
            return (&bytes[..len], &bytes[len + 1..]);
        }
    }
    (bytes, &bytes[bytes.len()..])
}

/// The command of a line, where it is a start.
pub fn read_start(alloc: Global, line: &[u8]) -> Result<Option<StartCommand>, AllocError>
    requires { length line.now ≤ longest_script }
    ensures { IfOk result (λ r. MatchOption r ((command : StartCommand) → IsStart line.now command → ⊥) (λ command. IsStart line.now command)) }
{
    let Some(rest) = skip_start(line) else {
        return Ok(None);
    };
    let Some((home, rest)) = read_atom(alloc, rest)? else {
        return Ok(None);
    };
    let Some((name, rest)) = read_atom(alloc, rest)? else {
        return Ok(None);
    };
    let Some(args) = read_arguments(alloc, rest)? else {
        return Ok(None);
    };
    Ok(Some(StartCommand { home, name, args }))
}
