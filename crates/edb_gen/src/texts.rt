//! The generated module and script.

ghost use Rattle.std.specs.Prelude.{◌≡◌, ◌≤◌, IfOk};
ghost use Rattle.edb_gen.specs.Generated.{module_text, start_text, script_text};

use edb_lang::Bytes;
use std::alloc::{AllocError, Global};

/// The text of the module.
const MODULE: &[u8] = b"-module(gen).
-export([main/1, work/1]).
main(N) ->
    Me = self(),
    tell([spawn(gen, work, [Me]) || _ <- lists:seq(1, N)], 1),
    collect(N, 0).
tell([], _) -> ok;
tell([P | Ps], I) ->
    P ! {add, I},
    tell(Ps, I + 1).
work(Boss) ->
    receive
        {add, I} ->
            Boss ! {done, I * I}
    end.
collect(0, Sum) -> Sum;
collect(N, Sum) ->
    receive
        {done, S} ->
            collect(N - 1, Sum + S)
    end.
";

/// What the console says of each worker: it waits for one that stopped, and lets it go on.
const ROUND: &str = "await any break\ncontinue *\n";

/// A module, and the script that debugs a run of it.
#[derive(Drop)]
pub struct Generated {
    /// The text of the module.
    pub source: Bytes,
    /// The text of the script.
    pub script: Bytes,
}

/// The script's first lines, for a run with so many workers. `Err` comes only out of memory.
fn make_start(alloc: Global, workers: u32) -> Result<Bytes, AllocError>
    ensures { IfOk result (λ text. text ≡ start_text workers) }
{
    let mut text = Bytes::from_slice(alloc, b"ii gen\nib gen 14\nstart gen main [")?;
    text.extend(workers.to_string(alloc)?.as_bytes())?;
    text.extend(b"]\n")?;
    Ok(text)
}

/// The script for a run with so many workers. `Err` comes only out of memory.
fn make_script(alloc: Global, workers: u32) -> Result<Bytes, AllocError>
    ensures { IfOk result (λ script. script ≡ script_text workers) }
{
    let mut script = make_start(alloc, workers)?;
    script.extend(ROUND.repeat(alloc, workers as usize)?.as_bytes())?;
    script.extend(b"await $1 exit\n")?;
    Ok(script)
}

/// The module `gen`, and the script of a run with so many workers.
///
/// The module doesn't depend on their number: its `main(N)` spawns N processes and tells each a number; each answers
/// with the number's square, and `main` adds the squares up. The script interprets the module, sets a breakpoint at
/// line 14, which each worker reaches once, starts `main`, lets each worker go on once it has stopped, and waits for the
/// end. `Err` comes only out of memory.
pub fn generate(alloc: Global, workers: u32) -> Result<Generated, AllocError>
    requires some { 1 ≤ workers }
    requires few { workers ≤ 200 }
    ensures source { IfOk result (λ made. made.source ≡ module_text) }
    ensures script { IfOk result (λ made. made.script ≡ script_text workers) }
{
    let source = Bytes::from_slice(alloc, MODULE)?;
    let script = make_script(alloc, workers)?;
    Ok(Generated { source, script })
}
