//! `edb [OPTIONS] SCRIPT FILE...`: runs modules by a command file and writes the transcript, or the journal, to standard
//! output.
#![tactic(auto)]

use edb_io::{DiskFiles, StdSink, WordsFault, command_line};
use edb_session::{End, session};
use std::process::ExitCode;

/// What is written to standard error if the words are refused.
const USAGE: &str =
    "usage: edb [--hands 1] [--slice 1..4096] [--moves 1..1000000] [--journal] SCRIPT FILE...
  SCRIPT     a file of debugger commands, one a line
  FILE       an Erlang module; the commands run and debug the modules
  --hands    how many worker threads run them (1)
  --slice    how many moves a process makes in one go at most (100)
  --moves    the weight at which a run ends (100000)
  --journal  write the journal in the place of the transcript";

fn main(rt: HostRuntime) -> ExitCode {
    let alloc = rt.alloc();
    let words = match command_line(&rt) {
        Ok(words) => words,
        Err(WordsFault::NoMemory) => return ExitCode::from(8),
        Err(WordsFault::NoText) => Vec::new(alloc),
    };
    let mut files = DiskFiles::new(rt, alloc);
    let (ending, _sink) = session(alloc, &words, &mut files, StdSink::new(rt));
    if ending.end == End::Words {
        let _ = rt.eprintln(USAGE);
    }
    ExitCode::from(ending.status)
}
