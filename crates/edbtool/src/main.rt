//! `edbtool check FILE...`: checks files and says of each that it is ok, or which is the first that
//! isn't; the status is 0 if all are ok. `edbtool fmt FILE`: writes the layout of the file's module. `edbtool gen N`:
//! writes a module and a script that debugs N workers of it.
#![tactic(auto)]

use edb_io::{DiskFiles, StdSink, WordsFault, command_line};
use edb_tools::{ToolEnd, tool};
use std::process::ExitCode;

/// What is written to standard error if the words are refused.
const USAGE: &str = "usage: edbtool check FILE...  checks modules
       edbtool fmt FILE       writes the layout of a module
       edbtool gen N          writes a module, and a script that debugs N workers of it, 1 to 200";

fn main(rt: HostRuntime) -> ExitCode {
    let alloc = rt.alloc();
    let words = match command_line(&rt) {
        Ok(words) => words,
        Err(WordsFault::NoMemory) => return ExitCode::from(8),
        Err(WordsFault::NoText) => Vec::new(alloc),
    };
    let mut files = DiskFiles::new(rt, alloc);
    let mut sink = StdSink::new(rt);
    let (end, status) = tool(alloc, &words, &mut files, &mut sink);
    if end == ToolEnd::Words {
        let _ = rt.eprintln(USAGE);
    }
    ExitCode::from(status)
}
