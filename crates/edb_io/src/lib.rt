//! The outside of the project: files that are read whole and a sink that is written to, as traits
//! that say what a call did, with implementations over memory and over the system; and the words of
//! the command line.
#![tactic(auto)]

mod clean_files;
mod clean_sink;
mod disk_files;
mod held;
mod mem_files;
mod mem_sink;
mod reading;
mod std_sink;
mod words;
mod writing;

pub use clean_files::CleanFiles;
pub use clean_sink::CleanSink;
pub use disk_files::DiskFiles;
pub use mem_files::MemFiles;
pub use mem_sink::MemSink;
pub use reading::{FileRead, Files, ReadFault};
pub use std_sink::StdSink;
pub use words::{WordsFault, command_line};
pub use writing::{Sink, SinkFault};
