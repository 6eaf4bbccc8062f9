//! The tool that works on files without the debugger. It checks files and says of each that it is ok, or which is
//! the first with a fault; and it lays out the module of a file.
#![tactic(auto)]

mod ending;
mod lines;
mod sources;
mod top;
mod words;

pub use ending::ToolEnd;
pub use top::tool;
