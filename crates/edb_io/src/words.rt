//! The words of the command line.

use std::rt::Env;
use std::{env, io};

/// Why the words of the command line could not be taken.
#[derive(Clone, Copy, Debug, PartialEq, Eq)]
pub enum WordsFault {
    /// Out of memory.
    NoMemory,
    /// A word isn't a text in UTF-8.
    NoText,
}

/// The words of the command line, without the program's name. `NoMemory` comes if it is out of memory,
/// and `NoText` if a word isn't a text. What the words are is not known to contracts.
pub fn command_line<R: Env + AllocGlobal>(rt: &R) -> Result<Vec<String>, WordsFault> {
    match env::args(rt) {
        Ok(arguments) => {
            let mut words = Vec::new(rt.alloc());
            for word in arguments.skip(1) {
                if words.push(word).is_err() {
                    return Err(WordsFault::NoMemory);
                }
            }
            Ok(words)
        }
        Err(error) if error.kind() == io::ErrorKind::OutOfMemory => Err(WordsFault::NoMemory),
        Err(_) => Err(WordsFault::NoText),
    }
}
