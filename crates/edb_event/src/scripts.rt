//! The scripts of a session.

ghost use Rattle.std.specs.Prelude.{◌≡◌, OnOk, OnErr};
ghost use Rattle.edb_event.specs.Ranges.{IsConsole, IsCommand, AreCommands};
ghost use Rattle.edb_event.specs.Books.{no_commands, commands_of, with_command};

use crate::Command;
use edb_lang::Rows;
use std::alloc::{AllocError, Global};
use std::marker::Model;

/// The commands of each of eight consoles, in order. Contracts see a list of commands for each console.
/// The fields of each command are in the ranges of docs/DEFINITIONS.md.
#[derive(Drop)]
pub struct Scripts {
    consoles: [Rows<Command>; 8],
}

impl Model for Scripts {
    ghost use Rattle.std.specs.Coded.{codes};
    ghost use Rattle.edb_lang.specs.TermCodes.{coded_datum};
    ghost use Rattle.edb_event.specs.Books.{Commands};

    ghost Value = { Commands };

    ghost coded = { Prim.hlevel (codes, coded_datum) };

    ghost view = { λ s. s.consoles };

    ghost use Rattle.edb_event.specs.Ranges.{AreScripts};

    ghost invariant = { λ s. AreScripts s.consoles };
}

impl Scripts {
    /// No commands; takes no memory.
    pub fn new(alloc: Global) -> Scripts
        ensures { result ≡ no_commands }
    {
        Scripts {
            consoles: [
                Rows::new(alloc),
                Rows::new(alloc),
                Rows::new(alloc),
                Rows::new(alloc),
                Rows::new(alloc),
                Rows::new(alloc),
                Rows::new(alloc),
                Rows::new(alloc),
            ],
        }
    }

    /// Puts a command behind those of its console; where memory is refused all stay as they were.
    pub fn add(&mut self, console: u8, command: Command) -> Result<(), AllocError>
        requires console { IsConsole console }
        requires range { IsCommand command }
        ensures ok { OnOk result (self.new ≡ with_command console command self.old) }
        ensures err { OnErr result (self.new ≡ self.old) }
    {
        self.consoles[usize::from(console - 1)].push(command)?;
        Ok(())
    }

    /// The commands of a console, in order. Each is in the ranges.
    pub fn commands(&self, console: u8) -> &[Command]
        requires { IsConsole console }
        ensures commands { result.now ≡ commands_of console self.now }
        ensures ranges { AreCommands result.now }
    {
        self.consoles[usize::from(console - 1)].as_slice()
    }
}
