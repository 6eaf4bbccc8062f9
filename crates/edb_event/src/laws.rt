//! Laws of scripts. Each is a function that does nothing and whose contract is the law.

ghost use Rattle.std.specs.Prelude.{◌≡◌, ◌≢◌, ◌≤◌, ◌++◌, ◌∷◌, [], ℕ};
ghost use Rattle.edb_event.specs.Books.{Commands, commands_of, with_command};
ghost use Rattle.edb_event.specs.declared.call.Command.{Command};

/// The console that a command is added for has it behind those that it had.
pub fn added_command_is_last()
    ensures { (console : ℕ) (command : Command) (scripts : Commands)
        → commands_of console (with_command console command scripts) ≡ commands_of console scripts ++ command ∷ [] }
{}

/// The other consoles have what they had.
pub fn other_consoles_stay()
    ensures { (console : ℕ) (other : ℕ) (command : Command) (scripts : Commands) → 1 ≤ console → 1 ≤ other → other ≢ console
        → commands_of other (with_command console command scripts) ≡ commands_of other scripts }
{}
