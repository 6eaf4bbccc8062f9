//! The words, matched by `clap`.

ghost use Rattle.std.specs.Prelude.{◌≡◌, ◌≢◌, false, None, Some, map, string_bytes, IfErr, IfOk};
ghost use Rattle.clap.specs.Words.{app_of, found_of, kind_of, rows_of, rule_of};
ghost use Rattle.edb_options.specs.Command.{Holds, edb, option_rule};
ghost use Rattle.edb_options.specs.Given.{Given, given_in};

use clap::error::ErrorKind;
use clap::{Arg, ArgAction, ArgMatches, Command, Error};
use std::alloc::{AllocError, Global};

/// An option with a value.
fn value_option<'a>(alloc: Global, name: &'a str) -> Arg<'a>
    ensures rule { rule_of result ≡ option_rule name.entry.now }
    ensures local { result.global ≡ false }
{
    Arg::new(alloc, name).long(name)
}

/// The options and the names of `edb`, as `clap` knows them. A value is any text here: which numbers an option takes is
/// said where they are read.
fn edb_command<'a>(alloc: Global) -> Result<Command<'a>, AllocError>
    ensures { IfOk result (λ c. app_of c ≡ edb) }
{
    let hands = value_option(alloc, "hands");
    let slice = value_option(alloc, "slice");
    let moves = value_option(alloc, "moves");
    let journal = Arg::new(alloc, "journal")
        .long("journal")
        .action(ArgAction::SetTrue);
    let names = Arg::new(alloc, "names").action(ArgAction::Append);
    Command::new(alloc, "edb")
        .no_binary_name(true)
        .disable_help_flag(true)
        .disable_version_flag(true)
        .arg(hands)?
        .arg(slice)?
        .arg(moves)?
        .arg(journal)?
        .arg(names)
}

/// What the words give; an error of another kind than `OutOfMemory` where they are refused.
pub(crate) fn match_words<'a>(alloc: Global, words: &'a [String]) -> Result<ArgMatches<'a>, Error>
    ensures given { IfOk result (λ m. (g : Given) × (given_in (map string_bytes words.entry.now) ≡ Some g) × Holds g (rows_of (found_of m))) }
    ensures refused { IfErr result (λ e. kind_of e ≢ ErrorKind.OutOfMemory → given_in (map string_bytes words.entry.now) ≡ None) }
{
    let command = edb_command(alloc)?;
    command.try_get_matches_from(words)
}
