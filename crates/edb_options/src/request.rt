//! What the words of `edb` ask for.

ghost use Rattle.std.specs.Prelude.{◌≡◌, ◌≤◌, ◌<◌, ◌^◌, length, map, string_bytes, IfOk, IfSome};
ghost use Rattle.std.specs.Option.{option_map};
ghost use Rattle.clap.specs.Words.{found_of, rows_of};
ghost use Rattle.edb_options.specs.Command.{Holds};
ghost use Rattle.edb_options.specs.Given as rules;
ghost use Rattle.edb_options.specs.Given.{Given, options_by, wanted_by};
ghost use Rattle.edb_options.specs.Options.{IsRanged, options_in};
ghost use Rattle.edb_options.specs.Seeing.{wanted_of};

use crate::matching::match_words;
use clap::ArgMatches;
use clap::error::ErrorKind;
use edb_files::read_number;
use std::alloc::{AllocError, Global};

/// There are fewer words than this, so that each file has a number below 2^32.
const WORDS_END: usize = 4_294_967_295;

/// How many hands run the program.
const HANDS: u32 = 1;

/// How many pure moves a slice has at most, where the words don't say it.
const SLICE: u32 = 100;

/// The most pure moves of a slice.
const MOST_SLICE: u32 = 4_096;

/// The weight at which a journal is over, where the words don't say it.
const MOVES: u32 = 100_000;

/// The greatest weight at which a journal is over.
const MOST_MOVES: u32 = 1_000_000;

/// The options of a run.
#[derive(Clone, Copy, Debug, PartialEq, Eq)]
pub struct Options {
    /// How many pure moves a slice has at most: 1 to 4,096, and 100 where the words don't say it.
    pub slice: u32,
    /// The weight at which a journal is over: 1 to 1,000,000, and 100,000 where the words don't say it.
    pub moves: u32,
    /// Whether the journal is written.
    pub journal: bool,
}

/// What the words ask for.
#[derive(Drop)]
pub struct Request<'a> {
    /// The options.
    pub options: Options,
    /// The name of the script, and then those of the files.
    pub names: Vec<&'a str>,
}

/// The number of an option, from 1 to `most`, or `default` where the option isn't given.
fn number_or(value: Option<&str>, most: u32, default: u32) -> Option<u32>
    requires range { (1 ≤ default) × (default ≤ most) }
    ensures number { result ≡ rules.number_or most default (option_map (λ v. v.now) value.entry) }
    ensures range { IfSome result (λ n. (1 ≤ n) × (n ≤ most)) }
{
    match value {
        Some(value) => read_number(value, 1, most),
        None => Some(default),
    }
}

/// The options; nothing where a number is none, or is out of its range.
fn read_numbers(matches: &ArgMatches<'_>) -> Option<Options>
    ensures options { (g : Given) → Holds g (rows_of (found_of matches.now)) → result ≡ options_by g }
    ensures ranges { IfSome result IsRanged }
{
    let _hands = number_or(matches.get_str("hands"), HANDS, HANDS)?;
    let slice = number_or(matches.get_str("slice"), MOST_SLICE, SLICE)?;
    let moves = number_or(matches.get_str("moves"), MOST_MOVES, MOVES)?;
    let journal = matches.get_flag("journal");
    Some(Options {
        slice,
        moves,
        journal,
    })
}

/// What was given, where it is all that has to be there and its numbers are in their ranges.
fn make_request<'a>(
    alloc: Global,
    matches: &ArgMatches<'a>,
) -> Result<Option<Request<'a>>, AllocError>
    ensures wanted { (g : Given) → Holds g (rows_of (found_of matches.now)) → IfOk result (λ found. option_map wanted_of found ≡ wanted_by g) }
    ensures ranges { IfOk result (λ found. IfSome found (λ r. IsRanged r.options)) }
    ensures enough { IfOk result (λ found. IfSome found (λ r. 2 ≤ length r.names.items)) }
{
    let Some(names) = matches.get_strs("names") else {
        return Ok(None);
    };
    if names.len() < 2 {
        return Ok(None);
    }
    let Some(options) = read_numbers(matches) else {
        return Ok(None);
    };
    let names = Vec::from_slice(alloc, names)?;
    Ok(Some(Request { options, names }))
}

/// What the words after the program's name ask for:
/// `[--hands 1] [--slice 1..4096] [--moves 1..1000000] [--journal] SCRIPT FILE...`.
///
/// An option and its number are two words, or one with `=` between. Each option stands at most once, before or
/// behind the names. `--` ends the options, and each word behind it is a name. Any other word of two or more
/// characters that begins with `-` is refused. A number is 1 to 7 digits. `None` where the words aren't of this form, or
/// are 4,294,967,295 or more. `Err` comes only out of memory.
pub fn read_options<'a>(
    alloc: Global,
    words: &'a [String],
) -> Result<Option<Request<'a>>, AllocError>
    ensures words { IfOk result (λ found. option_map wanted_of found ≡ options_in (map string_bytes words.now)) }
    ensures ranges { IfOk result (λ found. IfSome found (λ r. IsRanged r.options)) }
    ensures enough { IfOk result (λ found. IfSome found (λ r. 2 ≤ length r.names.items)) }
    ensures few { IfOk result (λ found. IfSome found (λ r. length r.names.items < 2 ^ 32)) }
{
    if words.len() >= WORDS_END {
        return Ok(None);
    }
    match match_words(alloc, words) {
        Ok(matches) => make_request(alloc, &matches),
        Err(error) => match error.kind() {
            ErrorKind::OutOfMemory => Err(AllocError),
            _ => Ok(None),
        },
    }
}
