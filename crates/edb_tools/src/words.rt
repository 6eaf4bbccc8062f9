//! The words of the command line.

ghost use Rattle.std.specs.Prelude.{◌≡◌, ◌≤◌, ◌<◌, ◌^◌, [], ◌∷◌, length, IfOk, IfSome, map, string_bytes, codes, nat_eq};
ghost use Rattle.std.specs.List.{list_all};
ghost use Rattle.std.specs.Option.{option_map};
ghost use Rattle.edb_files.specs.InOrder.{text_file};
ghost use Rattle.edb_files.specs.Asking.{asked_of};
ghost use Rattle.edb_tools.specs.Requests.{is_name, request, check_request, format_request, generate_request, request_of};
ghost use Rattle.edb_tools.specs.Views.{seen, IsAsked};

use edb_files::{AskedFile, MOST_BYTES, is_option_word, read_number};
use std::alloc::{AllocError, Global};

/// A command of the tool.
#[derive(Clone, Copy, Debug, PartialEq, Eq)]
pub(crate) enum Tool {
    /// To check files, in order.
    Check,
    /// To lay out the module of one file.
    Format,
    /// To write the module and the script of a generated run with so many workers.
    Generate { workers: u32 },
}

/// What the words ask for: a command, and the files that it takes, in order.
#[derive(Drop)]
pub(crate) struct AskedFor<'a> {
    pub command: Tool,
    pub files: Vec<AskedFile<'a>>,
}

/// There are fewer words than this, so that each file has a number below 2^32.
const WORDS_END: usize = 4_294_967_295;

/// The most workers of a generated run.
const MOST_WORKERS: u32 = 200;

/// Whether each word names a file.
fn are_names(words: &[String]) -> bool
    ensures { result ≡ list_all (λ word. is_name (string_bytes word)) words.now }
{
    words.iter().all(|word| !is_option_word(word.as_str()))
}

/// The names of the files, if the words are `check` and one name or more.
fn check_names(words: &[String]) -> Option<&[String]>
    ensures few { IfSome result (λ names. length names.now < 2 ^ 32) }
    ensures names { option_map (λ names. request Tool.Check (map string_bytes names.now)) result ≡ check_request (map string_bytes words.now) }
{
    match words {
        [command, _, ..] => {
            let names = &words[1..];
            if command.as_bytes() != b"check".as_slice() {
                return None;
            }
            if !are_names(names) {
                return None;
            }
            if words.len() >= WORDS_END {
                return None;
            }
            Some(names)
        }
        _ => None,
    }
}

/// The name of the file, if the words are `fmt` and one name.
fn format_name(words: &[String]) -> Option<&String>
    ensures { option_map (λ name. request Tool.Format (string_bytes name.now ∷ [])) result ≡ format_request (map string_bytes words.now) }
{
    match words {
        [command, name] => {
            if command.as_bytes() != b"fmt".as_slice() {
                return None;
            }
            if is_option_word(name.as_str()) {
                return None;
            }
            Some(name)
        }
        _ => None,
    }
}

/// How many workers the generated run has, if the words are `gen` and a number of 1 to 200.
fn generated_workers(words: &[String]) -> Option<u32>
    ensures range { IfSome result (λ workers. (1 ≤ workers) × (workers ≤ 200)) }
    ensures request { option_map (λ workers. request (Tool.Generate workers) []) result ≡ generate_request (map string_bytes words.now) }
{
    match words {
        [command, number] => {
            if command.as_bytes() != b"gen".as_slice() {
                return None;
            }
            read_number(number.as_str(), 1, MOST_WORKERS)
        }
        _ => None,
    }
}

/// The files of modules with these names. `Err` comes only out of memory.
fn files_named<'a>(alloc: Global, names: &'a [String]) -> Result<Vec<AskedFile<'a>>, AllocError>
    ensures files { IfOk result (λ files. map asked_of files.items ≡ map (λ name. text_file (string_bytes name)) names.now) }
    ensures all { IfOk result (λ files. length files.items ≡ length names.now) }
{
    let mut files = Vec::new(alloc);
    for name in names {
        files.push(AskedFile {
            name: name.as_str(),
            most: MOST_BYTES,
        })?;
    }
    Ok(files)
}

/// The file of a module with this name, alone. `Err` comes only out of memory.
fn file_named<'a>(alloc: Global, name: &'a String) -> Result<Vec<AskedFile<'a>>, AllocError>
    ensures file { IfOk result (λ files. map asked_of files.items ≡ text_file (string_bytes name.now) ∷ []) }
    ensures one { IfOk result (λ files. length files.items ≡ 1) }
{
    let mut files = Vec::new(alloc);
    files.push(AskedFile {
        name: name.as_str(),
        most: MOST_BYTES,
    })?;
    Ok(files)
}

/// What the words ask for, or `None` if they aren't a command and what it takes. `Err` comes only out of memory.
pub(crate) fn find_request<'a>(
    alloc: Global,
    words: &'a [String],
) -> Result<Option<AskedFor<'a>>, AllocError>
    ensures asked { IfOk result (λ found. IfSome found IsAsked) }
    ensures request { IfOk result (λ found. option_map seen found ≡ request_of (map string_bytes words.now)) }
{
    match check_names(words) {
        Some(names) => {
            let files = files_named(alloc, names)?;
            let command = Tool::Check;
            Ok(Some(AskedFor { command, files }))
        }
        None => match format_name(words) {
            Some(name) => {
                let files = file_named(alloc, name)?;
                let command = Tool::Format;
                Ok(Some(AskedFor { command, files }))
            }
            None => match generated_workers(words) {
                Some(workers) => {
                    let files = Vec::new(alloc);
                    let command = Tool::Generate { workers };
                    Ok(Some(AskedFor { command, files }))
                }
                None => Ok(None),
            },
        },
    }
}
