//! The tables of built-ins, one for each module that has any, the table of a journal's entries, and a
//! look-up over each. That a table ascends is computed when the crate is proved.

ghost use Rattle.std.specs.Prelude.{◌≡◌, ◌<◌, IfSome};
ghost use Rattle.edb_table.specs.BuiltIns.{erlang_keys, int_keys, io_keys, lists_keys};
ghost use Rattle.edb_table.specs.Entries.{entry_keys};
ghost use Rattle.edb_table.specs.Keys.{place_of};

use crate::rows::{Row, find};

/// Rows, each written as Erlang writes a function: its name, `/` and its number.
macro_rules! table {
    ($($name:literal / $arity:literal),* $(,)?) => {
        [$(Row { name: $name, arity: $arity }),*]
    };
}

/// Those of `erlang`: what only computes, and the acts that other processes or the output see. The
/// operator `!` is no call and has no row.
pub static ERLANG: [Row; 50] = table![
    "abs" / 1,
    "append_element" / 2,
    "apply" / 2,
    "apply" / 3,
    "atom_to_list" / 1,
    "demonitor" / 1,
    "demonitor" / 2,
    "display" / 1,
    "element" / 2,
    "error" / 1,
    "exit" / 1,
    "exit" / 2,
    "hd" / 1,
    "integer_to_list" / 1,
    "is_atom" / 1,
    "is_boolean" / 1,
    "is_function" / 1,
    "is_function" / 2,
    "is_integer" / 1,
    "is_list" / 1,
    "is_number" / 1,
    "is_pid" / 1,
    "is_process_alive" / 1,
    "is_reference" / 1,
    "is_tuple" / 1,
    "length" / 1,
    "link" / 1,
    "list_to_atom" / 1,
    "list_to_integer" / 1,
    "list_to_tuple" / 1,
    "make_ref" / 0,
    "max" / 2,
    "min" / 2,
    "monitor" / 2,
    "process_flag" / 2,
    "register" / 2,
    "self" / 0,
    "send" / 2,
    "setelement" / 3,
    "spawn" / 1,
    "spawn" / 3,
    "spawn_link" / 1,
    "spawn_link" / 3,
    "throw" / 1,
    "tl" / 1,
    "tuple_size" / 1,
    "tuple_to_list" / 1,
    "unlink" / 1,
    "unregister" / 1,
    "whereis" / 1,
];

/// That of `int`, the debugger's module, for conditions of breakpoints: a variable's value.
pub static INT: [Row; 1] = table!["get_binding" / 2];

/// Those of `io`, which print.
pub static IO: [Row; 2] = table!["format" / 1, "format" / 2];

/// Those of `lists`, which only compute.
pub static LISTS: [Row; 26] = table![
    "append" / 1,
    "append" / 2,
    "delete" / 2,
    "duplicate" / 2,
    "flatten" / 1,
    "keydelete" / 3,
    "keyfind" / 3,
    "keymember" / 3,
    "keyreplace" / 4,
    "keysort" / 2,
    "keystore" / 4,
    "last" / 1,
    "max" / 1,
    "member" / 2,
    "min" / 1,
    "nth" / 2,
    "nthtail" / 2,
    "reverse" / 1,
    "reverse" / 2,
    "seq" / 2,
    "sort" / 1,
    "sublist" / 2,
    "sum" / 1,
    "unzip" / 1,
    "usort" / 1,
    "zip" / 2,
];

/// The words that begin the lines of a journal's text, each with the number of fields after it. A word
/// has two rows if its line may end without its last field, and the number 0 if its last fields vary: a
/// `start` has a list, and a `served` a command and its reply.
pub static ENTRIES: [Row; 20] = table![
    "advance" / 1,
    "ask" / 2,
    "did" / 4,
    "enter" / 4,
    "expire" / 2,
    "forward" / 1,
    "kill" / 2,
    "lease" / 2,
    "leave" / 1,
    "load" / 3,
    "ran" / 3,
    "served" / 0,
    "signal" / 1,
    "signal" / 2,
    "skip" / 2,
    "start" / 0,
    "stop" / 5,
    "stop" / 6,
    "took" / 1,
    "trigger" / 6,
];

/// The place in `ERLANG` of the row with this name and arity; None if it has no such row.
#[tactic(auto, unfolding(crate::specs::BuiltIns::erlang_keys))]
pub fn find_erlang(name: &str, arity: u8) -> Option<usize>
    ensures place { result ≡ place_of (name.now, arity) erlang_keys }
    ensures within { IfSome result (λ place. place < 50) }
{
    find(&ERLANG, name, arity)
}

/// The place in `INT` of the row with this name and arity; None if it has no such row.
#[tactic(auto, unfolding(crate::specs::BuiltIns::int_keys))]
pub fn find_int(name: &str, arity: u8) -> Option<usize>
    ensures place { result ≡ place_of (name.now, arity) int_keys }
    ensures within { IfSome result (λ place. place < 1) }
{
    find(&INT, name, arity)
}

/// The place in `IO` of the row with this name and arity; None if it has no such row.
#[tactic(auto, unfolding(crate::specs::BuiltIns::io_keys))]
pub fn find_io(name: &str, arity: u8) -> Option<usize>
    ensures place { result ≡ place_of (name.now, arity) io_keys }
    ensures within { IfSome result (λ place. place < 2) }
{
    find(&IO, name, arity)
}

/// The place in `LISTS` of the row with this name and arity; None if it has no such row.
#[tactic(auto, unfolding(crate::specs::BuiltIns::lists_keys))]
pub fn find_lists(name: &str, arity: u8) -> Option<usize>
    ensures place { result ≡ place_of (name.now, arity) lists_keys }
    ensures within { IfSome result (λ place. place < 26) }
{
    find(&LISTS, name, arity)
}

/// The place in `ENTRIES` of the row with this word and number of fields; None if it has no such row.
#[tactic(auto, unfolding(crate::specs::Entries::entry_keys))]
pub fn find_entry(word: &str, fields: u8) -> Option<usize>
    ensures place { result ≡ place_of (word.now, fields) entry_keys }
    ensures within { IfSome result (λ place. place < 20) }
{
    find(&ENTRIES, word, fields)
}
