//! The built-ins of all modules, by one index.

ghost use Rattle.std.specs.Prelude.{◌≡◌, ◌<◌, ◌+◌, ◌^◌, ℕ, IfSome, IfNone, option_map};
ghost use Rattle.edb_table.specs.BuiltIns.{index_of, built_ins};
ghost use Rattle.edb_table.specs.Keys.{StandsAt};

use crate::tables::{ERLANG, INT, IO, find_erlang, find_int, find_io, find_lists};

/// A place in a table, counted with the rows of the tables before it.
fn behind(rows: usize, place: Option<usize>) -> Option<usize>
    requires { IfSome place (λ at. rows + at < 2 ^ 64) }
    ensures { result ≡ option_map (λ at. rows + at) place }
{
    match place {
        Some(at) => Some(rows + at),
        None => None,
    }
}

/// The index of the built-in with this module, name and arity: its place in its module's table plus
/// the lengths of the tables before, in the order `erlang`, `int`, `io`, `lists`. None if there is
/// no such built-in.
pub fn find_built_in(module: &str, name: &str, arity: u8) -> Option<usize>
    ensures index { result ≡ index_of («module».now, (name.now, arity)) }
    ensures found { IfSome result (StandsAt («module».now, (name.now, arity)) built_ins) }
    ensures within { IfSome result (λ index. index < 79) }
    ensures none { IfNone result ((k : ℕ) → ¬ (StandsAt («module».now, (name.now, arity)) built_ins k)) }
{
    match module {
        "erlang" => find_erlang(name, arity),
        "int" => behind(ERLANG.len(), find_int(name, arity)),
        "io" => behind(ERLANG.len() + INT.len(), find_io(name, arity)),
        "lists" => behind(ERLANG.len() + INT.len() + IO.len(), find_lists(name, arity)),
        _ => None,
    }
}
