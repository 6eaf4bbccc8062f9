//! The built-ins of `erlang` and `int` that touch nothing but their arguments and the number of the process that asks.
#![tactic(auto, using(crate::proofs::TupleLemmas::items_of_list, crate::proofs::TextLemmas::list_of_characters))]

mod bindings;
mod integers;
mod kinds;
mod parts;
mod raises;
mod texts;
mod tuples;

pub use bindings::get_binding;
pub use integers::{abs, max, min};
pub use kinds::{
    is_atom, is_boolean, is_function, is_function_of, is_integer, is_list, is_number, is_pid,
    is_reference, is_tuple,
};
pub use parts::{head, length, tail};
pub use raises::{badarg, error, exit, own_pid, system_limit, throw, truth};
pub use texts::{atom_to_list, integer_to_list, list_to_atom, list_to_integer};
pub use tuples::{append_element, element, list_to_tuple, set_element, tuple_size, tuple_to_list};
