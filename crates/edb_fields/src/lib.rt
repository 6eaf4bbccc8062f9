//! The fields of a line of the journal's text, both ways: numbers, bytes in hexadecimal, atoms and literal terms.
#![tactic(auto)]

mod atoms;
mod front;
mod hexadecimal;
mod laws;
mod numbers;
mod refusal;
mod terms;

pub use atoms::read_name;
pub use front::{read_line_end, read_space, read_text};
pub use hexadecimal::{put_bytes, read_bytes};
pub use laws::{
    bytes_read_once, lists_read_once, names_read_once, numbers_read_once, terms_read_once,
};
pub use numbers::{put_u128, read_u32, read_u64, read_u128};
pub use refusal::ReadError;
pub use terms::{read_list, read_term};
