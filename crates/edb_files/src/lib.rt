//! What the session and the tool share of the outside: files that are read in order, the words that name them, and the
//! line of a refusal.
#![tactic(auto)]

mod lines;
mod names;
mod numbers;
mod reading;

pub use lines::{LineWrite, write_line};
pub use names::is_option_word;
pub use numbers::read_number;
pub use reading::{AskedFile, MOST_BYTES, ReadsFault, read_in_order};
