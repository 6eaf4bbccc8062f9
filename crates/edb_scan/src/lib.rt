//! The scanner: a source text becomes its tokens, each with its line, or the scan gives the place of
//! the first fault. `specs/` says what the tokens of a text are.
#![tactic(auto)]

mod classes;
mod lexeme;
mod marks;
mod numerals;
mod points;
mod quotes;
mod runs;
mod tables;
mod token_list;
mod top;
mod words;

pub use lexeme::{LONGEST_ATOM, Mark, Placed, Token};
pub use points::Text;
pub use token_list::Tokens;
pub use top::{LONGEST_FILE, ScanFault, one_answer, piece as first_piece, scan};
