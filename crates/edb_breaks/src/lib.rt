//! Breakpoints: the table of their rows, each at a line of a module.
#![tactic(auto)]

mod laws;
mod rows;
mod table;

pub use laws::{
    added_row_is_found, each_row_is_found, none_where_no_row_stands, other_places_stay,
    table_stays_sound,
};
pub use table::{Breaks, Exists};
