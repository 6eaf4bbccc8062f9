//! The built-ins of `lists`: a function for each, which gives the answer that edb_pure's definition of it says.
#![tactic(auto)]

mod build;
mod items;
mod keys;
mod numbers;
mod order;
mod raises;
mod search;

pub use build::{
    append_all, append_two, duplicate, flatten, nthtail, reverse_one, reverse_onto, sublist, unzip,
    zip_lists,
};
pub use keys::{keydelete, keyfind, keymember, keyreplace, keystore};
pub use numbers::{seq, sum};
pub use order::{keysort, sort, usort};
pub use search::{delete, greatest, last, least, member, nth};
