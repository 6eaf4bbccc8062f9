//! What the whole project speaks of: names, bytes, terms with their order and limits, bindings,
//! the syntax trees of a module, and small enums that several crates share.
#![tactic(auto, using(crate::proofs::Lists::lists))]

mod act;
mod bindings;
mod cells;
mod laws;
mod operators;
mod rows;
mod small;
mod syntax;
mod term;
mod text;

pub use act::ActKind;
pub use bindings::Bindings;
pub use laws::{
    bound_is_found, first_pair_counts, height_is_below_size, names_ascend, order_equal_is_same,
    order_is_transitive, order_reverses, others_stay,
};
pub use operators::{BinaryOp, UnaryOp};
pub use rows::Rows;
pub use small::{Action, Break, BreakRow, Class, Op, Status, TraceFlag};
pub use syntax::{Expr, ExprNode, Function, FunctionName, Module, Pattern, PatternNode};
pub use term::{Captured, Cell, FunValue, Limit, Node, Term};
pub use text::{Bytes, Name};
