//! The machine's layers: what stands round the redex of a running expression, from the inside outward. The definitions stand
//! in specs/, and their laws in proofs/; the types that stand for them, and the stack on which a machine keeps its layers,
//! are here.
#![tactic(auto)]

mod body;
mod doing;
mod item;
mod layer;
mod operands;
mod redex;
mod stack;

pub use body::Body;
pub use doing::Doing;
pub use item::Item;
pub use layer::{Drawing, Layer, Outcome};
pub use operands::{Fed, Operands, is_literal};
pub use redex::{Leaf, Path, Redex};
pub use stack::Stack;
