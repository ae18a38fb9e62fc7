//! A JSON text (RFC 8259) as a tree whose numbers stay tokens.
#![tactic(auto)]

mod arena;
mod fault;
mod kinds;
pub mod laws;
mod number;
mod scan;
mod text;
mod tree;
mod unclosed;
mod values;
mod whole;

pub use arena::Arena;
pub use fault::JsonFault;
pub use tree::{JsonText, Members, Pair, Tree};
pub use whole::read;
