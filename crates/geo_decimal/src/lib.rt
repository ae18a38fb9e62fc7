//! Reads a number of JSON text (RFC 8259, section 6) as a whole number of billionths, exactly and without floating point.
#![tactic(auto)]

mod coordinate;
mod cut;
mod digits;
mod fault;
mod grammar;
mod laws;
mod parts;
mod size;

pub use coordinate::nano;
pub use fault::NumberFault;
pub use laws::{one_value_law, reads_back_law, rounding_law, value_law};
