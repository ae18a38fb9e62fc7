//! Text forms made of lines: their words and numbers, prefixes, and where a text stops being of a form.
#![tactic(auto)]

mod cuts;
mod laws;
mod numbers;

pub use cuts::{after, cut_at};
pub use laws::{Form, Spelled, fault_line_law, front_law};
pub use numbers::{number, number_word, push_number};
