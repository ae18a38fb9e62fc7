//! The printed text of a check: the report of a rejected folder, or the notes of an accepted one.
#![tactic(auto)]

mod names;
mod text;

pub use names::{file_name, rule_name};
pub use text::{accepted_text, rejected_text};
