//! A journal of accepted changes on a disk that may stop at any moment.
#![tactic(auto)]

mod bodies;
mod found;
mod gates;
mod heads;
mod journal;
mod laws;
mod pieces;
mod reader;
mod records;
mod slots;
mod window;

pub use found::{Found, FoundAct, FoundRecord, Skipped};
pub use journal::Journal;
pub use laws::{appended_law, begin_law, damage_law, kept_law, one_journal};
pub use reader::{Reader, Unread};
