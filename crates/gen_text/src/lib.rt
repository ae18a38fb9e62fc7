//! The files of a building of any number of levels, by a formula: what the program measures itself on.
#![tactic(auto)]

mod files;
mod geometry;
mod identifiers;
mod items;
mod numbers;

pub use files::gen_files;
pub use identifiers::identifier_text;
pub use numbers::{lift_number, room_number};
