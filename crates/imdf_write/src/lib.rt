//! A folder written in one fixed form: two folders of the same rows are written to the same bytes.
#![tactic(auto)]

mod file;
mod folder;
mod geometries;
mod names;
mod numbers;
mod rows;
mod values;
mod words;

pub use file::write_file;
pub use folder::write_folder;
pub use json_text::compact_law;
