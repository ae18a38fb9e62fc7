//! Reads the files of a venue's folder: its features as rows, the first phase of rules, and notes.
#![tactic(auto)]

mod figures;
mod file;
mod folder;
mod item;
mod items;
mod laws;
mod manifest;
mod note_rules;
mod plain_rules;
mod progress;
mod property_rule;
mod read_out;
mod rows;

pub use feature_rows::{HasId, Index};
pub use folder::read_folder;
pub use imdf_schema::{FeatureAt, File, Rule};
pub use laws::{one_reading_law, ordinals_law, sound_reading_law};
pub use read_out::ReadOut;
