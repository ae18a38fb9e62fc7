//! What a version of a venue is, what a history of versions is, and which reply is right for which question or change: the
//! words by which all that answers is judged.
#![tactic(auto)]

mod entry;
mod laws;
mod opening;

pub use entry::{Act, Closing, Entry};
pub use laws::{
    act_law, answer_law, beginning_law, change_law, closed_law, entry_law, legal_law, name_law,
    number_law, refusal_law, version_law,
};
pub use opening::opening_entries;
pub use venue_build::{Built, Venue, build, every_name, every_venue, one_outcome, sizes_law};
pub use venue_folder::files_of;
