//! One version of a venue that can be asked, and changes that are made ready beside it.
#![tactic(auto)]

mod act_checks;
mod base_folders;
mod board;
mod changes;
mod closures;
mod entry_laws;
mod names;
mod nearest;
mod outgoing;
mod preparation;
mod prepared;
mod profile_names;
mod questions;
mod replaying;
mod stand;
mod stand_after;
mod tally;
mod tour_costs;
mod tour_ends;
mod tour_legs;
mod tour_ways;
mod tours;
mod trips;
mod unready;

pub use base_folders::BaseFolders;
pub use board::Board;
pub use changes::{Outcome, judge_files, read_folder, ready_change, ready_venue};
pub use entry_laws::{first_law, following_law};
pub use outgoing::Outgoing;
pub use prepared::{NextBoard, Prepared};
pub use replaying::Replaying;
pub use unready::Unready;
pub use venue_history::{Act, Closing, Entry, Venue, entry_law, every_venue, number_law};
