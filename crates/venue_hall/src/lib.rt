//! What a session may ask of a hall, whatever serves its history, and what is seen of one.
#![tactic(auto)]

mod hall;
mod laws;
mod no_log;
mod records;
mod unopened;

pub use hall::{Asks, Hall};
pub use laws::{answered_law, changed_law, slots_law};
pub use no_log::NoLog;
pub use records::{Log, Record};
pub use unopened::Unopened;
pub use venue_history::{
    Act, Built, Entry, Venue, beginning_law, build, change_law, closed_law, entry_law, every_venue,
    legal_law, number_law, one_outcome, opening_entries, version_law,
};
