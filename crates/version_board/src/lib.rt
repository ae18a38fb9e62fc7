//! One history, served: what a session may ask of a hall, whether one thread has it or workers share it.
#![tactic(auto)]

mod alone;

pub use alone::Alone;
pub use board_copies::{BaseFolders, Outcome, ready_change};
pub use venue_hall::{
    Asks, Built, Hall, Unopened, Venue, answered_law, build, change_law, changed_law, entry_law,
    every_venue, legal_law, number_law,
};
