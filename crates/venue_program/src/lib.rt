//! The whole program, over folders, doors, a console and disks that it is handed: the command that the words name, and the number with which the process ends.
#![tactic(auto)]

mod exit;
mod kept_commands;
mod laws;
mod outcome;
mod plans;
mod program;
mod ready;
mod seat;
mod serve_command;
mod serving;
mod stopping;

pub use exit::{Exit, WordsFault, exit_after, words_fault};
pub use journal_start::{End, serve_session};
pub use laws::{complete_run_law, kept_headline_law};
pub use outcome::Outcome;
pub use program::run;
pub use shared_hall::{HallName, Opened, Seat, close_hall, open_hall};
pub use venue_commands::{Alone, Built, Hall, Unopened, Venue, build, tell_building};
pub use venue_service::{Copies, opening_entries};
