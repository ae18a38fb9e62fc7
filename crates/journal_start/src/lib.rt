//! What a command over a folder and a journal comes to, before anything is served.
#![tactic(auto)]

mod reached;
mod start;
mod stop;

pub use board_copies::Resumed;
pub use journal_restore::Kept;
pub use reached::reach_journal;
pub use start::KeptStart;
pub use stop::{Stop, Why};
pub use venue_session::{End, headline_law, serve_session};
