//! A history read back from its journal.
#![tactic(auto)]

mod beginning;
mod ending;
mod finding;
mod going_on;
mod judging;
mod laws;
mod read_back;
mod rest;
mod restored;

pub use beginning::begin;
pub use laws::restart_law;
pub use read_back::restore;
pub use restored::{Kept, RestoreFault, Restored, Unrestored};
