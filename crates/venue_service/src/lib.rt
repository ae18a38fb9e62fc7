//! The service: connections come through doors, workers serve them at one hall, and a closing count reports the result.
#![tactic(auto)]

mod desk;
mod guest;
mod seats;
mod service;
mod worker;

pub use desk::{DoorDesk, Next};
pub use guest::Guest;
pub use service::{Counts, Plan, Service, serve_hall};
pub use shared_hall::{Copies, Log, NoLog, opening_entries};
pub use worker::work;
