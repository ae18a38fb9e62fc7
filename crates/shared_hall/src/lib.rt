//! The hall that workers share: each answers from a reader of its own and waits for nobody, and one lock orders all changes.
#![tactic(auto)]

mod copies;
mod entries;
mod name;
mod office;
mod seat;
mod thread_bounds;

pub use board_copies::{first_law, following_law};
pub use copies::Copies;
pub use name::HallName;
pub use office::{
    Closed, LoggedOffice, Office, OfficeOf, Opened, OpenedOf, Pass, PassOf, Unjudged, UnopenedOf,
    close_hall, open_hall, open_kept,
};
pub use seat::{LoggedSeat, Seat, SeatIn};
pub use venue_hall::{Log, NoLog, Unopened, opening_entries};
