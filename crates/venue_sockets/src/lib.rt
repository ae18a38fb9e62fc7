//! Connections that wait without a worker until there is something to do, and those that a worker has: the doors and links of the program.
#![tactic(auto)]

mod calls;
mod door;
mod doors;
mod guests;
mod limits;
mod link;
mod lobby;
mod looks;
mod pool;
mod refusals;
mod waiters;
mod waits;

pub use doors::LobbyDoors;
pub use link::LobbyLink;
pub use lobby::Lobby;
