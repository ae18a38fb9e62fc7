//! Which places of a room are joined: found once, and kept in bits.
#![tactic(auto)]

mod asking;
mod bits;
mod finding;
mod guests;
mod hosts;
mod laws;
mod mask;
mod pairs;
mod ranked;
mod sights;
mod whole;
mod words;

pub use laws::{
    guest_law, host_law, joined_some_law, joined_turn_law, places_law, sighted_law, whole_law,
};
pub use mask::Mask;
pub use sights::Sights;
