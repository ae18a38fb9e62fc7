//! The nearest of several nodes of a venue, by what the walks to them cost.
#![tactic(auto)]

mod answers;
mod entries;
mod flags;
mod near;
mod rows;
mod search;

pub use near::{Near, NearWalk};
pub use search::nearest;
