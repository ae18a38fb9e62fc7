//! What the nearest of several nodes are, over any family of links, and the laws by which anyone can check that none is left out.
#![tactic(auto)]

mod laws;

pub use laws::{nearest_law, one_nearest_law};
