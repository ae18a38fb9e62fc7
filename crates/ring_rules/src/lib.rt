//! The rules on the spread of a folder's positions, and on its rings.
#![tactic(auto)]

mod area;
mod bounds;
mod crossings;
mod holes;
mod laws;
mod positioned;
mod ring_findings;
mod shape_findings;
mod spread;

pub use laws::no_spread_law;
pub use ring_findings::add_ring_findings;
pub use spread::is_spread;
