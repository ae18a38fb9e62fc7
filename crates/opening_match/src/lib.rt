//! Which openings touch which units: those of its level to whose borders each of an opening's vertices is near.
#![tactic(auto)]

mod around;
mod candidates;
mod counts;
mod edges;
mod entries;
mod extents;
mod frame;
mod matches;
mod morton;
mod rows;
mod starts;
mod stretches;
mod touch_rows;
mod trees;

pub use matches::Matches;
pub use touch_rows::touches;
