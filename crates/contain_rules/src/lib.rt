//! The rules on what holds what: a level its units and openings, a unit its anchors and amenities.
#![tactic(auto)]

mod hold_findings;
mod holders;
mod outside_positions;
mod rows;
mod shape_trees;

pub use hold_findings::add_hold_findings;
