//! Tests of touches, nodes, members, links and ways.
#![tactic(auto)]

// A module for each crate of the graph, and the venues that they share.
#[cfg(test)]
mod corners;
#[cfg(test)]
mod folders;
#[cfg(test)]
mod members;
#[cfg(test)]
mod nodes;
#[cfg(test)]
mod routes;
#[cfg(test)]
mod rows;
#[cfg(test)]
mod station;
#[cfg(test)]
mod touches;
