//! Tests of a folder's fixed form.
#![tactic(auto)]

// Rows by hand, and the station's.
#[cfg(test)]
mod by_hand;
#[cfg(test)]
mod hand_rows;
#[cfg(test)]
mod station;

// How expected texts are written down.
#[cfg(test)]
mod notation;
