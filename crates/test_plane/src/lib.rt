//! Tests of the plane: figures, and trees of octagons over them.
#![tactic(auto)]

#[cfg(test)]
mod figures;
#[cfg(test)]
mod joined;
#[cfg(test)]
mod rooms;
#[cfg(test)]
mod trees;
