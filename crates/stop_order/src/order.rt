//! An order of stops.

/// An order in which stops are visited, and what it costs in centimetres.
#[derive(Clone, Copy, Debug, PartialEq, Eq)]
pub struct Order {
    /// How many stops there are.
    pub stops: u8,
    /// The stops by their numbers from 0, in the order in which they are visited; the places after the last are 0.
    pub places: [u8; 8],
    pub cost: u64,
}
