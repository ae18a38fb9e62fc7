//! What it costs from each place of a tour to each other one.

/// Costs in centimetres between the places of a tour: `from` in row 0, stop k, counted from 0, in row k + 1, `to` in the row after the last stop.
/// Nothing stands where no way leads from the one to the other.
#[derive(Clone, Copy, Debug, PartialEq, Eq)]
pub struct Costs {
    /// How many stops there are, 1 to 8.
    pub stops: u8,
    pub rows: [[Option<u64>; 10]; 10],
}
