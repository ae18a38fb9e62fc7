//! What is kept of which openings touch which units.

use venue_types::{List, Touches};

/// Which openings touch which units, or how many there are where no venue may have so many.
#[derive(Drop)]
pub enum Matches {
    /// For each opening the units that it touches.
    Each(Touches),
    /// For each of the first units how many openings touch it. These are the units up to the first in which people walk that more than
    /// 4,095 touch; or all, where those in which people walk are touched more than 20,000,000 times.
    Many(List<usize>),
}
