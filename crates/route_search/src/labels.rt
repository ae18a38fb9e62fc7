//! What is known of a node.

use venue_types::Link;

/// How a walk to a node ends, of which the cost stands beside it.
#[derive(Clone, Copy, Debug, PartialEq, Eq)]
pub(crate) struct Last {
    /// Its last link; none at the start, and where no walk is known.
    pub by: Option<Link>,
    /// How many links it has.
    pub depth: u32,
}

/// The cost of a node to which no walk is known.
pub(crate) const NO_COST: u64 = u64::MAX;
