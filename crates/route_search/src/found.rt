//! The answer of a search.

use venue_types::{Link, List, Potential};

/// A least walk with its certificate, or where there is none the nodes that are reached.
#[derive(Drop)]
pub enum Found {
    Route {
        /// From the start to the end; none where both are one node.
        walk: List<Link>,
        /// The sum of the links' costs, in whole centimetres.
        cost: u64,
        /// By node, each below the cost; a node that isn't listed has the cost as its potential.
        potentials: List<Potential>,
    },
    Cut {
        /// The nodes to which a walk leads, by their numbers, rising.
        reached: List<u32>,
    },
}
