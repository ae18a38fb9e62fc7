//! The answer to the question for the nearest.

use venue_types::{Link, List, Potential};

/// A node, and a least walk to it.
#[derive(Drop)]
pub struct NearWalk {
    pub node: u32,
    /// From the start to the node; none where both are one node.
    pub walk: List<Link>,
    /// The sum of the links' costs, in whole centimetres.
    pub cost: u64,
}

/// The nearest nodes, and what shows that none nearer is left out.
#[derive(Drop)]
pub struct Near {
    /// By cost, then by node.
    pub rows: List<NearWalk>,
    /// By node, each below the cost of the last row; a node that isn't listed has that cost as its potential.
    pub potentials: List<Potential>,
    /// Where there are fewer rows than the limit, the nodes to which a walk leads, by their numbers, rising.
    pub reached: Option<List<u32>>,
}
