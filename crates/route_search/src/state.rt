//! What a search knows.

use crate::frontier::Frontier;
use crate::lasts::Lasts;

/// Of each node the cost of the least walk to it that is known, how that walk ends, and whether the node's links were looked at; and
/// which nodes wait for that.
#[derive(Drop)]
pub(crate) struct State {
    pub costs: Vec<u64>,
    pub lasts: Lasts,
    pub settled: Vec<bool>,
    pub frontier: Frontier,
}
