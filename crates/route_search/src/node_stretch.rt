//! Where links out of a node are looked at.

use link_graph::Stretch;

/// One of the stretches of a node.
#[derive(Clone, Copy)]
pub(crate) struct NodeStretch {
    pub node: u32,
    /// Its number among those of the node, from 0.
    pub k: u32,
    pub stretch: Stretch,
}
