//! Nodes and the links between them.

use crate::{Class, FeatureId, Kind, List, Spot};

/// A place where walks begin, end and turn.
#[derive(Clone, Copy, Debug, PartialEq, Eq)]
pub struct Node {
    /// Its feature; of a corner its unit.
    pub id: FeatureId,
    pub class: Class,
    /// Its number among the corners of its unit, from 1; 0 where it is no corner.
    pub corner: u32,
    pub spot: Spot,
}

/// A way from a node to a node.
#[derive(Clone, Copy, Debug, PartialEq, Eq)]
pub struct Link {
    /// The number of the node where it starts.
    pub from: u32,
    /// The number of the node where it ends.
    pub to: u32,
    /// The number of the closable feature that it goes by, a unit or a relationship.
    pub via: u32,
    /// Whole centimetres.
    pub cost: u32,
    pub kind: Kind,
}

/// What a profile asks of a link.
#[derive(Clone, Copy, Debug, PartialEq, Eq)]
pub struct LinkFacts {
    pub kind: Kind,
    /// It goes by a restricted unit, or has one as its end.
    pub restricted: bool,
    /// An end is an opening with a revolving door.
    pub revolving: bool,
    /// An end is an opening with a turnstile.
    pub turnstile: bool,
    /// An end is an opening that is not marked for wheelchairs.
    pub unmarked: bool,
    /// An end is an opening that is out of service.
    pub out: bool,
}

/// For each opening the units that it touches, by their indexes.
#[derive(Drop)]
pub struct Touches {
    pub rows: List<List<u32>>,
}

/// A node and its potential, in whole centimetres.
#[derive(Clone, Copy, Debug, PartialEq, Eq)]
pub struct Potential {
    pub node: u32,
    pub value: u64,
}
