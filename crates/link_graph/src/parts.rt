//! What a graph keeps.

use imdf_access::EndFacts;
use unit_sight::Sights;
use venue_nodes::{Nodes, Rows};
use venue_types::{Kind, Link, List};

/// By what links across a unit go.
#[derive(Clone, Copy, Debug, PartialEq, Eq)]
pub(crate) struct UnitWay {
    /// The unit's number among what can be closed.
    pub via: u32,
    pub kind: Kind,
}

/// A unit that links go across.
#[derive(Drop)]
pub(crate) struct Crossing {
    /// Its number among what can be closed.
    pub via: u32,
    pub kind: Kind,
    /// Whether one walks through it, which nobody does on a moving walkway.
    pub walked: bool,
    /// Which of its members are joined, by their places in its row.
    pub sights: Sights,
}

impl Crossing {
    ghost use Rattle.std.specs.Prelude.{◌≡◌};
    ghost use Rattle.link_graph.specs.Cores.{way_of};

    /// By what one crosses it.
    pub(crate) fn way(&self) -> UnitWay
        ensures { result ≡ way_of self.now }
    {
        UnitWay {
            via: self.via,
            kind: self.kind,
        }
    }
}

/// What is known of a node.
#[derive(Clone, Copy, Debug, PartialEq, Eq)]
pub(crate) struct Door {
    /// What it asks of who passes it.
    pub facts: EndFacts,
    /// Its feature's number among what can be closed, if it can be.
    pub closable: Option<u32>,
}

/// That a node has links across a unit.
#[derive(Clone, Copy, Debug, PartialEq, Eq)]
pub(crate) struct Seat {
    /// The number of the unit's row of members.
    pub row: u32,
    /// Where in the row the node stands.
    pub place: u32,
    /// The place of the first of these links among those out of the node.
    pub first: u32,
}

/// Links across units are told by rows of members, and never stored; those by relationships are.
#[derive(Drop)]
pub(crate) struct Core {
    pub nodes: Nodes,
    pub rows: Rows,
    /// The unit of each row.
    pub crossings: Vec<Crossing>,
    /// For each node.
    pub doors: Vec<Door>,
    /// For each node the units across which it has links, in file order.
    pub seats: Vec<List<Seat>>,
    /// The links by relationships, in their order.
    pub passages: Vec<Link>,
    /// For each node the numbers of those that start there.
    pub leaving: Vec<List<u32>>,
    /// For each feature that can be closed, whether it is a restricted unit.
    pub barred: Vec<bool>,
    /// The number of the first unit among what can be closed.
    pub first_unit: u32,
    /// Centimetres per degree of longitude and of latitude.
    pub kx: u32,
    pub ky: u32,
}
