//! The nodes of a venue, and what can be closed in it.

ghost use Rattle.std.specs.Prelude.{◌≤◌, length};
ghost use Rattle.feature_rows.specs.Figures.{judged_positions};
ghost use Rattle.feature_rows.specs.Sound.{AreSound};
ghost use Rattle.plane_exact.specs.Figure.{AllClose};
ghost use Rattle.venue_nodes.specs.Making.{CanPlace};

use crate::corner_nodes::{CornerRange, add_corners};
use crate::ids::{anchors_of, closables_of, ids_of};
use crate::node_rows::nodes_of;
use crate::numbers::Numbers;
use std::alloc::Global;
use venue_types::{FeatureId, Features, Node, OutOfMemory, Settings};

/// Nodes and what can be closed, each by its number, from 0, and by its identifier.
#[derive(Drop)]
pub struct Nodes {
    list: Vec<Node>,
    // Those of the places alone, by their identifiers.
    numbers: Numbers,
    // Where the corners of each unit that can be walked through stand.
    corners: Vec<CornerRange>,
    occupants: Numbers,
    // The anchor of each occupant, by the occupant's number.
    anchors: Vec<FeatureId>,
    closable_ids: Vec<FeatureId>,
    closable_numbers: Numbers,
    ghost few_nodes: { length list.items ≤ 1100000 },
    ghost few_closables: { length closable_ids.items ≤ 400000 },
}

impl Nodes {
    ghost use Rattle.std.specs.Prelude.{◌≡◌, ◌<◌, IfOk, Some, slice_get};
    ghost use Rattle.venue_nodes.specs.Views.{AreNodes, HaveCorners, node_list, corner_ranges, find_place, closable_list, find_closable};

    /// Of the features of a folder any two of whose positions are close. Takes n log n time, and some 100 bytes a feature and 48 a
    /// corner.
    pub fn of(alloc: Global, features: &Features, settings: &Settings) -> Result<Nodes, OutOfMemory>
        requires sound { AreSound features.now }
        requires close { AllClose (judged_positions features.now) }
        ensures nodes { IfOk result (AreNodes features.now settings.now) }
        ensures corners { IfOk result (HaveCorners features.now settings.now) }
    {
        Nodes::placed(alloc, features, settings)
    }

    /// The same, of rows of which only that is known that it takes.
    pub(crate) fn placed(
        alloc: Global,
        features: &Features,
        settings: &Settings,
    ) -> Result<Nodes, OutOfMemory>
        requires { CanPlace features.now }
        ensures nodes { IfOk result (AreNodes features.now settings.now) }
        ensures corners { IfOk result (HaveCorners features.now settings.now) }
    {
        let mut list = nodes_of(alloc, features)?;
        let numbers = Numbers::of(alloc, &ids_of(alloc, &list)?)?;
        let corners = add_corners(alloc, &mut list, features.units.as_slice(), settings.inside)?;
        let occupants = Numbers::of(alloc, &ids_of(alloc, features.occupants.as_slice())?)?;
        let anchors = anchors_of(alloc, features.occupants.as_slice())?;
        let closable_ids = closables_of(alloc, features)?;
        let closable_numbers = Numbers::of(alloc, &closable_ids)?;
        Ok(Nodes {
            list,
            numbers,
            corners,
            occupants,
            anchors,
            closable_ids,
            closable_numbers,
        })
    }

    /// How many nodes there are.
    #[tactic(auto, unfolding(crate::specs::Views::node_list))]
    pub fn len(&self) -> u32
        ensures number { result ≡ length (node_list self.now) }
        ensures few { result ≤ 1100000 }
    {
        self.list.len() as u32
    }

    /// The node of this number.
    #[tactic(auto, unfolding(crate::specs::Views::node_list))]
    pub fn node(&self, n: u32) -> Node
        requires { n < length (node_list self.now) }
        ensures { slice_get (node_list self.now) n ≡ Some result }
    {
        self.list[n as usize]
    }

    /// Where the nodes of a unit's corners stand, of the unit of this number among those that can be walked through, if there is one.
    #[tactic(auto, unfolding(crate::specs::Views::corner_ranges))]
    pub fn corners(&self, w: u32) -> Option<CornerRange>
        ensures { result ≡ slice_get (corner_ranges self.now) w }
    {
        self.corners.get(w as usize).copied()
    }

    /// The number of the node at which a feature is, if it is a place: an occupant is at its anchor. Takes log n time.
    #[tactic(auto, unfolding(crate::specs::Views::find_place))]
    pub fn node_of(&self, id: FeatureId) -> Option<u32>
        ensures { result ≡ find_place self.now id }
    {
        match self.occupants.find(id) {
            None => self.numbers.find(id),
            Some(k) => {
                let anchor = self.anchors.get(k as usize)?;
                self.numbers.find(*anchor)
            }
        }
    }

    /// How many features can be closed.
    #[tactic(auto, unfolding(crate::specs::Views::closable_list))]
    pub fn closables(&self) -> u32
        ensures number { result ≡ length (closable_list self.now) }
        ensures few { result ≤ 400000 }
    {
        self.closable_ids.len() as u32
    }

    /// The number of a feature among those that can be closed, if it can be. Takes log n time.
    #[tactic(auto, unfolding(crate::specs::Views::find_closable))]
    pub fn closable(&self, id: FeatureId) -> Option<u32>
        ensures { result ≡ find_closable self.now id }
    {
        self.closable_numbers.find(id)
    }

    /// The feature of this number among those that can be closed.
    #[tactic(auto, unfolding(crate::specs::Views::closable_list))]
    pub fn closable_id(&self, k: u32) -> FeatureId
        requires { k < length (closable_list self.now) }
        ensures { slice_get (closable_list self.now) k ≡ Some result }
    {
        self.closable_ids[k as usize]
    }
}
