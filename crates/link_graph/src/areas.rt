//! The links across units, by the members between which one walks, and those by relationships.

ghost use Rattle.std.specs.Prelude.{◌≡◌, ◌<◌, ◌≤◌, ◌++◌, length, slice_get};
ghost use Rattle.std.specs.List.{flat_map};
ghost use Rattle.venue_nodes.specs.Views.{closable_list};
ghost use Rattle.link_graph.specs.Areas.{IsArea, area_links, areas, inside_area, passages, unit_of, walked_of};
ghost use Rattle.link_graph.specs.Cores.{IsSoundCore};
ghost use Rattle.link_graph.specs.Graphs.{network};

use crate::graph::Graph;
use crate::parts::{Core, Crossing, UnitWay};
use crate::ways::across_link;
use unit_sight::Sights;
use venue_types::{Kind, Link};

/// A unit that one may walk across.
#[derive(Clone, Copy, PartialEq, Eq)]
pub struct Area {
    /// Its number among what can be closed.
    pub via: u32,
    /// How it is passed.
    pub kind: Kind,
    /// Whether it is a restricted unit.
    pub restricted: bool,
}

impl Graph {
    ghost use Rattle.std.specs.Prelude.{Some};

    /// How many units there are that one may walk across, whether links lead across or none.
    #[tactic(auto, unfolding(crate::specs::Areas::areas))]
    pub fn areas(&self) -> u32
        ensures { result ≡ length (areas self.now) }
    {
        self.core.rows.len()
    }

    /// One of them, in file order, the numbers of its members between which one walks, rising: none on a moving walkway; and which of these are
    /// joined, by their places.
    #[tactic(auto, unfolding(crate::specs::Areas::areas))]
    pub fn area(&self, w: u32) -> (Area, &[u32], &Sights)
        requires { w < length (areas self.now) }
        ensures there { slice_get (areas self.now) w ≡ Some (result.0, result.1.now, result.2.now) }
        ensures area { IsArea (network self.now) result.0 result.1.now result.2.now }
    {
        let crossing = &self.core.crossings[w as usize];
        (
            unit(&self.core, crossing),
            walked(crossing, self.core.rows.row(w)),
            &crossing.sights,
        )
    }

    /// The link from member to member of a unit. Computes its length.
    #[tactic(auto, unfolding(crate::specs::Graphs::network, crate::specs::Cores::network_in, crate::specs::Areas::straight))]
    pub fn across(&self, area: Area, a: u32, b: u32) -> Link
        requires from { a < length (network self.now).nodes }
        requires to { b < length (network self.now).nodes }
        ensures link { result ≡ inside_area self.now area a b }
        ensures cost { result.cost ≤ 5700000 }
    {
        let unit = UnitWay {
            via: area.via,
            kind: area.kind,
        };
        across_link(&self.core, unit, a, b)
    }

    /// The links by relationships, in their order.
    #[tactic(auto, unfolding(crate::specs::Areas::passages))]
    pub fn passages(&self) -> &[Link]
        ensures { result.now ≡ passages self.now }
    {
        &self.core.passages
    }

    /// The links are those across units, unit by unit, and then those by relationships.
    pub fn areas_law(&self)
        ensures { (network self.now).links ≡ flat_map (area_links self.now) (areas self.now) ++ passages self.now }
    {}
}

// The unit of a row.
#[tactic(auto, unfolding(crate::specs::Cores::barred_in))]
fn unit(core: &Core, crossing: &Crossing) -> Area
    requires sound { IsSoundCore core.now }
    requires within { crossing.now.via < length (closable_list core.now.nodes) }
    ensures { result ≡ unit_of core.now crossing.now }
{
    Area {
        via: crossing.via,
        kind: crossing.kind,
        restricted: core.barred[crossing.via as usize],
    }
}

// The members of a row between which one walks.
fn walked<'row>(crossing: &Crossing, row: &'row [u32]) -> &'row [u32]
    ensures { result.now ≡ walked_of crossing.now row.now }
{
    if crossing.walked { row } else { &[] }
}
