//! The members of walkable units.

ghost use Rattle.std.specs.Prelude.{◌≡◌, ◌<◌, ◌≤◌, IfOk, Some, length, slice_get};
ghost use Rattle.plane_exact.specs.Opening.{AreTouches};
ghost use Rattle.feature_rows.specs.Figures.{judged_positions};
ghost use Rattle.feature_rows.specs.Rows.{HaveOwnIds};
ghost use Rattle.feature_rows.specs.Sound.{AreSound};
ghost use Rattle.plane_exact.specs.Figure.{AllClose, AllNearby, vertices};
ghost use Rattle.venue_nodes.specs.Standing.{AreStandings};

use crate::lists::Lists;
use crate::named_units::named;
use crate::touch_laws::touch_law;
use crate::unit_rows::filled;
use crate::walkables::Walkables;
use feature_rows::once_law;
use std::alloc::Global;
use venue_types::{Features, Inside, List, OutOfMemory, Settings, Touches};

/// That a node is a member of a unit.
#[derive(Clone, Copy, Debug, PartialEq, Eq)]
pub struct Membership {
    /// The number of the walkable unit, from 0 in file order.
    pub unit: u32,
    /// Where in the unit's row the node stands, from 0.
    pub place: u32,
}

/// The members of each walkable unit, rising, and for each node the units that it is a member of.
#[derive(Drop)]
pub struct Rows {
    members: Lists<u32>,
    seats: Lists<Membership>,
    units: Vec<u32>,
    ghost seated: { AreStandings members seats },
    ghost paired: { length members ≡ length units.items },
    ghost few: { length members ≤ 100000 },
    ghost few_nodes: { length seats ≤ 1100000 },
}

impl Rows {
    ghost use Rattle.std.specs.Prelude.{All, map};
    ghost use Rattle.venue_types.specs.declared.features.UnitRow.{UnitRow as AUnit};
    ghost use Rattle.feature_rows.specs.Indexes.{AreOnce};
    ghost use Rattle.venue_nodes.specs.Naming.{place_bound, named_by_corners, unit_id};
    ghost use Rattle.venue_nodes.specs.Rows.{AreNamedRows, AreRowsOf, node_total, row_list, unit_indexes};
    ghost use Rattle.venue_nodes.specs.Standing.{standings};

    /// The rows of a folder in which the phases before find nothing, of openings that touch these units.
    pub fn of(
        alloc: Global,
        features: &Features,
        settings: &Settings,
        touches: &Touches,
    ) -> Result<Rows, OutOfMemory>
        requires sound { AreSound features.now }
        requires own_ids { HaveOwnIds features.now }
        requires close { AllClose (judged_positions features.now) }
        requires touches { AreTouches settings.now.border_tol features.now touches.now }
        ensures { IfOk result (AreRowsOf features.now settings.now) }
    {
        once_law();
        touch_law();
        let rows = Rows::of_named(alloc, features, settings.inside, touches)?;
        Ok(rows)
    }

    /// The rows by what each node names, of units each with an identifier of its own.
    pub(crate) fn of_named(
        alloc: Global,
        features: &Features,
        inside: Inside,
        touches: &Touches,
    ) -> Result<Rows, OutOfMemory>
        requires once { AreOnce (map unit_id features.now.units) }
        requires few { place_bound features.now touches.now.rows ≤ 100000 }
        requires few_corners { length (named_by_corners inside features.now.units) ≤ 1000000 }
        requires near { All (λ (row : AUnit). AllNearby (vertices row.shape)) features.now.units }
        requires few_points { All (λ (row : AUnit). length (vertices row.shape) ≤ 1000000) features.now.units }
        ensures { IfOk result (AreNamedRows features.now inside touches.now.rows) }
    {
        let walkables = Walkables::of(alloc, features.units.as_slice())?;
        let named = named(alloc, features, inside, touches, &walkables)?;
        let filling = filled(alloc, &walkables, &named)?;
        let members = flattened(alloc, filling.rows.as_slice())?;
        Ok(Rows {
            members,
            seats: filling.seats,
            units: walkables.indexes,
        })
    }

    /// How many rows there are: one for each walkable unit.
    #[tactic(auto, unfolding(crate::specs::Rows::row_list))]
    pub fn len(&self) -> u32
        ensures count { result ≡ length (row_list self.now) }
        ensures few { result ≤ 100000 }
    {
        self.members.len() as u32
    }

    /// How many nodes there are, of which members are some.
    #[tactic(auto, unfolding(crate::specs::Rows::node_total))]
    pub fn nodes(&self) -> u32
        ensures { result ≡ node_total self.now }
    {
        self.seats.len() as u32
    }

    /// The members of a walkable unit, of this number from 0 in file order: numbers of nodes, rising.
    #[tactic(auto, unfolding(crate::specs::Rows::row_list))]
    pub fn row(&self, w: u32) -> &[u32]
        requires { w < length (row_list self.now) }
        ensures { slice_get (row_list self.now) w ≡ Some result.now }
    {
        self.members.list(w as usize)
    }

    /// The index in its file of the unit whose row this is.
    #[tactic(auto, unfolding(crate::specs::Rows::row_list, crate::specs::Rows::unit_indexes))]
    pub fn unit_index(&self, w: u32) -> u32
        requires { w < length (row_list self.now) }
        ensures { slice_get (unit_indexes self.now) w ≡ Some result }
    {
        self.units[w as usize]
    }

    /// Where the node of this number is a member, rising by unit.
    #[tactic(auto, unfolding(crate::specs::Rows::row_list))]
    pub fn memberships(&self, node: u32) -> &[Membership]
        ensures { result.now ≡ standings node 0 (row_list self.now) }
    {
        self.seats.list_or_empty(node as usize)
    }
}

// The rows in one vector.
fn flattened(alloc: Global, rows: &[List<u32>]) -> Result<Lists<u32>, OutOfMemory>
    ensures { IfOk result (λ lists. lists ≡ rows.now) }
{
    let mut lists = Lists::new(alloc);
    for row in rows {
        lists.add(row.as_slice())?;
    }
    Ok(lists)
}
