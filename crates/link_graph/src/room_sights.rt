//! Which members of each unit are joined.

ghost use Rattle.std.specs.Prelude.{◌≡◌, ◌<◌, ◌≤◌, ℕ, All, Contains, IfOk, length, map};
ghost use Rattle.std.specs.Prelude.{false};
ghost use Rattle.venue_types.specs.declared.settings.Inside.TheVariants.{Clear};
ghost use Rattle.venue_nodes.specs.Members.{members};
ghost use Rattle.venue_nodes.specs.Nodes.{carries};
ghost use Rattle.venue_nodes.specs.Views.{node_list};
ghost use Rattle.link_graph.specs.Links.{wall_tol};
ghost use Rattle.link_graph.specs.Making.{IsRoomGround, room_table, spot_at};

use crate::trails::Ground;
use imdf_access::unit_kind;
use std::alloc::Global;
use unit_sight::Sights;
use venue_nodes::Nodes;
use venue_types::{Inside, Kind, OutOfMemory, Settings, Spot, UnitRow};

impl Ground<'_> {
    /// Which members of a unit are joined, by their places in its row. Where ways go straight, or people are carried, nothing is looked at;
    /// else a tree of the unit's edges is made, asked once for each pair of members, and let go.
    pub(crate) fn sights(
        &self,
        alloc: Global,
        unit: &UnitRow,
        row: &[u32],
    ) -> Result<Sights, OutOfMemory>
        requires ground { IsRoomGround self.now }
        requires unit { Contains self.now.features.now.units unit.now }
        requires row { row.now ≡ members self.now.features.now self.now.settings.now unit.now }
        requires short { length row.now ≤ 4096 }
        ensures { IfOk result (λ sights. sights ≡ room_table self.now.features.now self.now.settings.now unit.now) }
    {
        let kind = unit_kind(unit.category.as_str().as_bytes());
        match self.settings.inside {
            Inside::Straight => Ok(Sights::whole(row.len() as u32)),
            Inside::Clear if matches!(kind, Kind::Movingwalkway) => {
                Ok(Sights::whole(row.len() as u32))
            }
            Inside::Clear => self.found(alloc, unit, row),
        }
    }

    // Which members of a unit see each other, and whom those that see nobody are joined to.
    fn found(&self, alloc: Global, unit: &UnitRow, row: &[u32]) -> Result<Sights, OutOfMemory>
        requires ground { IsRoomGround self.now }
        requires unit { Contains self.now.features.now.units unit.now }
        requires row { row.now ≡ members self.now.features.now self.now.settings.now unit.now }
        requires short { length row.now ≤ 4096 }
        requires clear { self.now.settings.now.inside ≡ Clear }
        requires still { carries unit.now ≡ false }
        ensures { IfOk result (λ sights. sights ≡ room_table self.now.features.now self.now.settings.now unit.now) }
    {
        let spots = spots_of(alloc, self.nodes, row)?;
        let settings = self.settings;
        let tolerance = wall_tolerance(settings);
        Sights::of(
            alloc,
            &unit.shape,
            &spots,
            tolerance,
            settings.kx,
            settings.ky,
        )
    }
}

// How far off a wall a place stands at it.
fn wall_tolerance(settings: &Settings) -> u32
    ensures value { result ≡ wall_tol settings.now }
    ensures range { result ≤ 1000000 }
{
    settings.border_tol.max(settings.contain_tol)
}

// Where these nodes are.
fn spots_of(alloc: Global, nodes: &Nodes, row: &[u32]) -> Result<Vec<Spot>, OutOfMemory>
    requires { All (λ (m : ℕ). m < length (node_list nodes.now)) row.now }
    ensures { IfOk result (λ spots. spots.items ≡ map (spot_at (node_list nodes.now)) row.now) }
{
    let mut spots = Vec::with_capacity(alloc, row.len())?;
    for m in row {
        spots.push(nodes.node(*m).spot)?;
    }
    Ok(spots)
}
