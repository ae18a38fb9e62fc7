//! What is known of nodes.

ghost use Rattle.std.specs.Prelude.{◌≡◌, ◌≤◌, ◌++◌, OnOk, IfOk, length, map, filter, replicate};
ghost use Rattle.venue_types.specs.declared.features.UnitRow.{UnitRow as AUnit};
ghost use Rattle.imdf_access.specs.Categories.{is_walkable};
ghost use Rattle.venue_types.specs.declared.settings.Settings.{Settings as ASettings};
ghost use Rattle.venue_nodes.specs.Nodes.{NodeRow, unit as of_unit, node_rows};
ghost use Rattle.venue_nodes.specs.Views.{HaveCorners, corner_ranges, find_closable};
ghost use Rattle.link_graph.specs.Making.{copies_at, copies_by, door_of};

use crate::parts::Door;
use imdf_access::{EndFacts, walkable};
use std::alloc::Global;
use venue_nodes::Nodes;
use venue_types::{AmenityRow, AnchorRow, FeatureId, Features, OpeningRow, OutOfMemory, UnitRow};

// A row of a feature for which a node stands.
trait HasDoor {
    /// The row, as one among those of all nodes.
    ghost row_of: { Self → NodeRow };

    /// What is known of its node.
    fn door(&self, nodes: &Nodes) -> Door
        ensures { result ≡ door_of (find_closable nodes.now) (row_of self.now) };
}

// What a place asks that has no say on access.
const ELSEWHERE: EndFacts = EndFacts {
    restricted: false,
    revolving: false,
    turnstile: false,
    unmarked: false,
    out: false,
};

impl HasDoor for AmenityRow {
    ghost use Rattle.venue_nodes.specs.Nodes.{amenity};

    ghost row_of = { amenity };

    fn door(&self, nodes: &Nodes) -> Door {
        Door {
            facts: ELSEWHERE,
            closable: nodes.closable(self.id),
        }
    }
}

impl HasDoor for AnchorRow {
    ghost use Rattle.venue_nodes.specs.Nodes.{anchor};

    ghost row_of = { anchor };

    fn door(&self, nodes: &Nodes) -> Door {
        Door {
            facts: ELSEWHERE,
            closable: nodes.closable(self.id),
        }
    }
}

impl HasDoor for OpeningRow {
    ghost use Rattle.venue_nodes.specs.Nodes.{opening};

    ghost row_of = { opening };

    fn door(&self, nodes: &Nodes) -> Door {
        let facts = EndFacts {
            restricted: false,
            revolving: self.revolving,
            turnstile: self.turnstile,
            unmarked: !self.marked,
            out: self.out,
        };
        Door {
            facts,
            closable: nodes.closable(self.id),
        }
    }
}

impl HasDoor for UnitRow {
    ghost use Rattle.venue_nodes.specs.Nodes.{unit};

    ghost row_of = { unit };

    fn door(&self, nodes: &Nodes) -> Door {
        let facts = EndFacts {
            restricted: self.restricted,
            revolving: false,
            turnstile: false,
            unmarked: false,
            out: false,
        };
        Door {
            facts,
            closable: nodes.closable(self.id),
        }
    }
}

// Adds those of the nodes of these rows.
fn add_doors<R: HasDoor>(
    doors: &mut Vec<Door>,
    nodes: &Nodes,
    rows: &[R],
) -> Result<(), OutOfMemory>
    ensures { OnOk result (doors.new.items ≡ doors.old.items ++ map (λ row. door_of (find_closable nodes.now) (R.row_of row)) rows.now) }
{
    for row in rows {
        doors.push(row.door(nodes))?;
    }
    Ok(())
}

// Adds those of the nodes of the units that can be walked through.
fn add_unit_doors(
    doors: &mut Vec<Door>,
    nodes: &Nodes,
    units: &[UnitRow],
) -> Result<(), OutOfMemory>
    ensures { OnOk result (doors.new.items ≡ doors.old.items ++ map (λ row. door_of (find_closable nodes.now) (of_unit row)) (filter (λ (row : AUnit). is_walkable row.category) units.now)) }
{
    for unit in units {
        if walkable(unit.category.as_str().as_bytes()) {
            doors.push(unit.door(nodes))?;
        }
    }
    Ok(())
}

// Adds for each unit that can be walked through what is known of it once more for each of its corners.
fn add_corner_doors(
    doors: &mut Vec<Door>,
    nodes: &Nodes,
    units: &[UnitRow],
) -> Result<(), OutOfMemory>
    requires { length units.now ≤ 100000 }
    ensures { OnOk result (doors.new.items ≡ doors.old.items ++ copies_by (corner_ranges nodes.now) (map (λ row. door_of (find_closable nodes.now) (of_unit row)) (filter (λ (row : AUnit). is_walkable row.category) units.now))) }
{
    let mut w = 0;
    for unit in units {
        if walkable(unit.category.as_str().as_bytes()) {
            add_unit_corners(doors, nodes, unit, w)?;
            w += 1;
        }
    }
    Ok(())
}

// Adds for each corner of one unit, which has this number among those that can be walked through, what is known of it.
fn add_unit_corners(
    doors: &mut Vec<Door>,
    nodes: &Nodes,
    unit: &UnitRow,
    w: u32,
) -> Result<(), OutOfMemory>
    ensures { OnOk result (doors.new.items ≡ doors.old.items ++ copies_at (corner_ranges nodes.now) w (door_of (find_closable nodes.now) (of_unit unit.now))) }
{
    match nodes.corners(w) {
        None => Ok(()),
        Some(range) => add_copies(
            doors,
            unit.door(nodes),
            range.end.saturating_sub(range.start),
        ),
    }
}

// Adds the same so many times.
fn add_copies(doors: &mut Vec<Door>, door: Door, count: u32) -> Result<(), OutOfMemory>
    ensures { OnOk result (doors.new.items ≡ doors.old.items ++ replicate count door) }
{
    for _ in 0..count {
        doors.push(door)?;
    }
    Ok(())
}

/// What is known of each node. Takes log n time a feature, for the number of what can be closed.
pub(crate) fn doors_of(
    alloc: Global,
    features: &Features,
    nodes: &Nodes,
) -> Result<Vec<Door>, OutOfMemory>
    requires { length features.now.units ≤ 100000 }
    ensures { IfOk result (λ doors. (settings : ASettings) → HaveCorners features.now settings nodes.now → doors.items ≡ map (door_of (find_closable nodes.now)) (node_rows features.now settings)) }
{
    let mut doors = Vec::new(alloc);
    add_doors(&mut doors, nodes, features.amenities.as_slice())?;
    add_doors(&mut doors, nodes, features.anchors.as_slice())?;
    add_doors(&mut doors, nodes, features.openings.as_slice())?;
    add_unit_doors(&mut doors, nodes, features.units.as_slice())?;
    add_corner_doors(&mut doors, nodes, features.units.as_slice())?;
    Ok(doors)
}
