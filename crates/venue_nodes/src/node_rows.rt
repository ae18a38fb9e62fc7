//! Nodes made of rows.

ghost use Rattle.std.specs.Prelude.{◌≡◌, ◌++◌, All, OnOk, IfOk, map, filter};
ghost use Rattle.venue_types.specs.declared.features.UnitRow.{UnitRow as AUnit};
ghost use Rattle.imdf_access.specs.Categories.{is_walkable};
ghost use Rattle.venue_nodes.specs.Nodes.{NodeRow, unit as of_unit, node_of_row, place_nodes};
ghost use Rattle.venue_nodes.specs.Bounds.{IsPlaced};
ghost use Rattle.venue_nodes.specs.Making.{CanPlace};

use crate::spots::{line_middle, middle, unit_spot};
use imdf_access::walkable;
use std::alloc::Global;
use venue_types::{AmenityRow, AnchorRow, Class, Features, Node, OpeningRow, OutOfMemory, UnitRow};

/// A row of a feature for which a node can stand.
pub(crate) trait HasNode {
    /// The row, as one among those of all nodes.
    ghost row_of: { Self → NodeRow };

    /// Its node.
    fn node(&self) -> Node
        requires { IsPlaced (row_of self.now) }
        ensures { result ≡ node_of_row (row_of self.now) };
}

impl HasNode for AmenityRow {
    ghost use Rattle.venue_nodes.specs.Nodes.{amenity};

    ghost row_of = { amenity };

    fn node(&self) -> Node {
        Node {
            id: self.id,
            class: Class::Amenity,
            corner: 0,
            spot: middle(self.point, self.point),
        }
    }
}

impl HasNode for AnchorRow {
    ghost use Rattle.venue_nodes.specs.Nodes.{anchor};

    ghost row_of = { anchor };

    fn node(&self) -> Node {
        Node {
            id: self.id,
            class: Class::Anchor,
            corner: 0,
            spot: middle(self.point, self.point),
        }
    }
}

impl HasNode for OpeningRow {
    ghost use Rattle.venue_nodes.specs.Nodes.{opening};

    ghost row_of = { opening };

    fn node(&self) -> Node {
        Node {
            id: self.id,
            class: Class::Opening,
            corner: 0,
            spot: line_middle(self.line.points.as_slice()),
        }
    }
}

impl HasNode for UnitRow {
    ghost use Rattle.venue_nodes.specs.Nodes.{unit};

    ghost row_of = { unit };

    fn node(&self) -> Node {
        Node {
            id: self.id,
            class: Class::Unit,
            corner: 0,
            spot: unit_spot(self),
        }
    }
}

// Adds the nodes of these rows.
fn add_nodes<R: HasNode>(nodes: &mut Vec<Node>, rows: &[R]) -> Result<(), OutOfMemory>
    requires { All (λ row. IsPlaced (R.row_of row)) rows.now }
    ensures { OnOk result (nodes.new.items ≡ nodes.old.items ++ map (λ row. node_of_row (R.row_of row)) rows.now) }
{
    for row in rows {
        nodes.push(row.node())?;
    }
    Ok(())
}

// Adds the nodes of those of the units that can be walked through.
fn add_unit_nodes(nodes: &mut Vec<Node>, units: &[UnitRow]) -> Result<(), OutOfMemory>
    requires { All (λ row. IsPlaced (of_unit row)) units.now }
    ensures { OnOk result (nodes.new.items ≡ nodes.old.items ++ map (λ row. node_of_row (of_unit row)) (filter (λ (row : AUnit). is_walkable row.category) units.now)) }
{
    for unit in units {
        if walkable(unit.category.as_str().as_bytes()) {
            nodes.push(unit.node())?;
        }
    }
    Ok(())
}

/// The nodes of the places, in their order.
pub(crate) fn nodes_of(alloc: Global, features: &Features) -> Result<Vec<Node>, OutOfMemory>
    requires { CanPlace features.now }
    ensures { IfOk result (λ made. made.items ≡ place_nodes features.now) }
{
    let mut made = Vec::new(alloc);
    add_nodes(&mut made, features.amenities.as_slice())?;
    add_nodes(&mut made, features.anchors.as_slice())?;
    add_nodes(&mut made, features.openings.as_slice())?;
    add_unit_nodes(&mut made, features.units.as_slice())?;
    Ok(made)
}
