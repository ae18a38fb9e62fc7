//! Corners of units as nodes.

ghost use Rattle.std.specs.Prelude.{◌≡◌, ◌+◌, ◌++◌, ◌≤◌, All, IfOk, OnOk, flat_map, length, map, filter};
ghost use Rattle.venue_types.specs.declared.features.UnitRow.{UnitRow as AUnit};
ghost use Rattle.feature_rows.specs.Sound.{IsOnEarth};
ghost use Rattle.plane_exact.specs.Figure.{AllNearby, vertices};
ghost use Rattle.venue_nodes.specs.Naming.{can_walk};
ghost use Rattle.venue_nodes.specs.Nodes.{carries, corner_points, corner_rows, corner_rows_from, node_of_row};
ghost use Rattle.venue_nodes.specs.Bounds.{IsPlaced};
ghost use Rattle.venue_nodes.specs.Nodes.{unit as of_unit};
ghost use Rattle.venue_nodes.specs.Views.{range_behind, ranges_from};

use crate::spots::middle;
use imdf_access::{unit_kind, walkable};
use plane_exact::{corner_count, corners};
use std::alloc::Global;
use venue_types::{Class, Inside, Kind, List, Node, OutOfMemory, Point, UnitRow};

/// The numbers of the nodes of a unit's corners, in their order: from `start` on, below `end`.
#[derive(Clone, Copy, Debug, PartialEq, Eq)]
pub struct CornerRange {
    pub start: u32,
    pub end: u32,
}

/// Adds the nodes of the corners of the units that can be walked through, and tells where those of each stand.
pub(crate) fn add_corners(
    alloc: Global,
    nodes: &mut Vec<Node>,
    units: &[UnitRow],
    inside: Inside,
) -> Result<Vec<CornerRange>, OutOfMemory>
    requires placed { All (λ row. IsPlaced (of_unit row)) units.now }
    requires near { All (λ row. AllNearby (vertices row.shape)) units.now }
    requires few { length nodes.old.items + length (flat_map (corner_rows inside) (filter can_walk units.now)) ≤ 1100000 }
    ensures nodes { IfOk result (λ _. nodes.new.items ≡ nodes.old.items ++ map node_of_row (flat_map (corner_rows inside) (filter can_walk units.now))) }
    ensures ranges { IfOk result (λ ranges. ranges.items ≡ ranges_from (length nodes.old.items) (map (λ (row : AUnit). length (corner_points inside row)) (filter can_walk units.now))) }
{
    let mut ranges = Vec::new(alloc);
    for unit in units {
        if walkable(unit.category.as_str().as_bytes()) {
            ranges.push(add_unit_corners(alloc, nodes, unit, inside)?)?;
        }
    }
    Ok(ranges)
}

// Adds the nodes of the corners of one unit, and tells where they stand.
fn add_unit_corners(
    alloc: Global,
    nodes: &mut Vec<Node>,
    unit: &UnitRow,
    inside: Inside,
) -> Result<CornerRange, OutOfMemory>
    requires placed { IsPlaced (of_unit unit.now) }
    requires near { AllNearby (vertices unit.now.shape) }
    requires few { length nodes.old.items + length (corner_rows inside unit.now) ≤ 1100000 }
    ensures nodes { IfOk result (λ _. nodes.new.items ≡ nodes.old.items ++ map node_of_row (corner_rows inside unit.now)) }
    ensures range { IfOk result (λ range. range ≡ range_behind (length nodes.old.items) (length (corner_points inside unit.now))) }
{
    let start = nodes.len() as u32;
    let points = corner_points(alloc, unit, inside)?;
    add_numbered(nodes, unit, points.as_slice())?;
    Ok(CornerRange {
        start,
        end: nodes.len() as u32,
    })
}

// Adds the nodes of these corners of a unit, numbered from 1.
fn add_numbered(nodes: &mut Vec<Node>, unit: &UnitRow, points: &[Point]) -> Result<(), OutOfMemory>
    requires earth { All IsOnEarth points.now }
    requires few { length points.now ≤ 1100000 }
    ensures { OnOk result (nodes.new.items ≡ nodes.old.items ++ map node_of_row (corner_rows_from unit.now 1 points.now)) }
{
    let mut number = 1;
    for point in points {
        nodes.push(Node {
            id: unit.id,
            class: Class::Corner,
            corner: number,
            spot: middle(*point, *point),
        })?;
        number += 1;
    }
    Ok(())
}

// The positions at which one turns who walks in the unit.
fn corner_points(alloc: Global, unit: &UnitRow, inside: Inside) -> Result<List<Point>, OutOfMemory>
    requires { AllNearby (vertices unit.now.shape) }
    ensures { IfOk result (λ points. points ≡ corner_points inside unit.now) }
{
    match inside {
        Inside::Straight => Ok(List::new(alloc)),
        Inside::Clear if carries(unit) => Ok(List::new(alloc)),
        Inside::Clear => corners(alloc, &unit.shape),
    }
}

/// How many positions there are at which one turns who walks in the unit, told without memory.
pub(crate) fn corner_number(unit: &UnitRow, inside: Inside) -> u32
    requires near { AllNearby (vertices unit.now.shape) }
    requires few { length (vertices unit.now.shape) ≤ 1000000 }
    ensures { result ≡ length (corner_points inside unit.now) }
{
    match inside {
        Inside::Straight => 0,
        Inside::Clear if carries(unit) => 0,
        Inside::Clear => corner_count(&unit.shape),
    }
}

/// Whether people stand in the unit and are carried: on a moving walkway.
pub(crate) fn carries(unit: &UnitRow) -> bool
    ensures { result ≡ carries unit.now }
{
    unit_kind(unit.category.as_str().as_bytes()) == Kind::Movingwalkway
}
