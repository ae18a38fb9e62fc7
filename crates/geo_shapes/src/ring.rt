//! The reading of rings.

ghost use Rattle.std.specs.Prelude.{◌↔◌, map, IfOk, IsTrue};
ghost use Rattle.exact_json.specs.View.{tree_view};
ghost use Rattle.geo_shapes.specs.Figure.{IsOpen};
ghost use Rattle.geo_shapes.specs.Reading.{AreApart, Closes, IsBadRing, ReadsPositions, ReadsRing, GathersRings};

use crate::gathered::Gathered;
use crate::position::{count, maybe_position, points};
use crate::read_geometry::ReadGeometry;
use exact_json::Tree;
use geo_decimal::one_value_law;
use std::alloc::Global;
use venue_types::{List, OutOfMemory, Point, Ring};

// Two positions that differ.
fn are_apart(start: Option<Point>, end: Option<Point>) -> bool
    ensures { IsTrue result ↔ AreApart start end }
{
    match (start, end) {
        (Some(start), Some(end)) => start != end,
        _ => false,
    }
}

// Whether the first and the last are positions that differ. Where all are positions they are known.
fn is_open(trees: &[Tree], points: &Option<Vec<Point>>) -> bool
    requires { ReadsPositions (map tree_view trees.now) points.now }
    ensures { IsTrue result ↔ IsOpen (map tree_view trees.now) }
{
    one_value_law();
    match points {
        Some(points) => are_apart(points.first().copied(), points.last().copied()),
        None => are_apart(maybe_position(trees.first()), maybe_position(trees.last())),
    }
}

// It is too short or open.
fn breaks_form(trees: &[Tree], points: &Option<Vec<Point>>) -> bool
    requires { ReadsPositions (map tree_view trees.now) points.now }
    ensures { IsTrue result ↔ IsBadRing (map tree_view trees.now) }
{
    trees.len() < 4 || is_open(trees, points)
}

// The ring of the points, unless its form is broken.
fn closed(points: Option<Vec<Point>>, bad_form: bool) -> Option<Ring>
    ensures { Closes points bad_form result }
{
    match points {
        Some(points) => {
            if bad_form {
                None
            } else {
                Some(Ring {
                    points: List::from_vec(points),
                })
            }
        }
        None => None,
    }
}

/// Reads a ring, and goes over its positions once.
pub(crate) fn ring(alloc: Global, tree: &Tree) -> Result<ReadGeometry<Ring>, OutOfMemory>
    ensures { IfOk result (ReadsRing (tree_view tree.now)) }
{
    one_value_law();
    let trees = match tree.as_items() {
        Some(trees) => trees,
        None => return Ok(ReadGeometry::no_list()),
    };
    let points = points(alloc, trees)?;
    let bad_form = breaks_form(trees, &points);
    let bad_position = points.is_none();
    let positions = count(trees);
    Ok(ReadGeometry {
        value: closed(points, bad_form),
        bad_position,
        bad_form,
        positions,
        longest: positions,
    })
}

/// Reads the rings of a list in turn.
pub(crate) fn rings(alloc: Global, trees: &[Tree]) -> Result<Gathered<Ring>, OutOfMemory>
    ensures { IfOk result (GathersRings (map tree_view trees.now)) }
{
    let mut rings = Gathered::with_capacity(alloc, trees.len())?;
    for tree in trees {
        let read = ring(alloc, tree)?;
        rings.add(read)?;
    }
    Ok(rings)
}
