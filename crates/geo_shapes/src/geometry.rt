//! The reading of a geometry object.

ghost use Rattle.std.specs.Prelude.{◌≡◌, ◌↔◌, false, length, min, option_map, unwrap_or, IfOk, IfSome, IsSome, IsTrue};
ghost use Rattle.exact_json.specs.Json.{null};
ghost use Rattle.exact_json.specs.View.{tree_view};
ghost use Rattle.geo_shapes.specs.Position.{BreaksPositions};
ghost use Rattle.geo_shapes.specs.Reading.{Draws, ReadsLine, ReadsShape};
ghost use Rattle.geo_shapes.specs.Geometry.{coordinates, is_multi, HasPoint, HasLine, HasShape, BreaksLineForm, BreaksShapeForm, point_places, line_places, polygon_places, ring_places, shape_places, longest_of};

use crate::polygon::{several, single};
use crate::position::{count, maybe_position, points};
use crate::read_geometry::ReadGeometry;
use crate::values::{is_text, member};
use exact_json::Tree;
use std::alloc::Global;
use venue_types::{Line, List, OutOfMemory, Point, Shape};

// What it has by that name, if it is an object that has it.
fn coordinates<'a, 'b>(tree: &'a Tree<'b>) -> Option<&'a Tree<'b>>
    ensures { unwrap_or (option_map (λ t. tree_view t.now) result) null ≡ coordinates (tree_view tree.now) }
{
    member(tree, b"coordinates".as_slice())
}

// Whether its type says that it is a MultiPolygon.
fn is_multi(tree: &Tree) -> bool
    ensures { result ≡ is_multi (tree_view tree.now) }
{
    match member(tree, b"type".as_slice()) {
        Some(name) => is_text(name, b"MultiPolygon".as_slice()),
        None => false,
    }
}

/// Reads a Point (RFC 7946, section 3.1.2), whatever its `type` says. It takes no memory.
pub fn point(tree: &Tree) -> ReadGeometry<Point>
    ensures value { IfSome result.value (HasPoint (tree_view tree.now)) }
    ensures there { IsSome result.value ↔ ((result.bad_position ≡ false) × (result.bad_form ≡ false)) }
    ensures bad_position { IsTrue result.bad_position ↔ BreaksPositions (point_places (tree_view tree.now)) }
    ensures bad_form { result.bad_form ≡ false }
    ensures positions { result.positions ≡ length (point_places (tree_view tree.now)) }
    ensures longest { result.longest ≡ 0 }
{
    let value = maybe_position(coordinates(tree));
    ReadGeometry {
        value,
        bad_position: value.is_none(),
        bad_form: false,
        positions: 1,
        longest: 0,
    }
}

// The line through the points, unless its form is broken.
fn drawn(points: Option<Vec<Point>>, bad_form: bool) -> Option<Line>
    ensures { Draws points bad_form result }
{
    match points {
        Some(points) => {
            if bad_form {
                None
            } else {
                Some(Line {
                    points: List::from_vec(points),
                })
            }
        }
        None => None,
    }
}

// Reads the positions of a line.
fn line_of(alloc: Global, tree: &Tree) -> Result<ReadGeometry<Line>, OutOfMemory>
    ensures { IfOk result (ReadsLine (tree_view tree.now)) }
{
    let trees = match tree.as_items() {
        Some(trees) => trees,
        None => return Ok(ReadGeometry::no_list()),
    };
    let points = points(alloc, trees)?;
    let positions = count(trees);
    let bad_form = positions < 2;
    let bad_position = points.is_none();
    Ok(ReadGeometry {
        value: drawn(points, bad_form),
        bad_position,
        bad_form,
        positions,
        longest: 0,
    })
}

fn read_line(alloc: Global, tree: &Tree) -> Result<ReadGeometry<Line>, OutOfMemory>
    ensures { IfOk result (ReadsLine (coordinates (tree_view tree.now))) }
{
    match coordinates(tree) {
        Some(value) => line_of(alloc, value),
        None => Ok(ReadGeometry::no_list()),
    }
}

/// Reads a LineString (RFC 7946, section 3.1.4), whatever its `type` says, in time that grows with its positions.
pub fn line(alloc: Global, tree: &Tree) -> Result<ReadGeometry<Line>, OutOfMemory>
    ensures value { IfOk result (λ r. IfSome r.value (HasLine (tree_view tree.now))) }
    ensures there { IfOk result (λ r.
        IsSome r.value ↔ ((r.bad_position ≡ false) × (r.bad_form ≡ false))) }
    ensures bad_position { IfOk result (λ r.
        IsTrue r.bad_position ↔ BreaksPositions (line_places (tree_view tree.now))) }
    ensures bad_form { IfOk result (λ r.
        IsTrue r.bad_form ↔ BreaksLineForm (tree_view tree.now)) }
    ensures positions { IfOk result (λ r. r.positions ≡ length (line_places (tree_view tree.now))) }
    ensures longest { IfOk result (λ r. r.longest ≡ 0) }
{
    read_line(alloc, tree)
}

fn read_shape(alloc: Global, tree: &Tree) -> Result<ReadGeometry<Shape>, OutOfMemory>
    ensures { IfOk result (ReadsShape (polygon_places (tree_view tree.now))) }
{
    let value = match coordinates(tree) {
        Some(value) => value,
        None => return Ok(ReadGeometry::no_list()),
    };
    if is_multi(tree) {
        match value.as_items() {
            Some(trees) => several(alloc, trees),
            None => Ok(ReadGeometry::no_list()),
        }
    } else {
        single(alloc, value)
    }
}

/// Reads a MultiPolygon (RFC 7946, section 3.1.7) where its `type` says so, else a Polygon (section 3.1.6), in one part.
///
/// It goes over the positions once.
pub fn shape(alloc: Global, tree: &Tree) -> Result<ReadGeometry<Shape>, OutOfMemory>
    ensures value { IfOk result (λ r. IfSome r.value (HasShape (tree_view tree.now))) }
    ensures there { IfOk result (λ r.
        IsSome r.value ↔ ((r.bad_position ≡ false) × (r.bad_form ≡ false))) }
    ensures bad_position { IfOk result (λ r.
        IsTrue r.bad_position ↔ BreaksPositions (shape_places (tree_view tree.now))) }
    ensures bad_form { IfOk result (λ r.
        IsTrue r.bad_form ↔ BreaksShapeForm (tree_view tree.now)) }
    // The count stands still at its type's end.
    ensures positions { IfOk result (λ r.
        r.positions ≡ min (length (shape_places (tree_view tree.now))) u64.MAX) }
    ensures longest { IfOk result (λ r.
        r.longest ≡ longest_of (ring_places (tree_view tree.now))) }
{
    read_shape(alloc, tree)
}
