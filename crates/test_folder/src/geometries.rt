//! Geometries that keep each rule and that break it, of each type.

mod table;

use exact_json::{Arena, Tree, read};
use geo_shapes::{ReadGeometry, line, point, shape};
use std::alloc::Global;
use std::test::Fail;
use table::TABLE;
use venue_types::{Line, OutOfMemory, Point, Shape};

#[derive(Clone, Copy, PartialEq, Eq)]
pub(crate) enum Kind {
    Point,
    Line,
    Shape,
}

// The last point, the two flags and the two counts.
pub(crate) type Seen = (Option<(i64, i64)>, bool, bool, u64, u64);

fn plain(point: &Point) -> (i64, i64) {
    (point.x, point.y)
}

fn last(points: &[Point]) -> Option<(i64, i64)> {
    match points.last() {
        Some(point) => Some(plain(point)),
        None => None,
    }
}

fn line_end(line: &Line) -> Option<(i64, i64)> {
    last(line.points.as_slice())
}

fn shape_end(shape: &Shape) -> Option<(i64, i64)> {
    match shape.parts.as_slice().last() {
        Some(part) => match part.holes.as_slice().last() {
            Some(hole) => last(hole.points.as_slice()),
            None => last(part.outer.points.as_slice()),
        },
        None => None,
    }
}

fn seen_point(tree: &Tree) -> Seen {
    let ReadGeometry {
        value,
        bad_position,
        bad_form,
        positions,
        longest,
    } = point(tree);
    let end = match value {
        Some(point) => Some(plain(&point)),
        None => None,
    };
    (end, bad_position, bad_form, positions, longest)
}

fn seen_line(alloc: Global, tree: &Tree) -> Result<Seen, OutOfMemory> {
    let ReadGeometry {
        value,
        bad_position,
        bad_form,
        positions,
        longest,
    } = line(alloc, tree)?;
    let end = match &value {
        Some(line) => line_end(line),
        None => None,
    };
    Ok((end, bad_position, bad_form, positions, longest))
}

fn seen_shape(alloc: Global, tree: &Tree) -> Result<Seen, OutOfMemory> {
    let ReadGeometry {
        value,
        bad_position,
        bad_form,
        positions,
        longest,
    } = shape(alloc, tree)?;
    let end = match &value {
        Some(shape) => shape_end(shape),
        None => None,
    };
    Ok((end, bad_position, bad_form, positions, longest))
}

fn seen(alloc: Global, kind: Kind, tree: &Tree) -> Result<Seen, OutOfMemory> {
    match kind {
        Kind::Point => Ok(seen_point(tree)),
        Kind::Line => seen_line(alloc, tree),
        Kind::Shape => seen_shape(alloc, tree),
    }
}

#[test]
fn geometries(rt: HostRuntime) -> Result<(), Fail> {
    for (kind, text, wanted) in &TABLE {
        let arena = Arena::new(rt.alloc());
        let tree = read(&arena, text)?;
        assert!(rt; seen(rt.alloc(), *kind, &tree)? == *wanted);
    }
    Ok(())
}
