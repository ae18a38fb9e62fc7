//! Where nodes are, in doubled coordinates.

ghost use Rattle.std.specs.Prelude.{◌≡◌, ◌++◌, All, flat_map};
ghost use Rattle.feature_rows.specs.Sound.{IsOnEarth};
ghost use Rattle.feature_rows.specs.Figures.{display_of};
ghost use Rattle.plane_exact.specs.Figure.{vertices, part_points, ring_points};
ghost use Rattle.venue_nodes.specs.Nodes.{middle as middle_of, line_middle as line_middle_of, box_middle, unit_spot as unit_spot_of};
ghost use Rattle.venue_nodes.specs.Bounds.{with_point, with_all};

use venue_types::{Part, Point, Ring, Shape, Spot, UnitRow};

/// The middle of two positions.
pub(crate) fn middle(a: Point, b: Point) -> Spot
    requires first { IsOnEarth a }
    requires second { IsOnEarth b }
    ensures { result ≡ middle_of a b }
{
    Spot {
        x: a.x + b.x,
        y: a.y + b.y,
    }
}

/// The middle of a line's first vertex and its last.
pub(crate) fn line_middle(points: &[Point]) -> Spot
    requires { All IsOnEarth points.now }
    ensures { result ≡ line_middle_of points.now }
{
    match points {
        [] => Spot { x: 0, y: 0 },
        [first, ..] => middle(*first, points[points.len() - 1]),
    }
}

// The least and the greatest coordinates of some points, in nanodegrees. Without points the least are the greater.
#[derive(Clone, Copy, Debug, PartialEq, Eq)]
struct Bounds {
    west: i64,
    east: i64,
    south: i64,
    north: i64,
}

impl Bounds {
    ghost use Rattle.venue_nodes.specs.Bounds.{with_point};

    // With one more point.
    fn with(self, p: Point) -> Bounds
        ensures { result ≡ with_point self p }
    {
        Bounds {
            west: self.west.min(p.x),
            east: self.east.max(p.x),
            south: self.south.min(p.y),
            north: self.north.max(p.y),
        }
    }
}

// With these points.
fn with_points(bounds: Bounds, points: &[Point]) -> Bounds
    ensures { result ≡ with_all bounds points.now }
{
    let mut grown = bounds;
    for p in points {
        grown = grown.with(*p);
    }
    grown
}

// With the points of these rings.
fn with_rings(bounds: Bounds, rings: &[Ring]) -> Bounds
    ensures { result ≡ with_all bounds (ring_points rings.now) }
{
    let mut grown = bounds;
    for ring in rings {
        grown = with_points(grown, ring.points.as_slice());
    }
    grown
}

// With the points of this polygon.
fn with_part(bounds: Bounds, part: &Part) -> Bounds
    ensures { result ≡ with_all bounds (part_points part.now) }
{
    let outer = with_points(bounds, part.outer.points.as_slice());
    with_rings(outer, part.holes.as_slice())
}

// With the points of these polygons.
fn with_parts(bounds: Bounds, parts: &[Part]) -> Bounds
    ensures { result ≡ with_all bounds (flat_map part_points parts.now) }
{
    let mut grown = bounds;
    for part in parts {
        grown = with_part(grown, part);
    }
    grown
}

// The middle of the box round a shape's vertices. Looks at each once.
fn shape_middle(shape: &Shape) -> Spot
    requires { All IsOnEarth (vertices shape.now) }
    ensures { result ≡ box_middle (vertices shape.now) }
{
    let empty = Bounds {
        west: i64::MAX,
        east: i64::MIN,
        south: i64::MAX,
        north: i64::MIN,
    };
    let bounds = with_parts(empty, shape.parts.as_slice());
    if bounds.west > bounds.east {
        Spot { x: 0, y: 0 }
    } else {
        Spot {
            x: bounds.west + bounds.east,
            y: bounds.south + bounds.north,
        }
    }
}

/// Where somebody in the unit stands: at its display point, or else in the middle of the box round its vertices.
pub(crate) fn unit_spot(unit: &UnitRow) -> Spot
    requires { All IsOnEarth (vertices unit.now.shape ++ display_of unit.now) }
    ensures { result ≡ unit_spot_of unit.now }
{
    match unit.display {
        Some(p) => middle(p, p),
        None => shape_middle(&unit.shape),
    }
}
