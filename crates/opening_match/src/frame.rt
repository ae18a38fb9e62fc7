//! Where the vertices of a shape lie, by the sides of a frame.

ghost use Rattle.std.specs.Prelude.{◌≡◌, ◌↔◌, pos, ◌+ℤ◌, ◌≤ℤ◌, IsTrue, [], ◌∷◌};
ghost use Rattle.plane_exact.specs.Figure.{ring_points, part_points};
ghost use Rattle.opening_match.specs.Frames.{Grows, IsFramed, IsAtHeight};

use crate::entries::Entry;
use venue_types::{Part, Point, Ring, Shape};

/// How far west, east, south and north the vertices of a shape lie, in nanodegrees.
#[derive(Clone, Copy, Debug, PartialEq, Eq)]
pub(crate) struct Frame {
    pub west: i64,
    pub east: i64,
    south: i64,
    north: i64,
}

impl Frame {
    /// Whether an opening begins at a latitude of the frame, or beyond it by no more than the tolerance.
    pub(crate) fn is_at_height(&self, tolerance: u32, entry: &Entry) -> bool
        ensures { IsTrue result ↔ IsAtHeight self.now tolerance entry.now.y }
    {
        is_within(self.south, entry.y, tolerance) && is_within(entry.y, self.north, tolerance)
    }

    // With one more position.
    fn with(self, p: Point) -> Frame
        ensures { Grows self result (p ∷ []) }
    {
        Frame {
            west: self.west.min(p.x),
            east: self.east.max(p.x),
            south: self.south.min(p.y),
            north: self.north.max(p.y),
        }
    }
}

// Whether the first coordinate is no greater than the second, or greater by no more than the tolerance.
fn is_within(m: i64, n: i64, tolerance: u32) -> bool
    ensures { IsTrue result ↔ (m ≤ℤ (n +ℤ pos tolerance)) }
{
    m as i128 <= n as i128 + (tolerance as i128)
}

// With these points.
fn with_points(frame: Frame, points: &[Point]) -> Frame
    ensures { Grows frame result points.now }
{
    let mut grown = frame;
    for p in points {
        grown = grown.with(*p);
    }
    grown
}

// With the points of these rings.
fn with_rings(frame: Frame, rings: &[Ring]) -> Frame
    ensures { Grows frame result (ring_points rings.now) }
{
    let mut grown = frame;
    for ring in rings {
        grown = with_points(grown, ring.points.as_slice());
    }
    grown
}

// With the vertices of this polygon.
fn with_part(frame: Frame, part: &Part) -> Frame
    ensures { Grows frame result (part_points part.now) }
{
    let outer = with_points(frame, part.outer.points.as_slice());
    with_rings(outer, part.holes.as_slice())
}

/// The frame of the vertices of a shape. Looks at each once.
pub(crate) fn frame_of(shape: &Shape) -> Frame
    ensures { IsFramed shape.now result }
{
    let mut grown = Frame {
        west: i64::MAX,
        east: i64::MIN,
        south: i64::MAX,
        north: i64::MIN,
    };
    for part in shape.parts.as_slice() {
        grown = with_part(grown, part);
    }
    grown
}
