//! What is near a shape's border.

ghost use Rattle.std.specs.Prelude.{◌≡◌, ◌∷◌, ◌≤◌, ◌↔◌, IsTrue, flat_map};
ghost use Rattle.plane_exact.specs.Figure.{AllNearby, vertices, part_edges, part_points, ring_points, ring_edges, edges, edges_from, IsNear, IsNearSome};

use crate::segments::near_edge;
use venue_types::{Part, Point, Ring, Shape};

/// Whether `p` is at most `t` nanodegrees from the border of the shape, its holes' borders among it. Looks at every edge.
pub fn near(p: Point, shape: &Shape, t: u32) -> bool
    requires close { AllNearby (p ∷ vertices shape.now) }
    requires tolerance { t ≤ 4000000 }
    ensures { IsTrue result ↔ IsNear p shape.now t }
{
    near_parts(p, shape.parts.as_slice(), t)
}

// Whether `p` is at most `t` from some edge of the polygons.
fn near_parts(p: Point, parts: &[Part], t: u32) -> bool
    requires close { AllNearby (p ∷ flat_map part_points parts.now) }
    requires tolerance { t ≤ 4000000 }
    ensures { IsTrue result ↔ IsNearSome p t (flat_map part_edges parts.now) }
{
    for part in parts {
        if near_part(p, part, t) {
            return true;
        }
    }
    false
}

// Whether `p` is at most `t` from some edge of the polygon.
fn near_part(p: Point, part: &Part, t: u32) -> bool
    requires close { AllNearby (p ∷ part_points part.now) }
    requires tolerance { t ≤ 4000000 }
    ensures { IsTrue result ↔ IsNearSome p t (part_edges part.now) }
{
    near_ring(p, &part.outer, t) || near_rings(p, part.holes.as_slice(), t)
}

// Whether `p` is at most `t` from some edge of the rings.
fn near_rings(p: Point, rings: &[Ring], t: u32) -> bool
    requires close { AllNearby (p ∷ ring_points rings.now) }
    requires tolerance { t ≤ 4000000 }
    ensures { IsTrue result ↔ IsNearSome p t (ring_edges rings.now) }
{
    for ring in rings {
        if near_ring(p, ring, t) {
            return true;
        }
    }
    false
}

/// Whether `p` is at most `t` nanodegrees from some edge of the ring alone. Stops at the first such edge.
pub fn near_ring(p: Point, ring: &Ring, t: u32) -> bool
    requires close { AllNearby (p ∷ ring.now.points) }
    requires tolerance { t ≤ 4000000 }
    ensures { IsTrue result ↔ IsNearSome p t (edges ring.now.points) }
{
    match ring.points.as_slice() {
        [] => false,
        [first, rest @ ..] => near_chain(p, *first, rest, t),
    }
}

/// Whether `p` is at most `t` from some edge of the line from `start` through `rest`.
pub fn near_chain(p: Point, start: Point, rest: &[Point], t: u32) -> bool
    requires close { AllNearby (p ∷ start ∷ rest.now) }
    requires tolerance { t ≤ 4000000 }
    ensures { IsTrue result ↔ IsNearSome p t (edges_from start rest.now) }
{
    let mut a = start;
    for b in rest {
        if near_edge(p, a, *b, t) {
            return true;
        }
        a = *b;
    }
    false
}
