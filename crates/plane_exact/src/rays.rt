//! What is inside a shape.

ghost use Rattle.std.specs.Prelude.{◌≡◌, ◌∷◌, ◌%◌, ◌↔◌, IsTrue, flat_map};
ghost use Rattle.plane_exact.specs.Plane.{IsNearby};
ghost use Rattle.plane_exact.specs.Figure.{AllNearby, vertices, part_edges, part_points, ring_points, ring_edges, edges, edges_from, meets_ray, crossings, IsInside};

use crate::numbers::cross_product;
use venue_types::{Part, Point, Ring, Shape};

/// Whether `p` is inside the shape: the ray from it toward greater longitude meets an odd number of edges. Of the positions on the
/// border of a polygon, those on a left or lower border are inside. Looks at every edge.
pub fn inside(p: Point, shape: &Shape) -> bool
    requires { AllNearby (p ∷ vertices shape.now) }
    ensures { IsTrue result ↔ IsInside p shape.now }
{
    is_odd_at_parts(p, shape.parts.as_slice())
}

// Whether an odd number of the polygons' edges meets the ray from `p`.
fn is_odd_at_parts(p: Point, parts: &[Part]) -> bool
    requires { AllNearby (p ∷ flat_map part_points parts.now) }
    ensures { IsTrue result ↔ (crossings p (flat_map part_edges parts.now) % 2 ≡ 1) }
{
    let mut odd = false;
    for part in parts {
        if is_odd_at_part(p, part) {
            odd = !odd;
        }
    }
    odd
}

// Whether an odd number of the polygon's edges meets the ray from `p`.
fn is_odd_at_part(p: Point, part: &Part) -> bool
    requires { AllNearby (p ∷ part_points part.now) }
    ensures { IsTrue result ↔ (crossings p (part_edges part.now) % 2 ≡ 1) }
{
    inside_ring(p, &part.outer) != is_odd_at_rings(p, part.holes.as_slice())
}

// Whether an odd number of the rings' edges meets the ray from `p`.
fn is_odd_at_rings(p: Point, rings: &[Ring]) -> bool
    requires { AllNearby (p ∷ ring_points rings.now) }
    ensures { IsTrue result ↔ (crossings p (ring_edges rings.now) % 2 ≡ 1) }
{
    let mut odd = false;
    for ring in rings {
        if inside_ring(p, ring) {
            odd = !odd;
        }
    }
    odd
}

/// Whether `p` is inside the ring alone: an odd number of its edges meets the ray from `p`. Looks at every edge.
pub fn inside_ring(p: Point, ring: &Ring) -> bool
    requires { AllNearby (p ∷ ring.now.points) }
    ensures { IsTrue result ↔ (crossings p (edges ring.now.points) % 2 ≡ 1) }
{
    match ring.points.as_slice() {
        [] => false,
        [first, rest @ ..] => is_odd_at_chain(p, *first, rest),
    }
}

/// Whether an odd number of the edges of the line from `start` through `rest` meets the ray from `p`.
pub fn is_odd_at_chain(p: Point, start: Point, rest: &[Point]) -> bool
    requires { AllNearby (p ∷ start ∷ rest.now) }
    ensures { IsTrue result ↔ (crossings p (edges_from start rest.now) % 2 ≡ 1) }
{
    let mut odd = false;
    let mut a = start;
    for b in rest {
        if meets(p, a, *b) {
            odd = !odd;
        }
        a = *b;
    }
    odd
}

/// Whether the edge from `a` to `b` meets the ray from `p` toward greater longitude.
pub(crate) fn meets(p: Point, a: Point, b: Point) -> bool
    requires edge { IsNearby a b }
    requires close { IsNearby a p }
    ensures { result ≡ meets_ray p (record { from = a; to = b }) }
{
    if a.y <= p.y {
        p.y < b.y && 0 < cross_product(a, b, p)
    } else {
        b.y <= p.y && cross_product(a, b, p) < 0
    }
}
