//! Who sees whom in a shape, with a look at every wall.

ghost use Rattle.std.specs.Prelude.{◌≡◌, [], ◌∷◌, ◌≤◌, ◌↔◌, IsTrue, All, flat_map};
ghost use Rattle.plane_exact.specs.Plane.{IsInRange};
ghost use Rattle.plane_exact.specs.Figure.{AllNearby, vertices, part_edges, part_points, ring_edges, ring_points, edges, edges_from};
ghost use Rattle.plane_exact.specs.Scaled.{times, scaled};
ghost use Rattle.plane_exact.specs.Sight.{Sight, at_spot, middle_of};
ghost use Rattle.plane_exact.specs.Looks.{FitsWay, way_between, edge_look, vertex_look, blank_look, joined_look, look_at, is_free};

use crate::rays::meets;
use crate::scaling::times;
use crate::segments::near_edge;
use crate::walls::{Wall, stops};
use venue_types::{Part, Point, Ring, Shape, Spot};

// The way between two spots, among points of which all numbers are taken four times.
#[derive(Clone, Copy)]
struct Way {
    from: Point,
    to: Point,
    middle: Point,
    tolerance: u32,
}

// What a look at some walls tells of a way.
#[derive(Clone, Copy)]
struct Look {
    // Some wall stops it.
    stopped: bool,
    // An odd number of edges meets the ray from its middle.
    odd: bool,
    // Some edge is near its middle.
    near: bool,
}

/// Whether `a` and `b` see each other in the shape: along the straight line between them, where `t`, in nanodegrees, is how far
/// off a wall a place may be that stands at it. Looks at every wall.
pub fn sight(a: Spot, b: Spot, shape: &Shape, t: u32) -> bool
    requires near { AllNearby (times 2 (at_spot a) ∷ times 2 (at_spot b) ∷ vertices (scaled 4 shape.now)) }
    requires range { All IsInRange (at_spot a ∷ at_spot b ∷ vertices shape.now) }
    requires tolerance { t ≤ 1000000 }
    ensures { IsTrue result ↔ Sight a b shape.now t }
{
    shows_sight(look_at_parts(way_of(a, b, t), shape.parts.as_slice()))
}

// Whether the look shows a free way whose middle is in the shape or near it.
fn shows_sight(look: Look) -> bool
    ensures { result ≡ is_free look }
{
    !look.stopped && (look.odd || look.near)
}

// The way from `a` to `b`.
fn way_of(a: Spot, b: Spot, t: u32) -> Way
    requires start { IsInRange (at_spot a) }
    requires end { IsInRange (at_spot b) }
    requires tolerance { t ≤ 1000000 }
    ensures { result ≡ way_between a b t }
{
    Way {
        from: times(Point { x: a.x, y: a.y }, 2),
        to: times(Point { x: b.x, y: b.y }, 2),
        middle: middle_between(a, b),
        tolerance: 4 * t,
    }
}

/// The middle of the way from `a` to `b`, where it lies among points of which all numbers are taken four times.
pub fn middle_between(a: Spot, b: Spot) -> Point
    requires start { IsInRange (at_spot a) }
    requires end { IsInRange (at_spot b) }
    ensures { result ≡ middle_of a b }
{
    Point {
        x: a.x + b.x,
        y: a.y + b.y,
    }
}

// What the walls of the polygons tell.
fn look_at_parts(way: Way, parts: &[Part]) -> Look
    requires { FitsWay way (flat_map part_points parts.now) }
    ensures { result ≡ look_at way (flat_map part_edges parts.now) (flat_map part_points parts.now) }
{
    let mut look = blank();
    for part in parts {
        look = joined(look, look_at_part(way, part));
    }
    look
}

// What the walls of the polygon tell.
fn look_at_part(way: Way, part: &Part) -> Look
    requires { FitsWay way (part_points part.now) }
    ensures { result ≡ look_at way (part_edges part.now) (part_points part.now) }
{
    joined(
        look_at_ring(way, &part.outer),
        look_at_rings(way, part.holes.as_slice()),
    )
}

// What the walls of the rings tell.
fn look_at_rings(way: Way, rings: &[Ring]) -> Look
    requires { FitsWay way (ring_points rings.now) }
    ensures { result ≡ look_at way (ring_edges rings.now) (ring_points rings.now) }
{
    let mut look = blank();
    for ring in rings {
        look = joined(look, look_at_ring(way, ring));
    }
    look
}

// What the walls of the ring tell.
fn look_at_ring(way: Way, ring: &Ring) -> Look
    requires { FitsWay way ring.now.points }
    ensures { result ≡ look_at way (edges ring.now.points) ring.now.points }
{
    match ring.points.as_slice() {
        [] => blank(),
        [first, rest @ ..] => look_at_chain(way, *first, rest),
    }
}

// What the edges and points of the line from `start` through `rest` tell.
fn look_at_chain(way: Way, start: Point, rest: &[Point]) -> Look
    requires { FitsWay way (start ∷ rest.now) }
    ensures { result ≡ look_at way (edges_from start rest.now) (start ∷ rest.now) }
{
    let mut look = look_at_point(way, start);
    let mut a = start;
    for b in rest {
        look = joined(look, look_at_step(way, a, *b));
        a = *b;
    }
    look
}

// What the edge from `a` to `b` tells, and the point `b`.
fn look_at_step(way: Way, a: Point, b: Point) -> Look
    requires { FitsWay way (a ∷ b ∷ []) }
    ensures { result ≡ look_at way (record { from = a; to = b } ∷ []) (b ∷ []) }
{
    let end = times(b, 4);
    joined(
        look_at_edge(way, times(a, 4), end),
        look_at_vertex(way, end),
    )
}

// What the point tells.
fn look_at_point(way: Way, v: Point) -> Look
    requires { FitsWay way (v ∷ []) }
    ensures { result ≡ look_at way [] (v ∷ []) }
{
    look_at_vertex(way, times(v, 4))
}

// What the edge from `p` to `q` tells, among points of which all numbers are taken four times.
fn look_at_edge(way: Way, p: Point, q: Point) -> Look
    requires near { AllNearby (way.middle ∷ way.from ∷ way.to ∷ p ∷ q ∷ []) }
    requires tolerance { way.tolerance ≤ 4000000 }
    ensures { result ≡ edge_look way (record { from = p; to = q }) }
{
    Look {
        stopped: stops(Wall::Edge(p, q), way.from, way.to, way.tolerance),
        odd: meets(way.middle, p, q),
        near: near_edge(way.middle, p, q, way.tolerance),
    }
}

// What the vertex tells, among points of which all numbers are taken four times.
fn look_at_vertex(way: Way, v: Point) -> Look
    requires near { AllNearby (way.from ∷ way.to ∷ v ∷ []) }
    requires tolerance { way.tolerance ≤ 4000000 }
    ensures { result ≡ vertex_look way v }
{
    Look {
        stopped: stops(Wall::Vertex(v), way.from, way.to, way.tolerance),
        odd: false,
        near: false,
    }
}

// A look at nothing.
fn blank() -> Look
    ensures { result ≡ blank_look }
{
    Look {
        stopped: false,
        odd: false,
        near: false,
    }
}

// What two looks tell together.
fn joined(one: Look, more: Look) -> Look
    ensures { result ≡ joined_look one more }
{
    Look {
        stopped: one.stopped || more.stopped,
        odd: one.odd != more.odd,
        near: one.near || more.near,
    }
}
