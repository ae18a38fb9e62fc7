//! The walls of a shape, and what they stop.

ghost use Rattle.std.specs.Prelude.{[], ◌∷◌, ◌≤◌, ◌↔◌, IsTrue};
ghost use Rattle.plane_exact.specs.Plane.{IsNearby};
ghost use Rattle.plane_exact.specs.Figure.{AllNearby};
ghost use Rattle.plane_exact.specs.Sight.{OnOpenSegment, HasEndNear, HasEndNearEdge};
ghost use Rattle.plane_exact.specs.Walls.{Stops, wall_points};
ghost use Rattle.plane_exact.specs.declared.walls.Wall.TheVariants as wall;

use crate::numbers::{cross_product, scalar_product, square_between};
use crate::segments::{crosses, is_near_point, near_edge};
use venue_types::Point;

/// A wall of a shape.
#[derive(Clone, Copy, Debug, PartialEq, Eq)]
pub enum Wall {
    /// The line between two neighbouring points of a ring.
    Edge(Point, Point),
    /// A point of a ring.
    Vertex(Point),
}

/// Whether the wall stops the way from `a` to `b`: it is an edge that the way crosses, or a vertex on the way, and both `a` and `b`
/// are farther than `t` from it.
pub fn stops(wall: Wall, a: Point, b: Point, t: u32) -> bool
    requires near { AllNearby (a ∷ b ∷ wall_points wall) }
    requires tolerance { t ≤ 4000000 }
    ensures { IsTrue result ↔ Stops wall a b t }
{
    match wall {
        Wall::Edge(from, to) => edge_stops(from, to, a, b, t),
        Wall::Vertex(v) => vertex_stops(v, a, b, t),
    }
}

/// Whether the edge stops the way from `a` to `b`: the way crosses it, and both `a` and `b` are farther than `t` from it.
pub fn edge_stops(from: Point, to: Point, a: Point, b: Point, t: u32) -> bool
    requires near { AllNearby (a ∷ b ∷ from ∷ to ∷ []) }
    requires tolerance { t ≤ 4000000 }
    ensures { IsTrue result ↔ Stops (wall.Edge from to) a b t }
{
    crosses(a, b, from, to) && !has_end_near_edge(a, b, from, to, t)
}

/// Whether the vertex `v` stops the way from `a` to `b`: it lies on the way, and both `a` and `b` are farther than `t` from it.
pub fn vertex_stops(v: Point, a: Point, b: Point, t: u32) -> bool
    requires near { AllNearby (a ∷ b ∷ v ∷ []) }
    requires tolerance { t ≤ 4000000 }
    ensures { IsTrue result ↔ Stops (wall.Vertex v) a b t }
{
    is_on_open_segment(a, b, v) && !has_end_near(a, b, v, t)
}

// Whether `a` or `b` is at most `t` from the edge.
fn has_end_near_edge(a: Point, b: Point, from: Point, to: Point, t: u32) -> bool
    requires near { AllNearby (a ∷ b ∷ from ∷ to ∷ []) }
    requires tolerance { t ≤ 4000000 }
    ensures { IsTrue result ↔ HasEndNearEdge a b t (record { from = from; to = to }) }
{
    near_edge(a, from, to, t) || near_edge(b, from, to, t)
}

// Whether `a` or `b` is at most `t` from `v`.
fn has_end_near(a: Point, b: Point, v: Point, t: u32) -> bool
    requires start { IsNearby a v }
    requires end { IsNearby b v }
    requires tolerance { t ≤ 4000000 }
    ensures { IsTrue result ↔ HasEndNear a b t v }
{
    is_near_point(v, a, t) || is_near_point(v, b, t)
}

// Whether `v` lies on the segment `ab`, strictly between its ends.
fn is_on_open_segment(a: Point, b: Point, v: Point) -> bool
    requires end { IsNearby a b }
    requires point { IsNearby a v }
    ensures { IsTrue result ↔ OnOpenSegment a b v }
{
    if cross_product(a, b, v) != 0 {
        return false;
    }
    let along = scalar_product(a, b, v);
    0 < along && along < square_between(a, b)
}
