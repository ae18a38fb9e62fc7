//! The walls of runs that stop a way.

ghost use Rattle.std.specs.Prelude.{◌≡◌, [], ◌∷◌, ◌≤◌, ◌↔◌, IsTrue, IfSome, IfNone};
ghost use Rattle.plane_exact.specs.Plane.{side};
ghost use Rattle.plane_exact.specs.Segment.{HaveOppositeSigns};
ghost use Rattle.plane_exact.specs.Figure.{AllNearby, edges_from};
ghost use Rattle.plane_exact.specs.Walls.{Stops};
ghost use Rattle.plane_exact.specs.declared.walls.Wall.TheVariants as wall;
ghost use Rattle.plane_trees.specs.Trees.{run_points, run_edges, IsSound, IsRoundWay, IsObstacle, IsFree};

use crate::octagons::Octagon;
use crate::runs::{Run, halves};
use plane_exact::{Wall, edge_stops, side, vertex_stops};
use venue_types::Point;

/// A straight way that runs are asked about, with its octagon, counted from their origin. No wall stops it that comes within the
/// tolerance of one of its ends.
#[derive(Clone, Copy)]
pub(crate) struct Way {
    pub start: Point,
    pub end: Point,
    pub tolerance: u32,
    pub origin: Point,
    pub octagon: Octagon,
}

// A point of a line, and on which side of a way it lies: above 0 to the left, below 0 to the right.
#[derive(Clone, Copy)]
struct Sided {
    point: Point,
    side: i128,
}

/// A wall of the run that stops the way, or nothing where none does.
pub(crate) fn wall_of_run(way: &Way, run: Run) -> Option<Wall>
    requires near { AllNearby (way.now.start ∷ way.now.end ∷ run_points run) }
    requires sound { IsSound way.now.origin run }
    requires round { IsRoundWay way.now }
    requires tolerance { way.now.tolerance ≤ 4000000 }
    ensures found { IfSome result (λ wall. IsObstacle (run_edges run.entry) (run_points run.entry) way.now.start way.now.end way.now.tolerance wall) }
    ensures none { IfNone result (IsFree (run_edges run.entry) (run_points run.entry) way.now.start way.now.end way.now.tolerance) }
{
    if passes_by(way, run) {
        return None;
    }
    match halves(run) {
        None => wall_of_chain(way, run.start, run.rest),
        Some((front, back)) => match wall_of_run(way, front) {
            Some(wall) => Some(wall),
            None => wall_of_run(way, back),
        },
    }
}

// Whether the way's octagon lies apart from that of the run, so that no wall of the run stops it.
fn passes_by(way: &Way, run: Run) -> bool
    requires sound { IsSound way.now.origin run }
    requires round { IsRoundWay way.now }
    ensures { IsTrue result → IsFree (run_edges run.entry) (run_points run.entry) way.now.start way.now.end way.now.tolerance }
{
    match run.octagons {
        [] => false,
        [octagon, ..] => way.octagon.is_apart(octagon),
    }
}

// A wall of the line from `start` through `rest`, looked at edge by edge.
fn wall_of_chain(way: &Way, start: Point, rest: &[Point]) -> Option<Wall>
    requires near { AllNearby (way.now.start ∷ way.now.end ∷ start ∷ rest.now) }
    requires tolerance { way.now.tolerance ≤ 4000000 }
    ensures found { IfSome result (λ wall. IsObstacle (edges_from start rest.now) (start ∷ rest.now) way.now.start way.now.end way.now.tolerance wall) }
    ensures none { IfNone result (IsFree (edges_from start rest.now) (start ∷ rest.now) way.now.start way.now.end way.now.tolerance) }
{
    if vertex_stops(start, way.start, way.end, way.tolerance) {
        return Some(Wall::Vertex(start));
    }
    wall_behind(way, start, rest)
}

// The same without the line's first point. On which side of the way a point lies is found once for the two edges that meet there.
fn wall_behind(way: &Way, start: Point, rest: &[Point]) -> Option<Wall>
    requires near { AllNearby (way.now.start ∷ way.now.end ∷ start ∷ rest.now) }
    requires tolerance { way.now.tolerance ≤ 4000000 }
    ensures found { IfSome result (λ wall. IsObstacle (edges_from start rest.now) rest.now way.now.start way.now.end way.now.tolerance wall) }
    ensures none { IfNone result (IsFree (edges_from start rest.now) rest.now way.now.start way.now.end way.now.tolerance) }
{
    let mut from = with_side(way, start);
    for point in rest {
        let to = with_side(way, *point);
        if let Some(wall) = wall_of_step(way, from, to) {
            return Some(wall);
        }
        from = to;
    }
    None
}

// The point, with the side of the way on which it lies.
fn with_side(way: &Way, point: Point) -> Sided
    requires { AllNearby (way.now.start ∷ way.now.end ∷ point ∷ []) }
    ensures point { result.point ≡ point }
    ensures side { result.side ≡ side way.now.start way.now.end result.point }
{
    Sided {
        point,
        side: side(way.start, way.end, point),
    }
}

// The edge, or its end.
fn wall_of_step(way: &Way, from: Sided, to: Sided) -> Option<Wall>
    requires near { AllNearby (way.now.start ∷ way.now.end ∷ from.point ∷ to.point ∷ []) }
    requires from { from.side ≡ side way.now.start way.now.end from.point }
    requires to { to.side ≡ side way.now.start way.now.end to.point }
    requires tolerance { way.now.tolerance ≤ 4000000 }
    ensures found { IfSome result (λ wall. IsObstacle (edges_from from.point (to.point ∷ [])) (to.point ∷ []) way.now.start way.now.end way.now.tolerance wall) }
    ensures none { IfNone result (IsFree (edges_from from.point (to.point ∷ [])) (to.point ∷ []) way.now.start way.now.end way.now.tolerance) }
{
    if step_stops(way, from, to) {
        return Some(Wall::Edge(from.point, to.point));
    }
    if end_stops(way, to) {
        return Some(Wall::Vertex(to.point));
    }
    None
}

// Whether the edge stops the way: only one whose ends lie on the two sides of it may.
fn step_stops(way: &Way, from: Sided, to: Sided) -> bool
    requires near { AllNearby (way.now.start ∷ way.now.end ∷ from.point ∷ to.point ∷ []) }
    requires from { from.side ≡ side way.now.start way.now.end from.point }
    requires to { to.side ≡ side way.now.start way.now.end to.point }
    requires tolerance { way.now.tolerance ≤ 4000000 }
    ensures { IsTrue result ↔ Stops (wall.Edge from.point to.point) way.now.start way.now.end way.now.tolerance }
{
    are_opposite(from.side, to.side)
        && edge_stops(from.point, to.point, way.start, way.end, way.tolerance)
}

// Whether the vertex stops the way: only one on its line may.
fn end_stops(way: &Way, to: Sided) -> bool
    requires near { AllNearby (way.now.start ∷ way.now.end ∷ to.point ∷ []) }
    requires to { to.side ≡ side way.now.start way.now.end to.point }
    requires tolerance { way.now.tolerance ≤ 4000000 }
    ensures { IsTrue result ↔ Stops (wall.Vertex to.point) way.now.start way.now.end way.now.tolerance }
{
    to.side == 0 && vertex_stops(to.point, way.start, way.end, way.tolerance)
}

// Whether one of the two is above 0 and the other below.
fn are_opposite(m: i128, n: i128) -> bool
    ensures { IsTrue result ↔ HaveOppositeSigns m n }
{
    if m < 0 { 0 < n } else { 0 < m && n < 0 }
}
