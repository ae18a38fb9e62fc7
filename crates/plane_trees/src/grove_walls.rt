//! The walls of many rings that stop a way.

ghost use Rattle.std.specs.Prelude.{◌∷◌, ◌≤◌, IsTrue, IfSome, IfNone};
ghost use Rattle.plane_exact.specs.Figure.{AllNearby, ring_points, ring_edges};
ghost use Rattle.plane_trees.specs.Trees.{IsRoundWay, IsObstacle, IsFree};
ghost use Rattle.plane_trees.specs.Groves.{IsSoundGrove};

use crate::groves::{Grove, grove_halves};
use crate::ring_bands::RingBands;
use crate::run_walls::Way;
use plane_exact::Wall;
use venue_types::Point;

/// A wall of the rings that stops the way, or nothing where none does.
pub(crate) fn wall_of_grove(way: &Way, grove: Grove) -> Option<Wall>
    requires near { AllNearby (way.now.start ∷ way.now.end ∷ ring_points grove.rings.now) }
    requires sound { IsSoundGrove way.now.origin grove }
    requires round { IsRoundWay way.now }
    requires tolerance { way.now.tolerance ≤ 4000000 }
    ensures found { IfSome result (λ wall. IsObstacle (ring_edges grove.entry.rings.now) (ring_points grove.entry.rings.now) way.now.start way.now.end way.now.tolerance wall) }
    ensures none { IfNone result (IsFree (ring_edges grove.entry.rings.now) (ring_points grove.entry.rings.now) way.now.start way.now.end way.now.tolerance) }
{
    if passes_grove_by(way, grove) {
        return None;
    }
    match grove_halves(grove) {
        None => wall_of_bands(way.start, way.end, way.tolerance, grove.rings),
        Some((front, back)) => match wall_of_grove(way, front) {
            Some(wall) => Some(wall),
            None => wall_of_grove(way, back),
        },
    }
}

// Whether the way's octagon lies apart from that of the rings, so that no wall of theirs stops it.
fn passes_grove_by(way: &Way, grove: Grove) -> bool
    requires sound { IsSoundGrove way.now.origin grove }
    requires round { IsRoundWay way.now }
    ensures { IsTrue result → IsFree (ring_edges grove.entry.rings.now) (ring_points grove.entry.rings.now) way.now.start way.now.end way.now.tolerance }
{
    match grove.octagons {
        [] => false,
        [octagon, ..] => way.octagon.is_apart(octagon),
    }
}

/// A wall of the rings that stops the way from `a` to `b`, or nothing where none does, ring by ring.
pub(crate) fn wall_of_bands(a: Point, b: Point, t: u32, rings: &[RingBands]) -> Option<Wall>
    requires near { AllNearby (a ∷ b ∷ ring_points rings.now) }
    requires tolerance { t ≤ 4000000 }
    ensures found { IfSome result (λ wall. IsObstacle (ring_edges rings.now) (ring_points rings.now) a b t wall) }
    ensures none { IfNone result (IsFree (ring_edges rings.now) (ring_points rings.now) a b t) }
{
    for ring in rings {
        if let Some(wall) = ring.wall_between(a, b, t) {
            return Some(wall);
        }
    }
    None
}
