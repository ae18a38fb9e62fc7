//! Whether a position is near the borders of many rings.

ghost use Rattle.std.specs.Prelude.{◌∷◌, ◌≤◌, ◌↔◌, IsTrue};
ghost use Rattle.plane_exact.specs.Figure.{AllNearby, IsNearSome, ring_points, ring_edges};
ghost use Rattle.plane_trees.specs.Trees.{IsMeasured};
ghost use Rattle.plane_trees.specs.Groves.{IsSoundGrove};

use crate::groves::{Grove, grove_halves};
use crate::ring_bands::RingBands;
use crate::runs::Asked;
use venue_types::Point;

/// Whether the position is at most `t` from some edge of the rings.
pub(crate) fn is_near_grove(asked: &Asked, grove: Grove, t: u32) -> bool
    requires close { AllNearby (asked.now.position ∷ ring_points grove.rings.now) }
    requires sound { IsSoundGrove asked.now.origin grove }
    requires measured { IsMeasured asked.now }
    requires tolerance { t ≤ 4000000 }
    ensures { IsTrue result ↔ IsNearSome asked.now.position t (ring_edges grove.entry.rings.now) }
{
    if !may_be_near_grove(asked, grove, t) {
        return false;
    }
    match grove_halves(grove) {
        None => is_near_bands(asked.position, grove.rings, t),
        Some((front, back)) => is_near_grove(asked, front, t) || is_near_grove(asked, back, t),
    }
}

// Whether the octagon of the rings comes within `t` of the position.
fn may_be_near_grove(asked: &Asked, grove: Grove, t: u32) -> bool
    requires sound { IsSoundGrove asked.now.origin grove }
    requires measured { IsMeasured asked.now }
    requires tolerance { t ≤ 4000000 }
    ensures { IsNearSome asked.now.position t (ring_edges grove.entry.rings.now) → IsTrue result }
{
    match grove.octagons {
        [] => true,
        [octagon, ..] => octagon.is_at(&asked.place, t),
    }
}

/// Whether `p` is at most `t` from some edge of the rings, ring by ring.
pub(crate) fn is_near_bands(p: Point, rings: &[RingBands], t: u32) -> bool
    requires close { AllNearby (p ∷ ring_points rings.now) }
    requires tolerance { t ≤ 4000000 }
    ensures { IsTrue result ↔ IsNearSome p t (ring_edges rings.now) }
{
    for ring in rings {
        if ring.near(p, t) {
            return true;
        }
    }
    false
}
