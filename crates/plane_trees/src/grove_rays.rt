//! Whether the ray from a position meets the edges of many rings an odd number of times.

ghost use Rattle.std.specs.Prelude.{◌≡◌, ◌∷◌, ◌%◌, ◌↔◌, IsTrue, All};
ghost use Rattle.plane_exact.specs.Figure.{AllNearby, crossings, ring_points, ring_edges};
ghost use Rattle.plane_trees.specs.Trees.{IsMeasured, IsClosedRing};
ghost use Rattle.plane_trees.specs.Groves.{IsSoundGrove};

use crate::groves::{Grove, grove_halves};
use crate::octagons::Sight;
use crate::ring_bands::RingBands;
use crate::runs::Asked;
use venue_types::Point;

/// Whether an odd number of the rings' edges meets the ray from the position. `closed` says that each ring is.
pub(crate) fn is_odd_at_grove(asked: &Asked, closed: bool, grove: Grove) -> bool
    requires close { AllNearby (asked.now.position ∷ ring_points grove.rings.now) }
    requires sound { IsSoundGrove asked.now.origin grove }
    requires measured { IsMeasured asked.now }
    requires closed { IsTrue closed → All IsClosedRing grove.rings.now }
    ensures { IsTrue result ↔ (crossings asked.now.position (ring_edges grove.entry.rings.now) % 2 ≡ 1) }
{
    if is_even_at_octagon(asked, closed, grove) {
        return false;
    }
    match grove_halves(grove) {
        None => is_odd_at_bands(asked.position, grove.rings),
        Some((front, back)) => is_odd_at_grove(asked, closed, front)
            != is_odd_at_grove(asked, closed, back),
    }
}

// Whether the octagon shows that the number is even: the ray passes it by, or runs through all of it and the rings are closed.
fn is_even_at_octagon(asked: &Asked, closed: bool, grove: Grove) -> bool
    requires sound { IsSoundGrove asked.now.origin grove }
    requires measured { IsMeasured asked.now }
    requires closed { IsTrue closed → All IsClosedRing grove.rings.now }
    ensures { IsTrue result → crossings asked.now.position (ring_edges grove.entry.rings.now) % 2 ≡ 0 }
{
    match grove.octagons {
        [] => false,
        [octagon, ..] => match octagon.sight(&asked.place) {
            Sight::Missed => true,
            Sight::Before => closed,
            Sight::Among => false,
        },
    }
}

/// Whether an odd number of the rings' edges meets the ray from `p`, ring by ring.
pub(crate) fn is_odd_at_bands(p: Point, rings: &[RingBands]) -> bool
    requires { AllNearby (p ∷ ring_points rings.now) }
    ensures { IsTrue result ↔ (crossings p (ring_edges rings.now) % 2 ≡ 1) }
{
    let mut odd = false;
    for ring in rings {
        if ring.inside(p) {
            odd = !odd;
        }
    }
    odd
}
