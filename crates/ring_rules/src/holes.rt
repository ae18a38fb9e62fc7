//! Which holes leave the border of their polygon.

ghost use Rattle.std.specs.Prelude.{◌≡◌, ◌↔◌, ◌++◌, ◌∷◌, IsTrue, Any};
ghost use Rattle.plane_exact.specs.Figure.{AllClose};
ghost use Rattle.ring_rules.specs.Rings.{as_hole, LeavesBorder};
ghost use Rattle.ring_rules.specs.Judged.{IsOutside};

use plane_trees::RingBands;
use venue_types::{Point, Ring};

/// Whether a vertex of the hole is neither inside the border nor on it.
pub(crate) fn leaves_border(hole: &Ring, border: &RingBands) -> bool
    requires { AllClose (hole.now.points ++ border.now.points) }
    ensures { IsTrue result ↔ LeavesBorder (as_hole border.now hole.now) }
{
    has_outside(hole.points.as_slice(), border)
}

// Whether one of the positions is neither inside the ring nor on it.
fn has_outside(points: &[Point], ring: &RingBands) -> bool
    requires { AllClose (points.now ++ ring.now.points) }
    ensures { IsTrue result ↔ Any (IsOutside ring.now) points.now }
{
    for p in points {
        if is_outside(*p, ring) {
            return true;
        }
    }
    false
}

#[tactic(auto, using(plane_exact::proofs::NearbyLemmas::all_nearby))]
fn is_outside(p: Point, ring: &RingBands) -> bool
    requires { AllClose (p ∷ ring.now.points) }
    ensures { IsTrue result ↔ IsOutside ring.now p }
{
    !ring.inside(p) && !ring.near(p, 0)
}
