//! Which rings have no area.

ghost use Rattle.std.specs.Prelude.{◌≡◌, ◌↔◌, IsTrue, pos};
ghost use Rattle.plane_exact.specs.Figure.{AllClose};
ghost use Rattle.plane_exact.specs.Corners.{doubled_area};

use plane_exact::doubled_area;
use venue_types::Ring;

/// Whether the area of the ring is 0.
#[tactic(auto, using(plane_exact::proofs::NearbyLemmas::all_nearby))]
pub(crate) fn has_no_area(ring: &Ring) -> bool
    requires { AllClose ring.now.points }
    ensures { IsTrue result ↔ (doubled_area ring.now ≡ pos 0) }
{
    doubled_area(ring) == 0
}
