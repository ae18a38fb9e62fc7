//! Which rings cross themselves.

ghost use Rattle.std.specs.Prelude.{◌↔◌, IfOk, IsTrue};
ghost use Rattle.plane_exact.specs.Figure.{AllClose};
ghost use Rattle.ring_rules.specs.Rings.{CrossesItself};

use plane_trees::ring_crosses;
use std::alloc::Global;
use venue_types::{OutOfMemory, Ring};

/// Whether two edges of the ring cross.
#[tactic(auto, using(plane_exact::proofs::NearbyLemmas::all_nearby))]
pub(crate) fn crosses_itself(alloc: Global, ring: &Ring) -> Result<bool, OutOfMemory>
    requires { AllClose ring.now.points }
    ensures { IfOk result (λ crosses. IsTrue crosses ↔ CrossesItself ring.now) }
{
    ring_crosses(alloc, ring)
}
