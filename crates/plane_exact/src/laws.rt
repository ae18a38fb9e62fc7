//! What the definitions of this crate mean.

ghost use Rattle.std.specs.Prelude.{◌≡◌, ℕ, ◌↔◌, ◌+◌, ◌≤◌};
ghost use Rattle.venue_types.specs.declared.point.Point.{Point};
ghost use Rattle.venue_types.specs.declared.point.Spot.{Spot};
ghost use Rattle.plane_exact.specs.Segment.{IsNearEdge, HasPositionNear};
ghost use Rattle.plane_exact.specs.Length.{IsLength};

/// A position is near an edge exactly where some position of the edge, the part m/n of the way along it, is within the tolerance.
pub fn near_edge_law()
    ensures { (p a b : Point) (t : ℕ) → IsNearEdge p a b t ↔ HasPositionNear p a b t }
{}

/// There is at most one length.
pub fn length_law()
    ensures { (a b : Spot) (kx ky c d : ℕ) → IsLength a b kx ky c → IsLength a b kx ky d → c ≡ d }
{}

/// The way back is as long.
pub fn turn_law()
    ensures { (a b : Spot) (kx ky c : ℕ) → IsLength a b kx ky c → IsLength b a kx ky c }
{}

/// No way in two steps is shorter than the way across, though each step is rounded up.
pub fn detour_law()
    ensures { (a b e : Spot) (kx ky c d f : ℕ) → IsLength a b kx ky c → IsLength b e kx ky d → IsLength a e kx ky f → f ≤ c + d }
{}
