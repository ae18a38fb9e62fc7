//! What sight and its parts mean.

ghost use Rattle.std.specs.Prelude.{◌≡◌, ℕ, ◌*◌, ◌<◌, ◌↔◌, ◌⊎◌, IsTrue, map};
ghost use Rattle.venue_types.specs.declared.point.Point.{Point};
ghost use Rattle.venue_types.specs.declared.point.Spot.{Spot};
ghost use Rattle.venue_types.specs.declared.point.Shape.{Shape};
ghost use Rattle.plane_exact.specs.declared.walls.Wall.{Wall};
ghost use Rattle.plane_exact.specs.Segment.{Crosses, IsNearEdge};
ghost use Rattle.plane_exact.specs.Figure.{all_edges, vertices, IsInside, IsNear};
ghost use Rattle.plane_exact.specs.Scaled.{times, scaled, scaled_edge};
ghost use Rattle.plane_exact.specs.Sight.{Sight, OnOpenSegment, HasEndNear, at_spot, middle_of};
ghost use Rattle.plane_exact.specs.Walls.{IsWallOf, Stops};
ghost use Rattle.plane_exact.specs.Seeing.{does_see};

/// Sight as it is computed is sight.
pub fn sight_law()
    ensures { (a b : Spot) (shape : Shape) (t : ℕ) → IsTrue (does_see a b shape t) ↔ Sight a b shape t }
{}

/// Who is seen sees.
pub fn sight_turn_law()
    ensures { (a b : Spot) (shape : Shape) (t : ℕ) → Sight a b shape t → Sight b a shape t }
{}

/// Where all numbers are taken k times, everything is as it was.
pub fn scale_law()
    ensures edges { (k : ℕ) (shape : Shape) → all_edges (scaled k shape) ≡ map (scaled_edge k) (all_edges shape) }
    ensures points { (k : ℕ) (shape : Shape) → vertices (scaled k shape) ≡ map (times k) (vertices shape) }
    ensures crossing { (k : ℕ) (a b c d : Point) → 0 < k → Crosses (times k a) (times k b) (times k c) (times k d) ↔ Crosses a b c d }
    ensures open_segment { (k : ℕ) (a b v : Point) → 0 < k → OnOpenSegment (times k a) (times k b) (times k v) ↔ OnOpenSegment a b v }
    ensures near_edge { (k t : ℕ) (p a b : Point) → 0 < k → IsNearEdge (times k p) (times k a) (times k b) (k * t) ↔ IsNearEdge p a b t }
    ensures near_end { (k t : ℕ) (a b v : Point) → 0 < k → HasEndNear (times k a) (times k b) (k * t) (times k v) ↔ HasEndNear a b t v }
    ensures near { (k t : ℕ) (p : Point) (shape : Shape) → 0 < k → IsNear (times k p) (scaled k shape) (k * t) ↔ IsNear p shape t }
    ensures inside { (k : ℕ) (p : Point) (shape : Shape) → 0 < k → IsInside (times k p) (scaled k shape) ↔ IsInside p shape }
{}

/// Sight, asked of one shape: that of which all numbers are taken four times.
pub fn sees_law()
    ensures { (a b : Spot) (shape : Shape) (t : ℕ) → Sight a b shape t ↔ (((wall : Wall) → IsWallOf (scaled 4 shape) wall → ¬ Stops wall (times 2 (at_spot a)) (times 2 (at_spot b)) (4 * t)) × (IsInside (middle_of a b) (scaled 4 shape) ⊎ IsNear (middle_of a b) (scaled 4 shape) (4 * t))) }
{}
