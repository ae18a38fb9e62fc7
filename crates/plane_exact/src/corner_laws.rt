//! What areas and corners mean.

ghost use Rattle.std.specs.Prelude.{◌≡◌, ◌≤◌, ℤ, [], ◌∷◌, ◌++◌, List, All, Contains, length, ◌⊎◌, ◌↔◌};
ghost use Rattle.venue_types.specs.declared.point.Point.{Point};
ghost use Rattle.venue_types.specs.declared.point.Ring.{Ring};
ghost use Rattle.venue_types.specs.declared.point.Shape.{Shape};
ghost use Rattle.plane_exact.specs.Figure.{edges_from, all_edges, vertices};
ghost use Rattle.plane_exact.specs.Corners.{doubled_area, cross_sum, turns, Turn, IsCorner, ring_corners, corners};

/// The area of a ring that ends where it begins is the same counted from any point.
pub fn area_law()
    ensures { (origin first : Point) (between : List Point) → cross_sum origin (edges_from first (between ++ first ∷ [])) ≡ doubled_area (record { points = first ∷ (between ++ first ∷ []) }) }
{}

/// A corner of a ring is where it turns against the area, and a ring without such a turn has none.
pub fn corner_law()
    ensures turn { (area : ℤ) (ring : Ring) (v : Point) → Contains (ring_corners area ring) v ↔ ((turn : Turn) × Contains (turns ring) turn × IsCorner area turn × (turn.at ≡ v)) }
    ensures none { (area : ℤ) (ring : Ring) → All (λ turn. ¬ IsCorner area turn) (turns ring) → ring_corners area ring ≡ [] }
{}

/// Corners are positions of the rings, and there are no more of them; nor are there more edges than positions.
pub fn corner_count_law()
    ensures among { (shape : Shape) (v : Point) → Contains (corners shape) v → Contains (vertices shape) v }
    ensures few { (shape : Shape) → length (corners shape) ≤ length (vertices shape) }
    ensures edges { (shape : Shape) → length (all_edges shape) ≤ length (vertices shape) }
{}
