//! Why a run of edges that lies to one side need not be looked at edge by edge.

ghost use Rattle.std.specs.Prelude.{◌≡◌, ℕ, ◌+◌, ◌*◌, ◌%◌, ℤ, pos, ◌+ℤ◌, ◌≤ℤ◌, ◌<ℤ◌, ◌↔◌, List, ◌∷◌, All, Contains};
ghost use Rattle.venue_types.specs.declared.point.Point.{Point};
ghost use Rattle.venue_types.specs.declared.point.Ring.{Ring};
ghost use Rattle.venue_types.specs.declared.point.Shape.{Shape};
ghost use Rattle.plane_exact.specs.Segment.{Crosses};
ghost use Rattle.plane_exact.specs.Sight.{OnOpenSegment};
ghost use Rattle.plane_exact.specs.Figure.{Edge, edges, edges_from, crossings, rings, vertices, IsInside, IsNearSome};
ghost use Rattle.plane_trees.specs.Line.{last_from, slant, IsBetween, IsClosed, Direction, coordinate, stretch, HaveCommonPoint};

/// A line whose points are all above a position, or none above it, or all to one side along a slant, meets the ray from it in
/// a number of edges that is known without them.
pub fn ray_law()
    ensures under { (p a : Point) (rest : List Point) → All (λ q. p.y <ℤ q.y) (a ∷ rest) → crossings p (edges_from a rest) ≡ 0 }
    ensures over { (p a : Point) (rest : List Point) → All (λ q. q.y ≤ℤ p.y) (a ∷ rest) → crossings p (edges_from a rest) ≡ 0 }
    ensures east { (k : ℤ) (p a : Point) (rest : List Point) → All (λ q. slant k q <ℤ slant k p) (a ∷ rest) → crossings p (edges_from a rest) ≡ 0 }
    ensures west { (k : ℤ) (p a : Point) (rest : List Point) → All (λ q. slant k p <ℤ slant k q) (a ∷ rest) → (crossings p (edges_from a rest) % 2 ≡ 1) ↔ IsBetween p a (last_from a rest) }
{}

/// A ring, all of whose points lie to the east of a position along a slant, meets the ray from it an even number of times. So
/// a position to the west of a shape of such rings is outside.
pub fn even_ray_law()
    ensures ring { (k : ℤ) (p : Point) (points : List Point) → IsClosed points → All (λ q. slant k p <ℤ slant k q) points → crossings p (edges points) % 2 ≡ 0 }
    ensures shape { (k : ℤ) (p : Point) (shape : Shape) → All (λ (r : Ring). IsClosed r.points) (rings shape) → All (λ q. slant k p <ℤ slant k q) (vertices shape) → ¬ IsInside p shape }
{}

/// A position near a line is near the range of the line's points in each direction.
pub fn near_line_law()
    ensures least { (way : Direction) (m : ℤ) (p a : Point) (rest : List Point) (t : ℕ) → All (λ q. m ≤ℤ coordinate way q) (a ∷ rest) → IsNearSome p t (edges_from a rest) → m ≤ℤ (coordinate way p +ℤ pos (stretch way * t)) }
    ensures greatest { (way : Direction) (m : ℤ) (p a : Point) (rest : List Point) (t : ℕ) → All (λ q. coordinate way q ≤ℤ m) (a ∷ rest) → IsNearSome p t (edges_from a rest) → coordinate way p ≤ℤ (m +ℤ pos (stretch way * t)) }
{}

/// Two segments that cross have a common point, so two lines whose points lie apart in some direction have no edges that cross.
pub fn crossing_law()
    ensures common { (a b c d : Point) → Crosses a b c d → HaveCommonPoint a b c d }
    ensures apart { (way : Direction) (m : ℤ) (a c : Point) (rest more : List Point) (one other : Edge) → All (λ q. coordinate way q ≤ℤ m) (a ∷ rest) → All (λ q. m <ℤ coordinate way q) (c ∷ more) → Contains (edges_from a rest) one → Contains (edges_from c more) other → ¬ Crosses one.from one.to other.from other.to }
{}

/// A position on a segment, strictly between its ends, lies in the range of the two in each direction.
pub fn on_segment_law()
    ensures least { (way : Direction) (m : ℤ) (a b v : Point) → OnOpenSegment a b v → m ≤ℤ coordinate way a → m ≤ℤ coordinate way b → m ≤ℤ coordinate way v }
    ensures greatest { (way : Direction) (m : ℤ) (a b v : Point) → OnOpenSegment a b v → coordinate way a ≤ℤ m → coordinate way b ≤ℤ m → coordinate way v ≤ℤ m }
{}
