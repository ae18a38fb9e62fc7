//! Whether two places see each other, asked of a room made ready.

ghost use Rattle.std.specs.Prelude.{◌≡◌, ℕ, false, ◌∷◌, ◌*◌, ◌≤◌, ◌↔◌, ◌⊎◌, IsTrue, IfSome, MatchOption};
ghost use Rattle.venue_types.specs.declared.point.Shape.{Shape};
ghost use Rattle.plane_exact.specs.Plane.{IsInRange};
ghost use Rattle.plane_exact.specs.Figure.{AllNearby, vertices, IsInside, IsNear};
ghost use Rattle.plane_exact.specs.Scaled.{times, scaled};
ghost use Rattle.plane_exact.specs.Sight.{at_spot};
ghost use Rattle.plane_exact.specs.Seeing.{does_see};
ghost use Rattle.plane_exact.specs.Walls.{IsWallOf, Stops, wall_points};
ghost use Rattle.plane_exact.specs.declared.walls.Wall.{Wall};

use plane_exact::{Wall, middle_between, stops};
use plane_trees::Bands;
use venue_types::{Point, Spot};

/// Whether `a` and `b` see each other in a room, given as its shape with all numbers taken four times. The wall in `last` is asked
/// first: most pairs that don't see each other are stopped by the wall that stopped the pair before.
pub(crate) fn sees(bands: &Bands, a: Spot, b: Spot, t: u32, last: &mut Option<Wall>) -> bool
    requires near { AllNearby (times 2 (at_spot a) ∷ times 2 (at_spot b) ∷ vertices bands.now) }
    requires start { IsInRange (at_spot a) }
    requires end { IsInRange (at_spot b) }
    requires tolerance { t ≤ 1000000 }
    requires wall { IfSome last.old (λ wall. IsWallOf bands.now wall) }
    ensures wall { IfSome last.new (λ wall. IsWallOf bands.now wall) }
    ensures told { (shape : Shape) → bands.now ≡ scaled 4 shape → result ≡ does_see a b shape t }
{
    is_free(bands, doubled(a), doubled(b), 4 * t, last)
        && is_held(bands, middle_between(a, b), 4 * t)
}

// Whether no wall stops the way. A wall that does is kept in `last`.
fn is_free(bands: &Bands, from: Point, to: Point, t: u32, last: &mut Option<Wall>) -> bool
    requires near { AllNearby (from ∷ to ∷ vertices bands.now) }
    requires tolerance { t ≤ 4000000 }
    requires wall { IfSome last.old (λ wall. IsWallOf bands.now wall) }
    ensures wall { IfSome last.new (λ wall. IsWallOf bands.now wall) }
    ensures told { IsTrue result ↔ ((wall : Wall) → IsWallOf bands.now wall → ¬ Stops wall from to t) }
{
    if stops_again(*last, from, to, t) {
        return false;
    }
    match bands.wall_between(from, to, t) {
        None => true,
        Some(wall) => {
            *last = Some(wall);
            false
        }
    }
}

// Whether the wall that was kept stops this way too.
fn stops_again(kept: Option<Wall>, from: Point, to: Point, t: u32) -> bool
    requires near { IfSome kept (λ wall. AllNearby (from ∷ to ∷ wall_points wall)) }
    requires tolerance { t ≤ 4000000 }
    ensures { MatchOption kept (result ≡ false) (λ wall. IsTrue result ↔ Stops wall from to t) }
{
    match kept {
        None => false,
        Some(wall) => stops(wall, from, to, t),
    }
}

// Whether the point is in the shape or near its border.
fn is_held(bands: &Bands, p: Point, t: u32) -> bool
    requires near { AllNearby (p ∷ vertices bands.now) }
    requires tolerance { t ≤ 4000000 }
    ensures { IsTrue result ↔ (IsInside p bands.now ⊎ IsNear p bands.now t) }
{
    bands.inside(p) || bands.near(p, t)
}

// Where the spot lies among points of which all numbers are taken four times.
fn doubled(a: Spot) -> Point
    requires { IsInRange (at_spot a) }
    ensures { result ≡ times 2 (at_spot a) }
{
    Point {
        x: 2 * a.x,
        y: 2 * a.y,
    }
}
