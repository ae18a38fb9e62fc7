//! The area of a ring.

ghost use Rattle.std.specs.Prelude.{◌≡◌, ◌∷◌, pos};
ghost use Rattle.plane_exact.specs.Plane.{IsWithin};
ghost use Rattle.plane_exact.specs.Figure.{AllNearby, edges_from};
ghost use Rattle.plane_exact.specs.Corners.{doubled_area, cross_sum};

use crate::numbers::cross_product;
use venue_types::{Point, Ring};

/// Twice the area of the ring in square nanodegrees, below 0 where it runs clockwise.
pub fn doubled_area(ring: &Ring) -> i128
    requires { AllNearby ring.now.points }
    ensures { result ≡ doubled_area ring.now }
{
    bounded_area(ring)
}

/// `doubled_area`, with a bound on how great it is.
pub(crate) fn bounded_area(ring: &Ring) -> i128
    requires { AllNearby ring.now.points }
    ensures value { result ≡ doubled_area ring.now }
    ensures range { IsWithin 25000000000000000000000000000000000000 result (pos 0) }
{
    match ring.points.as_slice() {
        [] => 0,
        [first, rest @ ..] => sum_along(*first, rest),
    }
}

// The sum of the cross products of the edges of the line from `origin` through `rest`, counted from `origin`.
fn sum_along(origin: Point, rest: &[Point]) -> i128
    requires { AllNearby (origin ∷ rest.now) }
    ensures value { result ≡ cross_sum origin (edges_from origin rest.now) }
    ensures range { IsWithin 25000000000000000000000000000000000000 result (pos 0) }
{
    let mut sum = 0;
    let mut a = origin;
    for b in rest {
        sum += cross_product(origin, a, *b) as i128;
        a = *b;
    }
    sum
}
