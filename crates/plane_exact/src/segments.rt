//! Sides, crossings and distances of segments.

ghost use Rattle.std.specs.Prelude.{◌≡◌, ◌*◌, ◌*ℤ◌, ◌≤ℤ◌, pos, ◌≤◌, ◌↔◌, IsTrue};
ghost use Rattle.plane_exact.specs.Plane.{IsNearby, side, square, squared_distance};
ghost use Rattle.plane_exact.specs.Segment.{Crosses, HaveOppositeSigns, IsNearEdge};

use crate::numbers::{
    cross_product, scalar_product, scaled_tolerance, square_between, tolerance_square, wide_square,
};
use venue_types::Point;

/// On which side of the line from `a` to `b` the position `p` lies: above 0 to its left, below 0 to its right, 0 on it.
/// In square nanodegrees, twice the area of the triangle `abp`.
pub fn side(a: Point, b: Point, p: Point) -> i128
    requires end { IsNearby a b }
    requires position { IsNearby a p }
    ensures { result ≡ side a b p }
{
    cross_product(a, b, p) as i128
}

/// Whether the segments `ab` and `cd` cross in a point that is no end of either.
pub fn crosses(a: Point, b: Point, c: Point, d: Point) -> bool
    requires first { IsNearby a b }
    requires second { IsNearby c d }
    requires to_start { IsNearby a c }
    requires to_end { IsNearby a d }
    requires from_end { IsNearby b c }
    ensures { IsTrue result ↔ Crosses a b c d }
{
    separates(a, b, c, d) && separates(c, d, a, b)
}

// Whether `c` and `d` lie on the two sides of the line through `a` and `b`.
fn separates(a: Point, b: Point, c: Point, d: Point) -> bool
    requires end { IsNearby a b }
    requires first { IsNearby a c }
    requires second { IsNearby a d }
    ensures { IsTrue result ↔ HaveOppositeSigns (side a b c) (side a b d) }
{
    let m = cross_product(a, b, c);
    let n = cross_product(a, b, d);
    if m < 0 { 0 < n } else { 0 < m && n < 0 }
}

/// Whether the distance of `p` to the segment `ab` is at most `t` nanodegrees.
pub fn near_edge(p: Point, a: Point, b: Point, t: u32) -> bool
    requires edge { IsNearby a b }
    requires from_start { IsNearby a p }
    requires from_end { IsNearby b p }
    requires tolerance { t ≤ 4000000 }
    ensures { IsTrue result ↔ IsNearEdge p a b t }
{
    let along = scalar_product(a, b, p);
    if along <= 0 {
        is_near_point(p, a, t)
    } else if square_between(a, b) <= along {
        is_near_point(p, b, t)
    } else {
        is_near_line(p, a, b, t)
    }
}

/// Whether the distance of `p` to `a` is at most `t`.
pub(crate) fn is_near_point(p: Point, a: Point, t: u32) -> bool
    requires close { IsNearby a p }
    requires tolerance { t ≤ 4000000 }
    ensures { IsTrue result ↔ squared_distance a p ≤ℤ pos (t * t) }
{
    square_between(a, p) <= tolerance_square(t)
}

// Whether the distance of `p` to the line through `a` and `b` is at most `t`, where `a` and `b` differ.
fn is_near_line(p: Point, a: Point, b: Point, t: u32) -> bool
    requires edge { IsNearby a b }
    requires close { IsNearby a p }
    requires tolerance { t ≤ 4000000 }
    ensures { IsTrue result ↔ square (side a b p) ≤ℤ (pos (t * t) *ℤ squared_distance a b) }
{
    wide_square(cross_product(a, b, p)) <= scaled_tolerance(t, square_between(a, b))
}
