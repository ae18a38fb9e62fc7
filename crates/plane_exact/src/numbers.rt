//! Sums and products of coordinates' differences, whose range is known.

ghost use Rattle.std.specs.Prelude.{◌≡◌, ◌*◌, ◌≤◌, pos, ◌+ℤ◌, ◌-ℤ◌, ◌*ℤ◌, ◌≤ℤ◌};
ghost use Rattle.plane_exact.specs.Plane.{IsWithin, IsNearby, side, along, squared_distance, square};

use venue_types::Point;

// From a to b along the axis of longitude.
fn x_step(a: Point, b: Point) -> i64
    requires { IsNearby a b }
    ensures value { result ≡ b.x -ℤ a.x }
    ensures range { IsWithin 800000000 result (pos 0) }
{
    b.x - a.x
}

// From a to b along the axis of latitude.
fn y_step(a: Point, b: Point) -> i64
    requires { IsNearby a b }
    ensures value { result ≡ b.y -ℤ a.y }
    ensures range { IsWithin 800000000 result (pos 0) }
{
    b.y - a.y
}

// The product of two differences.
fn product(m: i64, n: i64) -> i64
    requires first { IsWithin 800000000 m (pos 0) }
    requires second { IsWithin 800000000 n (pos 0) }
    ensures value { result ≡ m *ℤ n }
    ensures range { IsWithin 640000000000000000 result (pos 0) }
{
    m * n
}

/// `side` in 64 bits.
pub fn cross_product(a: Point, b: Point, p: Point) -> i64
    requires first { IsNearby a b }
    requires second { IsNearby a p }
    ensures value { result ≡ side a b p }
    ensures range { IsWithin 1280000000000000000 result (pos 0) }
{
    let right = product(x_step(a, b), y_step(a, p));
    let left = product(y_step(a, b), x_step(a, p));
    right - left
}

/// The scalar product of b - a and p - a.
pub fn scalar_product(a: Point, b: Point, p: Point) -> i64
    requires first { IsNearby a b }
    requires second { IsNearby a p }
    ensures value { result ≡ along a b p }
    ensures range { IsWithin 1280000000000000000 result (pos 0) }
{
    let x = product(x_step(a, b), x_step(a, p));
    let y = product(y_step(a, b), y_step(a, p));
    x + y
}

/// The square of the distance from a to b.
pub fn square_between(a: Point, b: Point) -> i64
    requires { IsNearby a b }
    ensures value { result ≡ squared_distance a b }
    ensures range { IsWithin 1280000000000000000 result (pos 0) }
{
    let x = x_step(a, b);
    let y = y_step(a, b);
    product(x, x) + product(y, y)
}

/// The square of a cross product.
pub fn wide_square(n: i64) -> i128
    requires { IsWithin 1280000000000000000 n (pos 0) }
    ensures { result ≡ square n }
{
    let wide = n as i128;
    wide * wide
}

/// The square of a tolerance.
pub fn tolerance_square(t: u32) -> i64
    requires { t ≤ 4000000 }
    ensures value { result ≡ pos (t * t) }
    ensures range { t * t ≤ 16000000000000 }
{
    t as i64 * t as i64
}

/// The square of a tolerance, times the square of a distance.
pub fn scaled_tolerance(t: u32, length: i64) -> i128
    requires tolerance { t ≤ 4000000 }
    requires range { IsWithin 1280000000000000000 length (pos 0) }
    ensures { result ≡ pos (t * t) *ℤ length }
{
    tolerance_square(t) as i128 * length as i128
}
